// The write of one field of control or of an advanced control: the register's next content, stored in the BAR capture that tBIR names.
ghost use Rattle.std.specs.Prelude.{◌≡◌};
ghost use Rattle.words.specs.Told.{done, passes};
ghost use Rattle.capture.specs.Capture.{captured};
ghost use Rattle.uncore_writes.specs.ControlWrite.{write_number, left};

use capture::places::Capture;
use tpmi_features::instances::instance_place;
use tpmi_store::store::store;
use uncore_clusters::clusters::place_in;
use uncore_permits::control_fields::next_word;
use words::answers::Refusal;
use words::bytes::u64_at;

// A refused write changes neither capture; a permitted one the 8 bytes of one register in one of the two.
pub fn write(
    config: &[u8],
    lo: u8,
    low: &mut [u8],
    hi: u8,
    high: &mut [u8],
    i: u64,
    die: u64,
    n: u64,
    r: u64,
    which: u64,
    value: u64,
) -> Result<(), Refusal>
    ensures answer { done result ≡ passes (write_number (captured config.now lo low.old hi high.old) i die n r which value) }
    ensures in_low { low.new ≡ (left (captured config.now lo low.old hi high.old) i die n r which value).low }
    ensures in_high { high.new ≡ (left (captured config.now lo low.old hi high.old) i die n r which value).high }
{
    let seen = Capture {
        config,
        lo,
        low,
        hi,
        high,
    };
    let p = instance_place(seen, 2, i)?;
    let at = place_in(seen.part(p), die, n, r)?;
    let held = u64_at(seen.part(p), at as usize);
    let x = next_word(r, which, held, value)?;
    store(p, at as usize, x, lo, low, hi, high);
    Ok(())
}
