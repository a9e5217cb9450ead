// The write of one field of a limit: the register's next content, stored in the BAR capture that tBIR names.
ghost use Rattle.std.specs.Prelude.{◌≡◌};
ghost use Rattle.words.specs.Told.{done, passes};
ghost use Rattle.capture.specs.Capture.{captured};
ghost use Rattle.rapl_writes.specs.Write.{write_number, left};

use crate::next::next_in;
use capture::places::Capture;
use tpmi_features::instances::instance_place;
use tpmi_store::store::store;
use words::answers::Refusal;

// A refused write changes neither capture; a permitted one the 8 bytes of one register in one of the two.
pub fn write(
    config: &[u8],
    lo: u8,
    low: &mut [u8],
    hi: u8,
    high: &mut [u8],
    i: u64,
    n: u64,
    limit: u64,
    which: u64,
    value: u64,
) -> Result<(), Refusal>
    ensures answer { done result ≡ passes (write_number (captured config.now lo low.old hi high.old) i n limit which value) }
    ensures in_low { low.new ≡ (left (captured config.now lo low.old hi high.old) i n limit which value).low }
    ensures in_high { high.new ≡ (left (captured config.now lo low.old hi high.old) i n limit which value).high }
{
    let seen = Capture {
        config,
        lo,
        low,
        hi,
        high,
    };
    let p = instance_place(seen, 0, i)?;
    let x = next_in(seen.part(p), n, limit, which, value)?;
    let offset = n as usize * 128 + (limit as usize + 1) * 8;
    store(p, offset, x, lo, low, hi, high);
    Ok(())
}
