// What a register of a cluster holds next, after a write of one field: in the bytes of an instance, and over a capture. Nothing is stored.
ghost use Rattle.std.specs.Prelude.{◌≡◌};
ghost use Rattle.capture.specs.Capture.{capture_of};
ghost use Rattle.words.specs.Told.{told};
ghost use Rattle.uncore_writes.specs.ControlNext.{next_of, next_for};

use capture::places::Capture;
use tpmi_features::instances::instance_place;
use uncore_clusters::clusters::place_in;
use uncore_permits::control_fields::next_word;
use words::answers::Refusal;
use words::bytes::u64_at;

// In the bytes of an instance: 17, 14, then 27, 17, 28, or what register r of local cluster n holds next.
pub fn next_in(s: &[u8], die: u64, n: u64, r: u64, which: u64, value: u64) -> Result<u64, Refusal>
    ensures answer { told result ≡ next_of s.now die n r which value }
{
    let at = place_in(s, die, n, r)?;
    next_word(r, which, u64_at(s, at as usize), value)
}

// The next content of register r of local cluster n.
pub fn next(
    capture: Capture,
    i: u64,
    die: u64,
    n: u64,
    r: u64,
    which: u64,
    value: u64,
) -> Result<u64, Refusal>
    ensures answer { told result ≡ next_for (capture_of capture.entry) i die n r which value }
{
    let p = instance_place(capture, 2, i)?;
    next_in(capture.part(p), die, n, r, which, value)
}
