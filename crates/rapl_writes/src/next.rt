// What a limit's register holds next, after a write of one field: in the bytes of an instance, and over a capture. Nothing is stored.
ghost use Rattle.std.specs.Prelude.{◌≡◌};
ghost use Rattle.capture.specs.Capture.{capture_of};
ghost use Rattle.words.specs.Told.{told};
ghost use Rattle.rapl_writes.specs.Next.{next_of, next_for};

use capture::places::Capture;
use fields::bits::with_field;
use rapl_domains::domains::domain_in;
use rapl_permits::permits::{refusal, span_of};
use tpmi_features::instances::instance_place;
use words::answers::Refusal;
use words::bytes::u64_at;

// The whole instance is handed in, not the register alone: what is stored may come to hang on other registers of the domain.
pub fn next_in(s: &[u8], n: u64, limit: u64, which: u64, value: u64) -> Result<u64, Refusal>
    ensures answer { told result ≡ next_of s.now n limit which value }
{
    let h = domain_in(s, n)?;
    // There is no such limit, and limit + 1 could wrap.
    if 2 < limit {
        return Err(Refusal(27));
    }
    let at = n as usize * 128 + (limit as usize + 1) * 8;
    let x = u64_at(s, at);
    refusal(h, limit, which, value, x)?;
    let f = span_of(which);
    Ok(with_field(x, f.at, f.width, value))
}

// The next content of the register of limit 1 or 2 of domain n.
pub fn next(
    capture: Capture,
    i: u64,
    n: u64,
    limit: u64,
    which: u64,
    value: u64,
) -> Result<u64, Refusal>
    ensures answer { told result ≡ next_for (capture_of capture.entry) i n limit which value }
{
    let p = instance_place(capture, 0, i)?;
    next_in(capture.part(p), n, limit, which, value)
}
