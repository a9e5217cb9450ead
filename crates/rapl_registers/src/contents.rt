// A register of a domain, in the bytes of an instance: 17, then 26, after the domain's lookup.
ghost use Rattle.std.specs.Prelude.{◌≡◌};
ghost use Rattle.words.specs.Told.{told};
ghost use Rattle.rapl_registers.specs.Contents.{present, content_of};

use fields::bits::field;
use rapl_domains::domains::domain_in;
use words::answers::Refusal;
use words::bytes::u64_at;

// Register r is present: 0, 1 and 9 always, the others by their bit of FLAGS, which has sixteen.
#[tactic(auto, unfolding(crate::specs::Contents::present))]
pub fn present(flags: u64, r: u64) -> bool
    ensures answer { result ≡ present flags r }
{
    matches!(r, 0 | 1 | 9) || (r <= 15 && field(flags, r as u32, 1) == 1)
}

// The content of register r of domain n.
#[tactic(auto, using(crate::proofs::ContentLaws::content_ways), unfolding(crate::specs::Contents::register_at))]
pub fn register_in(s: &[u8], n: u64, r: u64) -> Result<u64, Refusal>
    ensures answer { told result ≡ content_of s.now n r }
{
    let h = domain_in(s, n)?;
    if 15 < r {
        return Err(Refusal(17));
    }
    if !present(h.flags, r) {
        return Err(Refusal(26));
    }
    Ok(u64_at(s, n as usize * 128 + r as usize * 8))
}
