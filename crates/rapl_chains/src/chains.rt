// The parent chain of a domain, in the bytes of an instance: followed to its root, its steps counted.
ghost use Rattle.std.specs.Prelude.{◌≡◌, ◌≤◌};
ghost use Rattle.words.specs.Told.{told};
ghost use Rattle.rapl_chains.specs.Chains.{climb_from, chain_of};

use rapl_domains::domains::domain_in;
use words::answers::Refusal;

// The steps from domain n to its root, counted on from those that are gone: so many are left of 255.
#[tactic(auto, using(crate::proofs::ChainLaws::climb_ways))]
fn climb(s: &[u8], n: u64, left: u64) -> Result<u64, Refusal>
    requires { left ≤ 255 }
    ensures answer { told result ≡ climb_from s.now left n }
{
    let Ok(h) = domain_in(s, n) else {
        return Err(Refusal(24));
    };
    if h.parent == n {
        return Ok(255 - left);
    }
    if left == 0 {
        return Err(Refusal(24));
    }
    climb(s, h.parent, left - 1)
}

// The length of the chain; the domain's own refusal comes before 24.
#[tactic(auto, using(crate::proofs::ChainLaws::chain_ways))]
pub fn chain_in(s: &[u8], n: u64) -> Result<u64, Refusal>
    ensures answer { told result ≡ chain_of s.now n }
{
    domain_in(s, n)?;
    climb(s, n, 255)
}
