// Fabric clusters in the bytes of an instance: their number, a cluster's global fabric number, and the six registers by their numbers: 0 the
// header, 1 the cluster offsets, and of each cluster 2 status, 3 control, 4 and 5 the advanced controls.
ghost use Rattle.std.specs.Prelude.{◌≡◌, cond, [], ◌∷◌, ◌≤◌};
ghost use Rattle.words.specs.Answers.{refused, gives};
ghost use Rattle.words.specs.Told.{told, done};
ghost use Rattle.uncore_clusters.specs.Clusters.{ones_in, clusters_in, fabric_of, start_in, unnamed, unread, place_of, past, place_in, content_in};

use fields::bits::field;
use uncore_registers::header::Header;
use words::answers::Refusal;
use words::bytes::u64_at;

// The registers by name, and no enum of six: a call takes any number, and refuses the others with 17.
pub const HEADER: u64 = 0;

pub const OFFSETS: u64 = 1;

pub const STATUS: u64 = 2;

pub const CONTROL: u64 = 3;

pub const ADVANCED_1: u64 = 4;

pub const ADVANCED_2: u64 = 5;

// How many clusters a mask names: a one for each.
#[tactic(auto, using(crate::proofs::ClusterLaws::ones_counted))]
pub fn count_of(mask: u64) -> u64
    ensures answer { result ≡ ones_in mask }
{
    u64::from(mask.count_ones())
}

// How many clusters the header of an instance names.
#[tactic(auto, unfolding(crate::specs::Clusters::clusters_in))]
pub fn clusters_in(s: &[u8]) -> u64
    ensures answer { result ≡ clusters_in s.now }
{
    count_of(Header::from(u64_at(s, 0)).mask)
}

// The global fabric number of local cluster n of a die; 17 where there is no such die or cluster.
#[tactic(auto, using(crate::proofs::ClusterLaws::fabric_ways))]
pub fn fabric_in(s: &[u8], die: u64, n: u64) -> Result<u64, Refusal>
    ensures answer { told result ≡ fabric_of s.now die n }
{
    let clusters = clusters_in(s);
    if 255 < die || clusters <= n {
        return Err(Refusal(17));
    }
    Ok(die * clusters + n)
}

// 17 where no register has the number, or there is no such die, or the register is a cluster's and there is no such cluster.
#[tactic(auto, unfolding(crate::specs::Clusters::unnamed))]
fn named(s: &[u8], die: u64, n: u64, r: u64) -> Result<(), Refusal>
    ensures answer { done result ≡ cond (unnamed s.now die n r) (refused 17) (gives []) }
{
    // Header and offsets are no cluster's.
    if ADVANCED_2 < r || 255 < die || (STATUS <= r && clusters_in(s) <= n) {
        return Err(Refusal(17));
    }
    Ok(())
}

// 14 where the 8 bytes at a place end past the instance.
#[tactic(auto, unfolding(crate::specs::Clusters::past))]
fn inside(s: &[u8], at: u64) -> Result<u64, Refusal>
    ensures answer { told result ≡ cond (past s.now at) (refused 14) (gives (at ∷ [])) }
{
    let size = s.len() as u64;
    if size < 8 || size - 8 < at {
        return Err(Refusal(14));
    }
    Ok(at)
}

// Where the registers of local cluster n start; the offset register has eight bytes.
#[tactic(auto, using(crate::proofs::ClusterLaws::start_ways), unfolding(crate::specs::Clusters::start_in))]
fn start_in(s: &[u8], n: u64) -> u64
    ensures answer { result ≡ start_in s.now n }
{
    if 7 < n {
        return 0;
    }
    field(u64_at(s, 8), n as u32 * 8, 8) * 8
}

// Where a register stands, 14 where the offset register, which says so for a cluster's, ends past the instance.
#[tactic(auto, using(crate::proofs::ClusterLaws::stands_ways))]
fn stands(s: &[u8], n: u64, r: u64) -> Result<u64, Refusal>
    requires { r ≤ 5 }
    ensures answer { told result ≡ cond (unread s.now r) (refused 14) (gives (place_of s.now n r ∷ [])) }
{
    if r < STATUS {
        return Ok(r * 8);
    }
    inside(s, 8)?;
    Ok(start_in(s, n) + (r - STATUS) * 8)
}

// The place of register r in the instance: 17, 14, or the place.
#[tactic(auto, using(crate::proofs::ClusterLaws::place_ways))]
pub fn place_in(s: &[u8], die: u64, n: u64, r: u64) -> Result<u64, Refusal>
    ensures answer { told result ≡ place_in s.now die n r }
{
    named(s, die, n, r)?;
    let at = stands(s, n, r)?;
    inside(s, at)
}

// Its content.
#[tactic(auto, using(crate::proofs::ClusterLaws::content_ways))]
pub fn content_in(s: &[u8], die: u64, n: u64, r: u64) -> Result<u64, Refusal>
    ensures answer { told result ≡ content_in s.now die n r }
{
    let at = place_in(s, die, n, r)?;
    Ok(u64_at(s, at as usize))
}
