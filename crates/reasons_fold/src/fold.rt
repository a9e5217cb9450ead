// Fine limit reasons folded to coarse ones: of one word by four entries of the table, and of several cores' words, joined.
ghost use Rattle.std.specs.Prelude.{◌≡◌};
ghost use Rattle.reasons_fold.specs.Fold.{table, fold_of, joined_of};

use crate::masks::{all_masks, entry};
use fields::bits::field;

// The entries of the four bytes, joined.
#[tactic(auto, using(crate::proofs::Entries::fold_ways))]
fn by_table(masks: &[u16], fine: u64) -> u64
    requires { masks.now ≡ table }
    ensures answer { result ≡ fold_of fine }
{
    let first = entry(masks, field(fine, 0, 8));
    let second = entry(masks, 256 + field(fine, 8, 8));
    let third = entry(masks, 512 + field(fine, 16, 8));
    let fourth = entry(masks, 768 + field(fine, 24, 8));
    first | second | third | fourth
}

// What 32 fine bits fold to. Bits from 32 up are not looked at.
pub fn fold(fine: u64) -> u64
    ensures answer { result ≡ fold_of fine }
{
    by_table(&all_masks(), fine)
}

// The folds of several cores, joined.
#[tactic(auto, using(crate::proofs::Entries::join_ways), unfolding(crate::specs::Fold::joined_of))]
fn all_by_table(masks: &[u16], polled: &[u64]) -> u64
    requires { masks.now ≡ table }
    ensures answer { result ≡ joined_of polled.now }
{
    let mut coarse = 0;
    for &word in polled {
        coarse |= by_table(masks, field(word, 32, 32));
    }
    coarse
}

// What the fine bits, 63:32, of each mailbox data value fold to, joined: a coarse reason of several polled cores is one that some core has.
// Coarse bits in the low halves are not mixed in.
pub fn joined(polled: &[u64]) -> u64
    ensures answer { result ≡ joined_of polled.now }
{
    all_by_table(&all_masks(), polled)
}
