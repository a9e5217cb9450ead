// A content stored in the 8 bytes at an offset of a place, in the one of two lent BAR captures that the place names. Every write of a
// register ends here.
ghost use Rattle.std.specs.Prelude.{◌≡◌, ◌+◌};
ghost use Rattle.words.specs.Bytes.{stored};
ghost use Rattle.tpmi_store.specs.Store.{low_with, high_with};

use capture::places::Place;
use stores::numbers::store_u64;

// The 8 bytes at `offset` bytes after `start`; nothing where they pass the end, as where the place itself is none.
fn store_in(bar: &mut [u8], start: usize, offset: usize, x: u64)
    ensures kept { bar.new ≡ stored bar.old (start + offset) 8 x }
{
    if let Some(at) = start.checked_add(offset) {
        store_u64(bar, at, x);
    }
}

// Nothing where the 8 bytes pass the end of the place's piece or of the capture, or the place names neither capture.
#[tactic(auto, unfolding(crate::specs::Store::low_with, crate::specs::Store::high_with, crate::specs::Store::in_low, crate::specs::Store::in_high))]
pub fn store(p: Place, offset: usize, x: u64, lo: u8, low: &mut [u8], hi: u8, high: &mut [u8])
    ensures in_low { low.new ≡ low_with p offset x lo low.old }
    ensures in_high { high.new ≡ high_with p offset x lo hi high.old }
{
    if p.size < 8 || p.size - 8 < offset {
        return;
    }
    if p.bir == lo {
        store_in(low, p.start, offset, x);
    } else if p.bir == hi {
        store_in(high, p.start, offset, x);
    }
}
