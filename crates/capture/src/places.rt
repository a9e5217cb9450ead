// A capture, the places in it that a lookup answers, which of its two BAR captures is meant, and the bytes of a piece.
ghost use Rattle.std.specs.Prelude.{◌≡◌};
ghost use Rattle.capture.specs.Capture.{capture_of};
ghost use Rattle.capture.specs.Places.{bar_in, part_in, piece};

// A configuration space, and two BAR captures, each with its number. The configuration space has a lifetime of its own: what is handed back as
// a part lies in a BAR capture, and may outlive it.
#[derive(Clone, Copy)]
pub struct Capture<'c, 'a> {
    pub config: &'c [u8],
    pub lo: u8,
    pub low: &'a [u8],
    pub hi: u8,
    pub high: &'a [u8],
}

// `count` pieces of `size` bytes each, one after the other from `start` on, in the BAR capture with the number `bir`: a bank of instances,
// one instance, one register.
#[derive(Clone, Copy)]
pub struct Place {
    pub bir: u8,
    pub start: usize,
    pub size: usize,
    pub count: u64,
}

// `size` bytes from `start` on; none where they pass the end.
fn piece(s: &[u8], start: usize, size: usize) -> &[u8]
    ensures part { result.now ≡ piece s.now start size }
{
    if s.len() < start {
        return &s[0..0];
    }
    if s.len() - start < size {
        return &s[0..0];
    }
    let end = start + size;
    &s[start..end]
}

impl<'a> Capture<'_, 'a> {
    // The BAR capture with the number `bir`; the empty part where it is neither of the two.
    pub fn bar(self, bir: u8) -> &'a [u8]
        ensures part { result.now ≡ bar_in (capture_of self.entry) bir }
    {
        if bir == self.lo {
            return self.low;
        }
        if bir == self.hi {
            return self.high;
        }
        &self.low[0..0]
    }

    // The bytes of one piece at a place, a part of the BAR capture with its number; none where they pass its end.
    pub fn part(self, p: Place) -> &'a [u8]
        ensures part { result.now ≡ part_in (capture_of self.entry) p }
    {
        piece(self.bar(p.bir), p.start, p.size)
    }
}
