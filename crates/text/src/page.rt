// Words put on a lent page, each at the place where the one before it ended. What does not fit is not written, and the place stays.
ghost use Rattle.std.specs.Prelude.{◌≡◌, [], ◌∷◌, take};
ghost use Rattle.text.specs.Page.{Wrote};

// A lent page, and the place at which the next words stand.
#[derive(Drop)]
pub struct Page<'a> {
    pub bytes: &'a mut [u8],
    pub at: usize,
}

impl<'a> Page<'a> {
    // The bytes `words` from the place on; the place is after them then.
    #[tactic(auto, using(crate::proofs::PageLaws::wrote_copied))]
    pub fn put(&mut self, words: &[u8])
        ensures wrote { Wrote self.old self.new (words.now ∷ []) }
    {
        let end = self.at.saturating_add(words.len());
        if end <= self.bytes.len() {
            self.bytes[self.at..end].copy_from_slice(words);
            self.at = end;
        }
    }

    // What stands before the place; all where there is less.
    pub fn shown(&self) -> &[u8]
        ensures part { result.now ≡ take self.now.at self.now.bytes.now }
    {
        shown(self.bytes, self.at)
    }
}

// The same of bytes that are lent to be read alone: what stands before place `at`.
pub fn shown(page: &[u8], at: usize) -> &[u8]
    ensures part { result.now ≡ take at page.now }
{
    page.get(..at).unwrap_or(page)
}
