// A table of PFS entries: the bank of each, and the faults, refusals 8 to 11, entry by entry. Total for any slice, any table offset of
// 32 bits and any number of entries of 8 bits, which is all that a VSEC structure can name.
ghost use Rattle.std.specs.Prelude.{◌≡◌, ◌<◌, ◌^◌};
ghost use Rattle.words.specs.Told.{done, passes};
ghost use Rattle.tpmi_banks.specs.Faults.{Small, bank_of, bank_in, empty_bank, overlap, repeats, meets, fault_at, faults_of};

use tpmi_entries::entry::{Entry, entry_at};
use words::answers::Refusal;

// What an entry says of its bank: NumEntries instances of EntrySize 32-bit words each, in the bytes from start up to end.
#[derive(Clone, Copy)]
pub struct Bank {
    pub id: u64,
    pub instances: u64,
    pub words: u64,
    pub start: usize,
    pub end: usize,
}

fn bank_of(table: u32, e: Entry) -> Bank
    requires { Small e }
    ensures answer { result ≡ bank_of table e }
    ensures near { result.start < 2 ^ 33 }
{
    let start = table as usize + e.offset as usize * 1024;
    let size = e.instances as usize * e.words as usize * 4;
    Bank {
        id: e.id,
        instances: e.instances,
        words: e.words,
        start,
        end: start + size,
    }
}

// No instance, or instances of no size.
#[tactic(auto, unfolding(crate::specs::Faults::empty_bank))]
pub fn empty(b: Bank) -> bool
    ensures answer { result ≡ empty_bank b }
{
    b.instances == 0 || b.words == 0
}

// Two stretches, each from its start up to its end, share a byte.
fn shared(a: usize, b: usize, c: usize, d: usize) -> bool
    ensures answer { result ≡ overlap a b c d }
{
    a < d && c < b
}

// The earlier bank, if it is not empty, has the identifier of the other.
#[tactic(auto, unfolding(crate::specs::Faults::repeats))]
fn repeats(earlier: Bank, b: Bank) -> bool
    ensures answer { result ≡ repeats earlier b }
{
    !empty(earlier) && earlier.id == b.id
}

// The earlier bank, if it is not empty, shares a byte with the other.
#[tactic(auto, unfolding(crate::specs::Faults::meets))]
fn meets(earlier: Bank, b: Bank) -> bool
    ensures answer { result ≡ meets earlier b }
{
    !empty(earlier) && shared(earlier.start, earlier.end, b.start, b.end)
}

// The entries of a table that begins at place `table` of a BAR capture.
#[derive(Clone, Copy)]
pub struct Entries<'a> {
    pub bar: &'a [u8],
    pub table: u32,
}

impl Entries<'_> {
    // The bank of entry k.
    pub fn bank_in(self, k: u8) -> Bank
        ensures answer { result ≡ bank_in self.entry.bar.now self.entry.table k }
        ensures near { result.start < 2 ^ 33 }
    {
        let at = self.table as usize + usize::from(k) * 8;
        bank_of(self.table, entry_at(self.bar, at))
    }

    // The fault of entry k of so many. Its bank is held against the table and against all the earlier banks by one pass: 10 wherever it comes,
    // else 11 if some byte is shared.
    pub fn fault(self, count: u8, k: u8) -> Result<(), Refusal>
        ensures answer { done result ≡ passes (fault_at self.entry.bar.now self.entry.table count k) }
    {
        let b = self.bank_in(k);
        if empty(b) {
            return Ok(());
        }
        if b.words == 1 {
            return Err(Refusal(8));
        }
        if self.bar.len() < b.end {
            return Err(Refusal(9));
        }
        let from = self.table as usize;
        let to = from + usize::from(count) * 8;
        let mut met = shared(from, to, b.start, b.end);
        for j in 0..k {
            let earlier = self.bank_in(j);
            if repeats(earlier, b) {
                return Err(Refusal(10));
            }
            met |= meets(earlier, b);
        }
        if met { Err(Refusal(11)) } else { Ok(()) }
    }

    // The first faulty entry of so many decides. Its refusal is returned by name and not by `?`, so that a wrong one is a change of one word.
    pub fn faults(self, count: u8) -> Result<(), Refusal>
        ensures answer { done result ≡ passes (faults_of self.entry.bar.now self.entry.table count) }
    {
        for k in 0..count {
            if let Err(refusal) = self.fault(count, k) {
                return Err(refusal);
            }
        }
        Ok(())
    }
}
