// A PFS entry of 8 bytes as a value, with all its fields, the reserved one too: read from a part and written to one.
ghost use Rattle.std.specs.Prelude.{◌≡◌};
ghost use Rattle.words.specs.Told.{done, passes};
ghost use Rattle.tpmi_entries.specs.Entry.{entry_of, entry_at, read_of, write_number, written};
ghost use Rattle.tpmi_entries.specs.Told.{told};

use fields::bits::field;
use fields::tables::word_of;
use stores::numbers::store_u64;
use words::answers::Refusal;
use words::bytes::u64_at;

#[derive(Clone, Copy)]
pub struct Entry {
    // TPMI_ID
    pub id: u64,
    // NumEntries
    pub instances: u64,
    // EntrySize, in 32-bit words
    pub words: u64,
    // CapOffset, in KiB from the table
    pub offset: u64,
    pub attribute: u64,
    pub reserved: u64,
}

fn of_word(x: u64) -> Entry
    ensures answer { result ≡ entry_of x }
{
    Entry {
        id: field(x, 0, 8),
        instances: field(x, 8, 8),
        words: field(x, 16, 16),
        offset: field(x, 32, 16),
        attribute: field(x, 48, 2),
        reserved: field(x, 50, 14),
    }
}

// The entry at place `at`; what lies past the end reads 0.
pub fn entry_at(s: &[u8], at: usize) -> Entry
    ensures answer { result ≡ entry_at s.now at }
{
    of_word(u64_at(s, at))
}

// The entry in the first 8 bytes of a part.
pub fn read(part: &[u8]) -> Result<Entry, Refusal>
    ensures answer { told result ≡ read_of part.now }
{
    if part.len() < 8 {
        Err(Refusal(25))
    } else {
        Ok(entry_at(part, 0))
    }
}

// The entry written over the first 8 bytes of a part; a refused one writes nothing.
pub fn write(part: &mut [u8], e: Entry) -> Result<(), Refusal>
    ensures answer { done result ≡ passes (write_number part.old e) }
    ensures kept { part.new ≡ written part.old e }
{
    if part.len() < 8 {
        return Err(Refusal(25));
    }
    let word = word_of(
        &[8, 8, 16, 16, 2, 14],
        &[
            e.id,
            e.instances,
            e.words,
            e.offset,
            e.attribute,
            e.reserved,
        ],
    )?;
    store_u64(part, 0, word);
    Ok(())
}
