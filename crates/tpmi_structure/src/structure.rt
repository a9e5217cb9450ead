// The 16-byte VSEC structure as a value, with all its fields, fixed and reserved ones too: read from a part and written to one.
ghost use Rattle.std.specs.Prelude.{◌≡◌, ◌+◌, ◌*◌, ◌^◌};
ghost use Rattle.words.specs.Told.{done, passes};
ghost use Rattle.tpmi_structure.specs.Structure.{vsec_of, vsec_at, fixed_wrong, read_of, write_number, written};
ghost use Rattle.tpmi_structure.specs.Told.{told};

use fields::bits::field;
use fields::tables::word_of;
use stores::numbers::store_u64;
use words::answers::Refusal;
use words::bytes::u64_at;

#[derive(Clone, Copy)]
pub struct Vsec {
    pub identifier: u64,
    pub version: u64,
    pub next: u64,
    pub id: u64,
    pub revision: u64,
    pub size: u64,
    pub reserved: u64,
    // NumEntries
    pub entries: u64,
    // EntrySize, in 32-bit words
    pub words: u64,
    // tBIR
    pub bir: u64,
    // the table offset in bytes
    pub offset: u64,
}

fn of_words(low: u64, high: u64) -> Vsec
    ensures answer { result ≡ vsec_of (high * 2 ^ 64 + low) }
{
    Vsec {
        identifier: field(low, 0, 16),
        version: field(low, 16, 4),
        next: field(low, 20, 12),
        id: field(low, 32, 16),
        revision: field(low, 48, 4),
        size: field(low, 52, 12),
        reserved: field(high, 0, 16),
        entries: field(high, 16, 8),
        words: field(high, 24, 8),
        bir: field(high, 32, 3),
        offset: field(high, 35, 29) * 8,
    }
}

// The structure at place `at`, whatever its fields hold; what lies past the end reads 0.
pub fn vsec_at(s: &[u8], at: usize) -> Vsec
    ensures answer { result ≡ vsec_at s.now at }
{
    // Past the end all bytes read 0, and at + 8 could wrap.
    if s.len() <= at {
        return of_words(0, 0);
    }
    of_words(u64_at(s, at), u64_at(s, at + 8))
}

// One of the six fixed fields is not what it must be.
#[tactic(auto, unfolding(crate::specs::Structure::fixed_wrong))]
pub fn fixed_wrong(v: Vsec) -> bool
    ensures answer { result ≡ fixed_wrong v }
{
    v.identifier != 0x000B
        || v.version != 1
        || v.id != 0x42
        || v.revision != 1
        || v.size != 0x10
        || v.words != 2
}

// The structure in the first 16 bytes of a part.
pub fn read(part: &[u8]) -> Result<Vsec, Refusal>
    ensures answer { told result ≡ read_of part.now }
{
    if part.len() < 16 {
        return Err(Refusal(25));
    }
    let v = vsec_at(part, 0);
    if fixed_wrong(v) {
        return Err(Refusal(5));
    }
    Ok(v)
}

// The structure written over the first 16 bytes of a part; a refused one writes nothing. The offset's field has no room for its three low bits.
pub fn write(part: &mut [u8], v: Vsec) -> Result<(), Refusal>
    ensures answer { done result ≡ passes (write_number part.old v) }
    ensures kept { part.new ≡ written part.old v }
{
    if part.len() < 16 {
        return Err(Refusal(25));
    }
    if fixed_wrong(v) {
        return Err(Refusal(5));
    }
    if v.offset % 8 != 0 {
        return Err(Refusal(17));
    }
    let low = word_of(
        &[16, 4, 12, 16, 4, 12],
        &[v.identifier, v.version, v.next, v.id, v.revision, v.size],
    )?;
    let high = word_of(
        &[16, 8, 8, 3, 29],
        &[v.reserved, v.entries, v.words, v.bir, v.offset / 8],
    )?;
    store_u64(part, 0, low);
    store_u64(part, 8, high);
    Ok(())
}
