// A record's body taken apart into numbers and put together from them, by a table of widths in bytes: 1, 2, 4 or 8, and 0 where there is no
// number.
ghost use Rattle.std.specs.Prelude.{◌≡◌};
ghost use Rattle.words.specs.Bytes.{number_at, stored};
ghost use Rattle.records_body.specs.Body.{size, numbers_at, stored_numbers};

use stores::numbers::{store_u8, store_u16, store_u32, store_u64};
use words::bytes::{u8_at, u16_at, u32_at, u64_at};

// A body begins after the kind.
const START: usize = 1;

// The bytes of a number of this width.
#[tactic(auto, unfolding(crate::specs::Body::size))]
fn size_of(width: u8) -> usize
    ensures answer { result ≡ size width }
{
    match width {
        1 | 2 | 4 | 8 => usize::from(width),
        _ => 0,
    }
}

// The number of this width at a place; 0 where there is none.
#[tactic(auto, using(crate::proofs::BodyLaws::number_none), unfolding(crate::specs::Body::size))]
fn number_at(bytes: &[u8], at: usize, width: u8) -> u64
    ensures answer { result ≡ number_at bytes.now at (size width) }
{
    match width {
        1 => u64::from(u8_at(bytes, at)),
        2 => u64::from(u16_at(bytes, at)),
        4 => u64::from(u32_at(bytes, at)),
        8 => u64_at(bytes, at),
        _ => 0,
    }
}

// The numbers of a record's body; what lies past its end reads 0.
#[tactic(auto, using(crate::proofs::BodyLaws::size_most))]
pub fn numbers(widths: [u8; 8], bytes: &[u8]) -> [u64; 8]
    ensures answer { result ≡ numbers_at widths bytes.now 1 }
{
    // By index: of what a `zip` with `iter_mut` writes, a proof knows no element.
    let mut values = [0; 8];
    let mut at = START;
    for (i, width) in widths.iter().enumerate() {
        values[i] = number_at(bytes, at, *width);
        at += size_of(*width);
    }
    values
}

// The low bytes of a number stored at a place, as many as its width has.
#[tactic(auto, using(crate::proofs::BodyLaws::stored_none, crate::proofs::BodyLaws::stored_low), unfolding(crate::specs::Body::size))]
fn put_number(bytes: &mut [u8], at: usize, width: u8, v: u64)
    ensures kept { bytes.new ≡ stored bytes.old at (size width) v }
{
    match width {
        1 => store_u8(bytes, at, (v % 0x100) as u8),
        2 => store_u16(bytes, at, (v % 0x10000) as u16),
        4 => store_u32(bytes, at, (v % 0x100000000) as u32),
        8 => store_u64(bytes, at, v),
        _ => {}
    }
}

// The numbers stored in a record's body, the low bytes of each; a number that does not fit is not stored.
#[tactic(auto, using(crate::proofs::BodyLaws::size_most))]
pub fn put_numbers(bytes: &mut [u8], widths: [u8; 8], values: [u64; 8])
    ensures kept { bytes.new ≡ stored_numbers widths values bytes.old 1 }
{
    let mut at = START;
    for (width, value) in widths.iter().zip(&values) {
        put_number(bytes, at, *width, *value);
        at += size_of(*width);
    }
}
