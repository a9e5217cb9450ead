// The layout of an input: a configuration space of 4,096 bytes, then twice a BAR number (1 byte), a length (4 bytes) and that many bytes
// of capture. What comes after the second capture is ignored.
ghost use Rattle.std.specs.Prelude.{◌≡◌};
ghost use Rattle.list_input.specs.Layout.{layout_of, config_in, low_in, high_in};
ghost use Rattle.list_input.specs.Told.{told};

use words::bytes::{u8_at, u32_at};

// The two BAR numbers, and where each capture ends. The first starts at 4,101, the second 5 bytes after the first has ended.
#[derive(Clone, Copy)]
pub struct Layout {
    pub lo: u8,
    pub low_end: usize,
    pub hi: u8,
    pub high_end: usize,
}

pub fn layout_of(input: &[u8]) -> Option<Layout>
    ensures answer { told result ≡ layout_of input.now }
{
    let first = u32_at(input, 4097) as usize;
    if 65536 < first {
        return None;
    }
    let middle = 4101 + first;
    let second = u32_at(input, middle + 1) as usize;
    if 65536 < second {
        return None;
    }
    let end = middle + 5 + second;
    if input.len() < end {
        return None;
    }
    Some(Layout {
        lo: u8_at(input, 4096),
        low_end: middle,
        hi: u8_at(input, middle),
        high_end: end,
    })
}

// The three parts of a readable input; the empty part of an unreadable one.
pub fn config_in(input: &[u8]) -> &[u8]
    ensures part { result.now ≡ config_in input.now }
{
    match layout_of(input) {
        Some(_) => &input[0..4096],
        None => &[],
    }
}

pub fn low_in(input: &[u8]) -> &[u8]
    ensures part { result.now ≡ low_in input.now }
{
    match layout_of(input) {
        Some(l) => &input[4101..l.low_end],
        None => &[],
    }
}

pub fn high_in(input: &[u8]) -> &[u8]
    ensures part { result.now ≡ high_in input.now }
{
    match layout_of(input) {
        Some(l) => &input[l.low_end + 5..l.high_end],
        None => &[],
    }
}
