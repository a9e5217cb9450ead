// The capture of the tour, and how it says a line.
use capture::places::Capture;
use fields::bits::field;
use report::endings::value;
use std::io;
use stores::numbers::{store_u16, store_u64};
use text::page::Page;
use words::answers::{Refusal, number_of};
use words::bytes::u16_at;

// Vendor word, and at 0x100 the VSEC structure: 1 entry of 2 words, tBIR 1, table at 2,000. The entry: one instance of 32 words, 4 KiB from
// the table. The domain: a package and its own root, with units and a first limit.
pub(crate) fn set(config: &mut [u8], high: &mut [u8]) {
    store_u16(config, 0, 0x8086);
    store_u64(config, 0x100, 0x0101_0042_0001_000B);
    store_u64(config, 0x108, 0x0000_07D1_0201_0000);
    store_u64(high, 2000, 0x0001_0004_0020_0100);
    store_u64(high, 6096, 0x0000_0006_0001_0201);
    store_u64(high, 6104, 0xA383);
}

pub(crate) fn capture<'a>(config: &'a [u8], low: &'a [u8], high: &'a [u8]) -> Capture<'a, 'a> {
    Capture {
        config,
        lo: 0,
        low,
        hi: 1,
        high,
    }
}

// A question, and the number that came. No line has more than 85 bytes.
pub(crate) fn say(rt: &impl Print, question: &str, came: Result<u64, Refusal>) -> io::Result<()> {
    let mut bytes = [0u8; 128];
    let mut page = Page {
        bytes: &mut bytes,
        at: 0,
    };
    page.put(question.as_bytes());
    value(&mut page, came);
    rt.write_all(page.shown())
}

// A question after a refusal: its number, or 0.
pub(crate) fn say_refusal<T: Copy>(
    rt: &impl Print,
    question: &str,
    came: Result<T, Refusal>,
) -> io::Result<()> {
    say(rt, question, Ok(u64::from(number_of(came))))
}

pub(crate) fn bytes(rt: &impl Print, config: &[u8]) -> io::Result<()> {
    say(
        rt,
        "words: the vendor word",
        Ok(u64::from(u16_at(config, 0))),
    )?;
    say(
        rt,
        "fields: the energy unit of 0xA383",
        Ok(field(0xA383, 6, 5)),
    )
}
