// Structures by themselves: document 01's VSEC structure and PFS entry, read and written back.
use report::endings::{outcome, refusal};
use std::io;
use text::page::Page;
use tpmi_entries::entry;
use tpmi_structure::structure;
use words::answers::Refusal;

// A line, on a page that has room for the longest, whatever the numbers: 178 bytes, of an entry.
fn say<F: FnOnce(&mut Page)>(rt: &impl Print, line: F) -> io::Result<()>
    requires { F.IsAlwaysCallable line }
{
    let mut bytes = [0u8; 178];
    let mut page = Page {
        bytes: &mut bytes,
        at: 0,
    };
    line(&mut page);
    rt.write_all(page.shown())
}

// Words, and the bytes of a part in their order, two digits each.
fn part_text(page: &mut Page, words: &[u8], part: &[u8]) {
    page.put(words);
    for b in part {
        page.labelled_hex(b" ", u64::from(*b / 16));
        page.hex(u64::from(*b % 16));
    }
}

// A part that was written back, and what came of it.
fn back(rt: &impl Print, part: &[u8], came: Result<(), Refusal>) -> io::Result<()> {
    say(rt, |page| {
        part_text(page, b"  written back", part);
        outcome(page, came);
    })
}

// A part that is refused.
fn say_refused(rt: &impl Print, words: &[u8], part: &[u8], r: Refusal) -> io::Result<()> {
    say(rt, |page| {
        part_text(page, words, part);
        refusal(page, r);
    })
}

// Read, and written to a blank part.
pub(crate) fn vsec(rt: &impl Print) -> io::Result<()> {
    let part = [
        0x0B, 0x00, 0x01, 0x00, 0x42, 0x00, 0x01, 0x01, 0x00, 0x00, 0x02, 0x02, 0x01, 0x08, 0x00,
        0x00,
    ];
    match structure::read(&part) {
        Ok(v) => {
            say(rt, |page| {
                part_text(page, b"VSEC", &part);
                page.labelled(b": entries ", v.entries);
                page.labelled(b", tBIR ", v.bir);
                page.labelled(b", table at ", v.offset);
                page.put(b"\n");
            })?;
            let mut blank = [0u8; 16];
            let came = structure::write(&mut blank, v);
            back(rt, &blank, came)
        }
        Err(r) => say_refused(rt, b"VSEC", &part, r),
    }
}

pub(crate) fn pfs(rt: &impl Print) -> io::Result<()> {
    let part = [0x00, 0x01, 0x60, 0x00, 0x04, 0x00, 0x01, 0x00];
    match entry::read(&part) {
        Ok(e) => {
            say(rt, |page| {
                part_text(page, b"PFS", &part);
                page.labelled(b": TPMI_ID ", e.id);
                page.labelled(b", entries ", e.instances);
                page.labelled(b" of ", e.words);
                page.labelled(b" words at ", e.offset);
                page.labelled(b" KiB, attribute ", e.attribute);
                page.put(b"\n");
            })?;
            let mut blank = [0u8; 8];
            let came = entry::write(&mut blank, e);
            back(rt, &blank, came)
        }
        Err(r) => say_refused(rt, b"PFS", &part, r),
    }
}
