// Document 002's examples of the global fabric number, and the bounds of dies and local numbers.
use crate::whole_line::say;
use report::endings::value;
use std::io;
use stores::numbers::store_u64;
use uncore_clusters::clusters::{count_of, fabric_in};
use uncore_registers::header::Header;

// The header is the whole instance.
fn global(rt: &impl Print, header: u64, die: u64, n: u64) -> io::Result<()> {
    let mut s = [0u8; 8];
    store_u64(&mut s, 0, header);
    let mask = Header::from(header).mask;
    let clusters = count_of(mask);
    let fabric = fabric_in(&s, die, n);
    say(rt, |page| {
        page.labelled(b"mask ", mask);
        page.labelled(b", clusters ", clusters);
        page.labelled(b", die ", die);
        page.labelled(b", local number ", n);
        value(page, fabric);
    })
}

// Example 1, of four dielets with two clusters each, and example 2, with one cluster each.
pub(crate) fn examples(rt: &impl Print) -> io::Result<()> {
    for die in 0..4 {
        for n in 0..2 {
            global(rt, 0x0301, die, n)?;
        }
    }
    for die in 0..4 {
        global(rt, 0x0101, die, 0)?;
    }
    Ok(())
}

// The last die, and none after it; as many clusters as the mask has ones, whichever they are; and none.
pub(crate) fn bounds(rt: &impl Print) -> io::Result<()> {
    for (header, die, n) in [
        (0x0301, 255, 1),
        (0x0301, 256, 0),
        (0x0301, 0, 2),
        (0x0501, 0, 1),
        (0x0501, 0, 2),
        (0xFF01, 0, 7),
        (0x0001, 0, 0),
    ] {
        global(rt, header, die, n)?;
    }
    Ok(())
}
