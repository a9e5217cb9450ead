// The RAPL domains of document 001's register layout example, socket, memory and platform, in a capture with one feature.
use crate::caller::limit_1;
use capture::places::Capture;
use rapl_lookups::lookups;
use report::endings::{content, refusal, value};
use std::io;
use stores::numbers::{store_u16, store_u64};
use text::page::Page;

// Vendor word, and at 0x100 the VSEC structure: 1 entry of 2 words, tBIR 1, table at 2,000.
pub(crate) fn set_config(config: &mut [u8]) {
    store_u16(config, 0, 0x8086);
    store_u64(config, 0x100, 0x0101_0042_0001_000B);
    store_u64(config, 0x108, 0x0000_07D1_0201_0000);
}

// The table's entry, and the domains at 0, 0x80 and 0x100 of the instance. The platform is a root, the socket is under it and the memory
// under the socket.
pub(crate) fn set_domains(bar: &mut [u8]) {
    for (at, x) in [
        // One instance of 96 words, 4 KiB from the table.
        (2000, 0x0001_0004_0060_0100),
        // The socket: its header, with the registers that the example lists, 001's default units, a first limit, energy status and limit info.
        (6096, 0x0000_03AF_0201_0201),
        (6104, 0xA383),
        (6112, 0x4000_0000_01B8_03E8),
        (6152, 0x1234_5678_FFFF_FFF0),
        (6168, 0xFFFF_FFFF_FFFF_FFFF),
        // The memory.
        (6224, 0x0000_0387_0001_0401),
        (6232, 0xA383),
        // The platform.
        (6352, 0x0000_078F_0201_0101),
        (6360, 0xA383),
    ] {
        store_u64(bar, at, x);
    }
}

// A line, on a page that has room for the longest, whatever the numbers: 111 bytes, of a domain.
fn say<F: FnOnce(&mut Page)>(rt: &impl Print, line: F) -> io::Result<()>
    requires { F.IsAlwaysCallable line }
{
    let mut bytes = [0u8; 128];
    let mut page = Page {
        bytes: &mut bytes,
        at: 0,
    };
    line(&mut page);
    rt.write_all(page.shown())
}

// The instance has room for three.
pub(crate) fn domains(rt: &impl Print, capture: Capture) -> io::Result<()> {
    for n in 0..4 {
        match lookups::domain(capture, 0, n) {
            Ok(h) => say(rt, |page| {
                page.labelled(b"domain ", n);
                page.labelled(b": type ", h.kind);
                page.labelled(b", parent ", h.parent);
                page.labelled_hex(b", FLAGS 0x", h.flags);
                page.put(b"\n");
            })?,
            Err(r) => say(rt, |page| {
                page.labelled(b"domain ", n);
                refusal(page, r);
            })?,
        }
    }
    Ok(())
}

// The socket's units, energy status and limit info; the memory has no second limit; no domain has a register 16.
pub(crate) fn registers(rt: &impl Print, capture: Capture) -> io::Result<()> {
    for (n, r) in [(0, 1), (0, 7), (0, 9), (1, 3), (1, 16)] {
        let came = lookups::register(capture, 0, n, r);
        say(rt, |page| {
            page.labelled(b"register ", r);
            page.labelled(b" of domain ", n);
            content(page, came);
        })?;
    }
    Ok(())
}

pub(crate) fn chains(rt: &impl Print, capture: Capture) -> io::Result<()> {
    for n in 0..3 {
        let came = lookups::chain(capture, 0, n);
        say(rt, |page| {
            page.labelled(b"steps to the root from domain ", n);
            value(page, came);
        })?;
    }
    Ok(())
}

// The socket has one; there is no domain 3.
pub(crate) fn limits(rt: &impl Print, capture: Capture) -> io::Result<()> {
    for n in [0, 3] {
        let came = limit_1(capture, n);
        say(rt, |page| {
            page.labelled(b"PWR_LIM of limit 1 of domain ", n);
            value(page, came);
        })?;
    }
    Ok(())
}
