// The layout sheet of documents 000 and 001 as a capture: ten features, their banks and the places of their registers.
use capture::places::{Capture, Place};
use report::endings::{place, value};
use std::io;
use stores::numbers::{store_u16, store_u64};
use text::page::Page;
use tpmi_counts::valid::valid_count;
use tpmi_discovery::discovery::discover;
use tpmi_features::instances::feature;
use tpmi_registers::registers::register_place;

// Vendor word, and at 0x100 the VSEC structure: 10 entries of 2 words, tBIR 1, table at 2,000.
pub(crate) fn set_config(config: &mut [u8]) {
    store_u16(config, 0, 0x8086);
    store_u64(config, 0x100, 0x0101_0042_0001_000B);
    store_u64(config, 0x108, 0x0000_07D1_020A_0000);
}

// The sheet's table, from the right of each entry TPMI_ID, NumEntries, EntrySize, CapOffset, Attribute. (000 gives DRC no identifier; here it
// has the reserved 4.) Instances 1 and 3 of PEM read all ones: they are not valid.
pub(crate) fn set_table(bar: &mut [u8]) {
    for (at, x) in [
        // RAPL, PEM, PMAX, DRC, SST.
        (2000, 0x0001_0004_0060_01_00),
        (2008, 0x0001_0008_0006_05_01),
        (2016, 0x0000_000C_0010_01_03),
        (2024, 0x0001_0010_0008_01_04),
        (2032, 0x0001_0014_00B6_05_05),
        // UFS, CSR_ALL, CSR_COMPUTE, CSR_PKG_ROOT, MISC_REGS.
        (2040, 0x0001_0018_0008_01_02),
        (2048, 0x0001_001C_00A0_05_FD),
        (2056, 0x0001_0020_0028_03_FE),
        (2064, 0x0001_0024_0014_01_FF),
        (2072, 0x0001_0028_0010_03_06),
        // PEM's instances.
        (10216, 0xFFFF_FFFF_FFFF_FFFF),
        (10264, 0xFFFF_FFFF_FFFF_FFFF),
    ] {
        store_u64(bar, at, x);
    }
}

// A line, on a page that has room for the longest, whatever the numbers: 182 bytes, of a register.
fn say<F: FnOnce(&mut Page)>(rt: &impl Print, line: F) -> io::Result<()>
    requires { F.IsAlwaysCallable line }
{
    let mut bytes = [0u8; 182];
    let mut page = Page {
        bytes: &mut bytes,
        at: 0,
    };
    line(&mut page);
    rt.write_all(page.shown())
}

// The same captures under three pairs of BAR numbers: tBIR 1 is one of them, is neither, and is beside a number above 5. The table is said as
// a place: so many entries of 8 bytes.
pub(crate) fn discovery(rt: &impl Print, capture: Capture) -> io::Result<()> {
    for (lo, hi) in [(0, 1), (2, 3), (1, 6)] {
        let table = discover(Capture { lo, hi, ..capture }).map(|t| Place {
            bir: t.bir,
            start: t.start as usize,
            size: 8,
            count: u64::from(t.entries),
        });
        say(rt, |page| {
            page.labelled(b"table of the sheet, BARs ", u64::from(lo));
            page.labelled(b" and ", u64::from(hi));
            place(page, table);
        })?;
    }
    Ok(())
}

// Banks, and how many instances of PEM are valid.
pub(crate) fn features(rt: &impl Print, capture: Capture) -> io::Result<()> {
    for id in [0x00, 0x01, 0x03, 0x05, 0xFD, 0x06, 0x80] {
        let bank = feature(capture, id);
        say(rt, |page| {
            page.labelled_hex(b"feature 0x", id);
            place(page, bank);
        })?;
    }
    let valid = valid_count(capture, 0x01);
    say(rt, |page| {
        page.put(b"valid instances of feature 0x1");
        value(page, valid);
    })
}

// PMAX; CSR_ALL, whose first register is 0x110, so that its register 0x118 has the offset 8; an invalid instance of PEM, one that
// there is not; an offset past an instance of 64 bytes, and one that is no multiple of 8.
pub(crate) fn registers(rt: &impl Print, capture: Capture) -> io::Result<()> {
    for (id, n, offset) in [
        (0x03, 0, 8),
        (0xFD, 2, 8),
        (0x01, 1, 0),
        (0x01, 5, 0),
        (0x03, 0, 64),
        (0x03, 0, 12),
    ] {
        let found = register_place(capture, id, n, offset);
        say(rt, |page| {
            page.labelled_hex(b"register of feature 0x", id);
            page.labelled(b", instance ", n);
            page.labelled_hex(b", offset 0x", offset as u64);
            place(page, found);
        })?;
    }
    Ok(())
}
