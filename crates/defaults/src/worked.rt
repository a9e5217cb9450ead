// Registers of document 001 by themselves, with their defaults: units, window codes, domain headers and a limit.
use rapl_domains::domains::domain_in;
use rapl_limits::limit::Limit;
use rapl_permits::permits::PWR_LIM_EN;
use rapl_units::units::Units;
use rapl_windows::windows::{quarters, window_code};
use rapl_writes::next::next_in;
use report::endings::{content, refusal};
use std::io;
use stores::numbers::store_u64;
use text::page::Page;
use words::answers::Refusal;

// A line, on a page that has room for the longest, whatever the numbers: 172 bytes, of a header.
fn say<F: FnOnce(&mut Page)>(rt: &impl Print, line: F) -> io::Result<()>
    requires { F.IsAlwaysCallable line }
{
    let mut bytes = [0u8; 172];
    let mut page = Page {
        bytes: &mut bytes,
        at: 0,
    };
    line(&mut page);
    rt.write_all(page.shown())
}

// Words, and a register's content or why there is none.
fn say_content(rt: &impl Print, words: &[u8], came: Result<u64, Refusal>) -> io::Result<()> {
    say(rt, |page| {
        page.put(words);
        content(page, came);
    })
}

// 001's default: 1/8 W, 1/16,384 J, 1/1,024 s.
pub(crate) fn units(rt: &impl Print) -> io::Result<()> {
    let register = 0xA383;
    let u = Units::from(register);
    say(rt, |page| {
        page.labelled_hex(b"units 0x", register);
        page.labelled(b": power ", u.power);
        page.labelled(b", energy ", u.energy);
        page.labelled(b", time ", u.time);
        page.put(b"\n");
    })?;
    say_content(rt, b"  written back", u64::try_from(u))
}

// As numbers 0x20 is above 0x01; it lasts less. Then codes of windows in ms, at a time unit.
pub(crate) fn windows(rt: &impl Print) -> io::Result<()> {
    for code in [0x20, 0x01, 0x7F] {
        let lasts = quarters(code);
        say(rt, |page| {
            page.labelled_hex(b"window code 0x", code);
            page.labelled(b" lasts quarters: ", lasts);
            page.put(b"\n");
        })?;
    }
    for (ms, unit) in [(8, 10), (56000, 10), (1000, 16)] {
        let code = window_code(ms, unit);
        say(rt, |page| {
            page.labelled(b"window of ms ", u64::from(ms));
            page.labelled(b" at time unit ", unit);
            content(page, code);
        })?;
    }
    Ok(())
}

// Domain 0 of one block whose header is this register and whose other registers are 0.
fn header(rt: &impl Print, register: u64) -> io::Result<()> {
    let mut part = [0u8; 128];
    store_u64(&mut part, 0, register);
    match domain_in(&part, 0) {
        Ok(h) => say(rt, |page| {
            page.labelled_hex(b"domain header 0x", register);
            page.labelled(b": version ", h.version);
            page.labelled(b", type ", h.kind);
            page.labelled(b", SIZE ", h.size);
            page.labelled(b", parent ", h.parent);
            page.labelled_hex(b", FLAGS 0x", h.flags);
            page.put(b"\n");
        }),
        Err(r) => say(rt, |page| {
            page.labelled_hex(b"domain header 0x", register);
            refusal(page, r);
        }),
    }
}

// A package, 001's default (type 0 is no domain), and the package with version 2 and with SIZE 2.
pub(crate) fn headers(rt: &impl Print) -> io::Result<()> {
    for register in [
        0x0000_03AF_0001_0201,
        0x0000_0000_0001_0001,
        0x0000_03AF_0001_0202,
        0x0000_03AF_0002_0201,
    ] {
        header(rt, register)?;
    }
    Ok(())
}

// The register as a value, and as PWR_LIM_EN 0 leaves it in a package.
pub(crate) fn limit(rt: &impl Print) -> io::Result<()> {
    let register = 0x4000_0000_01B8_03E8;
    let l = Limit::from(register);
    say(rt, |page| {
        page.labelled_hex(b"limit 0x", register);
        page.labelled(b": PWR_LIM ", l.power);
        page.labelled_hex(b", TIME_WINDOW 0x", l.window);
        page.labelled(b", PWR_LIM_EN ", l.enable);
        page.labelled(b", LOCK ", l.lock);
        page.put(b"\n");
    })?;
    let mut part = [0u8; 128];
    store_u64(&mut part, 0, 0x0000_03AF_0001_0201);
    store_u64(&mut part, 16, register);
    say_content(
        rt,
        b"  with PWR_LIM_EN 0",
        next_in(&part, 0, 1, PWR_LIM_EN, 0),
    )
}
