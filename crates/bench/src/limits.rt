// Writes of a limit's fields, in a capture with one feature and two domains, a package and a memory.
use rapl_permits::permits::{LOCK, PWR_LIM, PWR_LIM_EN, TIME_WINDOW};
use rapl_writes::write;
use report::endings::outcome;
use std::io;
use stores::numbers::{store_u16, store_u64};
use text::page::Page;
use words::bytes::u64_at;

// Vendor word, and at 0x100 the VSEC structure: 1 entry of 2 words, tBIR 1, table at 2,000.
fn set_config(config: &mut [u8]) {
    store_u16(config, 0, 0x8086);
    store_u64(config, 0x100, 0x0101_0042_0001_000B);
    store_u64(config, 0x108, 0x0000_07D1_0201_0000);
}

// The entry: one instance of 64 words, 4 KiB from the table; the headers of the two domains, with the registers that 001's example lists.
fn set_domains(bar: &mut [u8]) {
    store_u64(bar, 2000, 0x0001_0004_0040_0100);
    store_u64(bar, 6096, 0x0000_03AF_0001_0201);
    store_u64(bar, 6224, 0x0000_0387_0001_0401);
}

// A field by its number.
fn name_of(which: u64) -> &'static str {
    match which {
        PWR_LIM => "PWR_LIM",
        TIME_WINDOW => "TIME_WINDOW",
        PWR_LIM_EN => "PWR_LIM_EN",
        _ => "LOCK",
    }
}

// A line, on a page that has room for the longest, whatever the numbers: 103 bytes.
fn say<F: FnOnce(&mut Page)>(rt: &impl Print, line: F) -> io::Result<()>
    requires { F.IsAlwaysCallable line }
{
    let mut bytes = [0u8; 128];
    let mut page = Page {
        bytes: &mut bytes,
        at: 0,
    };
    line(&mut page);
    rt.write_all(page.shown())
}

// A configuration space and two BAR captures, which start with the same bytes; tBIR names the second.
#[derive(Drop)]
pub(crate) struct Bench {
    config: [u8; 4096],
    low: [u8; 6352],
    high: [u8; 6352],
}

impl Bench {
    pub(crate) fn new() -> Bench {
        let mut config = [0u8; 4096];
        let mut bar = [0u8; 6352];
        set_config(&mut config);
        set_domains(&mut bar);
        Bench {
            config,
            low: bar,
            high: bar,
        }
    }

    // Writes, each of a number to a field of a limit of a domain. Then what both captures hold where the socket's first limit stands.
    fn writes(&mut self, rt: &impl Print, asked: &[(u64, u64, u64, u64)]) -> io::Result<()> {
        for (n, limit, which, value) in asked {
            let came = write::write(
                &self.config,
                0,
                &mut self.low,
                1,
                &mut self.high,
                0,
                *n,
                *limit,
                *which,
                *value,
            );
            say(rt, |page| {
                page.labelled(b"domain ", *n);
                page.labelled(b", limit ", *limit);
                page.put(b", ");
                page.put(name_of(*which).as_bytes());
                page.labelled(b" ", *value);
                outcome(page, came);
            })?;
        }
        let low = u64_at(&self.low, 6112);
        let high = u64_at(&self.high, 6112);
        say(rt, |page| {
            page.labelled_hex(b"  at 6112 BAR 0 holds 0x", low);
            page.labelled_hex(b", BAR 1 holds 0x", high);
            page.put(b"\n");
        })
    }

    // Document 01's three writes: PWR_LIM, TIME_WINDOW and PWR_LIM_EN of the socket's first limit.
    pub(crate) fn limits(&mut self, rt: &impl Print) -> io::Result<()> {
        self.writes(
            rt,
            &[
                (0, 1, PWR_LIM, 1000),
                (0, 1, TIME_WINDOW, 0x6E),
                (0, 1, PWR_LIM_EN, 1),
            ],
        )
    }

    // A number too wide, the window of a package's second limit, a second limit of the memory, a limit 3.
    pub(crate) fn refusals(&mut self, rt: &impl Print) -> io::Result<()> {
        self.writes(
            rt,
            &[
                (0, 1, PWR_LIM, 262144),
                (0, 2, TIME_WINDOW, 0x6E),
                (1, 2, PWR_LIM, 1000),
                (0, 3, PWR_LIM, 1000),
            ],
        )
    }

    // Once LOCK is 1 no field can be written, LOCK neither.
    pub(crate) fn locked(&mut self, rt: &impl Print) -> io::Result<()> {
        self.writes(
            rt,
            &[(0, 1, LOCK, 1), (0, 1, PWR_LIM, 2000), (0, 1, LOCK, 0)],
        )
    }
}
