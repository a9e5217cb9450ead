// The table of PFS entries located: refusals 1 to 7 in document 01's order, or the table. Its entries are not looked at.
ghost use Rattle.std.specs.Prelude.{◌≡◌};
ghost use Rattle.words.specs.Told.{done, passes};
ghost use Rattle.capture.specs.Capture.{capture_of};
ghost use Rattle.tpmi_structure.specs.Facts.{Narrow};
ghost use Rattle.tpmi_discovery.specs.Table.{misshapen, before_walk, table_in, named_by, location_of};
ghost use Rattle.tpmi_discovery.specs.Told.{told};

use capture::places::Capture;
use tpmi_structure::structure::{Vsec, vsec_at};
use tpmi_walk::walk::walk;
use words::answers::Refusal;
use words::bytes::u16_at;

// So many entries of 8 bytes from `start` on, in the BAR capture with the number `bir`.
#[derive(Clone, Copy)]
pub struct Table {
    pub bir: u8,
    pub start: u32,
    pub entries: u8,
}

// The configuration space is not 4,096 bytes, a BAR number is above 5, or the two are equal.
#[tactic(auto, unfolding(crate::specs::Table::misshapen))]
fn misshapen(len: usize, lo: u8, hi: u8) -> bool
    ensures answer { result ≡ misshapen len lo hi }
{
    len != 4096 || 5 < lo || 5 < hi || lo == hi
}

// 1, then 2.
fn before_walk(capture: Capture) -> Result<(), Refusal>
    ensures answer { done result ≡ passes (before_walk capture.entry.config.now capture.entry.lo capture.entry.hi) }
{
    if misshapen(capture.config.len(), capture.lo, capture.hi) {
        return Err(Refusal(1));
    }
    if u16_at(capture.config, 0) != 0x8086 {
        return Err(Refusal(2));
    }
    Ok(())
}

// A table of so many entries at a place of its BAR capture: 7 where it ends past it.
fn table_in(bar: &[u8], bir: u8, start: u32, entries: u8) -> Result<Table, Refusal>
    ensures answer { told result ≡ table_in bar.now bir start entries }
{
    if entries != 0 && bar.len() < start as usize + usize::from(entries) * 8 {
        return Err(Refusal(7));
    }
    Ok(Table {
        bir,
        start,
        entries,
    })
}

// The table that a structure names: 6, then 7.
fn named_by(v: Vsec, capture: Capture) -> Result<Table, Refusal>
    requires { Narrow v }
    ensures answer { told result ≡ named_by v capture.entry.lo capture.entry.low.now capture.entry.hi capture.entry.high.now }
{
    let bir = v.bir as u8;
    if bir != capture.lo && bir != capture.hi {
        return Err(Refusal(6));
    }
    table_in(capture.bar(bir), bir, v.offset as u32, v.entries as u8)
}

pub fn locate(capture: Capture) -> Result<Table, Refusal>
    ensures answer { told result ≡ location_of (capture_of capture.entry) }
{
    before_walk(capture)?;
    let at = walk(capture.config)?;
    named_by(vsec_at(capture.config, at), capture)
}
