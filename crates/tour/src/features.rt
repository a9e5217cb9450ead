// The tables of a capture, and its features, instances and registers.
use crate::start::{say, say_refusal};
use capture::places::{Capture, Place};
use std::io;
use tpmi_banks::faults::Entries;
use tpmi_counts::valid::valid_count;
use tpmi_discovery::discovery::discover;
use tpmi_entries::entry::entry_at;
use tpmi_features::instances::instance_place;
use tpmi_registers::registers::register;
use tpmi_store::store::store;
use tpmi_structure::structure::vsec_at;
use tpmi_walk::walk::walk;
use words::bytes::u64_at;

pub(crate) fn tables(rt: &impl Print, config: &[u8], high: &[u8]) -> io::Result<()> {
    say_refusal(rt, "tpmi_walk: the refusal, or 0", walk(config))?;
    say(
        rt,
        "tpmi_structure: the table's offset",
        Ok(vsec_at(config, 0x100).offset),
    )?;
    say(
        rt,
        "tpmi_entries: EntrySize of entry 0",
        Ok(entry_at(high, 2000).words),
    )?;
    let entries = Entries {
        bar: high,
        table: 2000,
    };
    say(
        rt,
        "tpmi_banks: where its bank starts",
        Ok(entries.bank_in(0).start as u64),
    )
}

pub(crate) fn lookups(rt: &impl Print, capture: Capture) -> io::Result<()> {
    say_refusal(rt, "tpmi_discovery: the refusal, or 0", discover(capture))?;
    say_refusal(
        rt,
        "tpmi_features: the refusal of RAPL's instance 0, or 0",
        instance_place(capture, 0, 0),
    )?;
    say(
        rt,
        "tpmi_counts: valid instances of RAPL",
        valid_count(capture, 0),
    )?;
    say(
        rt,
        "tpmi_registers: its register at 8",
        register(capture, 0, 0, 8),
    )
}

// A content stored at 16 bytes into the instance, in the capture that its place names.
pub(crate) fn written(rt: &impl Print, low: &mut [u8], high: &mut [u8]) -> io::Result<()> {
    let p = Place {
        bir: 1,
        start: 6096,
        size: 128,
        count: 1,
    };
    store(p, 16, 0x4000_0000_01B8_03E8, 0, low, 1, high);
    say(
        rt,
        "tpmi_store: what the second capture holds at 6112",
        Ok(u64_at(high, 6112)),
    )
}
