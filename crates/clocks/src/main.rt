// Lists the mesh clocks of a capture on standard input: a line for each instance of feature 2 and a line for each of its clusters, with the
// ratio that it has, the bounds of the ratio, its throttle mode and its agents. A capture that has none says why: `unreadable`, or a refusal.
#![tactic(auto)]

use capture::places::Capture;
use list_input::layout::{config_in, high_in, layout_of, low_in};
use std::io;
use std::io::Read;
use text::page::Page;
use tpmi_features::instances::feature;
use uncore_clusters::clusters::{CONTROL, STATUS};
use uncore_controls::control::Control;
use uncore_lines::clock_lines::{cluster_line, instance_line, refused_line};
use uncore_lookups::fabric;
use uncore_registers::status::Status;
use words::answers::Refusal;

// The uncore family's TPMI_ID.
const UNCORE: u64 = 2;

// No place hangs on the die.
const DIE: u64 = 0;

// What the line of a cluster says of it.
#[derive(Clone, Copy)]
struct Cluster {
    start: u64,
    status: Status,
    control: Control,
}

// A line, on a page that has room for the longest: 190 bytes (`ClusterLineFact` of uncore_lines).
fn say<F: FnOnce(&mut Page)>(rt: &impl Print, line: F) -> io::Result<()>
    requires { F.IsAlwaysCallable line }
{
    let mut bytes = [0u8; 190];
    let mut page = Page {
        bytes: &mut bytes,
        at: 0,
    };
    line(&mut page);
    rt.write_all(page.shown())
}

// Local cluster n of instance i.
fn cluster_at(capture: Capture, i: u64, n: u64) -> Result<Cluster, Refusal> {
    let place = fabric::place(capture, i, DIE, n, STATUS)?;
    let status = fabric::content(capture, i, DIE, n, STATUS)?;
    let control = fabric::content(capture, i, DIE, n, CONTROL)?;
    Ok(Cluster {
        start: place.start as u64,
        status: Status::from(status),
        control: Control::from(control),
    })
}

// The line of instance i, and those of its clusters.
fn instance(rt: &impl Print, capture: Capture, i: u64) -> io::Result<()> {
    let clusters = fabric::clusters(capture, i);
    say(rt, |page| instance_line(page, i, clusters))?;
    for n in 0..clusters.unwrap_or(0) {
        match cluster_at(capture, i, n) {
            Ok(c) => say(rt, |page| {
                cluster_line(page, n, c.start, c.status, c.control)
            })?,
            Err(r) => say(rt, |page| refused_line(page, n, r))?,
        }
    }
    Ok(())
}

// The lines of all instances, or that there is no such feature.
fn instances(rt: &impl Print, capture: Capture) -> io::Result<()> {
    match feature(capture, UNCORE) {
        Ok(bank) => {
            for i in 0..bank.count {
                instance(rt, capture, i)?;
            }
            Ok(())
        }
        Err(Refusal(number)) => say(rt, |page| {
            page.labelled(b"refused ", u64::from(number));
            page.put(b"\n");
        }),
    }
}

fn main(rt: HostRuntime) -> io::Result<()> {
    // The longest input that is looked at: a configuration space and two captures of 65,536 bytes with their heads.
    let mut input = Vec::new(rt.alloc());
    rt.reader().take(135178).read_to_end(&mut input)?;
    let Some(l) = layout_of(&input) else {
        return say(&rt, |page| page.put(b"unreadable\n"));
    };
    instances(
        &rt,
        Capture {
            config: config_in(&input),
            lo: l.lo,
            low: low_in(&input),
            hi: l.hi,
            high: high_in(&input),
        },
    )
}
