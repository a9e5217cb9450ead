// Writes of a cluster's fields, permitted and refused: what came, and what the registers hold then.
use crate::two_clusters::TwoClusters;
use crate::whole_line::say;
use report::endings::{content, outcome};
use std::io;
use text::page::Page;
use uncore_clusters::clusters::{ADVANCED_2, CONTROL, HEADER, STATUS};
use uncore_permits::control_fields::{
    BANDWIDTH_THRESHOLD, EFFICIENCY_RATIO, EFFICIENCY_THRESHOLD, MAX_RATIO, MIN_RATIO, SLOPE,
    THROTTLE_MODE,
};

// The name of a field of control.
fn control_field(which: u64) -> Option<&'static str> {
    match which {
        THROTTLE_MODE => Some("UFS_THROTTLE_MODE"),
        MAX_RATIO => Some("MAX_RATIO"),
        MIN_RATIO => Some("MIN_RATIO"),
        EFFICIENCY_RATIO => Some("EFFICIENCY_LATENCY_CTRL_RATIO"),
        EFFICIENCY_THRESHOLD => Some("EFFICIENCY_LATENCY_CTRL_THRESHOLD"),
        _ => None,
    }
}

// A field of a register, by name where it has one.
fn field_text(page: &mut Page, r: u64, which: u64) {
    let name = if r == CONTROL {
        control_field(which)
    } else {
        None
    };
    match name {
        Some(name) => page.put(name.as_bytes()),
        None => page.labelled(b"field ", which),
    }
}

// Writes of a number to a field of a register of a cluster: what came of each, and what the registers hold after all.
fn write(
    rt: &impl Print,
    capture: &mut TwoClusters,
    asked: &[(u64, u64, u64, u64)],
) -> io::Result<()> {
    for (n, r, which, value) in asked {
        let came = capture.write(*n, *r, *which, *value);
        say(rt, |page| {
            page.labelled(b"cluster ", *n);
            page.labelled(b", register ", *r);
            page.put(b", ");
            field_text(page, *r, *which);
            page.labelled(b" := ", *value);
            outcome(page, came);
        })?;
    }
    for (name, held) in [
        ("control of cluster 0", capture.control0()),
        ("control of cluster 1", capture.control1()),
        ("second advanced control of cluster 1", capture.second1()),
    ] {
        say(rt, |page| {
            page.put(b"  ");
            page.put(name.as_bytes());
            content(page, Ok(held));
        })?;
    }
    Ok(())
}

// Fields of control, and two of the second advanced control: the reserved bits stay.
fn permitted(rt: &impl Print, capture: &mut TwoClusters) -> io::Result<()> {
    write(
        rt,
        capture,
        &[
            (0, CONTROL, MAX_RATIO, 24),
            (0, CONTROL, MIN_RATIO, 8),
            (0, CONTROL, EFFICIENCY_RATIO, 12),
            (0, CONTROL, THROTTLE_MODE, 0),
            (1, ADVANCED_2, SLOPE, 255),
            (1, ADVANCED_2, BANDWIDTH_THRESHOLD, 64),
        ],
    )
}

// A minimum above the maximum, 24, an equal one, a maximum below it, a number too wide. Then the pair in disorder: a ratio that leaves it so
// is refused, and no other field.
fn order(rt: &impl Print, capture: &mut TwoClusters) -> io::Result<()> {
    write(
        rt,
        capture,
        &[
            (0, CONTROL, MIN_RATIO, 25),
            (0, CONTROL, MIN_RATIO, 24),
            (0, CONTROL, MAX_RATIO, 23),
            (0, CONTROL, MIN_RATIO, 128),
            (1, CONTROL, MIN_RATIO, 20),
            (1, CONTROL, THROTTLE_MODE, 1),
            (1, CONTROL, MAX_RATIO, 50),
        ],
    )
}

// Read-only registers, of which the status is a cluster's and the header is not; no field 5; no cluster 2.
fn refused(rt: &impl Print, capture: &mut TwoClusters) -> io::Result<()> {
    write(
        rt,
        capture,
        &[
            (0, STATUS, 0, 1),
            (200, HEADER, 0, 1),
            (200, STATUS, 0, 1),
            (0, CONTROL, 5, 1),
            (2, CONTROL, MAX_RATIO, 24),
        ],
    )
}

pub(crate) fn writes(rt: &impl Print) -> io::Result<()> {
    let mut capture = TwoClusters::new();
    permitted(rt, &mut capture)?;
    order(rt, &mut capture)?;
    refused(rt, &mut capture)
}
