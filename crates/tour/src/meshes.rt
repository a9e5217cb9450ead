// Uncore: registers as values, clusters in the bytes of an instance, what a control holds next, and the clusters of the capture, which has none.
use crate::start::say;
use capture::places::Capture;
use std::io;
use stores::numbers::store_u64;
use uncore_clusters::clusters::{CONTROL, fabric_in};
use uncore_controls::control::Control;
use uncore_lookups::fabric;
use uncore_permits::control_fields::{MAX_RATIO, MIN_RATIO, next_word};
use uncore_registers::header::Header;
use uncore_writes::control_next::next_in;

pub(crate) fn clusters(rt: &impl Print) -> io::Result<()> {
    let mut s = [0u8; 48];
    store_u64(&mut s, 0, 0x0301);
    store_u64(&mut s, 8, 0x02);
    say(
        rt,
        "uncore_registers: the mask of 0x301",
        Ok(Header::from(0x0301).mask),
    )?;
    say(
        rt,
        "uncore_clusters: the global number of cluster 1 of die 2",
        fabric_in(&s, 2, 1),
    )?;
    say(
        rt,
        "uncore_writes: the control of cluster 0 with MAX_RATIO 30",
        next_in(&s, 0, 0, CONTROL, MAX_RATIO, 30),
    )
}

pub(crate) fn lookups(rt: &impl Print, capture: Capture) -> io::Result<()> {
    say(
        rt,
        "uncore_controls: the maximum of 0x7F01",
        Ok(Control::from(0x7F01).maximum),
    )?;
    say(
        rt,
        "uncore_permits: control 0x7F01 with MIN_RATIO 8",
        next_word(CONTROL, MIN_RATIO, 0x7F01, 8),
    )?;
    say(
        rt,
        "uncore_lookups: clusters of a feature that there is not",
        fabric::clusters(capture, 0),
    )
}
