// Document 002's register map and its table of indices: where the six registers stand in the bytes of an instance.
use crate::whole_line::say;
use report::endings::value;
use std::io;
use stores::numbers::store_u64;
use uncore_clusters::clusters::{
    ADVANCED_1, ADVANCED_2, CONTROL, HEADER, OFFSETS, STATUS, place_in,
};

// Of die 0, local cluster 0.
fn places(rt: &impl Print, s: &[u8]) -> io::Result<()> {
    for r in [HEADER, OFFSETS, STATUS, CONTROL, ADVANCED_1, ADVANCED_2] {
        let at = place_in(s, 0, 0, r);
        say(rt, |page| {
            page.labelled(b"instance of bytes ", s.len() as u64);
            page.labelled(b", register ", r);
            value(page, at);
        })?;
    }
    Ok(())
}

// One cluster at offset 2, the defaults: 48 bytes have room for all, 47 not for the last, 15 not for the offsets either, without which no
// register of a cluster is found.
pub(crate) fn map(rt: &impl Print) -> io::Result<()> {
    let mut s = [0u8; 48];
    store_u64(&mut s, 0, 0x0101);
    store_u64(&mut s, 8, 0x02);
    for size in [48, 47, 15] {
        places(rt, &s[..size])?;
    }
    Ok(())
}
