// Features, banks and register places of document 000's layout sheet. Each question is asked of the code, and one line says what was asked and
// what came.
#![tactic(auto)]

mod rows;

use capture::places::Capture;
use std::io;

// The configuration space of the sheet, and two BAR captures with the same bytes, of which tBIR names the second.
fn main(rt: HostRuntime) -> io::Result<()> {
    let mut config = [0u8; 4096];
    let mut bar = [0u8; 43152];
    rows::set_config(&mut config);
    rows::set_table(&mut bar);
    let capture = Capture {
        config: &config,
        lo: 0,
        low: &bar,
        hi: 1,
        high: &bar,
    };
    rows::discovery(&rt, capture)?;
    rows::features(&rt, capture)?;
    rows::registers(&rt, capture)
}
