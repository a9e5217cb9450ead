// Domains, registers and parent chains of document 001's register layout example. Each question is asked of the code, and one line says what
// was asked and what came.
#![tactic(auto)]

mod caller;
mod example;

use capture::places::Capture;
use std::io;

// The first BAR capture is empty; tBIR names the second.
fn main(rt: HostRuntime) -> io::Result<()> {
    let mut config = [0u8; 4096];
    let mut high = [0u8; 6480];
    example::set_config(&mut config);
    example::set_domains(&mut high);
    let capture = Capture {
        config: &config,
        lo: 0,
        low: &[],
        hi: 1,
        high: &high,
    };
    example::domains(&rt, capture)?;
    example::registers(&rt, capture)?;
    example::chains(&rt, capture)?;
    example::limits(&rt, capture)
}
