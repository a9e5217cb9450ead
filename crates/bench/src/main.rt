// Power limits written field by field, permitted and refused, and what both captures hold then. Document 01's limit case is run here through
// the call that stores, with refusals beside it: each is asked of the code, and one line says what was asked and what came.
#![tactic(auto)]

mod limits;

use limits::Bench;
use std::io;

fn main(rt: HostRuntime) -> io::Result<()> {
    let mut bench = Bench::new();
    bench.limits(&rt)?;
    bench.refusals(&rt)?;
    bench.locked(&rt)
}
