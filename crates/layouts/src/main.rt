// The VSEC structure and the PFS entry of document 01's bench cases, read and written back. Each is asked of the code, and one line says what was
// asked and what came.
#![tactic(auto)]

mod structures;

use std::io;

fn main(rt: HostRuntime) -> io::Result<()> {
    structures::vsec(&rt)?;
    structures::pfs(&rt)
}
