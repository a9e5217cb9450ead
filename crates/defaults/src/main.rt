// Units, window codes, domain headers and a limit, each as a register by itself. The values are document 001's defaults and cases beside
// document 01's: each is asked of the code, and one line says what was asked and what came.
#![tactic(auto)]

mod worked;

use std::io;

fn main(rt: HostRuntime) -> io::Result<()> {
    worked::units(&rt)?;
    worked::windows(&rt)?;
    worked::headers(&rt)?;
    worked::limit(&rt)
}
