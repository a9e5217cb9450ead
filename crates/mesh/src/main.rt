// Uncore clocks of document 002: its registers with their defaults, its register map, its examples of the global fabric number, and a capture
// with two clusters, read and written field by field. Each question is asked of the code, and one line says what was asked and what came.
#![tactic(auto)]

mod numbering;
mod placement;
mod ratios;
mod two_clusters;
mod values;
mod whole_line;

use std::io;

fn main(rt: HostRuntime) -> io::Result<()> {
    values::defaults(&rt)?;
    values::others(&rt)?;
    placement::map(&rt)?;
    numbering::examples(&rt)?;
    numbering::bounds(&rt)?;
    ratios::writes(&rt)
}
