// A tour of the house: one question to every library, on a small capture with one instance of RAPL and one domain; a line says what was asked
// and what came. It reaches every library at once, so that no two of their names can come to clash.
#![tactic(auto)]

mod energies;
mod features;
mod lines;
mod meshes;
mod powers;
mod start;
mod traces;

use start::capture;
use std::io;

fn main(rt: HostRuntime) -> io::Result<()> {
    let mut config = [0u8; 4096];
    let mut low = [0u8; 8];
    let mut high = [0u8; 6224];
    start::set(&mut config, &mut high);
    start::bytes(&rt, &config)?;
    features::tables(&rt, &config, &high)?;
    features::lookups(&rt, capture(&config, &low, &high))?;
    features::written(&rt, &mut low, &mut high)?;
    powers::domains(&rt, capture(&config, &low, &high))?;
    powers::registers(&rt, capture(&config, &low, &high))?;
    meshes::clusters(&rt)?;
    meshes::lookups(&rt, capture(&config, &low, &high))?;
    powers::write(&rt, &config, &mut low, &mut high)?;
    energies::channels(&rt)?;
    energies::sweeps(&rt)?;
    traces::replay(&rt)?;
    lines::listing(&rt, &config, &high)
}
