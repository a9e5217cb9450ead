// The registers of document 002 that can be written, as values with all their fields: a cluster's control (`control`) and its two advanced
// controls (`advanced1`, `advanced2`). No call asks anything of its caller.
#![tactic(auto)]

pub mod advanced1;
pub mod advanced2;
pub mod control;
