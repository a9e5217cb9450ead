// Fabric clusters and their registers over a capture (`fabric`). No call asks anything of its caller.
#![tactic(auto)]

pub mod fabric;
