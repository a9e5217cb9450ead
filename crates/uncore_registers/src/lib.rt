// The registers of document 002 that are read alone, as values with all their fields: the header (`header`), the cluster offsets (`offsets`)
// and a cluster's status (`status`). No call asks anything of its caller.
#![tactic(auto)]

pub mod header;
pub mod offsets;
pub mod status;
