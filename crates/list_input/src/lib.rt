// The layout of a capture on standard input (`layout`). No call asks anything of its caller.
#![tactic(auto)]

pub mod layout;
