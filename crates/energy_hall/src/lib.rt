// The 64 energy channels of a hall (document 01, `hall`). No call asks anything of its caller.
#![tactic(auto)]

pub mod hall;
