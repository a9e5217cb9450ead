// Time window codes and their durations (`windows`). No call asks anything of its caller.
#![tactic(auto)]

pub mod windows;
