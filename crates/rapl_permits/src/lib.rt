// The four fields of a limit, and what refuses a write of one (`permits`). No call asks anything of its caller.
#![tactic(auto)]

pub mod permits;
