// The records of a trace as calls on the channels, and back (`trace`). No call asks anything of its caller.
#![tactic(auto)]

pub mod trace;
