// Numbers stored in bytes, lowest byte first (`numbers`). What does not fit is not stored. No call asks anything of its caller.
#![tactic(auto)]

pub mod numbers;
