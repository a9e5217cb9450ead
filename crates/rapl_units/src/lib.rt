// The units of a domain's register 1, read and written (`units`). No call asks anything of its caller.
#![tactic(auto)]

pub mod units;
