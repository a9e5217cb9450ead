// Limits 1 and 2 of a domain, registers 2 and 3: the register as a value (`limit`). No call asks anything of its caller.
#![tactic(auto)]

pub mod limit;
