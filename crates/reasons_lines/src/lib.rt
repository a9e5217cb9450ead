// The lines of the program `reasons` as text (`reason_lines`): one for each exchange over the mailbox, one for each of its tests, and limit
// reasons by name. No call asks anything of its caller.
#![tactic(auto)]

pub mod reason_lines;
