// The banks of a table's entries and their faults, 8 to 11 (`faults`). No call asks anything of its caller.
#![tactic(auto)]

pub mod faults;
