// The fields of document 002 that can be written, and what a register holds once one of them is (`control_fields`). No call asks anything of
// its caller.
#![tactic(auto)]

pub mod control_fields;
