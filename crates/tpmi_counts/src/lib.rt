// How many instances of a feature are valid (`valid`). No call asks anything of its caller.
#![tactic(auto)]

pub mod valid;
