// The fold of fine limit reasons to coarse ones (`fold`), by a table. No call asks anything of its caller.
#![tactic(auto)]

pub mod fold;
mod masks;
