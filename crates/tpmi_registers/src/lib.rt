// Registers of an instance, by their offset (`registers`): place and content. No call asks anything of its caller.
#![tactic(auto)]

pub mod registers;
