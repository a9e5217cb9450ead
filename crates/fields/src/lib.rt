// Fields of a 64-bit number at any place and width, read and written (`bits`), and tables of them (`tables`). No call asks anything of
// its caller.
#![tactic(auto)]

pub mod bits;
pub mod tables;
