// The 16-byte TPMI structure of extended configuration space, read and written (`structure`). No call asks anything of its caller.
#![tactic(auto)]

pub mod structure;
