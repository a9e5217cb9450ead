// PFS entries, 8 bytes each, read and written (`entry`). No call asks anything of its caller.
#![tactic(auto)]

pub mod entry;
