// The write of one field of a limit: what the register holds next (`next`), and the write into one of two lent captures (`write`). No call
// asks anything of its caller.
#![tactic(auto)]

pub mod next;
pub mod write;
