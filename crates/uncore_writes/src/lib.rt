// The write of one field of control or of an advanced control: what the register holds next (`control_next`), and the write into one of two
// lent captures (`control_write`). No call asks anything of its caller.
#![tactic(auto)]

pub mod control_next;
pub mod control_write;
