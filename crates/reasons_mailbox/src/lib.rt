// The mailbox of the limit reasons as a machine of steps (document 02, request 6; `mailbox`): an exchange is started, and each step is handed
// the register values that the host read. No step waits, and no call asks anything of its caller.
#![tactic(auto)]

pub mod mailbox;
