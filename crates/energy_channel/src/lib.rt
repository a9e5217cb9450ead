// One energy channel (document 01; document 02, request 4): its record, and what each call does to it (`channel`). No call asks anything
// of its caller.
#![tactic(auto)]

pub mod channel;
