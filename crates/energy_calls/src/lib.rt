// What a call on an energy channel carries, and what it answers (document 01, "Energy channels"; document 02, request 4). No call asks
// anything of its caller.
#![tactic(auto)]

pub mod calls;
