// Replay of a trace that arrives in pieces (document 02, request 1; `steps`). No call asks anything of its caller.
#![tactic(auto)]

pub mod steps;
