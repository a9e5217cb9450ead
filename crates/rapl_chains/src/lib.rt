// Parent chains of domains, in the bytes of an instance (`chains`). No call asks anything of its caller.
#![tactic(auto)]

pub mod chains;
