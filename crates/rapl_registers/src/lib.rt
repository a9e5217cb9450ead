// The registers of a domain, in the bytes of an instance (`contents`). No call asks anything of its caller.
#![tactic(auto)]

pub mod contents;
