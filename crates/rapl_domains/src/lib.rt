// RAPL domains in the bytes of an instance: headers and their lookup (`domains`). No call asks anything of its caller.
#![tactic(auto)]

pub mod domains;
