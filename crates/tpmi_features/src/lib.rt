// Features and their instances (`instances`), and the entries of the table (`entries`), over a capture. No call asks anything of its caller.
#![tactic(auto)]

pub mod entries;
pub mod instances;
