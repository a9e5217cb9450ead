// The body of a record as numbers, by a table of their widths in bytes (`body`). No call asks anything of its caller.
#![tactic(auto)]

pub mod body;
