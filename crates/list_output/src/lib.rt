// The whole listing of an input as text, on a lent page (`output`). No call asks anything of its caller.
#![tactic(auto)]

pub mod output;
