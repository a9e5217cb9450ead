// Text in a lent page (`page`), and numbers as text (`numerals`). What does not fit is not written. No call asks anything of its caller.
#![tactic(auto)]

pub mod numerals;
pub mod page;
