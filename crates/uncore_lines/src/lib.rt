// The lines of the program `clocks` as text (`clock_lines`): one for each instance of feature 2, one for each of its clusters. No call asks
// anything of its caller.
#![tactic(auto)]

pub mod clock_lines;
