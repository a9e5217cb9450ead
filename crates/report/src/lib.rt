// What the meter's calls answer, as the end of a line of text (`endings`). No call asks anything of its caller.
#![tactic(auto)]

pub mod endings;
