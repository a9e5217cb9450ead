// The registers of the limit reasons over a capture, by number, which constants name (`by_name`): place and content. No call asks anything of its caller.
#![tactic(auto)]

pub mod by_name;
