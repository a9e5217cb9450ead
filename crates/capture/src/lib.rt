// A capture: a configuration space and two BAR captures, handed to a call as one value. Places in it, and parts of it (`places`). No call asks
// anything of its caller.
#![tactic(auto)]

pub mod places;
