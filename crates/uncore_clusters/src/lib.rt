// Fabric clusters in the bytes of an instance of feature 2 (`clusters`): how many there are, their global fabric numbers, and the places and
// contents of the six registers. No call asks anything of its caller.
#![tactic(auto)]

pub mod clusters;
