// A replay's lines of text (`spoken`): one for each record, one where it stops, one for each channel that is open at last. No call asks
// anything of its caller.
#![tactic(auto)]

pub mod spoken;
