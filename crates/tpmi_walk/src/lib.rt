// The walk of extended configuration space (`walk`): header by header to the first TPMI structure. No call asks anything of its
// caller.
#![tactic(auto)]

pub mod walk;
