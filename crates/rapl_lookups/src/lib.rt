// Domains, their registers and their chains over a capture (`lookups`): the instance is found first, then asked. No call asks anything of
// its caller.
#![tactic(auto)]

pub mod lookups;
