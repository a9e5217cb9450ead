// The one store: a content in 8 bytes of an instance, in the BAR capture that holds it (`store`). No call asks anything of its caller.
#![tactic(auto)]

pub mod store;
