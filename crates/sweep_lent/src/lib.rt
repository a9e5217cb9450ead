// A sweep over channels that are lent as a list of records and changed in place (document 02, request 5). No public call asks anything of its
// caller.
#![tactic(auto)]

pub mod lent;
