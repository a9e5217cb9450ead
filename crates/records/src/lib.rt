// Records that are put together from pieces (document 02, request 1): one byte of kind, then a body whose length the kind fixes (`partial`).
// No call asks anything of its caller.
#![tactic(auto)]

pub mod partial;
