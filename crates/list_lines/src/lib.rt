// What a listing is (`listing`), and what each of its lines says (`line`). No call asks anything of its caller.
#![tactic(auto)]

pub mod line;
pub mod listing;
