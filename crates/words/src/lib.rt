// Numbers read from bytes, lowest byte first (`bytes`): what lies past the end reads 0. What a call answers that gives one number (`answers`).
// No call asks anything of its caller.
#![tactic(auto)]

pub mod answers;
pub mod bytes;
