// What the stamp certifies of all crates at once: specs/Unique, that every public call's contract fixes its result; specs/Table, document
// 01's P cases in one table. There is no code here.
#![tactic(auto)]
