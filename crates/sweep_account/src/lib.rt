// What calls and sweeps in any order come to (document 02, request 5): specs/Mix has steps that are calls or sweeps, specs/Facts what is proved,
// demand 3 among it, specs/Cases the worked night with its readings in sweeps. There is no code here.
#![tactic(auto)]
