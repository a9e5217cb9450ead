// What a replay comes to, over any trace in any cuts (document 02, requests 1 and 4): specs/Replay has the calls of a trace and the bytes of
// calls, specs/Facts what is proved, demand 3 of a replayed trace among it, specs/Cases worked cases. There is no code here.
#![tactic(auto)]
