// Demand 3 over any list of calls on the 64 channels of `energy_hall` (document 00): specs/Account has what an observer beside the meter sums
// up, specs/Facts what is proved, specs/Night a worked night, specs/Restart what document 01 alone made of its restart, specs/Dummies the
// wrong meters that fall. There is no code here.
#![tactic(auto)]
