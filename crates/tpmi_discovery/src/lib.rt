// Discovery (document 01, refusals 1 to 11): where the table of entries stands (`table`, 1 to 7), and whether its entries keep the rules
// (`discovery`, 8 to 11). No call asks anything of its caller.
#![tactic(auto)]

pub mod discovery;
pub mod table;
