// The registers of document 004 (performance limit reasons), as values with all their fields: the header (`plr_header`), the mailbox's
// interface (`mailbox_interface`) and data (`mailbox_data`), and the die level (`die_level`). No call asks anything of its caller.
#![tactic(auto)]

pub mod die_level;
pub mod mailbox_data;
pub mod mailbox_interface;
pub mod plr_header;
