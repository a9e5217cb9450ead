// The mailbox's interface, register 1 of an instance of feature 0xC, as a value with all its fields, the reserved one too: read from the
// register's 64 bits and written to them.
ghost use Rattle.std.specs.Prelude.{◌≡◌};
ghost use Rattle.words.specs.Told.{told};
ghost use Rattle.reasons_registers.specs.MailboxInterface.{interface_of, written_of};

use fields::bits::field;
use fields::tables::word_of;
use words::answers::Refusal;

// A reserved field is named by its lowest bit.
#[derive(Clone, Copy)]
pub struct Interface {
    // COMMAND: 0 reads, 1 writes
    pub command: u64,
    // DOMAIN: 0 is the cores, 1 the uncore
    pub domain: u64,
    // ID: a logical module of the domain
    pub id: u64,
    pub reserved20: u64,
    // RUN_BUSY: software sets it, hardware clears it
    pub busy: u64,
}

// The interface that a register's content says.
impl From<u64> for Interface {
    ghost from_gives = { λ register m. m ≡ interface_of register };

    #[tactic(auto, unfolding(crate::specs::MailboxInterface::interface_of))]
    fn from(register: u64) -> Interface {
        Interface {
            command: field(register, 0, 8),
            domain: field(register, 8, 4),
            id: field(register, 12, 8),
            reserved20: field(register, 20, 43),
            busy: field(register, 63, 1),
        }
    }
}

// The register's content that says an interface; 17 where a number does not fit its field.
impl TryFrom<Interface> for u64 {
    type Error = Refusal;

    ghost try_from_gives = { λ m r. told r ≡ written_of m };

    fn try_from(m: Interface) -> Result<u64, Refusal> {
        word_of(
            &[8, 4, 8, 43, 1],
            &[m.command, m.domain, m.id, m.reserved20, m.busy],
        )
    }
}
