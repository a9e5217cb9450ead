// The mailbox's data, register 2 of an instance of feature 0xC, as a value of two halves: read from the register's 64 bits and written to
// them.
ghost use Rattle.std.specs.Prelude.{◌≡◌};
ghost use Rattle.words.specs.Told.{told};
ghost use Rattle.reasons_registers.specs.MailboxData.{mailbox_data_of, written_of};

use fields::bits::field;
use fields::tables::word_of;
use words::answers::Refusal;

// Software clears what hardware has set.
#[derive(Clone, Copy)]
pub struct MailboxData {
    // bits 31:0: a bit for each coarse reason
    pub coarse: u64,
    // bits 63:32: a bit for each fine reason
    pub fine: u64,
}

// The data that a register's content says.
impl From<u64> for MailboxData {
    ghost from_gives = { λ register d. d ≡ mailbox_data_of register };

    #[tactic(auto, unfolding(crate::specs::MailboxData::mailbox_data_of))]
    fn from(register: u64) -> MailboxData {
        MailboxData {
            coarse: field(register, 0, 32),
            fine: field(register, 32, 32),
        }
    }
}

// The register's content that says data; 17 where a number does not fit its field.
impl TryFrom<MailboxData> for u64 {
    type Error = Refusal;

    ghost try_from_gives = { λ d r. told r ≡ written_of d };

    fn try_from(d: MailboxData) -> Result<u64, Refusal> {
        word_of(&[32, 32], &[d.coarse, d.fine])
    }
}
