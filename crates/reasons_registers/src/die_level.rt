// The die level, register 3 of an instance of feature 0xC, as a value with all its fields, the high half too: read from the register's
// 64 bits and written to them.
ghost use Rattle.std.specs.Prelude.{◌≡◌};
ghost use Rattle.words.specs.Told.{told};
ghost use Rattle.reasons_registers.specs.DieLevel.{die_level_of, written_of};

use fields::bits::field;
use fields::tables::word_of;
use words::answers::Refusal;

// Software clears what hardware has set. A reserved field is named by its lowest bit.
#[derive(Clone, Copy)]
pub struct DieLevel {
    // bits 31:0: a bit for each coarse reason
    pub coarse: u64,
    // bits 63:32, which 004 says are 0; kept as they are
    pub reserved32: u64,
}

// The die level that a register's content says.
impl From<u64> for DieLevel {
    ghost from_gives = { λ register l. l ≡ die_level_of register };

    #[tactic(auto, unfolding(crate::specs::DieLevel::die_level_of))]
    fn from(register: u64) -> DieLevel {
        DieLevel {
            coarse: field(register, 0, 32),
            reserved32: field(register, 32, 32),
        }
    }
}

// The register's content that says a die level; 17 where a number does not fit its field.
impl TryFrom<DieLevel> for u64 {
    type Error = Refusal;

    ghost try_from_gives = { λ l r. told r ≡ written_of l };

    fn try_from(l: DieLevel) -> Result<u64, Refusal> {
        word_of(&[32, 32], &[l.coarse, l.reserved32])
    }
}
