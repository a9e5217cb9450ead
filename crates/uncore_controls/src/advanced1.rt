// The first advanced control of a cluster, register 4, as a value with all its fields, the reserved ones too: read from the register's 64
// bits and written to them.
ghost use Rattle.std.specs.Prelude.{◌≡◌};
ghost use Rattle.words.specs.Told.{told};
ghost use Rattle.uncore_controls.specs.Advanced1.{advanced1_of, written_of};

use fields::bits::field;
use fields::tables::word_of;
use words::answers::Refusal;

// A reserved field is named by its lowest bit.
#[derive(Clone, Copy)]
pub struct Advanced1 {
    // SLOPE_1, in S4.3
    pub slope: u64,
    // BASE_1, in S7.0
    pub base: u64,
    pub reserved16: u64,
}

// The first advanced control that a register's content says.
impl From<u64> for Advanced1 {
    ghost from_gives = { λ register a. a ≡ advanced1_of register };

    #[tactic(auto, unfolding(crate::specs::Advanced1::advanced1_of))]
    fn from(register: u64) -> Advanced1 {
        Advanced1 {
            slope: field(register, 0, 8),
            base: field(register, 8, 8),
            reserved16: field(register, 16, 48),
        }
    }
}

// The register's content that says a control; 17 where a number does not fit its field.
impl TryFrom<Advanced1> for u64 {
    type Error = Refusal;

    ghost try_from_gives = { λ a r. told r ≡ written_of a };

    fn try_from(a: Advanced1) -> Result<u64, Refusal> {
        word_of(&[8, 8, 48], &[a.slope, a.base, a.reserved16])
    }
}
