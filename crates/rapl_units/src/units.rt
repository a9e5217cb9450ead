// The units of a domain, register 1, as a value with all its fields, the reserved ones too: read from the register's 64 bits and
// written to them.
ghost use Rattle.std.specs.Prelude.{◌≡◌};
ghost use Rattle.rapl_units.specs.Units.{units_of, written_of};
ghost use Rattle.words.specs.Told.{told};

use fields::bits::field;
use fields::tables::word_of;
use words::answers::Refusal;

// A unit is one over 2 to its number; a reserved field is named by its lowest bit.
#[derive(Clone, Copy)]
pub struct Units {
    // in W
    pub power: u64,
    pub reserved4: u64,
    // in J
    pub energy: u64,
    pub reserved11: u64,
    // in s
    pub time: u64,
    pub reserved16: u64,
}

// The units that a register's content says.
impl From<u64> for Units {
    ghost from_gives = { λ register u. u ≡ units_of register };

    #[tactic(auto, unfolding(crate::specs::Units::units_of))]
    fn from(register: u64) -> Units {
        Units {
            power: field(register, 0, 4),
            reserved4: field(register, 4, 2),
            energy: field(register, 6, 5),
            reserved11: field(register, 11, 1),
            time: field(register, 12, 4),
            reserved16: field(register, 16, 48),
        }
    }
}

// The register's content that says units; 17 where a number does not fit its field.
impl TryFrom<Units> for u64 {
    type Error = Refusal;

    ghost try_from_gives = { λ u r. told r ≡ written_of u };

    fn try_from(u: Units) -> Result<u64, Refusal> {
        word_of(
            &[4, 2, 5, 1, 4, 48],
            &[
                u.power,
                u.reserved4,
                u.energy,
                u.reserved11,
                u.time,
                u.reserved16,
            ],
        )
    }
}
