// The cluster offsets, register 1 of an instance of feature 2, as a value of eight bytes: read from the register's 64 bits and written to
// them.
ghost use Rattle.std.specs.Prelude.{◌≡◌};
ghost use Rattle.words.specs.Told.{told};
ghost use Rattle.uncore_registers.specs.Offsets.{offsets_of, written_of};

use fields::bits::field;
use fields::tables::word_of;
use words::answers::Refusal;

// 002 names the first alone, and document 02 the others.
#[derive(Clone, Copy)]
pub struct Offsets {
    // byte i: where local cluster i's registers start, in eights of bytes
    pub offset0: u64,
    pub offset1: u64,
    pub offset2: u64,
    pub offset3: u64,
    pub offset4: u64,
    pub offset5: u64,
    pub offset6: u64,
    pub offset7: u64,
}

// The offsets that a register's content says.
impl From<u64> for Offsets {
    ghost from_gives = { λ register o. o ≡ offsets_of register };

    #[tactic(auto, unfolding(crate::specs::Offsets::offsets_of))]
    fn from(register: u64) -> Offsets {
        Offsets {
            offset0: field(register, 0, 8),
            offset1: field(register, 8, 8),
            offset2: field(register, 16, 8),
            offset3: field(register, 24, 8),
            offset4: field(register, 32, 8),
            offset5: field(register, 40, 8),
            offset6: field(register, 48, 8),
            offset7: field(register, 56, 8),
        }
    }
}

// The register's content that says offsets; 17 where a number does not fit its field.
impl TryFrom<Offsets> for u64 {
    type Error = Refusal;

    ghost try_from_gives = { λ o r. told r ≡ written_of o };

    fn try_from(o: Offsets) -> Result<u64, Refusal> {
        word_of(
            &[8, 8, 8, 8, 8, 8, 8, 8],
            &[
                o.offset0, o.offset1, o.offset2, o.offset3, o.offset4, o.offset5, o.offset6,
                o.offset7,
            ],
        )
    }
}
