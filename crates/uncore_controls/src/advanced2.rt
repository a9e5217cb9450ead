// The second advanced control of a cluster, register 5, as a value with all its fields, the reserved ones too: read from the register's 64
// bits and written to them.
ghost use Rattle.std.specs.Prelude.{◌≡◌};
ghost use Rattle.words.specs.Told.{told};
ghost use Rattle.uncore_controls.specs.Advanced2.{advanced2_of, written_of};

use fields::bits::field;
use fields::tables::word_of;
use words::answers::Refusal;

// A reserved field is named by its lowest bit.
#[derive(Clone, Copy)]
pub struct Advanced2 {
    // SLOPE_2, in S4.3
    pub slope: u64,
    // BASE_2, in S7.0
    pub base: u64,
    // UTILIZATION_THRESHOLD: 255 is all
    pub utilization: u64,
    // HBM_BW_THRESHOLD
    pub bandwidth: u64,
    pub reserved32: u64,
}

// The second advanced control that a register's content says.
impl From<u64> for Advanced2 {
    ghost from_gives = { λ register a. a ≡ advanced2_of register };

    #[tactic(auto, unfolding(crate::specs::Advanced2::advanced2_of))]
    fn from(register: u64) -> Advanced2 {
        Advanced2 {
            slope: field(register, 0, 8),
            base: field(register, 8, 8),
            utilization: field(register, 16, 8),
            bandwidth: field(register, 24, 8),
            reserved32: field(register, 32, 32),
        }
    }
}

// The register's content that says a control; 17 where a number does not fit its field.
impl TryFrom<Advanced2> for u64 {
    type Error = Refusal;

    ghost try_from_gives = { λ a r. told r ≡ written_of a };

    fn try_from(a: Advanced2) -> Result<u64, Refusal> {
        word_of(
            &[8, 8, 8, 8, 32],
            &[a.slope, a.base, a.utilization, a.bandwidth, a.reserved32],
        )
    }
}
