// The control of a cluster, register 3, as a value with all its fields, the reserved ones too: read from the register's 64 bits and
// written to them.
ghost use Rattle.std.specs.Prelude.{◌≡◌};
ghost use Rattle.words.specs.Told.{told};
ghost use Rattle.uncore_controls.specs.Control.{control_of, written_of};

use fields::bits::field;
use fields::tables::word_of;
use words::answers::Refusal;

// A reserved field is named by its lowest bit.
#[derive(Clone, Copy)]
pub struct Control {
    // UFS_THROTTLE_MODE: 0 is ordered, 1 proportional
    pub mode: u64,
    pub reserved2: u64,
    // MAX_RATIO
    pub maximum: u64,
    // MIN_RATIO
    pub minimum: u64,
    // EFFICIENCY_LATENCY_CTRL_RATIO
    pub floor: u64,
    pub reserved29: u64,
    // EFFICIENCY_LATENCY_CTRL_THRESHOLD
    pub threshold: u64,
    pub reserved39: u64,
}

// The control that a register's content says.
impl From<u64> for Control {
    ghost from_gives = { λ register k. k ≡ control_of register };

    #[tactic(auto, unfolding(crate::specs::Control::control_of))]
    fn from(register: u64) -> Control {
        Control {
            mode: field(register, 0, 2),
            reserved2: field(register, 2, 6),
            maximum: field(register, 8, 7),
            minimum: field(register, 15, 7),
            floor: field(register, 22, 7),
            reserved29: field(register, 29, 3),
            threshold: field(register, 32, 7),
            reserved39: field(register, 39, 25),
        }
    }
}

// The register's content that says a control; 17 where a number does not fit its field.
impl TryFrom<Control> for u64 {
    type Error = Refusal;

    ghost try_from_gives = { λ k r. told r ≡ written_of k };

    fn try_from(k: Control) -> Result<u64, Refusal> {
        word_of(
            &[2, 6, 7, 7, 7, 3, 7, 25],
            &[
                k.mode,
                k.reserved2,
                k.maximum,
                k.minimum,
                k.floor,
                k.reserved29,
                k.threshold,
                k.reserved39,
            ],
        )
    }
}
