// Register 0 of an instance of feature 2, as a value with all its fields, the reserved ones too: read from the register's 64 bits and
// written to them.
ghost use Rattle.std.specs.Prelude.{◌≡◌};
ghost use Rattle.words.specs.Told.{told};
ghost use Rattle.uncore_registers.specs.Header.{header_of, written_of};

use fields::bits::field;
use fields::tables::word_of;
use words::answers::Refusal;

// A reserved field is named by its lowest bit.
#[derive(Clone, Copy)]
pub struct Header {
    pub version: u64,
    // LOCAL_FABRIC_CLUSTER_ID_MASK: a bit for each fabric cluster
    pub mask: u64,
    pub flags: u64,
    // AUTONOMOUS_UFS_DISABLED: 1 where the algorithm is not supported
    pub disabled: u64,
    // FUSION: 1 where it is supported
    pub fusion: u64,
    // RATIO_UNIT: 0 is 100 MHz
    pub unit: u64,
    pub reserved36: u64,
}

// The header that a register's content says.
impl From<u64> for Header {
    ghost from_gives = { λ register h. h ≡ header_of register };

    #[tactic(auto, unfolding(crate::specs::Header::header_of))]
    fn from(register: u64) -> Header {
        Header {
            version: field(register, 0, 8),
            mask: field(register, 8, 8),
            flags: field(register, 16, 16),
            disabled: field(register, 32, 1),
            fusion: field(register, 33, 1),
            unit: field(register, 34, 2),
            reserved36: field(register, 36, 28),
        }
    }
}

// The register's content that says a header; 17 where a number does not fit its field.
impl TryFrom<Header> for u64 {
    type Error = Refusal;

    ghost try_from_gives = { λ h r. told r ≡ written_of h };

    fn try_from(h: Header) -> Result<u64, Refusal> {
        word_of(
            &[8, 8, 16, 1, 1, 2, 28],
            &[
                h.version,
                h.mask,
                h.flags,
                h.disabled,
                h.fusion,
                h.unit,
                h.reserved36,
            ],
        )
    }
}
