// Register 0 of an instance of feature 0xC, as a value with all its fields, the reserved one too: read from the register's 64 bits and
// written to them.
ghost use Rattle.std.specs.Prelude.{◌≡◌};
ghost use Rattle.words.specs.Told.{told};
ghost use Rattle.reasons_registers.specs.PlrHeader.{header_of, written_of};

use fields::bits::field;
use fields::tables::word_of;
use words::answers::Refusal;

// A reserved field is named by its lowest bit.
#[derive(Clone, Copy)]
pub struct Header {
    // INTERFACE_VERSION: the major version in bits 7:5, the minor one in bits 4:0
    pub version: u64,
    pub reserved8: u64,
}

// The header that a register's content says.
impl From<u64> for Header {
    ghost from_gives = { λ register h. h ≡ header_of register };

    #[tactic(auto, unfolding(crate::specs::PlrHeader::header_of))]
    fn from(register: u64) -> Header {
        Header {
            version: field(register, 0, 8),
            reserved8: field(register, 8, 56),
        }
    }
}

// The register's content that says a header; 17 where a number does not fit its field.
impl TryFrom<Header> for u64 {
    type Error = Refusal;

    ghost try_from_gives = { λ h r. told r ≡ written_of h };

    fn try_from(h: Header) -> Result<u64, Refusal> {
        word_of(&[8, 56], &[h.version, h.reserved8])
    }
}
