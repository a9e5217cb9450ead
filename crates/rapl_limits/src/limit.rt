// Limit 1 or 2 of a domain, register 2 or 3, as a value with all its fields, the reserved one too: read from the register's 64 bits and
// written to them.
ghost use Rattle.std.specs.Prelude.{◌≡◌};
ghost use Rattle.words.specs.Told.{told};
ghost use Rattle.rapl_limits.specs.Limit.{limit_of, written_of};

use fields::bits::field;
use fields::tables::word_of;
use words::answers::Refusal;

// A reserved field is named by its lowest bit.
#[derive(Clone, Copy)]
pub struct Limit {
    // in power units
    pub power: u64,
    // a time window code
    pub window: u64,
    pub reserved25: u64,
    pub enable: u64,
    pub lock: u64,
}

// The limit that a register's content says.
impl From<u64> for Limit {
    ghost from_gives = { λ register l. l ≡ limit_of register };

    #[tactic(auto, unfolding(crate::specs::Limit::limit_of))]
    fn from(register: u64) -> Limit {
        Limit {
            power: field(register, 0, 18),
            window: field(register, 18, 7),
            reserved25: field(register, 25, 37),
            enable: field(register, 62, 1),
            lock: field(register, 63, 1),
        }
    }
}

// The register's content that says a limit; 17 where a number does not fit its field.
impl TryFrom<Limit> for u64 {
    type Error = Refusal;

    ghost try_from_gives = { λ l r. told r ≡ written_of l };

    fn try_from(l: Limit) -> Result<u64, Refusal> {
        word_of(
            &[18, 7, 37, 1, 1],
            &[l.power, l.window, l.reserved25, l.enable, l.lock],
        )
    }
}
