// The status of a cluster, register 2, as a value with all its fields, the reserved ones too: read from the register's 64 bits and
// written to them.
ghost use Rattle.std.specs.Prelude.{◌≡◌};
ghost use Rattle.words.specs.Told.{told};
ghost use Rattle.uncore_registers.specs.Status.{status_of, written_of};

use fields::bits::field;
use fields::tables::word_of;
use words::answers::Refusal;

// A reserved field is named by its lowest bit.
#[derive(Clone, Copy)]
pub struct Status {
    // CURRENT_RATIO
    pub ratio: u64,
    // CURRENT_VOLTAGE, in U3.13
    pub voltage: u64,
    // AGENT_TYPE_CORE, CACHE, MEMORY, IO: 1 where such an agent is on the cluster
    pub core: u64,
    pub cache: u64,
    pub memory: u64,
    pub io: u64,
    pub reserved27: u64,
    // THROTTLE_COUNTER, in ms
    pub throttled: u64,
}

// The status that a register's content says.
impl From<u64> for Status {
    ghost from_gives = { λ register t. t ≡ status_of register };

    #[tactic(auto, unfolding(crate::specs::Status::status_of))]
    fn from(register: u64) -> Status {
        Status {
            ratio: field(register, 0, 7),
            voltage: field(register, 7, 16),
            core: field(register, 23, 1),
            cache: field(register, 24, 1),
            memory: field(register, 25, 1),
            io: field(register, 26, 1),
            reserved27: field(register, 27, 5),
            throttled: field(register, 32, 32),
        }
    }
}

// The register's content that says a status; 17 where a number does not fit its field.
impl TryFrom<Status> for u64 {
    type Error = Refusal;

    ghost try_from_gives = { λ t r. told r ≡ written_of t };

    fn try_from(t: Status) -> Result<u64, Refusal> {
        word_of(
            &[7, 16, 1, 1, 1, 1, 5, 32],
            &[
                t.ratio,
                t.voltage,
                t.core,
                t.cache,
                t.memory,
                t.io,
                t.reserved27,
                t.throttled,
            ],
        )
    }
}
