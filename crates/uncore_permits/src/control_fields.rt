// The fields of control and of the advanced controls by their numbers, from bit 0 up, reserved ones not counted; what refuses a write of one,
// and what the register holds next.
ghost use Rattle.std.specs.Prelude.{◌≡◌};
ghost use Rattle.words.specs.Told.{told};
ghost use Rattle.uncore_permits.specs.ControlFields.{extent_of, ratio, word_of};

use fields::bits::{field, with_field};
use uncore_clusters::clusters::{ADVANCED_1, ADVANCED_2, CONTROL};
use uncore_controls::control::Control;
use words::answers::Refusal;

// The fields of control by name, and no enum: a call takes any number, and refuses the others with 27.
pub const THROTTLE_MODE: u64 = 0;

pub const MAX_RATIO: u64 = 1;

pub const MIN_RATIO: u64 = 2;

pub const EFFICIENCY_RATIO: u64 = 3;

pub const EFFICIENCY_THRESHOLD: u64 = 4;

// The fields of the advanced controls; the first has the first two.
pub const SLOPE: u64 = 0;

pub const BASE: u64 = 1;

pub const UTILIZATION_THRESHOLD: u64 = 2;

pub const BANDWIDTH_THRESHOLD: u64 = 3;

// Where a field stands: its lowest bit, and its bits; none where there is no such field.
#[derive(Clone, Copy)]
pub struct Extent {
    pub at: u32,
    pub width: u32,
}

// Of the other registers no field can be written.
#[tactic(auto, using(crate::proofs::FieldsLaws::none_past), unfolding(crate::specs::ControlFields::fields_of, crate::specs::ControlFields::lowest_of, crate::specs::ControlFields::width_of))]
fn extent_of(r: u64, which: u64) -> Extent
    ensures answer { result ≡ extent_of r which }
{
    let (at, width) = match (r, which) {
        (CONTROL, THROTTLE_MODE) => (0, 2),
        (CONTROL, MAX_RATIO) => (8, 7),
        (CONTROL, MIN_RATIO) => (15, 7),
        (CONTROL, EFFICIENCY_RATIO) => (22, 7),
        (CONTROL, EFFICIENCY_THRESHOLD) => (32, 7),
        (ADVANCED_1 | ADVANCED_2, SLOPE) => (0, 8),
        (ADVANCED_1 | ADVANCED_2, BASE) => (8, 8),
        (ADVANCED_2, UTILIZATION_THRESHOLD) => (16, 8),
        (ADVANCED_2, BANDWIDTH_THRESHOLD) => (24, 8),
        _ => (0, 0),
    };
    Extent { at, width }
}

// The field is MAX_RATIO or MIN_RATIO of control.
#[tactic(auto, unfolding(crate::specs::ControlFields::ratio))]
fn ratio(r: u64, which: u64) -> bool
    ensures answer { result ≡ ratio r which }
{
    r == CONTROL && matches!(which, MAX_RATIO | MIN_RATIO)
}

// What register r, which holds x, holds once `value` is written to its field: 27, 17, 28, or the content.
#[tactic(auto, using(crate::proofs::FieldsLaws::next_ways))]
pub fn next_word(r: u64, which: u64, x: u64, value: u64) -> Result<u64, Refusal>
    ensures answer { told result ≡ word_of r which x value }
{
    let e = extent_of(r, which);
    if e.width == 0 {
        return Err(Refusal(27));
    }
    // A value is wider than its field where its low bits are not all of it.
    if field(value, 0, e.width) != value {
        return Err(Refusal(17));
    }
    let y = with_field(x, e.at, e.width, value);
    // The pair is judged as the write would leave it, and by a write of either ratio alone.
    let pair = Control::from(y);
    if ratio(r, which) && pair.maximum < pair.minimum {
        return Err(Refusal(28));
    }
    Ok(y)
}
