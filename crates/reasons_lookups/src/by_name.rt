// The registers of instance i of feature 0xC (12), by number: 0 the header, 1 the mailbox's interface, 2 its data, 3 the die level, eight
// bytes apart. The instance is looked up afresh (1 to 13); then 17 and 14.
ghost use Rattle.std.specs.Prelude.{◌≡◌, [], ◌∷◌, ◌*◌, ◌≤◌};
ghost use Rattle.words.specs.Answers.{earliest};
ghost use Rattle.words.specs.Told as words;
ghost use Rattle.capture.specs.Capture.{capture_of};
ghost use Rattle.capture.specs.Told.{told};
ghost use Rattle.tpmi_features.specs.Instances.{instance_number};
ghost use Rattle.reasons_lookups.specs.ByName.{place_for, content_for};

use capture::places::{Capture, Place};
use tpmi_features::instances::instance_place;
use tpmi_registers::registers::{register, register_place};
use words::answers::Refusal;

// The registers by name, and no enum of four: a call takes any number, and refuses the others with 17.
pub const HEADER: u64 = 0;

pub const INTERFACE: u64 = 1;

pub const MAILBOX_DATA: u64 = 2;

pub const DIE_LEVEL: u64 = 3;

// The refusal of a register that there is not: the instance's own, or 17.
fn unnamed(capture: Capture, i: u64) -> Refusal
    ensures answer { result.0 ≡ earliest (instance_number (capture_of capture.entry) 12 i ∷ 17 ∷ []) }
{
    match instance_place(capture, 12, i) {
        Ok(_) => Refusal(17),
        Err(refusal) => refusal,
    }
}

// Where each register starts in the instance.
fn offset_of(r: u64) -> usize
    requires { r ≤ 3 }
    ensures answer { result ≡ r * 8 }
{
    match r {
        HEADER => 0,
        INTERFACE => 8,
        MAILBOX_DATA => 16,
        _ => 24,
    }
}

// Where register r of instance i stands in the BAR capture.
pub fn place(capture: Capture, i: u64, r: u64) -> Result<Place, Refusal>
    ensures answer { told result ≡ place_for (capture_of capture.entry) i r }
{
    if DIE_LEVEL < r {
        return Err(unnamed(capture, i));
    }
    register_place(capture, 12, i, offset_of(r))
}

// Its content.
pub fn content(capture: Capture, i: u64, r: u64) -> Result<u64, Refusal>
    ensures answer { words.told result ≡ content_for (capture_of capture.entry) i r }
{
    if DIE_LEVEL < r {
        return Err(unnamed(capture, i));
    }
    register(capture, 12, i, offset_of(r))
}
