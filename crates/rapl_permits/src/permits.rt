// The four fields of a limit by their numbers: 0 PWR_LIM, 1 TIME_WINDOW, 2 PWR_LIM_EN, 3 LOCK; and what refuses a write of one.
ghost use Rattle.std.specs.Prelude.{◌≡◌};
ghost use Rattle.words.specs.Told.{done, passes};
ghost use Rattle.rapl_permits.specs.Permits.{span_of, a_limit, unwritable, refusal_of};

use fields::bits::field;
use rapl_domains::domains::Header;
use rapl_registers::contents::present;
use words::answers::Refusal;

// The fields by name, and no enum of four: a call takes any number, and refuses the others with 27.
pub const PWR_LIM: u64 = 0;

pub const TIME_WINDOW: u64 = 1;

pub const PWR_LIM_EN: u64 = 2;

pub const LOCK: u64 = 3;

// Where a field stands: its lowest bit, its bits, and the first number that is too wide for it.
#[derive(Clone, Copy)]
pub struct Span {
    pub at: u32,
    pub width: u32,
    pub room: u64,
}

// The span of a field; a field that is none of the four has no bits.
#[tactic(auto, using(crate::proofs::PermitLaws::span_ways), unfolding(crate::specs::Permits::lowest_of, crate::specs::Permits::width_of))]
pub fn span_of(which: u64) -> Span
    ensures answer { result ≡ span_of which }
{
    let (at, width) = match which {
        PWR_LIM => (0, 18),
        TIME_WINDOW => (18, 7),
        PWR_LIM_EN => (62, 1),
        LOCK => (63, 1),
        _ => (0, 0),
    };
    Span {
        at,
        width,
        room: 1 << width,
    }
}

// There are two limits, 1 and 2.
#[tactic(auto, unfolding(crate::specs::Permits::a_limit))]
fn a_limit(limit: u64) -> bool
    ensures answer { result ≡ a_limit limit }
{
    limit == 1 || limit == 2
}

// A field that is none of the four, or TIME_WINDOW of limit 2 in a package domain.
#[tactic(auto, unfolding(crate::specs::Permits::unwritable))]
fn unwritable(kind: u64, limit: u64, which: u64) -> bool
    ensures answer { result ≡ unwritable kind limit which }
{
    LOCK < which || (which == TIME_WINDOW && limit == 2 && kind == 2)
}

// 26, 27, 17, 18 of a write, where the limit's register holds x; nothing where it is permitted.
#[tactic(auto, using(crate::proofs::PermitLaws::refusal_ways))]
pub fn refusal(h: Header, limit: u64, which: u64, value: u64, x: u64) -> Result<(), Refusal>
    ensures answer { done result ≡ passes (refusal_of h limit which value x) }
{
    if !a_limit(limit) {
        return Err(Refusal(27));
    }
    if !present(h.flags, limit + 1) {
        return Err(Refusal(26));
    }
    if unwritable(h.kind, limit, which) {
        return Err(Refusal(27));
    }
    if span_of(which).room <= value {
        return Err(Refusal(17));
    }
    if field(x, 63, 1) == 1 {
        return Err(Refusal(18));
    }
    Ok(())
}
