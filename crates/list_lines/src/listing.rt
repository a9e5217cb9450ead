// What the listing of an input is: that the input is unreadable, a refusal, or the table whose entries are listed.
ghost use Rattle.std.specs.Prelude.{◌≡◌, true, false, MatchOption};
ghost use Rattle.capture.specs.Capture.{capture_of};
ghost use Rattle.list_input.specs.Layout.{readable};
ghost use Rattle.list_lines.specs.Listing.{told, number_said, capture_in, listing_of, bar_in};
ghost use Rattle.list_lines.specs.declared.listing.Unlisted.TheVariants.{Refused};

use capture::places::Capture;
use list_input::layout::{config_in, high_in, layout_of, low_in};
use tpmi_discovery::discovery::discover;
use tpmi_discovery::table::Table;
use words::answers::Refusal;

// Why an input has no listing.
#[derive(Clone, Copy, Debug, PartialEq, Eq, Hash)]
pub enum Unlisted {
    Unreadable,
    Refused(Refusal),
}

impl From<Refusal> for Unlisted {
    ghost from_gives = { λ r u. u ≡ Refused r };

    fn from(refusal: Refusal) -> Unlisted {
        Unlisted::Refused(refusal)
    }
}

// The refusal's number, 0 where there is none; an unreadable input has none.
pub fn number_of(listing: Result<Table, Unlisted>) -> u8
    ensures answer { result ≡ number_said (told listing) }
{
    match listing {
        Ok(_) => 0,
        Err(Unlisted::Unreadable) => 0,
        Err(Unlisted::Refused(refusal)) => refusal.0,
    }
}

// The capture that a readable input holds.
fn capture_in(input: &[u8]) -> Option<Capture<'_, '_>>
    ensures answer { MatchOption result (readable input.now ≡ false) (λ c. (readable input.now ≡ true) × (capture_of c ≡ capture_in input.now)) }
{
    let l = layout_of(input)?;
    Some(Capture {
        config: config_in(input),
        lo: l.lo,
        low: low_in(input),
        hi: l.hi,
        high: high_in(input),
    })
}

pub fn listing_of(input: &[u8]) -> Result<Table, Unlisted>
    ensures answer { told result ≡ listing_of input.now }
{
    let capture = capture_in(input).ok_or(Unlisted::Unreadable)?;
    Ok(discover(capture)?)
}

// The BAR capture with the number `bir`; the empty part of an unreadable input.
pub fn bar_in(input: &[u8], bir: u8) -> &[u8]
    ensures part { result.now ≡ bar_in input.now bir }
{
    match capture_in(input) {
        Some(capture) => capture.bar(bir),
        None => &[],
    }
}
