// The whole listing of an input, on a lent page: the line `unreadable`, the line of a refusal, or a line for each entry that is not empty, in
// table order.
ghost use Rattle.std.specs.Prelude.{◌≡◌, [], ◌∷◌, ◌≤◌, length};
ghost use Rattle.words.specs.Told.{told};
ghost use Rattle.text.specs.Page.{Wrote};
ghost use Rattle.list_lines.specs.Line.{numbers, line_of};
ghost use Rattle.list_output.specs.Output.{line_runs, lines_below, refused_runs, text_of, longest, list_of, page_left};

use list_lines::line::{Feature, line_of};
use list_lines::listing::{Unlisted, bar_in, listing_of};
use text::page::Page;
use tpmi_banks::faults::Entries;
use words::answers::Refusal;

// As long as the longest listing: 255 lines of 62 bytes.
const LONGEST: usize = 15810;

// The line of one feature.
#[tactic(auto, unfolding(crate::specs::Output::line_runs))]
fn feature(page: &mut Page, f: Feature)
    ensures wrote { Wrote page.old page.new (line_runs (numbers f)) }
{
    page.labelled(b"feature ", f.id);
    page.labelled(b" instances ", f.instances);
    page.labelled(b" valid ", f.valid);
    page.labelled(b" size ", f.size as u64);
    page.labelled(b" at ", f.start as u64);
    page.put(b"\n");
}

// The line of entry k of a table; nothing for an empty entry.
#[tactic(auto, unfolding(crate::specs::Output::line_runs))]
fn entry(page: &mut Page, bar: &[u8], table: u32, k: u8)
    ensures wrote { Wrote page.old page.new (line_runs (line_of bar.now table k)) }
{
    if let Some(f) = line_of(Entries { bar, table }, k) {
        feature(page, f);
    }
}

// The lines of a table's entries. `table` is no field of an `Entries` here: that it has 32 bits is known of a parameter alone.
fn lines(page: &mut Page, bar: &[u8], table: u32, entries: u8)
    requires place { page.old.at ≡ 0 }
    requires room { longest ≤ length page.old.bytes.now }
    ensures wrote { Wrote page.old page.new (lines_below bar.now table entries ∷ []) }
{
    for k in 0..entries {
        entry(page, bar, table, k);
    }
}

// The line of a refusal.
fn refusal(page: &mut Page, refusal: Refusal)
    ensures wrote { Wrote page.old page.new (refused_runs refusal.0) }
{
    page.labelled(b"refused ", u64::from(refusal.0));
    page.put(b"\n");
}

// What the listing of the input says.
fn said(page: &mut Page, input: &[u8])
    requires place { page.old.at ≡ 0 }
    requires room { longest ≤ length page.old.bytes.now }
    ensures wrote { Wrote page.old page.new (text_of input.now ∷ []) }
{
    match listing_of(input) {
        Ok(t) => lines(page, bar_in(input, t.bir), t.start, t.entries),
        Err(Unlisted::Unreadable) => page.put(b"unreadable\n"),
        Err(Unlisted::Refused(r)) => refusal(page, r),
    }
}

// How many bytes of the page the listing takes; 25 where the page is shorter than the longest listing. The page is lent as bytes and not as a
// `Page`: the contract, and `ListingFact` of specs/Facts with it, speak of all its bytes from the first on.
pub fn list(input: &[u8], page: &mut [u8]) -> Result<u64, Refusal>
    ensures answer { told result ≡ list_of page.old input.now }
    ensures kept { page.new ≡ page_left page.old input.now }
{
    if page.len() < LONGEST {
        return Err(Refusal(25));
    }
    let mut listing = Page { bytes: page, at: 0 };
    said(&mut listing, input);
    Ok(listing.at as u64)
}
