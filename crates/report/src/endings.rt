// The end of a line that says what came: a refusal, that something was taken, a number, a register's content, a place. Each is put on a
// page from its place on.
ghost use Rattle.std.specs.Prelude.{◌≡◌};
ghost use Rattle.words.specs.Told as words;
ghost use Rattle.words.specs.Told.{refused_in};
ghost use Rattle.capture.specs.Told.{told};
ghost use Rattle.text.specs.Page.{Wrote};
ghost use Rattle.report.specs.Endings.{refusal_runs, outcome_runs, value_runs, content_runs, place_runs};

use capture::places::Place;
use text::page::Page;
use words::answers::Refusal;

pub fn refusal(page: &mut Page, refusal: Refusal)
    ensures wrote { Wrote page.old page.new (refusal_runs refusal.0) }
{
    page.labelled(b": refused ", u64::from(refusal.0));
    page.put(b"\n");
}

// What came of a call that gives nothing: the number 0 is no refusal.
pub fn outcome(page: &mut Page, came: Result<(), Refusal>)
    ensures wrote { Wrote page.old page.new (outcome_runs (refused_in came)) }
{
    match came {
        Ok(()) | Err(Refusal(0)) => page.put(b": taken\n"),
        Err(r) => refusal(page, r),
    }
}

// A number in decimal.
pub fn value(page: &mut Page, came: Result<u64, Refusal>)
    ensures wrote { Wrote page.old page.new (value_runs (words.told came)) }
{
    match came {
        Ok(x) => {
            page.labelled(b": ", x);
            page.put(b"\n");
        }
        Err(r) => refusal(page, r),
    }
}

// A register's content in hexadecimal.
pub fn content(page: &mut Page, came: Result<u64, Refusal>)
    ensures wrote { Wrote page.old page.new (content_runs (words.told came)) }
{
    match came {
        Ok(x) => {
            page.labelled_hex(b": 0x", x);
            page.put(b"\n");
        }
        Err(r) => refusal(page, r),
    }
}

// A place: BAR number, start, how many pieces of how many bytes.
pub fn place(page: &mut Page, found: Result<Place, Refusal>)
    ensures wrote { Wrote page.old page.new (place_runs (told found)) }
{
    match found {
        Ok(p) => {
            page.labelled(b": BAR ", u64::from(p.bir));
            page.labelled(b" at ", p.start as u64);
            page.labelled(b", ", p.count);
            page.labelled(b" of ", p.size as u64);
            page.put(b" bytes\n");
        }
        Err(r) => refusal(page, r),
    }
}
