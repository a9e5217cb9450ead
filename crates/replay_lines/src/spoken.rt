// What a replay says, on a page: the line of a record, the line of a stop, and the lines of the open channels.
ghost use Rattle.std.specs.Prelude.{◌≡◌};
ghost use Rattle.words.specs.Told as words;
ghost use Rattle.energy_calls.specs.Calls.{told};
ghost use Rattle.text.specs.Page.{Wrote};
ghost use Rattle.replay_lines.specs.Spoken.{number_runs, call_runs, answer_runs, record_runs, stop_runs, channel_runs, open_of, open_left};

use energy_calls::calls::Call;
use energy_channel::channel::Channel;
use text::page::Page;
use words::answers::Refusal;

// As long as 64 lines of 42 bytes: the text of open channels is no longer.
const LONGEST: usize = 2688;

// Words, a number, and the line's end.
fn number_end(page: &mut Page, words: &[u8], n: u64)
    ensures wrote { Wrote page.old page.new (number_runs words.now n) }
{
    page.labelled(words, n);
    page.put(b"\n");
}

// A call's word, and the channel that it names.
fn call_part(page: &mut Page, call: Call, channel: u64)
    ensures wrote { Wrote page.old page.new (call_runs call channel) }
{
    match call {
        Call::Open(_) => page.labelled(b" open ", channel),
        Call::Read(_) => page.labelled(b" read ", channel),
        Call::Resume(_) => page.labelled(b" resume ", channel),
        Call::Close => page.labelled(b" close ", channel),
        Call::Ask => page.labelled(b" ask ", channel),
    }
}

// What a call answered, and the line's end.
fn answer_part(page: &mut Page, answer: Result<Option<u64>, Refusal>)
    ensures wrote { Wrote page.old page.new (answer_runs (told answer)) }
{
    match answer {
        Ok(None) => page.put(b" accepted\n"),
        Ok(Some(t)) => number_end(page, b" total ", t),
        Err(Refusal(n)) => number_end(page, b" refused ", u64::from(n)),
    }
}

// The line of one record: where it starts, the call that it stands for, and what came.
pub fn record_line(
    page: &mut Page,
    place: u64,
    channel: usize,
    call: Call,
    answer: Result<Option<u64>, Refusal>,
)
    ensures wrote { Wrote page.old page.new (record_runs place channel call (told answer)) }
{
    page.decimal(place);
    call_part(page, call, channel as u64);
    answer_part(page, answer);
}

// The line of a stop: where the record starts that the replay stopped at.
pub fn stop_line(page: &mut Page, place: u64)
    ensures wrote { Wrote page.old page.new (stop_runs place) }
{
    number_end(page, b"stopped ", place);
}

// The line of channel n, which is c; nothing where it is not open.
#[tactic(auto, unfolding(crate::specs::Spoken::channel_runs))]
fn channel_line(page: &mut Page, n: usize, c: Channel)
    ensures wrote { Wrote page.old page.new (channel_runs n c) }
{
    if c.is_open() {
        page.labelled(b"channel ", n as u64);
        page.labelled(b" unit ", c.unit);
        number_end(page, b" total ", c.total);
    }
}

// How many bytes of the page the open channels take, a line each at the page's start; 25 where the page is shorter than the longest text.
// The page is lent as bytes and not as a `Page`: the contract, and `OpenFact` of specs/Facts with it, speak of all its bytes from the first on.
pub fn open_lines(page: &mut [u8], channels: [Channel; 64]) -> Result<u64, Refusal>
    ensures answer { words.told result ≡ open_of page.old channels }
    ensures kept { page.new ≡ open_left page.old channels }
{
    if page.len() < LONGEST {
        return Err(Refusal(25));
    }
    let mut lines = Page { bytes: page, at: 0 };
    for (n, c) in channels.iter().enumerate() {
        channel_line(&mut lines, n, *c);
    }
    Ok(lines.at as u64)
}
