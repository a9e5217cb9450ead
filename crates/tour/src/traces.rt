// A trace: the record of a closing written, taken apart, put together again, replayed, and the line of a stop.
use crate::start::{say, say_refusal};
use energy_calls::calls::Call;
use records::partial::{Rule, begin, gather};
use records_body::body::numbers;
use replay_lines::spoken::stop_line;
use replay_steps::steps::{Outcome, start, step};
use replay_trace::trace::{LENGTHS, write_record};
use std::io;
use text::page::Page;
use words::answers::Refusal;

// What the replay of a closed channel's closing answers.
fn replayed(bytes: &[u8]) -> Result<Option<u64>, Refusal> {
    match step(start(), bytes).outcome {
        Outcome::Replied(reply) => reply.answer,
        _ => Ok(None),
    }
}

pub(crate) fn replay(rt: &impl Print) -> io::Result<()> {
    let mut bytes = [0u8; 2];
    say(
        rt,
        "replay_trace: bytes of the record of a closing",
        write_record(&mut bytes, 7, Call::Close),
    )?;
    let [channel, ..] = numbers([1, 0, 0, 0, 0, 0, 0, 0], &bytes);
    say(rt, "records_body: the channel in it", Ok(channel))?;
    let rule = Rule {
        table: &LENGTHS,
        limit: 9007199254740991,
    };
    let gathered = gather(rule, begin(0), &bytes);
    say(
        rt,
        "records: bytes up to the end of the first record in it",
        Ok(gathered.used as u64),
    )?;
    say_refusal(
        rt,
        "replay_steps: the refusal of that closing, or 0",
        replayed(&bytes),
    )?;
    let mut line = [0u8; 32];
    let mut page = Page {
        bytes: &mut line,
        at: 0,
    };
    stop_line(&mut page, 63);
    say(
        rt,
        "replay_lines: bytes of the line of a stop at 63",
        Ok(page.at as u64),
    )
}
