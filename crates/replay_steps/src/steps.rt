// Replay of recorded calls, a step at a time: each step takes bytes of a piece up to the end of the first record that is whole then.
ghost use Rattle.std.specs.Prelude.{◌≡◌, ◌+◌, ◌≤◌, true};
ghost use Rattle.records.specs.Machine.{keeps, after_by};
ghost use Rattle.replay_steps.specs.Steps.{most_bytes, acts, reader_of, told, begins, step_by, step_of, end_of};

use energy_channel::channel::Channel;
use energy_hall::hall::{HallAfter, all_closed, call_on};
use records::partial::{Partial, Rule, begin, gather};
use replay_trace::trace::{LENGTHS, Said, call_of};
use words::answers::Refusal;

// The channels as the records so far have left them, and the record that is being put together.
#[derive(Clone, Copy)]
pub struct Replay {
    pub channels: [Channel; 64],
    pub partial: Partial,
}

// A record's call, and what it answered.
#[derive(Clone, Copy)]
pub struct Reply {
    pub said: Said,
    pub answer: Result<Option<u64>, Refusal>,
}

// What a step came to: no record was whole yet, one was, or the replay is stopped, at this place.
#[derive(Clone, Copy)]
pub enum Outcome {
    Nothing,
    Replied(Reply),
    Stopped(u64),
}

// The replay after a step, and how many bytes of the piece it used.
#[derive(Clone, Copy)]
pub struct Stepped {
    pub state: Replay,
    pub used: usize,
    pub outcome: Outcome,
}

// 2^53 - 1, the bytes that a trace may have.
const MOST_BYTES: u64 = 9007199254740991;

// How the records of a trace are read.
const RULE: Rule<'static> = Rule {
    table: &LENGTHS,
    limit: MOST_BYTES,
};

// All channels closed, nothing of a record, place 0.
pub fn start() -> Replay
    ensures answer { reader_of result ≡ begins }
{
    Replay {
        channels: all_closed(),
        partial: begin(0),
    }
}

// No record was whole: stopped, or nothing yet.
fn standing(state: Replay, used: usize) -> Stepped
    ensures answer { told result ≡ step_by used (keeps state.channels state.partial) }
{
    let outcome = if state.partial.is_stopped(RULE) {
        Outcome::Stopped(state.partial.place)
    } else {
        Outcome::Nothing
    };
    Stepped {
        state,
        used,
        outcome,
    }
}

// A whole record: the call that it says, refused or not, and the next record begins where it ends.
fn done(state: Replay, used: usize) -> Stepped
    requires { (state.partial.held ≤ 32) × (state.partial.place + state.partial.held ≤ most_bytes) }
    ensures answer { told result ≡ step_by used (after_by acts state.channels true state.partial) }
{
    let Partial {
        place,
        held,
        bytes,
        ..
    } = state.partial;
    let Some(said) = call_of(&bytes[..held]) else {
        // A whole record always says a call, but nothing here supposes that it is whole.
        let partial = Partial {
            stopped: true,
            ..begin(place)
        };
        return standing(Replay { partial, ..state }, used);
    };
    let HallAfter { channels, answer } = call_on(state.channels, said.channel, said.call);
    Stepped {
        state: Replay {
            channels,
            partial: begin(place + held as u64),
        },
        used,
        outcome: Outcome::Replied(Reply { said, answer }),
    }
}

// The bytes of the piece up to the end of the first record that is whole then; all where none is, or where the replay is stopped.
pub fn step(s: Replay, piece: &[u8]) -> Stepped
    ensures answer { told result ≡ step_of (reader_of s) piece.now }
{
    let gathered = gather(RULE, s.partial, piece);
    let state = Replay {
        partial: gathered.partial,
        ..s
    };
    if gathered.whole {
        done(state, gathered.used)
    } else {
        standing(state, gathered.used)
    }
}

// The trace declared ended: an unfinished record stops the replay at its start.
pub fn ended(s: Replay) -> Stepped
    ensures answer { told result ≡ end_of (reader_of s) }
{
    let partial = s.partial.ended(RULE);
    standing(Replay { partial, ..s }, 0)
}
