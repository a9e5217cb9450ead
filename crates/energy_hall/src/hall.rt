// The 64 channels of a hall, in and out of each call by value.
ghost use Rattle.std.specs.Prelude.{◌≡◌};
ghost use Rattle.energy_calls.specs.Calls.{told};
ghost use Rattle.energy_hall.specs.Hall.{all_closed, answer_on, leaves_on, hall_total};

use energy_calls::calls::{Call, Opening, Reading};
use energy_channel::channel::{Channel, closed_channel};
use words::answers::Refusal;

// The channels after a call, and the call's answer.
#[derive(Clone, Copy)]
pub struct HallAfter {
    pub channels: [Channel; 64],
    pub answer: Result<Option<u64>, Refusal>,
}

// All channels closed, as they are at first.
pub fn all_closed() -> [Channel; 64]
    ensures answer { result ≡ all_closed }
{
    [closed_channel(); 64]
}

// Any call on channel n: 12 where there is none, else what the call does to that channel, put back in its place.
#[tactic(auto, using(crate::proofs::HallLaws::answer_12, crate::proofs::HallLaws::answer_own, crate::proofs::HallLaws::leaves_12, crate::proofs::HallLaws::leaves_own))]
pub fn call_on(mut channels: [Channel; 64], n: usize, call: Call) -> HallAfter
    ensures answer { told result.answer ≡ answer_on channels n call }
    ensures kept { result.channels ≡ leaves_on channels n call }
{
    if n >= channels.len() {
        return HallAfter {
            channels,
            answer: Err(Refusal(12)),
        };
    }
    let after = channels[n].take(call);
    channels[n] = after.channel;
    HallAfter {
        channels,
        answer: after.answer,
    }
}

pub fn open(channels: [Channel; 64], n: usize, asked: Opening) -> HallAfter
    ensures answer { told result.answer ≡ answer_on channels n (Call.Open asked) }
    ensures kept { result.channels ≡ leaves_on channels n (Call.Open asked) }
{
    call_on(channels, n, Call::Open(asked))
}

pub fn read(channels: [Channel; 64], n: usize, seen: Reading) -> HallAfter
    ensures answer { told result.answer ≡ answer_on channels n (Call.Read seen) }
    ensures kept { result.channels ≡ leaves_on channels n (Call.Read seen) }
{
    call_on(channels, n, Call::Read(seen))
}

pub fn resume(channels: [Channel; 64], n: usize, seen: Reading) -> HallAfter
    ensures answer { told result.answer ≡ answer_on channels n (Call.Resume seen) }
    ensures kept { result.channels ≡ leaves_on channels n (Call.Resume seen) }
{
    call_on(channels, n, Call::Resume(seen))
}

// Closing gives the total.
pub fn close(channels: [Channel; 64], n: usize) -> HallAfter
    ensures answer { told result.answer ≡ answer_on channels n Call.Close }
    ensures kept { result.channels ≡ leaves_on channels n Call.Close }
{
    call_on(channels, n, Call::Close)
}

// Asking changes no channel, so none comes back.
pub fn total(channels: [Channel; 64], n: usize) -> Result<Option<u64>, Refusal>
    ensures answer { told result ≡ answer_on channels n Call.Ask }
{
    call_on(channels, n, Call::Ask).answer
}

// The sum over the open channels of one energy unit.
pub fn hall_total(channels: [Channel; 64], unit: u64) -> Result<Option<u64>, Refusal>
    ensures answer { told result ≡ hall_total channels unit }
{
    if unit > 31 {
        return Err(Refusal(17));
    }
    Ok(Some(channels.iter().map(|c| c.share(unit)).sum()))
}
