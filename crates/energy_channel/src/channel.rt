// One energy channel: its record, and what each call does to it.
ghost use Rattle.std.specs.Prelude.{◌≡◌};
ghost use Rattle.words.specs.Answers.{refused};
ghost use Rattle.energy_calls.specs.Calls.{told};
ghost use Rattle.energy_channel.specs.Channel.{in_range, is_open, rise, noted, closed, answer_of, leaves, share};

use energy_calls::calls::{Call, Opening, Reading, count_of};
use words::answers::Refusal;

// What a channel holds: whether it says that it is open, what it was opened with, tick, count and boot number of the opening, reading or
// resumption accepted last, and the total since the opening. `live` stays a flag beside them, and no `Option` of the rest: `closed`, `noted` and
// the theorems of the accounts speak of a record whose fields are there whether it is open or not, and `is_open` of ranges besides.
#[derive(Clone, Copy)]
pub struct Channel {
    pub live: bool,
    pub unit: u64,
    pub gap: u32,
    pub tick: u64,
    pub count: u32,
    pub boot: u32,
    pub total: u64,
}

// A channel after a call, and the call's answer.
#[derive(Clone, Copy)]
pub struct After {
    pub channel: Channel,
    pub answer: Result<Option<u64>, Refusal>,
}

// 2^53 - 1, the largest total.
const MOST: u64 = 9007199254740991;

// Energy unit 0 to 31, gap limit 1 to 3,600,000 ms.
#[tactic(auto, unfolding(crate::specs::Channel::in_range))]
fn in_range(unit: u64, gap: u32) -> bool
    ensures answer { result ≡ in_range unit gap }
{
    unit <= 31 && 1 <= gap && gap <= 3600000
}

// A channel as all are at first and as closing leaves it.
pub fn closed_channel() -> Channel
    ensures answer { result ≡ closed }
{
    Channel {
        live: false,
        unit: 0,
        gap: 0,
        tick: 0,
        count: 0,
        boot: 0,
        total: 0,
    }
}

impl Channel {
    // A record that says it is open counts so only within its ranges.
    #[tactic(auto, unfolding(crate::specs::Channel::is_open))]
    pub fn is_open(self) -> bool
        ensures answer { result ≡ is_open self }
    {
        self.live && in_range(self.unit, self.gap) && self.total <= MOST
    }

    // (new count - last count) modulo 2^32.
    fn rise(self, status: u64) -> u64
        ensures answer { result ≡ rise self status }
    {
        u64::from(count_of(status).wrapping_sub(self.count))
    }

    // The channel with the count, tick and boot number that are seen, and a total.
    fn noted(self, seen: Reading, total: u64) -> Channel
        ensures answer { result ≡ noted self seen total }
    {
        Channel {
            tick: seen.tick,
            count: count_of(seen.status),
            boot: seen.boot,
            total,
            ..self
        }
    }

    // A refused call leaves the channel as it was.
    fn refused(self, number: u8) -> After
        ensures answer { told result.answer ≡ refused number }
        ensures kept { result.channel ≡ self }
    {
        After {
            channel: self,
            answer: Err(Refusal(number)),
        }
    }
}

// Each call tests in the order of its numbers here.
#[tactic(auto, unfolding(crate::specs::Channel::tests, crate::specs::Channel::values, crate::specs::Channel::taken, words::specs::Answers::first))]
impl Channel {
    // Tested 22, 17. From what is seen, and a total of 0.
    fn open(self, asked: Opening) -> After
        ensures answer { told result.answer ≡ answer_of self (Call.Open asked) }
        ensures kept { result.channel ≡ leaves self (Call.Open asked) }
    {
        if self.is_open() {
            return self.refused(22);
        }
        if !in_range(asked.unit, asked.gap) {
            return self.refused(17);
        }
        let opened = Channel {
            live: true,
            unit: asked.unit,
            gap: asked.gap,
            ..self
        };
        After {
            channel: opened.noted(asked.seen, 0),
            answer: Ok(None),
        }
    }

    // Tested 22, 29, 20, 21, 23. Adds the rise, and keeps the new count and tick; over a restart there is no rise to be had, since the
    // counter began anew.
    fn read(self, seen: Reading) -> After
        ensures answer { told result.answer ≡ answer_of self (Call.Read seen) }
        ensures kept { result.channel ≡ leaves self (Call.Read seen) }
    {
        if !self.is_open() {
            return self.refused(22);
        }
        if seen.boot != self.boot {
            return self.refused(29);
        }
        if seen.tick <= self.tick {
            return self.refused(20);
        }
        let gone = seen.tick - self.tick;
        if gone > u64::from(self.gap) {
            return self.refused(21);
        }
        let total = self.total + self.rise(seen.status);
        if total > MOST {
            return self.refused(23);
        }
        After {
            channel: self.noted(seen, total),
            answer: Ok(None),
        }
    }

    // Tested 22, 20. Replaces count, tick and boot number, and adds nothing.
    fn resume(self, seen: Reading) -> After
        ensures answer { told result.answer ≡ answer_of self (Call.Resume seen) }
        ensures kept { result.channel ≡ leaves self (Call.Resume seen) }
    {
        if !self.is_open() {
            return self.refused(22);
        }
        if seen.tick > self.tick {
            After {
                channel: self.noted(seen, self.total),
                answer: Ok(None),
            }
        } else {
            self.refused(20)
        }
    }

    // Tested 22. Gives the total, and closes.
    fn close(self) -> After
        ensures answer { told result.answer ≡ answer_of self Call.Close }
        ensures kept { result.channel ≡ leaves self Call.Close }
    {
        if self.is_open() {
            After {
                channel: closed_channel(),
                answer: Ok(Some(self.total)),
            }
        } else {
            self.refused(22)
        }
    }

    // Tested 22. Gives the total.
    fn ask(self) -> After
        ensures answer { told result.answer ≡ answer_of self Call.Ask }
        ensures kept { result.channel ≡ leaves self Call.Ask }
    {
        if self.is_open() {
            After {
                channel: self,
                answer: Ok(Some(self.total)),
            }
        } else {
            self.refused(22)
        }
    }
}

impl Channel {
    // Any call.
    pub fn take(self, call: Call) -> After
        ensures answer { told result.answer ≡ answer_of self call }
        ensures kept { result.channel ≡ leaves self call }
    {
        match call {
            Call::Open(asked) => self.open(asked),
            Call::Read(seen) => self.read(seen),
            Call::Resume(seen) => self.resume(seen),
            Call::Close => self.close(),
            Call::Ask => self.ask(),
        }
    }

    // What the channel adds to the hall total of one energy unit.
    #[tactic(auto, unfolding(crate::specs::Channel::share))]
    pub fn share(self, unit: u64) -> u64
        ensures answer { result ≡ share unit self }
    {
        if self.is_open() && self.unit == unit {
            self.total
        } else {
            0
        }
    }
}
