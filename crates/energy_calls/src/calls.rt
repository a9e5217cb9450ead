// What a call on a channel carries, and the number of what it answers.
ghost use Rattle.std.specs.Prelude.{◌≡◌};
ghost use Rattle.words.specs.Answers.{number_in};
ghost use Rattle.energy_calls.specs.Calls.{reading_of, opening_of, count_of, told};

use words::answers::Refusal;

// What is seen at a moment: the tick in ms, the status register, and the boot number of the machine, which each of its restarts changes.
#[derive(Clone, Copy)]
pub struct Reading {
    pub tick: u64,
    pub status: u64,
    pub boot: u32,
}

// What an opening is handed: energy unit, gap limit in ms, and what is seen.
#[derive(Clone, Copy)]
pub struct Opening {
    pub unit: u64,
    pub gap: u32,
    pub seen: Reading,
}

// A call on one channel. Ask is the question for its total.
#[derive(Clone, Copy)]
pub enum Call {
    Open(Opening),
    Read(Reading),
    Resume(Reading),
    Close,
    Ask,
}

pub fn reading_of(tick: u64, status: u64, boot: u32) -> Reading
    ensures answer { result ≡ reading_of tick status boot }
{
    Reading { tick, status, boot }
}

pub fn opening_of(unit: u64, gap: u32, tick: u64, status: u64, boot: u32) -> Opening
    ensures answer { result ≡ opening_of unit gap tick status boot }
{
    Opening {
        unit,
        gap,
        seen: reading_of(tick, status, boot),
    }
}

// The count is bits 31:0 of the status register.
#[tactic(auto, using(fields::proofs::FieldLaws::field_lt))]
pub fn count_of(status: u64) -> u32
    ensures answer { result ≡ count_of status }
{
    fields::bits::field(status, 0, 32) as u32
}

// The refusal's number, 0 where the call was accepted. Opening, reading and resuming give nothing, closing and asking a total: the number is 0
// beside either, and each is said for itself, which `words::answers::number_of` of any type can't.
pub fn number_of(answered: Result<Option<u64>, Refusal>) -> u8
    ensures answer { result ≡ number_in (told answered) }
{
    match answered {
        Ok(None) => 0,
        Ok(Some(_)) => 0,
        Err(refusal) => refusal.0,
    }
}
