// What the records of a trace say: the call of a record, and the record of a call.
ghost use Rattle.std.specs.Prelude.{◌≡◌, ◌<◌, ◌^◌, get_or};
ghost use Rattle.records_body.specs.Facts.{Fit};
ghost use Rattle.words.specs.Told as words;
ghost use Rattle.replay_trace.specs.Trace.{row_of, call_on, says, told, opening_in, reading_in, meant, says_of, kind_by, kind_for, numbers_for, unsaid, write_of, written};

use energy_calls::calls::{Call, Opening, Reading};
use records::partial::length_of;
use records_body::body::{numbers, put_numbers};
use words::answers::Refusal;

// The bytes of a record of kind 0, 1, ..; 0 where there is no such kind. Kinds stay numbers: they are bytes of the file, and places in the
// tables; an enum would add a way there and back, and the same arms again.
pub const LENGTHS: [u8; 8] = [0, 23, 18, 18, 2, 27, 22, 22];

// A call and the channel that it names.
#[derive(Clone, Copy)]
pub struct Said {
    pub channel: usize,
    pub call: Call,
}

// The widths in bytes of the numbers of a record's body.
fn widths_of(kind: u8) -> [u8; 8]
    ensures answer { result ≡ row_of kind }
{
    match kind {
        // channel, energy unit, gap limit, tick, register
        1 => [1, 1, 4, 8, 8, 0, 0, 0],
        // channel, tick, register
        2 | 3 => [1, 8, 8, 0, 0, 0, 0, 0],
        // channel
        4 => [1, 0, 0, 0, 0, 0, 0, 0],
        // those of 1, 2 and 3, and the boot number
        5 => [1, 1, 4, 8, 8, 4, 0, 0],
        6 | 7 => [1, 8, 8, 4, 0, 0, 0, 0],
        _ => [0; 8],
    }
}

// The opening in the numbers of a body. A number that the kind does not have is 0, so an old kind's boot number is.
fn opening_in(values: [u64; 8]) -> Opening
    requires { (get_or values 2 0 < 2 ^ 32) × (get_or values 5 0 < 2 ^ 32) }
    ensures answer { result ≡ opening_in values }
{
    let [_, unit, gap, tick, status, boot, _, _] = values;
    Opening {
        unit,
        gap: gap as u32,
        seen: Reading {
            tick,
            status,
            boot: boot as u32,
        },
    }
}

// What is seen at a reading or a resumption, in the numbers of its body.
fn reading_in(values: [u64; 8]) -> Reading
    requires { get_or values 3 0 < 2 ^ 32 }
    ensures answer { result ≡ reading_in values }
{
    let [_, tick, status, boot, _, _, _, _] = values;
    Reading {
        tick,
        status,
        boot: boot as u32,
    }
}

// What a kind and the numbers of its body say.
#[tactic(auto, unfolding(crate::specs::Trace::meant))]
fn meant(kind: u8, values: [u64; 8]) -> Option<Said>
    requires { Fit (row_of kind) values }
    ensures answer { told result ≡ meant kind values }
{
    let call = match kind {
        1 | 5 => Call::Open(opening_in(values)),
        2 | 6 => Call::Read(reading_in(values)),
        3 | 7 => Call::Resume(reading_in(values)),
        4 => Call::Close,
        _ => return None,
    };
    Some(Said {
        channel: values[0] as usize,
        call,
    })
}

// The call that a whole record says; nothing where the bytes are no record.
pub fn call_of(bytes: &[u8]) -> Option<Said>
    ensures answer { told result ≡ says_of bytes.now }
{
    let kind = *bytes.first()?;
    if length_of(&LENGTHS, kind) != bytes.len() {
        return None;
    }
    meant(kind, numbers(widths_of(kind), bytes))
}

// The shorter of two kinds where the boot number is 0, which it then need not say.
fn kind_by(boot: u32, short: u8, long: u8) -> u8
    ensures answer { result ≡ kind_by boot short long }
{
    if boot == 0 { short } else { long }
}

// The kind of the shortest record that says a call; 0 for a question, which none says.
fn kind_of(call: Call) -> u8
    ensures answer { result ≡ kind_for call }
{
    match call {
        Call::Open(o) => kind_by(o.seen.boot, 1, 5),
        Call::Read(q) => kind_by(q.boot, 2, 6),
        Call::Resume(q) => kind_by(q.boot, 3, 7),
        Call::Close => 4,
        Call::Ask => 0,
    }
}

// The numbers of the body that says a call.
fn numbers_of(channel: usize, call: Call) -> [u64; 8]
    ensures answer { result ≡ numbers_for channel call }
{
    let n = channel as u64;
    match call {
        Call::Open(o) => [
            n,
            o.unit,
            u64::from(o.gap),
            o.seen.tick,
            o.seen.status,
            u64::from(o.seen.boot),
            0,
            0,
        ],
        Call::Read(q) | Call::Resume(q) => [n, q.tick, q.status, u64::from(q.boot), 0, 0, 0, 0],
        Call::Close => [n, 0, 0, 0, 0, 0, 0, 0],
        Call::Ask => [0; 8],
    }
}

// No record says the call.
#[tactic(auto, unfolding(crate::specs::Trace::unsaid))]
fn is_unsaid(channel: usize, call: Call) -> bool
    ensures answer { result ≡ unsaid (call_on channel call) }
{
    channel > 255
        || match call {
            Call::Open(o) => o.unit > 255,
            Call::Read(_) | Call::Resume(_) | Call::Close => false,
            Call::Ask => true,
        }
}

// The record of a call at the start of `out`, and how many bytes it has: 17 where no record says the call, 25 where `out` is shorter.
pub fn write_record(out: &mut [u8], channel: usize, call: Call) -> Result<u64, Refusal>
    ensures answer { words.told result ≡ write_of out.old (call_on channel call) }
    ensures kept { out.new ≡ written out.old (call_on channel call) }
{
    if is_unsaid(channel, call) {
        return Err(Refusal(17));
    }
    let kind = kind_of(call);
    let many = length_of(&LENGTHS, kind);
    if out.len() < many {
        return Err(Refusal(25));
    }
    out[0] = kind;
    put_numbers(out, widths_of(kind), numbers_of(channel, call));
    Ok(many as u64)
}
