// A worked night of energy readings, with the wattmeter's sum beside the meter's. The calls are those of energy_account's specs/Night.antt, one
// line for each with what came; the wattmeter sums the whole counts, which no call is handed. After it document 01's bench cases of a gap and of a
// turnover.
#![tactic(auto)]

use energy_calls::calls::{Call, Reading, opening_of, reading_of};
use energy_channel::channel::Channel;
use energy_hall::hall;
use energy_hall::hall::HallAfter;
use report::endings::{refusal, value};
use std::io;
use text::page::Page;
use words::answers::Refusal;

// A line, on a page that has room for the longest, whatever the numbers: 161 bytes.
fn say<F: FnOnce(&mut Page)>(rt: &impl Print, line: F) -> io::Result<()>
    requires { F.IsAlwaysCallable line }
{
    let mut bytes = [0u8; 161];
    let mut page = Page {
        bytes: &mut bytes,
        at: 0,
    };
    line(&mut page);
    rt.write_all(page.shown())
}

fn seen_text(page: &mut Page, seen: Reading) {
    page.labelled(b" tick ", seen.tick);
    page.labelled(b" register ", seen.status);
    page.labelled(b" boot ", u64::from(seen.boot));
}

// A call, at the start of its line.
fn call_text(page: &mut Page, n: usize, call: Call) {
    match call {
        Call::Open(asked) => {
            page.labelled(b"open ", n as u64);
            page.labelled(b" unit ", asked.unit);
            page.labelled(b" gap ", u64::from(asked.gap));
            seen_text(page, asked.seen);
        }
        Call::Read(seen) => {
            page.labelled(b"read ", n as u64);
            seen_text(page, seen);
        }
        Call::Resume(seen) => {
            page.labelled(b"resume ", n as u64);
            seen_text(page, seen);
        }
        Call::Close => page.labelled(b"close ", n as u64),
        Call::Ask => page.labelled(b"total ", n as u64),
    }
}

// What came, at the end of its line.
fn answer_text(page: &mut Page, answer: Result<Option<u64>, Refusal>) {
    match answer {
        Ok(None) => page.put(b": accepted\n"),
        Ok(Some(t)) => value(page, Ok(t)),
        Err(r) => refusal(page, r),
    }
}

// Words, a number, and what came.
fn say_answer(
    rt: &impl Print,
    words: &[u8],
    n: u64,
    answer: Result<Option<u64>, Refusal>,
) -> io::Result<()> {
    say(rt, |page| {
        page.labelled(words, n);
        answer_text(page, answer);
    })
}

// Calls, each on a channel: what each answered, and what they leave of the channels.
fn run(rt: &impl Print, channels: &mut [Channel; 64], calls: &[(usize, Call)]) -> io::Result<()> {
    for (n, call) in calls {
        let HallAfter {
            channels: left,
            answer,
        } = hall::call_on(*channels, *n, *call);
        say(rt, |page| {
            call_text(page, *n, *call);
            answer_text(page, answer);
        })?;
        *channels = left;
    }
    Ok(())
}

fn opening(unit: u64, gap: u32, tick: u64, status: u64, boot: u32) -> Call {
    Call::Open(opening_of(unit, gap, tick, status, boot))
}

fn reading(tick: u64, status: u64, boot: u32) -> Call {
    Call::Read(reading_of(tick, status, boot))
}

fn resumption(tick: u64, status: u64, boot: u32) -> Call {
    Call::Resume(reading_of(tick, status, boot))
}

// Two turnovers, a gap and a resumption. Then the machine restarts: its counter goes to 0, under boot number 1.
fn evening(rt: &impl Print, channels: &mut [Channel; 64]) -> io::Result<()> {
    run(
        rt,
        channels,
        &[
            (3, opening(14, 1000, 5000, 4294967280, 0)),
            (3, reading(6000, 16, 0)),
            (3, reading(6001, 16, 0)),
            (3, reading(6500, 15, 0)),
            (3, reading(6500, 99, 0)),
            (3, reading(7501, 99, 0)),
            (3, resumption(90000, 5, 0)),
            (3, reading(90500, 12, 0)),
            (3, reading(91000, 0, 1)),
            (3, reading(90500, 0, 1)),
            (3, resumption(91000, 0, 1)),
            (3, reading(91500, 250, 1)),
        ],
    )
}

// Another machine, under boot number 9; a channel that is not there, and a closed one.
fn others(rt: &impl Print, channels: &mut [Channel; 64]) -> io::Result<()> {
    run(
        rt,
        channels,
        &[
            (5, opening(14, 3600000, 0, 7, 9)),
            (5, reading(3600000, 1007, 0)),
            (5, reading(3600000, 1007, 9)),
            (64, reading(1, 0, 0)),
            (7, Call::Close),
        ],
    )
}

// The rises of channel 3's whole count into its accepted readings: over the first turnover, none, over the second, after the resumption,
// and after the restart, from 0.
fn wattmeter() -> u64 {
    let first: u64 = 4294967312 - 4294967280;
    let second: u64 = 4294967312 - 4294967312;
    let third: u64 = 8589934607 - 4294967312;
    let fourth: u64 = 1099511627788 - 1099511627781;
    let last: u64 = 250 - 0;
    first + second + third + fourth + last
}

// Gap limit 1,000 and last tick 5,000: 6,001 and 5,000 are refused, 6,000 is not. ENERGY is bits 31:0; TIME, bits 63:32, is not counted.
fn bench(rt: &impl Print, channels: &mut [Channel; 64]) -> io::Result<()> {
    run(
        rt,
        channels,
        &[
            (8, opening(14, 1000, 5000, 0x0000_0001_FFFF_FFF0, 0)),
            (8, reading(6001, 0x0000_0002_0000_0010, 0)),
            (8, reading(5000, 0x0000_0002_0000_0010, 0)),
            (8, reading(6000, 0x0000_0002_0000_0010, 0)),
            (8, Call::Ask),
        ],
    )
}

fn hall_total(rt: &impl Print, channels: [Channel; 64], unit: u64) -> io::Result<()> {
    say_answer(
        rt,
        b"hall total of unit ",
        unit,
        hall::hall_total(channels, unit),
    )
}

fn main(rt: HostRuntime) -> io::Result<()> {
    let mut channels = hall::all_closed();
    evening(&rt, &mut channels)?;
    others(&rt, &mut channels)?;
    run(&rt, &mut channels, &[(3, Call::Ask)])?;
    say_answer(&rt, b"wattmeter ", 3, Ok(Some(wattmeter())))?;
    run(&rt, &mut channels, &[(5, Call::Ask)])?;
    hall_total(&rt, channels, 14)?;
    bench(&rt, &mut channels)?;
    hall_total(&rt, channels, 14)?;
    hall_total(&rt, channels, 32)
}
