// Plays exchanges over the mailbox of the limit reasons from register values on standard input: a line for each exchange, a line for each
// of its tests, and the reasons of each read by name. The input is 64-bit numbers, lowest byte first. An exchange is five of them (command,
// domain, identifier, data, tests) and two for each test, the interface and the data that the host read; the next one starts where it is
// over, and one that is refused has no tests. After a read that ended `coarse` names bits 31:0 of the data as the mailbox gave them, `folded`
// what bits 63:32, the fine reasons, fold to. At the end come `unfinished` where an exchange is not over, then `unreadable` where bytes are
// left that are no whole start or test, then, where a read ended, `all`: what the fine bits of all that ended, of any domain, fold to,
// joined. An input of more than 65,536 bytes is too long, and nothing of it is played.
#![tactic(auto)]

ghost use Rattle.std.specs.Prelude.{◌≤◌, length, IfOk};

use reasons_fold::fold::{fold, joined};
use reasons_lines::reason_lines::{exchange_line, reasons_line, test_line};
use reasons_mailbox::mailbox::{Mailbox, Reply, start, step};
use reasons_registers::mailbox_data::MailboxData;
use std::io;
use std::io::Read;
use text::page::Page;
use words::bytes::u64_at;

const LONGEST: usize = 65536;

// A test has 16 bytes: no input has more of them.
const TESTS: u64 = 4096;

// A read that ended takes a start and two tests, 72 bytes: no input has more.
const READS: usize = 910;

// How an exchange's tests went: the bytes behind them, the state that they left, and the last reply.
#[derive(Clone, Copy)]
struct Exchanged<'a> {
    rest: &'a [u8],
    state: Mailbox,
    reply: Reply,
}

// How the input went: how many bytes were not played, that no exchange was left open, and how many reads ended.
#[derive(Clone, Copy)]
struct Course {
    left: usize,
    over: bool,
    reads: usize,
}

// A line, on a page that has room for the longest: 145 bytes (`ExchangeLineFact` of reasons_lines).
fn say<F: FnOnce(&mut Page)>(rt: &impl Print, line: F) -> io::Result<()>
    requires { F.IsAlwaysCallable line }
{
    let mut bytes = [0u8; 145];
    let mut page = Page {
        bytes: &mut bytes,
        at: 0,
    };
    line(&mut page);
    rt.write_all(page.shown())
}

fn say_reasons(rt: &impl Print, label: &[u8], coarse: u64) -> io::Result<()> {
    say(rt, |page| reasons_line(page, label, coarse))
}

// The exchange that five numbers ask for; one that is refused is over.
fn started(rt: &impl Print, head: &[u8]) -> io::Result<Mailbox> {
    let command = u64_at(head, 0);
    let domain = u64_at(head, 8);
    let id = u64_at(head, 16);
    let reasons = u64_at(head, 24);
    let tests = u64_at(head, 32);
    let begun = start(command, domain, id, reasons, tests);
    let came = begun.map(|_| ());
    say(rt, |page| {
        exchange_line(page, command, domain, id, reasons, tests, came)
    })?;
    Ok(begun.unwrap_or(Mailbox::Over))
}

fn is_over(m: Mailbox) -> bool {
    matches!(m, Mailbox::Over)
}

// The tests of an exchange, until it is over or no whole test is left.
fn all_tested<'a>(rt: &impl Print, bytes: &'a [u8], m: Mailbox) -> io::Result<Exchanged<'a>>
    ensures within { IfOk result (λ t. length t.rest.now ≤ length bytes.now) }
{
    let mut rest = bytes;
    let mut state = m;
    let mut reply = Reply::Nothing;
    for n in 1..=TESTS {
        if is_over(state) {
            break;
        }
        let Some((test, left)) = rest.split_at_checked(16) else {
            break;
        };
        let interface = u64_at(test, 0);
        let reasons = u64_at(test, 8);
        let s = step(state, interface, reasons);
        say(rt, |page| {
            test_line(page, n, interface, reasons, s.reply)
        })?;
        rest = left;
        state = s.state;
        reply = s.reply;
    }
    Ok(Exchanged { rest, state, reply })
}

// The reasons of a read that ended, by name.
fn say_halves(rt: &impl Print, reasons: u64) -> io::Result<()> {
    let halves = MailboxData::from(reasons);
    say_reasons(rt, b"coarse", halves.coarse)?;
    say_reasons(rt, b"folded", fold(halves.fine))
}

// The exchanges, one after the other. What the reads among them gave is kept in `reads`.
fn played(rt: &impl Print, bytes: &[u8], reads: &mut [u64]) -> io::Result<Course> {
    let mut rest = bytes;
    let mut over = true;
    let mut many = 0;
    while over && let Some((head, left)) = rest.split_at_checked(40) {
        let state = started(rt, head)?;
        let t = all_tested(rt, left, state)?;
        if let Reply::Read(reasons) = t.reply {
            say_halves(rt, reasons)?;
            if let Some(kept) = reads.get_mut(many) {
                *kept = reasons;
                many += 1;
            }
        }
        rest = t.rest;
        over = is_over(t.state);
    }
    Ok(Course {
        left: rest.len(),
        over,
        reads: many,
    })
}

fn main(rt: HostRuntime) -> io::Result<()> {
    // One byte more than an input may have.
    let mut bytes = Vec::new(rt.alloc());
    rt.reader().take(65537).read_to_end(&mut bytes)?;
    if bytes.len() > LONGEST {
        return say(&rt, |page| page.put(b"too long\n"));
    }
    let mut reads = [0u64; READS];
    let course = played(&rt, &bytes, &mut reads)?;
    if !course.over {
        say(&rt, |page| page.put(b"unfinished\n"))?;
    }
    if course.left > 0 {
        say(&rt, |page| page.put(b"unreadable\n"))?;
    }
    match reads.get(..course.reads) {
        None | Some([]) => Ok(()),
        Some(reads) => say_reasons(&rt, b"all", joined(reads)),
    }
}
