// An exchange over the mailbox, a step at a time: the host reads interface and data, hands them in, and stores what the step says. One step is
// one test of RUN_BUSY.
ghost use Rattle.std.specs.Prelude.{◌≡◌, false};
ghost use Rattle.words.specs.Told as words;
ghost use Rattle.reasons_registers.specs.MailboxInterface.{written_of};
ghost use Rattle.reasons_mailbox.specs.declared.mailbox.Mailbox.TheVariants.{Over};
ghost use Rattle.reasons_mailbox.specs.Mailbox.{exchange_of, outside, begun_of, is_busy, asks, stores, ended, next, last_test, to_store, taken, starts_of, ends_of, step_of, told_begun, told_reply, told};

use reasons_registers::mailbox_interface::Interface;
use words::answers::Refusal;

// The commands by name, and no enum of two: a start takes any number, and refuses the others with 17.
pub const READ: u64 = 0;

pub const WRITE: u64 = 1;

// What is asked, and how many tests in a row were busy in the wait that goes on.
#[derive(Clone, Copy)]
pub struct Exchange {
    pub command: u64,
    pub domain: u64,
    pub id: u64,
    // what a write stores in the mailbox's data; a read does not look at it
    pub reasons: u64,
    // how many busy tests in a row end the exchange
    pub tests: u64,
    pub busy: u64,
}

// The phases: waiting for RUN_BUSY to read 0 so that it can start, waiting for it to read 0 again, over (ended, or 30).
#[derive(Clone, Copy)]
pub enum Mailbox {
    Starting(Exchange),
    Ending(Exchange),
    Over,
}

// What a step says: test again; store the interface word, or first the data and then the word; ended, a read with the data; 30; or, where the
// exchange was over before, nothing.
#[derive(Clone, Copy)]
pub enum Reply {
    Waits,
    Store(u64),
    StoreBoth(u64, u64),
    Read(u64),
    Written,
    Refused(u8),
    Nothing,
}

#[derive(Clone, Copy)]
pub struct Stepped {
    pub state: Mailbox,
    pub reply: Reply,
}

// A number that no exchange has: a command that is neither read nor write, a domain or an identifier that does not fit the interface, or no
// number of tests from 1 to 1,000.
#[tactic(auto, unfolding(crate::specs::Mailbox::outside))]
fn outside(e: Exchange) -> bool
    ensures answer { result ≡ outside e }
{
    WRITE < e.command || 15 < e.domain || 255 < e.id || e.tests < 1 || 1000 < e.tests
}

// A read or a write, of any domain and identifier that fit; 17 where a number lies outside.
#[tactic(auto, unfolding(crate::specs::Mailbox::begun_of))]
pub fn start(
    command: u64,
    domain: u64,
    id: u64,
    reasons: u64,
    tests: u64,
) -> Result<Mailbox, Refusal>
    ensures answer { told_begun result ≡ begun_of (exchange_of command domain id reasons tests) }
{
    let e = Exchange {
        command,
        domain,
        id,
        reasons,
        tests,
        busy: 0,
    };
    if outside(e) {
        return Err(Refusal(17));
    }
    Ok(Mailbox::Starting(e))
}

// RUN_BUSY reads 1.
#[tactic(auto, unfolding(crate::specs::Mailbox::is_busy))]
fn is_busy(interface: u64) -> bool
    ensures answer { result ≡ is_busy interface }
{
    Interface::from(interface).busy == 1
}

// A busy test now is the last that the exchange waits for.
#[tactic(auto, unfolding(crate::specs::Mailbox::last_test))]
fn last_test(e: Exchange) -> bool
    ensures answer { result ≡ last_test e }
{
    e.tests.saturating_sub(e.busy) <= 1
}

// The interface's word that starts the exchange: reserved bits stay as they were read.
fn word_for(e: Exchange, interface: u64) -> Result<u64, Refusal>
    ensures answer { words.told result ≡ written_of (asks e interface) }
{
    u64::try_from(Interface {
        command: e.command,
        domain: e.domain,
        id: e.id,
        busy: 1,
        ..Interface::from(interface)
    })
}

// What the host stores to start: a write's data go first.
fn store(e: Exchange, word: u64) -> Reply
    ensures answer { told_reply result ≡ stores (to_store e word) }
{
    if e.command == READ {
        Reply::Store(word)
    } else {
        Reply::StoreBoth(e.reasons, word)
    }
}

// How it ends: a read takes the data.
fn end(e: Exchange, reasons: u64) -> Reply
    ensures answer { told_reply result ≡ ended (taken e reasons) }
{
    if e.command == READ {
        Reply::Read(reasons)
    } else {
        Reply::Written
    }
}

// The exchange is over, and this is said.
fn over(reply: Reply) -> Stepped
    ensures answer { told result ≡ next Over (told_reply reply) }
{
    Stepped {
        state: Mailbox::Over,
        reply,
    }
}

// A step of the first wait.
#[tactic(auto, using(crate::proofs::MailboxLaws::starts_ways))]
fn starts(e: Exchange, interface: u64) -> Stepped
    requires { outside e ≡ false }
    ensures answer { told result ≡ starts_of e interface }
{
    if is_busy(interface) {
        if last_test(e) {
            return over(Reply::Refused(30));
        }
        return Stepped {
            state: Mailbox::Starting(Exchange {
                busy: e.busy + 1,
                ..e
            }),
            reply: Reply::Waits,
        };
    }
    let Ok(word) = word_for(e, interface) else {
        // The numbers of an exchange fit.
        return over(Reply::Nothing);
    };
    Stepped {
        state: Mailbox::Ending(Exchange { busy: 0, ..e }),
        reply: store(e, word),
    }
}

// A step of the second wait, which counts anew.
#[tactic(auto, using(crate::proofs::MailboxLaws::ends_ways))]
fn ends(e: Exchange, interface: u64, reasons: u64) -> Stepped
    requires { outside e ≡ false }
    ensures answer { told result ≡ ends_of e interface reasons }
{
    if !is_busy(interface) {
        return over(end(e, reasons));
    }
    if last_test(e) {
        return over(Reply::Refused(30));
    }
    Stepped {
        state: Mailbox::Ending(Exchange {
            busy: e.busy + 1,
            ..e
        }),
        reply: Reply::Waits,
    }
}

// One test of RUN_BUSY in the interface value that the host read; `reasons` is the data value that it read beside it. A state that no exchange
// leaves is over.
#[tactic(auto, using(crate::proofs::MailboxLaws::step_ways))]
pub fn step(m: Mailbox, interface: u64, reasons: u64) -> Stepped
    ensures answer { told result ≡ step_of m interface reasons }
{
    match m {
        Mailbox::Starting(e) if !outside(e) => starts(e, interface),
        Mailbox::Ending(e) if !outside(e) => ends(e, interface, reasons),
        _ => over(Reply::Nothing),
    }
}
