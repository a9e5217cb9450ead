// What `reasons` says, on a page: a line of limit reasons by name, the line of an exchange, and the line of one of its tests.
ghost use Rattle.std.specs.Prelude.{◌≡◌, [], ◌∷◌};
ghost use Rattle.words.specs.Told.{refused_in};
ghost use Rattle.text.specs.Page.{Wrote};
ghost use Rattle.reasons_lines.specs.ReasonLines.{names_below, end_text, reasons_runs, asked_runs, exchange_runs, hex_runs, both_runs, reply_runs, test_runs};

use fields::bits::field;
use reasons_mailbox::mailbox::Reply;
use report::endings::{outcome, refusal};
use text::page::Page;
use words::answers::Refusal;

// The names of the coarse bits, bit 0's first.
const NAMES: [&[u8]; 10] = [
    b" FREQUENCY",
    b" CURRENT",
    b" POWER",
    b" THERMAL",
    b" PLATFORM",
    b" MCP",
    b" RAS",
    b" MISC",
    b" QOS",
    b" DFC",
];

// The names of the bits that are set, in the order of the bits.
fn names_part(page: &mut Page, coarse: u64)
    ensures wrote { Wrote page.old page.new (names_below coarse 10) }
{
    for (k, name) in NAMES.iter().enumerate() {
        if field(coarse, k as u32, 1) == 1 {
            page.put(name);
        }
    }
}

// The line's end, before it a word where a bit is set that has no name.
fn end_part(page: &mut Page, coarse: u64)
    ensures wrote { Wrote page.old page.new (end_text coarse ∷ []) }
{
    if field(coarse, 10, 54) == 0 {
        page.put(b"\n");
    } else {
        page.put(b" RESERVED\n");
    }
}

// A label, and the coarse reasons by name.
pub fn reasons_line(page: &mut Page, label: &[u8], coarse: u64)
    ensures wrote { Wrote page.old page.new (reasons_runs label.now coarse) }
{
    page.put(label);
    if coarse == 0 {
        return page.put(b" none\n");
    }
    names_part(page, coarse);
    end_part(page, coarse);
}

// What an exchange asks of which core.
fn asked_part(page: &mut Page, command: u64, domain: u64, id: u64)
    ensures wrote { Wrote page.old page.new (asked_runs command domain id) }
{
    page.labelled(b"command ", command);
    page.labelled(b" domain ", domain);
    page.labelled(b" id ", id);
}

// The line of an exchange as it was started, and what came. Its numbers come one by one and not as an `Exchange`: that has `busy` too, of which
// the line says nothing.
pub fn exchange_line(
    page: &mut Page,
    command: u64,
    domain: u64,
    id: u64,
    reasons: u64,
    tests: u64,
    came: Result<(), Refusal>,
)
    ensures wrote { Wrote page.old page.new (exchange_runs command domain id reasons tests (refused_in came)) }
{
    asked_part(page, command, domain, id);
    page.labelled_hex(b" data 0x", reasons);
    page.labelled(b" tests ", tests);
    outcome(page, came);
}

// Words, a number in hexadecimal, and the line's end.
fn hex_end(page: &mut Page, words: &[u8], x: u64)
    ensures wrote { Wrote page.old page.new (hex_runs words.now x) }
{
    page.labelled_hex(words, x);
    page.put(b"\n");
}

// What a write's start stores, in that order.
fn both_part(page: &mut Page, reasons: u64, word: u64)
    ensures wrote { Wrote page.old page.new (both_runs reasons word) }
{
    page.labelled_hex(b": store data 0x", reasons);
    hex_end(page, b", interface 0x", word);
}

// What a reply says, to the line's end.
fn reply_part(page: &mut Page, reply: Reply)
    ensures wrote { Wrote page.old page.new (reply_runs reply) }
{
    match reply {
        Reply::Waits => page.put(b": waits\n"),
        Reply::Store(word) => hex_end(page, b": store interface 0x", word),
        Reply::StoreBoth(reasons, word) => both_part(page, reasons, word),
        Reply::Read(reasons) => hex_end(page, b": read 0x", reasons),
        Reply::Written => page.put(b": written\n"),
        Reply::Refused(n) => refusal(page, Refusal(n)),
        Reply::Nothing => page.put(b": nothing\n"),
    }
}

// The line of test n of an exchange: what the host read in both registers, and what the step replied.
pub fn test_line(page: &mut Page, n: u64, interface: u64, reasons: u64, reply: Reply)
    ensures wrote { Wrote page.old page.new (test_runs n interface reasons reply) }
{
    page.labelled(b"test ", n);
    page.labelled_hex(b" interface 0x", interface);
    page.labelled_hex(b" data 0x", reasons);
    reply_part(page, reply);
}
