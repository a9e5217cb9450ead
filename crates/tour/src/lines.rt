// The listing: of an input that is too short, and of entry 0 of the table; and a line of the clocks.
use crate::start::say;
use list_input::layout::low_in;
use list_lines::line::line_of;
use list_output::output::list;
use std::io;
use text::page::Page;
use tpmi_banks::faults::Entries;
use uncore_lines::clock_lines::refused_line;
use words::answers::Refusal;

pub(crate) fn listing(rt: &impl Print, config: &[u8], high: &[u8]) -> io::Result<()> {
    say(
        rt,
        "list_input: bytes of the first capture in an input without one",
        Ok(low_in(config).len() as u64),
    )?;
    let entries = Entries {
        bar: high,
        table: 2000,
    };
    say(
        rt,
        "list_lines: instances in the line of entry 0",
        Ok(line_of(entries, 0).map_or(0, |f| f.instances)),
    )?;
    let mut bytes = [0u8; 15810];
    say(
        rt,
        "list_output: bytes of that input's listing",
        list(config, &mut bytes),
    )?;
    let mut page = Page {
        bytes: &mut bytes,
        at: 0,
    };
    refused_line(&mut page, 1, Refusal(14));
    say(
        rt,
        "uncore_lines: bytes of the line of a refused cluster",
        Ok(page.at as u64),
    )
}
