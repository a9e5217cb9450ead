// Lists the features of a capture on standard input, or says why it does not.
#![tactic(auto)]

use list_output::output::list;
use std::io;
use std::io::Read;
use text::page::shown;

fn main(rt: HostRuntime) -> io::Result<()> {
    // The longest input that is looked at: a configuration space and two captures of 65,536 bytes with their heads.
    let mut input = Vec::new(rt.alloc());
    rt.reader().take(135178).read_to_end(&mut input)?;
    // As long as the longest listing, so that none is refused.
    let mut page = [0u8; 15810];
    let many = list(&input, &mut page).unwrap_or(0) as usize;
    rt.write_all(shown(&page, many))
}
