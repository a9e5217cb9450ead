// A line, on a page of its own that is written out at once, so that no caller lends one.
use std::io;
use text::page::Page;

// The page has room for the longest, whatever the numbers: 329 bytes, of a control's fields.
pub(crate) fn say<F: FnOnce(&mut Page)>(rt: &impl Print, line: F) -> io::Result<()>
    requires { F.IsAlwaysCallable line }
{
    let mut bytes = [0u8; 329];
    let mut page = Page {
        bytes: &mut bytes,
        at: 0,
    };
    line(&mut page);
    rt.write_all(page.shown())
}
