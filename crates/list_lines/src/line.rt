// The line of one entry: a feature's numbers, or nothing for an empty entry.
ghost use Rattle.std.specs.Prelude.{◌≡◌};
ghost use Rattle.list_lines.specs.Line.{told, line_of};

use tpmi_banks::faults::{Entries, empty};
use tpmi_counts::valid::valid_in;

// A feature, as its line says it.
#[derive(Clone, Copy)]
pub struct Feature {
    pub id: u64,
    pub instances: u64,
    pub valid: u64,
    pub size: usize,
    pub start: usize,
}

// The line of entry k of a table; an empty entry has none.
pub fn line_of(entries: Entries, k: u8) -> Option<Feature>
    ensures answer { told result ≡ line_of entries.entry.bar.now entries.entry.table k }
{
    let b = entries.bank_in(k);
    if empty(b) {
        return None;
    }
    Some(Feature {
        id: b.id,
        instances: b.instances,
        valid: valid_in(entries, k),
        size: b.words as usize * 4,
        start: b.start,
    })
}
