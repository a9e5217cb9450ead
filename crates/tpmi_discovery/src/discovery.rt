// Discovery: the table located, then the faults 8 to 11 of its entries.
ghost use Rattle.std.specs.Prelude.{◌≡◌};
ghost use Rattle.capture.specs.Capture.{capture_of};
ghost use Rattle.tpmi_discovery.specs.Discovery.{discovery_of};
ghost use Rattle.tpmi_discovery.specs.Told.{told};

use crate::table::{Table, locate};
use capture::places::Capture;
use tpmi_banks::faults::Entries;
use words::answers::Refusal;

// The table of an accepted capture.
pub fn discover(capture: Capture) -> Result<Table, Refusal>
    ensures answer { told result ≡ discovery_of (capture_of capture.entry) }
{
    let t = locate(capture)?;
    let entries = Entries {
        bar: capture.bar(t.bir),
        table: t.start,
    };
    entries.faults(t.entries)?;
    Ok(t)
}
