// Entry k of an accepted capture's table, empty or not.
ghost use Rattle.std.specs.Prelude.{◌≡◌};
ghost use Rattle.capture.specs.Capture.{capture_of};
ghost use Rattle.tpmi_entries.specs.Told.{told};
ghost use Rattle.tpmi_features.specs.Entries.{entry_for};

use capture::places::Capture;
use tpmi_discovery::discovery::discover;
use tpmi_entries::entry::{Entry, entry_at};
use words::answers::Refusal;

pub fn entry(capture: Capture, k: u8) -> Result<Entry, Refusal>
    ensures answer { told result ≡ entry_for (capture_of capture.entry) k }
{
    let t = discover(capture)?;
    if t.entries <= k {
        return Err(Refusal(12));
    }
    let at = t.start as usize + usize::from(k) * 8;
    Ok(entry_at(capture.bar(t.bir), at))
}
