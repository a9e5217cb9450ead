// Fabric clusters over a capture: the instance of feature 2 is looked up afresh (1 to 13), then asked.
ghost use Rattle.std.specs.Prelude.{◌≡◌};
ghost use Rattle.capture.specs.Capture.{capture_of};
ghost use Rattle.words.specs.Told as words;
ghost use Rattle.capture.specs.Told.{told};
ghost use Rattle.uncore_lookups.specs.Fabric.{clusters_for, global_for, place_for, content_for};

use capture::places::{Capture, Place};
use tpmi_features::instances::instance_place;
use uncore_clusters::clusters::{clusters_in, content_in, fabric_in, place_in};
use words::answers::Refusal;

// The number of clusters of instance i.
pub fn clusters(capture: Capture, i: u64) -> Result<u64, Refusal>
    ensures answer { words.told result ≡ clusters_for (capture_of capture.entry) i }
{
    let p = instance_place(capture, 2, i)?;
    Ok(clusters_in(capture.part(p)))
}

// The global fabric number of local cluster n, where instance i is that of the die.
pub fn global(capture: Capture, i: u64, die: u64, n: u64) -> Result<u64, Refusal>
    ensures answer { words.told result ≡ global_for (capture_of capture.entry) i die n }
{
    let p = instance_place(capture, 2, i)?;
    fabric_in(capture.part(p), die, n)
}

// Where register r of local cluster n stands in the BAR capture.
pub fn place(capture: Capture, i: u64, die: u64, n: u64, r: u64) -> Result<Place, Refusal>
    ensures answer { told result ≡ place_for (capture_of capture.entry) i die n r }
{
    let p = instance_place(capture, 2, i)?;
    let at = place_in(capture.part(p), die, n, r)?;
    Ok(Place {
        bir: p.bir,
        start: p.start + at as usize,
        size: 8,
        count: 1,
    })
}

// Its content.
pub fn content(capture: Capture, i: u64, die: u64, n: u64, r: u64) -> Result<u64, Refusal>
    ensures answer { words.told result ≡ content_for (capture_of capture.entry) i die n r }
{
    let p = instance_place(capture, 2, i)?;
    content_in(capture.part(p), die, n, r)
}
