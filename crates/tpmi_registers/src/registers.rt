// A register of an instance: its place in the BAR capture, and its content.
ghost use Rattle.std.specs.Prelude.{◌≡◌};
ghost use Rattle.capture.specs.Capture.{capture_of};
ghost use Rattle.tpmi_registers.specs.Registers.{outside, register_place_of, register_of};
ghost use Rattle.words.specs.Told as words;
ghost use Rattle.capture.specs.Told.{told};

use capture::places::{Capture, Place};
use tpmi_features::instances::instance_place;
use words::answers::Refusal;
use words::bytes::u64_at;

// 14 where an offset is no multiple of 8, or its 8 bytes end past an instance of so many bytes.
fn inside(size: usize, offset: usize) -> Result<(), Refusal>
    ensures answer { words.done result ≡ words.passes (outside size offset) }
{
    if offset % 8 != 0 || size < 8 || size - 8 < offset {
        return Err(Refusal(14));
    }
    Ok(())
}

pub fn register_place(capture: Capture, id: u64, n: u64, offset: usize) -> Result<Place, Refusal>
    ensures answer { told result ≡ register_place_of (capture_of capture.entry) id n offset }
{
    let p = instance_place(capture, id, n)?;
    inside(p.size, offset)?;
    Ok(Place {
        bir: p.bir,
        start: p.start + offset,
        size: 8,
        count: 1,
    })
}

pub fn register(capture: Capture, id: u64, n: u64, offset: usize) -> Result<u64, Refusal>
    ensures answer { words.told result ≡ register_of (capture_of capture.entry) id n offset }
{
    let p = register_place(capture, id, n, offset)?;
    Ok(u64_at(capture.bar(p.bir), p.start))
}
