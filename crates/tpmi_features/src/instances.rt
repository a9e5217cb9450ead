// Features and their instances: a place, or the instance's bytes as a part of the BAR capture that holds them.
ghost use Rattle.std.specs.Prelude.{◌≡◌, not, ◌&&◌, eqb};
ghost use Rattle.tpmi_banks.specs.Faults.{empty_bank};
ghost use Rattle.capture.specs.Capture.{capture_of};
ghost use Rattle.tpmi_features.specs.Instances.{Roomy, feature_in, feature_of, instance_in, instance_of, instance_number, instance_part};
ghost use Rattle.capture.specs.Told.{told};

use capture::places::{Capture, Place};
use tpmi_banks::faults::{Bank, Entries, empty};
use tpmi_discovery::discovery::discover;
use tpmi_discovery::table;
use words::answers::{Refusal, number_of};
use words::bytes::u64_at;

// The bank is that of the feature.
fn held(b: Bank, id: u64) -> bool
    ensures answer { result ≡ (not (empty_bank b) && eqb b.id id) }
{
    !empty(b) && b.id == id
}

// The bank of the first entry that is the feature.
fn feature_in(entries: Entries, bir: u8, count: u8, id: u64) -> Result<Place, Refusal>
    ensures answer { told result ≡ feature_in entries.entry.bar.now bir entries.entry.table count id }
{
    for k in 0..count {
        let b = entries.bank_in(k);
        if held(b, id) {
            return Ok(Place {
                bir,
                start: b.start,
                size: b.words as usize * 4,
                count: b.instances,
            });
        }
    }
    Err(Refusal(12))
}

// The bank of a feature.
pub fn feature(capture: Capture, id: u64) -> Result<Place, Refusal>
    ensures answer { told result ≡ feature_of (capture_of capture.entry) id }
{
    let t = discover(capture)?;
    let entries = Entries {
        bar: capture.bar(t.bir),
        table: t.start,
    };
    feature_in(entries, t.bir, t.entries, id)
}

// Instance n of a bank.
fn instance_in(bar: &[u8], bank: Place, n: u64) -> Result<Place, Refusal>
    requires { Roomy bank }
    ensures answer { told result ≡ instance_in bar.now bank n }
{
    if bank.count <= n {
        return Err(Refusal(12));
    }
    let start = bank.start + n as usize * bank.size;
    if u64_at(bar, start) == 0xFFFF_FFFF_FFFF_FFFF {
        return Err(Refusal(13));
    }
    Ok(Place {
        bir: bank.bir,
        start,
        size: bank.size,
        count: 1,
    })
}

// The place of an instance.
pub fn instance_place(capture: Capture, id: u64, n: u64) -> Result<Place, Refusal>
    ensures answer { told result ≡ instance_of (capture_of capture.entry) id n }
{
    let bank = feature(capture, id)?;
    instance_in(capture.bar(bank.bir), bank, n)
}

// The bytes of an instance, a part of the BAR capture that tBIR names; the empty part where it is refused.
pub fn instance<'a>(capture: Capture<'_, 'a>, id: u64, n: u64) -> &'a [u8]
    ensures part { result.now ≡ instance_part (capture_of capture.entry) id n }
{
    match instance_place(capture, id, n) {
        Ok(place) => capture.part(place),
        Err(_) => &[],
    }
}

// The number of an instance's lookup, 0 where its bytes are handed back: `instance` itself can't be refused, since it has always given a part.
pub fn instance_number(capture: Capture, id: u64, n: u64) -> u8
    ensures answer { result ≡ instance_number (capture_of capture.entry) id n }
{
    number_of(instance_place(capture, id, n))
}
