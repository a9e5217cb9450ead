// The count of valid instances, by masks in 64-bit words whose ones are counted.
ghost use Rattle.std.specs.Prelude.{◌≡◌, not, ◌*◌, ◌≤◌, ◌<◌};
ghost use Rattle.fields.specs.Masks.{mask_of, onwards};
ghost use Rattle.tpmi_banks.specs.Faults.{bank_in};
ghost use Rattle.capture.specs.Capture.{capture_of};
ghost use Rattle.tpmi_features.specs.Instances.{invalid_at};
ghost use Rattle.tpmi_counts.specs.Valid.{valid_in, valid_count_in, valid_count_of};
ghost use Rattle.words.specs.Told.{told};

use capture::places::Capture;
use tpmi_banks::faults::Entries;
use tpmi_features::instances::feature;
use words::answers::Refusal;
use words::bytes::u64_at;

// The 8 bytes at a place are not all ones.
fn valid_at(bar: &[u8], at: usize) -> bool
    ensures answer { result ≡ not (invalid_at bar.now at) }
{
    u64_at(bar, at) != 0xFFFF_FFFF_FFFF_FFFF
}

// Bit k is set where instance first + k is valid, for the k below many.
fn mask(bar: &[u8], start: usize, size: usize, first: usize, many: usize) -> u64
    requires { (start < 17179869184) × (size < 1048576) × (first < 1024) × (many ≤ 64) }
    ensures answer { result ≡ mask_of (onwards (valid_in bar.now start size) first) many }
{
    let mut bits: u64 = 0;
    for k in 0..many {
        if valid_at(bar, start + (first + k) * size) {
            bits |= 1 << k;
        }
    }
    bits
}

// How many of so many instances are valid.
fn count_valid(bar: &[u8], start: usize, size: usize, count: usize) -> u64
    requires { (start < 17179869184) × (size < 1048576) × (count < 256) }
    ensures answer { result ≡ valid_count_in bar.now start size count }
{
    let mut total: u64 = 0;
    let mut first: usize = 0;
    // A word takes 64 instances, the last one those that are left.
    while first < count {
        let many = (count - first).min(64);
        total += u64::from(mask(bar, start, size, first, many).count_ones());
        first += many;
    }
    total
}

// The valid instances of the bank of entry k of a table.
pub fn valid_in(entries: Entries, k: u8) -> u64
    ensures answer { result ≡ valid_count_in entries.entry.bar.now (bank_in entries.entry.bar.now entries.entry.table k).start ((bank_in entries.entry.bar.now entries.entry.table k).words * 4) (bank_in entries.entry.bar.now entries.entry.table k).instances }
{
    let b = entries.bank_in(k);
    count_valid(
        entries.bar,
        b.start,
        b.words as usize * 4,
        b.instances as usize,
    )
}

// The valid instances of a feature.
pub fn valid_count(capture: Capture, id: u64) -> Result<u64, Refusal>
    ensures answer { told result ≡ valid_count_of (capture_of capture.entry) id }
{
    let bank = feature(capture, id)?;
    Ok(count_valid(
        capture.bar(bank.bir),
        bank.start,
        bank.size,
        bank.count as usize,
    ))
}
