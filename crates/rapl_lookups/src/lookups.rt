// Domains over a capture: the instance is looked up afresh (1 to 13), then asked. Domains are those of feature 0.
ghost use Rattle.std.specs.Prelude.{◌≡◌};
ghost use Rattle.capture.specs.Capture.{capture_of};
ghost use Rattle.words.specs.Told as words;
ghost use Rattle.rapl_lookups.specs.Lookups.{domain_for, content_for, chain_for};
ghost use Rattle.rapl_domains.specs.Told.{told};

use capture::places::Capture;
use rapl_chains::chains::chain_in;
use rapl_domains::domains::{Header, domain_in};
use rapl_registers::contents::register_in;
use tpmi_features::instances::instance_place;
use words::answers::{Refusal, number_of};

// Domain n of instance i. The instance's refusal, 13 and those before it, is a stage of this lookup as 12, 15 and 16 are: taken apart by
// `let .. else` and returned at once, a form that document 01 prescribes for it.
pub fn domain(capture: Capture, i: u64, n: u64) -> Result<Header, Refusal>
    ensures answer { told result ≡ domain_for (capture_of capture.entry) i n }
{
    let placed = instance_place(capture, 0, i);
    let Ok(p) = placed else {
        return Err(Refusal(number_of(placed)));
    };
    domain_in(capture.part(p), n)
}

// The content of register r of domain n.
pub fn register(capture: Capture, i: u64, n: u64, r: u64) -> Result<u64, Refusal>
    ensures answer { words.told result ≡ content_for (capture_of capture.entry) i n r }
{
    let p = instance_place(capture, 0, i)?;
    register_in(capture.part(p), n, r)
}

// The length of domain n's parent chain.
pub fn chain(capture: Capture, i: u64, n: u64) -> Result<u64, Refusal>
    ensures answer { words.told result ≡ chain_for (capture_of capture.entry) i n }
{
    let p = instance_place(capture, 0, i)?;
    chain_in(capture.part(p), n)
}
