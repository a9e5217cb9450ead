// A caller's example, as README shows it: a capture in, the first power limit of a domain out, in the domain's power units, or the refusal.
use capture::places::Capture;
use rapl_limits::limit::Limit;
use rapl_lookups::lookups;
use words::answers::Refusal;

pub(crate) fn limit_1(capture: Capture, n: u64) -> Result<u64, Refusal> {
    let register = lookups::register(capture, 0, n, 2)?;
    Ok(Limit::from(register).power)
}
