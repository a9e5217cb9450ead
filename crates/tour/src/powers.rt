// RAPL: a domain in the bytes of an instance, over a capture, and the write of a limit.
use crate::start::{say, say_refusal};
use capture::places::{Capture, Place};
use rapl_chains::chains::chain_in;
use rapl_domains::domains::domain_in;
use rapl_limits::limit::Limit;
use rapl_lookups::lookups::chain;
use rapl_permits::permits::{PWR_LIM, span_of};
use rapl_registers::contents::register_in;
use rapl_units::units::Units;
use rapl_windows::windows::window_code;
use rapl_writes::write;
use std::io;

// The same place by hand, so that the bytes of the instance are at hand too.
pub(crate) fn domains(rt: &impl Print, capture: Capture) -> io::Result<()> {
    let s = capture.part(Place {
        bir: 1,
        start: 6096,
        size: 128,
        count: 1,
    });
    say_refusal(
        rt,
        "rapl_domains: the refusal of domain 0, or 0",
        domain_in(s, 0),
    )?;
    say(rt, "rapl_registers: register 1 of it", register_in(s, 0, 1))?;
    say(rt, "rapl_chains: steps to its root", chain_in(s, 0))
}

pub(crate) fn registers(rt: &impl Print, capture: Capture) -> io::Result<()> {
    say(
        rt,
        "rapl_lookups: steps to its root, over the capture",
        chain(capture, 0, 0),
    )?;
    say(
        rt,
        "rapl_units: the time unit of 0xA383",
        Ok(Units::from(0xA383).time),
    )?;
    say(
        rt,
        "rapl_windows: the code of 1 ms at time unit 10",
        window_code(1, 10),
    )?;
    say(
        rt,
        "rapl_limits: the power of 0x40000000 01B803E8",
        Ok(Limit::from(0x4000_0000_01B8_03E8).power),
    )?;
    say(
        rt,
        "rapl_permits: bits of PWR_LIM",
        Ok(u64::from(span_of(PWR_LIM).width)),
    )
}

pub(crate) fn write(
    rt: &impl Print,
    config: &[u8],
    low: &mut [u8],
    high: &mut [u8],
) -> io::Result<()> {
    say_refusal(
        rt,
        "rapl_writes: the refusal of PWR_LIM 2000, or 0",
        write::write(config, 0, low, 1, high, 0, 0, 1, PWR_LIM, 2000),
    )
}
