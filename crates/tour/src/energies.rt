// Energy: what a call carries, one channel, the hall, and a sweep of it.
use crate::start::{say, say_refusal};
use energy_calls::calls::{Call, opening_of, reading_of};
use energy_channel::channel::closed_channel;
use energy_hall::hall::{all_closed, total};
use std::io;
use sweep_lent::lent::sweep_own;
use sweep_readings::swept::{asked_of, unfit};

pub(crate) fn channels(rt: &impl Print) -> io::Result<()> {
    let asked = opening_of(14, 1000, 5000, 0, 0);
    say(
        rt,
        "energy_calls: the tick that an opening sees",
        Ok(asked.seen.tick),
    )?;
    say_refusal(
        rt,
        "energy_channel: the refusal of an opening, or 0",
        closed_channel().take(Call::Open(asked)).answer,
    )?;
    say_refusal(
        rt,
        "energy_hall: the refusal of a closed channel's total",
        total(all_closed(), 0),
    )
}

pub(crate) fn sweeps(rt: &impl Print) -> io::Result<()> {
    say_refusal(
        rt,
        "sweep_readings: the refusal of 65 readings",
        unfit(65, 64, 65),
    )?;
    let readings = [asked_of(7, reading_of(6000, 16, 0))];
    let mut answers = [0u8; 1];
    say_refusal(
        rt,
        "sweep_lent: the refusal of a sweep of one reading, or 0",
        sweep_own(all_closed(), &readings, &mut answers).outcome,
    )
}
