// The walk of extended configuration space to its TPMI header. Total for any slice: it ends after 960 headers at most.
ghost use Rattle.std.specs.Prelude.{◌≡◌, ◌<◌};
ghost use Rattle.tpmi_walk.specs.Walk.{followed, taken_at, header_at, walk_of, Onward};
ghost use Rattle.tpmi_walk.specs.Told.{told};
ghost use Rattle.tpmi_walk.specs.Step as step;

use fields::bits::field;
use std::ops::ControlFlow;
use tpmi_structure::structure::{fixed_wrong, vsec_at};
use words::answers::Refusal;
use words::bytes::{u16_at, u32_at};

// Where a next offset leads. What one header says is a refusal, the place that is taken (`Break`), or where the next one stands (`Continue`).
fn follow(next: u64) -> Result<ControlFlow<usize, usize>, Refusal>
    requires { next < 4096 }
    ensures answer { step.told result ≡ followed next }
    ensures within { Onward (step.told result) 4096 }
{
    if next == 0 {
        return Err(Refusal(3));
    }
    if next < 0x100 || next % 4 != 0 {
        return Err(Refusal(4));
    }
    Ok(ControlFlow::Continue(next as usize))
}

// A TPMI header is taken, or refused, where it stands.
fn taken(config: &[u8], at: usize) -> Result<usize, Refusal>
    ensures answer { told result ≡ taken_at config.now at }
{
    if 4080 < at || fixed_wrong(vsec_at(config, at)) {
        return Err(Refusal(5));
    }
    Ok(at)
}

fn header(config: &[u8], at: usize) -> Result<ControlFlow<usize, usize>, Refusal>
    requires { at < 4096 }
    ensures answer { step.told result ≡ header_at config.now at }
    ensures within { Onward (step.told result) 4096 }
{
    let word = u64::from(u32_at(config, at));
    if field(word, 0, 16) == 0x000B {
        if 4088 < at {
            return Err(Refusal(5));
        }
        if u16_at(config, at + 4) == 0x42 {
            return Ok(ControlFlow::Break(taken(config, at)?));
        }
    }
    follow(field(word, 20, 12))
}

pub fn walk(config: &[u8]) -> Result<usize, Refusal>
    ensures answer { told result ≡ walk_of config.now }
{
    let word = u32_at(config, 0x100);
    if word == 0 || word == 0xFFFF_FFFF {
        return Err(Refusal(3));
    }
    let mut at: usize = 0x100;
    'headers: for _ in 0..960_u16 {
        match header(config, at)? {
            ControlFlow::Break(found) => return Ok(found),
            ControlFlow::Continue(next) => at = next,
        }
    }
    Err(Refusal(4))
}
