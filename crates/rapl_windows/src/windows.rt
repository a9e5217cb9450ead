// Time window codes: X in bits 6:5, Y in bits 4:0. How long a code lasts, and the first code that lasts long enough.
ghost use Rattle.std.specs.Prelude.{◌≡◌, ◌≤◌};
ghost use Rattle.rapl_windows.specs.Windows.{quarters_of, asked, window_of};
ghost use Rattle.words.specs.Told.{told};

use fields::bits::field;
use words::answers::Refusal;

// How long a code lasts, in quarters of a time unit. Bits above the seven of a code are not looked at.
#[tactic(auto, using(crate::proofs::CodeLaws::quarters_ways), unfolding(crate::specs::Windows::quarters_of))]
pub fn quarters(code: u64) -> u64
    ensures answer { result ≡ quarters_of code }
{
    let x = field(code, 5, 2);
    let y = field(code, 0, 5);
    (4 + x) << y
}

// What is asked for, in thousandths of a quarter of a time unit.
fn wanted(ms: u32, unit: u64) -> u64
    requires { unit ≤ 15 }
    ensures answer { result ≡ asked ms unit }
{
    (u64::from(ms) * 4) << unit
}

// The first code, Y rising and X rising inside it, that lasts at least `ms` milliseconds. Two nested loops left by a label: a form that
// document 01 prescribes for this search.
#[tactic(auto, using(crate::proofs::CodeLaws::code_ways))]
pub fn window_code(ms: u32, unit: u64) -> Result<u64, Refusal>
    ensures answer { told result ≡ window_of ms unit }
{
    if 15 < unit {
        return Err(Refusal(17));
    }
    let least = wanted(ms, unit);
    // Stands until a code is found.
    let mut answer = Err(Refusal(19));
    'search: for y in 0..32 {
        for x in 0..4 {
            let code = x * 32 + y;
            if least <= quarters(code) * 1000 {
                answer = Ok(code);
                break 'search;
            }
        }
    }
    answer
}
