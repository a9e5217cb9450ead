// A field of a number: `width` bits from place `at`, read and written.
ghost use Rattle.std.specs.Prelude.{◌≡◌, ◌*◌, ◌/◌, ◌%◌, ◌^◌};
ghost use Rattle.fields.specs.Bits.{field, field_stored};

// What stands from place `at` on.
#[tactic(auto, using(crate::proofs::Shifts::shr_out))]
fn above(x: u64, at: u32) -> u64
    ensures answer { result ≡ x / 2 ^ at }
{
    x.checked_shr(at).unwrap_or(0)
}

// The `width` low bits.
#[tactic(auto, using(crate::proofs::Shifts::mod_out))]
fn low(x: u64, width: u32) -> u64
    ensures answer { result ≡ x % 2 ^ width }
{
    if width < 64 { x % (1 << width) } else { x }
}

// `x` moved up to place `at`; what passes bit 63 is lost.
#[tactic(auto, using(crate::proofs::Shifts::shl_out))]
fn moved(x: u64, at: u32) -> u64
    ensures answer { result ≡ x * 2 ^ at % 2 ^ 64 }
{
    x.checked_shl(at).unwrap_or(0)
}

// The field of `x`; bits past 63 read 0.
#[tactic(auto, unfolding(crate::specs::Bits::field))]
pub fn field(x: u64, at: u32, width: u32) -> u64
    ensures answer { result ≡ field at width x }
{
    low(above(x, at), width)
}

// `x` with the low bits of `v` in the field; `x` itself where the field passes bit 63.
pub fn with_field(x: u64, at: u32, width: u32, v: u64) -> u64
    ensures answer { result ≡ field_stored 64 at width x v }
{
    if 64 < at || 64 - at < width {
        return x;
    }
    x - moved(field(x, at, width), at) + moved(low(v, width), at)
}
