// A table of fields that follow one another from bit 0 up: `widths`, the lowest field first, and a value for each.
ghost use Rattle.std.specs.Prelude.{◌≡◌};
ghost use Rattle.words.specs.Told.{told};
ghost use Rattle.fields.specs.Tables.{written_word};

use crate::bits::{field, with_field};
use words::answers::Refusal;

// The word that holds the values; 17 where they do not fit, or where there is not one for each field: two lists may differ in length, and
// a list of pairs could not say so.
pub fn word_of(widths: &[u32], values: &[u64]) -> Result<u64, Refusal>
    ensures answer { told result ≡ written_word widths.now values.now }
{
    if widths.len() != values.len() {
        return Err(Refusal(17));
    }
    let mut word: u64 = 0;
    let mut at: u32 = 0;
    for (&width, &value) in widths.iter().zip(values) {
        // A value is wider than its field where its low bits are not all of it.
        if 64 - at < width || field(value, 0, width) != value {
            return Err(Refusal(17));
        }
        word = with_field(word, at, width, value);
        at += width;
    }
    Ok(word)
}
