// What a call answers that may refuse: a `Result` whose error is the refusal.
ghost use Rattle.std.specs.Prelude.{◌≡◌};
ghost use Rattle.words.specs.Told.{refused_in};

// A refusal is its number alone. Every byte is one, and not the thirty of the table only: what says a refusal (`number_of`, the lines of
// `report`) says each as it is.
#[derive(Clone, Copy, Debug, PartialEq, Eq, Hash)]
pub struct Refusal(pub u8);

// The refusal's number, 0 where there is none.
pub fn number_of<T: Copy>(came: Result<T, Refusal>) -> u8
    ensures answer { result ≡ refused_in came }
{
    match came {
        Ok(_) => 0,
        Err(refusal) => refusal.0,
    }
}
