// Numbers in a slice of bytes, lowest byte first. One loop reads two or four bytes, a byte at a time; a register's eight are two halves of four.
ghost use Rattle.std.specs.Prelude.{◌≡◌, ◌≤◌};
ghost use Rattle.words.specs.Bytes.{number_at};

// The byte at place `at`; 0 past the end.
pub fn u8_at(s: &[u8], at: usize) -> u8
    ensures answer { result ≡ number_at s.now at 1 }
{
    s.get(at).copied().unwrap_or(0)
}

// The number of the `n` bytes from place `at`, a byte at a time from the highest.
fn number_at(s: &[u8], at: usize, n: usize) -> u64
    requires { n ≤ 8 }
    ensures answer { result ≡ number_at s.now at n }
{
    // Past the end all bytes read 0, and at + i could wrap.
    if s.len() <= at {
        return 0;
    }
    let mut x = 0;
    for i in (0..n).rev() {
        x = x * 256 + u64::from(u8_at(s, at + i));
    }
    x
}

// The three widths are three types by name: one function over the type would say the width a second time, at each call.
pub fn u16_at(s: &[u8], at: usize) -> u16
    ensures answer { result ≡ number_at s.now at 2 }
{
    number_at(s, at, 2) as u16
}

pub fn u32_at(s: &[u8], at: usize) -> u32
    ensures answer { result ≡ number_at s.now at 4 }
{
    number_at(s, at, 4) as u32
}

// Eight bytes, as a register has them, in two halves of 32 bits. Past the end of the slice every byte reads 0, as from its end; a slice is
// shorter than 2^63, so that four bytes on can't wrap.
pub fn u64_at(s: &[u8], at: usize) -> u64
    ensures answer { result ≡ number_at s.now at 8 }
{
    let from = at.min(s.len());
    let low = u64::from(u32_at(s, from));
    let high = u64::from(u32_at(s, from + 4));
    (high << 32) + low
}
