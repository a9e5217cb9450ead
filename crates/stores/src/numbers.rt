// Numbers stored in a slice of bytes, lowest byte first. What does not fit is not stored.
ghost use Rattle.std.specs.Prelude.{◌≡◌, ◌+◌, ◌++◌, cond, leb, take, drop, length};
ghost use Rattle.words.specs.Bytes.{stored};

// The bytes from place `at` on; nothing where they do not fit.
fn store(s: &mut [u8], at: usize, bytes: &[u8])
    ensures kept { s.new
        ≡ cond (leb (at + length bytes.now) (length s.old)) (take at s.old ++ bytes.now ++ drop (at + length bytes.now) s.old) s.old }
{
    if bytes.len() <= s.len() && at <= s.len() - bytes.len() {
        s[at..at + bytes.len()].copy_from_slice(bytes);
    }
}

pub fn store_u8(s: &mut [u8], at: usize, v: u8)
    ensures kept { s.new ≡ stored s.old at 1 v }
{
    store(s, at, &[v])
}

pub fn store_u16(s: &mut [u8], at: usize, v: u16)
    ensures kept { s.new ≡ stored s.old at 2 v }
{
    store(s, at, &u16::to_le_bytes(v))
}

pub fn store_u32(s: &mut [u8], at: usize, v: u32)
    ensures kept { s.new ≡ stored s.old at 4 v }
{
    store(s, at, &u32::to_le_bytes(v))
}

pub fn store_u64(s: &mut [u8], at: usize, v: u64)
    ensures kept { s.new ≡ stored s.old at 8 v }
{
    store(s, at, &u64::to_le_bytes(v))
}
