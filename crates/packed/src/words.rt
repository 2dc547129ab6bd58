ghost use Rattle.std.specs.Prelude.{ℕ, ◌+◌, ◌≤◌, ◌<◌, ◌≡◌, true, length, take, drop, get_or};
ghost use Rattle.packed.specs.code.Words.{word_of};

// The eight bytes from `at` on as one number, the highest first. Taken as an array by `try_into`, they are compiled to one load, with no test of a length.
pub fn word(s: &[u8], at: usize) -> u64
    requires { at + 8 ≤ length s.now }
    ensures { result ≡ word_of (take 8 (drop at s.now)) }
{
    u64::from_be_bytes(s[at..at + 8].try_into().unwrap())
}

// The same of four bytes.
pub fn half_word(s: &[u8], at: usize) -> u64
    requires { at + 4 ≤ length s.now }
    ensures { result ≡ word_of (take 4 (drop at s.now)) }
{
    u64::from(u32::from_be_bytes(s[at..at + 4].try_into().unwrap()))
}

// Whether the eight bytes from `at` on are all below 0x80.
pub fn all_low(s: &[u8], at: usize) -> bool
    requires { at + 8 ≤ length s.now }
    ensures { result ≡ true → (k : ℕ) → k < 8 → get_or s.now (at + k) 0 < 0x80 }
{
    word(s, at) & 0x8080_8080_8080_8080 == 0
}
