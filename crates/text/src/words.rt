// Numbers of eight bytes, the lowest first, in two's complement.
// A slice and a place in it stay two parameters: these are the functions that docs/CALLS.md names to callers, who keep the whole file and count in it.
ghost use Rattle.std.specs.Prelude.{◌≡◌, ◌+◌, ◌*◌, ◌≤◌, length};
ghost use Rattle.text.specs.Words.{bits_at, number_at_rule, word};

// The number of the eight bytes from at on, without a sign.
#[tactic(auto, using(crate::proofs::Eight::read_bytes))]
pub fn bits_at(s: &[u8], at: usize) -> u64
    requires { at + 8 ≤ length s.now }
    ensures { result ≡ bits_at s.now at }
{
    u64::from_le_bytes(s[at..at + 8].try_into().unwrap())
}

// The number of the eight bytes from at on.
pub fn number_at(s: &[u8], at: usize) -> i64
    requires { at + 8 ≤ length s.now }
    ensures { result ≡ number_at_rule s.now at }
{
    bits_at(s, at).cast_signed()
}

// Word j: the number of bytes 8j to 8j + 7, without a sign.
pub fn word_at(s: &[u8], j: usize) -> usize
    requires { 8 * j + 8 ≤ length s.now }
    ensures { result ≡ word s.now j }
{
    bits_at(s, 8 * j) as usize
}
