// Numbers written as eight bytes, the lowest first, in two's complement. A room and a place stay two parameters, as in decimal.rt.
ghost use Rattle.std.specs.Prelude.{◌≡◌, ◌+◌, ◌*◌, ◌≤◌, ℕ, length, map};
ghost use Rattle.std.specs.Int.{w64, cast_unsigned};
ghost use Rattle.text.specs.Bytes.{pasted, words_of, bytes_of_all};

// A number of eight bytes.
trait Eight: Copy {
    ghost bits: { Self → ℕ };

    // Its bits, as a number without a sign.
    fn bits(self) -> u64
        ensures { result ≡ bits self };
}

impl Eight for u64 {
    ghost bits = { λ w. w };

    fn bits(self) -> u64 {
        self
    }
}

impl Eight for i64 {
    ghost bits = { cast_unsigned w64 };

    fn bits(self) -> u64 {
        self.cast_unsigned()
    }
}

// The bytes of the numbers ns, from at on.
fn put_all<T: Eight>(d: &mut [u8], at: usize, ns: &[T])
    requires { at + 8 * length ns.now ≤ length d.old }
    ensures { d.new ≡ pasted d.old at (bytes_of_all (map T.bits ns.now)) }
{
    for (j, n) in ns.iter().enumerate() {
        copy(d, at + 8 * j, &n.bits().to_le_bytes());
    }
}

// The bytes of the words ws, from at on. This one and the next are what docs/CALLS.md names, so both stay beside `put_all`.
pub fn put_words(d: &mut [u8], at: usize, ws: &[u64])
    requires { at + 8 * length ws.now ≤ length d.old }
    ensures { d.new ≡ pasted d.old at (bytes_of_all ws.now) }
{
    put_all(d, at, ws)
}

// The bytes of the numbers zs, from at on.
pub fn put_numbers(d: &mut [u8], at: usize, zs: &[i64])
    requires { at + 8 * length zs.now ≤ length d.old }
    ensures { d.new ≡ pasted d.old at (bytes_of_all (words_of zs.now)) }
{
    put_all(d, at, zs)
}

// The bytes of s, from at on.
#[tactic(auto, using(crate::proofs::Paste::part_pasted))]
pub fn copy(d: &mut [u8], at: usize, s: &[u8])
    requires { at + length s.now ≤ length d.old }
    ensures { d.new ≡ pasted d.old at s.now }
{
    d[at..at + s.len()].copy_from_slice(s);
}
