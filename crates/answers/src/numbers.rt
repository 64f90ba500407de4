// Numbers of eight bytes: the head of a question, and the lent bytes as numbers.
ghost use Rattle.std.specs.Prelude.{◌*◌, ◌≤◌, length};

use text::words::number_at;

// The head of a question.
#[derive(Drop)]
pub(crate) struct Head {
    pub(crate) what: i64,
    pub(crate) a: i64,
    pub(crate) b: i64,
    pub(crate) c: i64,
    pub(crate) d: i64,
    pub(crate) e: i64,
    pub(crate) room: i64,
    pub(crate) length: i64,
}

// The numbers of the bytes, from the first on.
pub(crate) fn numbers_of(bytes: &[u8], list: &mut [i64])
    requires { 8 * length list.old ≤ length bytes.now }
{
    for i in 0..list.len() {
        list[i] = number_at(bytes, 8 * i);
    }
}

impl Head {
    pub(crate) fn of(bytes: &[u8; 64]) -> Head {
        Head {
            what: number_at(bytes, 0),
            a: number_at(bytes, 8),
            b: number_at(bytes, 16),
            c: number_at(bytes, 24),
            d: number_at(bytes, 32),
            e: number_at(bytes, 40),
            room: number_at(bytes, 48),
            length: number_at(bytes, 56),
        }
    }
}

// A number read without a sign, as an index or a length.
pub(crate) fn index(z: i64) -> usize {
    z.cast_unsigned() as usize
}
