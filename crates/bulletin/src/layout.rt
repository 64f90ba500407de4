// The columns of a row that are read and written.
ghost use Rattle.std.specs.Prelude.{◌+◌, ◌<◌, ◌≤◌};

use crate::form::{is_decimal, put_printed, units_of};
use text::bytes::copy;

// From the first column to the last, counted from 1, with so many decimals: they can hold a decimal of at most 10 bytes.
#[derive(Clone, Copy)]
pub struct Columns {
    pub first: usize,
    pub last: usize,
    pub decimals: usize,
    pub ghost counted: { 1 ≤ first },
    pub ghost wide: { first + decimals < last },
    pub ghost narrow: { last ≤ first + 9 },
}

pub const MJD: Columns = Columns {
    first: 8,
    last: 15,
    decimals: 2,
};

pub const X: Columns = Columns {
    first: 19,
    last: 27,
    decimals: 6,
};

pub const Y: Columns = Columns {
    first: 38,
    last: 46,
    decimals: 6,
};

pub const UT1: Columns = Columns {
    first: 59,
    last: 68,
    decimals: 7,
};

impl Columns {
    ghost use Rattle.std.specs.Prelude.{◌≡◌, true, ◌≤◌, length};
    ghost use Rattle.bulletin.specs.Columns.{columns, holds_decimal_rule, value_in_rule, with_decimal};
    ghost use Rattle.bulletin.specs.Decimals.{printed};

    // Whether a row has a decimal in these columns.
    pub fn holds_decimal(self, row: &[u8]) -> bool
        ensures { result ≡ holds_decimal_rule (columns self.first self.last self.decimals) row.now }
    {
        self.last <= row.len() && is_decimal(&row[self.first - 1..self.last], self.decimals)
    }

    // Its value in units of the last decimal.
    pub fn value_in(self, row: &[u8]) -> i64
        requires { holds_decimal_rule (columns self.first self.last self.decimals) row.now ≡ true }
        ensures { result ≡ value_in_rule (columns self.first self.last self.decimals) row.now }
    {
        units_of(&row[self.first - 1..self.last], self.decimals)
    }

    // Puts z units into these columns of a row.
    pub fn put_in(self, row: &mut [u8], z: i64)
        requires { (self.last ≤ length row.old) × (length (printed self.decimals z) ≤ self.last) }
        ensures { row.new ≡ with_decimal (columns self.first self.last self.decimals) row.old z }
    {
        let mut bytes = [0u8; 32];
        let n = put_printed(&mut bytes, self.decimals, z);
        copy(row, self.last - n, &bytes[..n]);
    }
}
