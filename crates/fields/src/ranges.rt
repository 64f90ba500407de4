// The range of each field, by its name. Document 01, 'Session file', Ranges.
ghost use Rattle.std.specs.Prelude.{◌≡◌};
ghost use Rattle.fields.specs.Ranges.{inside};

use whole::sign::in_range;

// The values that a field may have, both ends taken in.
#[derive(Clone, Copy)]
pub struct Range {
    pub low: i64,
    pub high: i64,
}

pub const ID: Range = Range {
    low: 1,
    high: 65_535,
};

pub const COORDINATE: Range = Range {
    low: -6_400_000_000,
    high: 6_400_000_000,
};

pub const RIGHT_ASCENSION: Range = Range {
    low: 0,
    high: 4_294_967_295,
};

pub const DECLINATION: Range = Range {
    low: -1_073_741_824,
    high: 1_073_741_824,
};

pub const MJD: Range = Range {
    low: 41_317,
    high: 69_806,
};

pub const POLE: Range = Range {
    low: -1_000_000,
    high: 1_000_000,
};

pub const UT1_UTC: Range = Range {
    low: -900_000_000,
    high: 900_000_000,
};

pub const TAI_UTC: Range = Range { low: 0, high: 99 };

pub const MARK: Range = Range { low: 0, high: 1 };

pub const MILLISECOND: Range = Range {
    low: 0,
    high: 86_399_999,
};

pub const STEP: Range = Range {
    low: 1,
    high: 3_600_000,
};

pub const SAMPLES: Range = Range {
    low: 1,
    high: 4_096,
};

pub const TOLERANCE: Range = Range {
    low: 0,
    high: 1_000_000,
};

// Whether a field, or an argument of a call, is in the range of that field. A function, as its definition and the crates above have it: a method would read no plainer.
pub fn inside(r: Range, z: i64) -> bool
    ensures { result ≡ inside r z }
{
    in_range(z, r.low, r.high)
}
