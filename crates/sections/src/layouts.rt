// The shape of a session file, as data: what may stand in each of the four places. A further kind is a further entry.
// A place and a kind stay numbers: `places` is a list that is read by a number, and a kind is a word of the file. Names would be turned into numbers at each use.
ghost use Rattle.std.specs.Prelude.{◌≡◌};
ghost use Rattle.sections.specs.File.{steps};
ghost use Rattle.sections.specs.Layouts.{layout_in_rule, places};
ghost use Rattle.sections.specs.Code.{order_of, order_number, shape_of};

use fields::ranges::{
    COORDINATE, DECLINATION, ID, MARK, MILLISECOND, MJD, POLE, RIGHT_ASCENSION, Range, SAMPLES,
    STEP, TAI_UTC, TOLERANCE, UT1_UTC,
};

// What the first fields of two neighbouring records keep: nothing, the later is the greater, or the later is the next number.
#[derive(Clone, Copy, Debug, PartialEq, Eq)]
pub enum Order {
    Any,
    Rising,
    Consecutive,
}

// The order with a number, as a layout of `places` has it: a number from 3 on asks for nothing, as 0 does (`order_kept` of proofs/Orders.antt).
impl From<u64> for Order {
    ghost from_gives = { λ n o. o ≡ order_of n };

    fn from(n: u64) -> Order {
        match n {
            1 => Order::Rising,
            2 => Order::Consecutive,
            _ => Order::Any,
        }
    }
}

impl Order {
    // Whether b may stand behind a.
    #[tactic(auto, unfolding(crate::specs::File::steps))]
    pub(crate) fn allows(self, a: i64, b: i64) -> bool
        ensures { result ≡ steps (order_number self) a b }
    {
        match self {
            Order::Any => true,
            Order::Rising => a < b,
            Order::Consecutive => a < b && b - 1 <= a,
        }
    }
}

// A kind's records: how many numbers each has, the least and the greatest count, their order, and each number's range, with none beyond the last.
// Eight ranges and how many count, as `shape_of` pads them, which `layout_in` promises: a slice would have its own length.
#[derive(Clone, Copy)]
pub struct Shape {
    pub size: usize,
    pub fewest: usize,
    pub most: usize,
    pub order: Order,
    pub fields: [Range; 8],
}

const NONE: Range = Range { low: 0, high: 0 };

const STATION: Shape = Shape {
    size: 4,
    fewest: 1,
    most: 64,
    order: Order::Rising,
    fields: [
        ID, COORDINATE, COORDINATE, COORDINATE, NONE, NONE, NONE, NONE,
    ],
};

const SOURCE: Shape = Shape {
    size: 3,
    fewest: 1,
    most: 256,
    order: Order::Rising,
    fields: [
        ID,
        RIGHT_ASCENSION,
        DECLINATION,
        NONE,
        NONE,
        NONE,
        NONE,
        NONE,
    ],
};

const ORIENTATION: Shape = Shape {
    size: 5,
    fewest: 2,
    most: 64,
    order: Order::Consecutive,
    fields: [MJD, POLE, POLE, UT1_UTC, TAI_UTC, NONE, NONE, NONE],
};

const MARKED: Shape = Shape {
    size: 6,
    fewest: 2,
    most: 64,
    order: Order::Consecutive,
    fields: [MJD, POLE, POLE, UT1_UTC, TAI_UTC, MARK, NONE, NONE],
};

const PASS: Shape = Shape {
    size: 8,
    fewest: 1,
    most: 64,
    order: Order::Any,
    fields: [ID, ID, ID, MJD, MILLISECOND, STEP, SAMPLES, TOLERANCE],
};

const NO_LAYOUT: Shape = Shape {
    size: 0,
    fewest: 1,
    most: 0,
    order: Order::Any,
    fields: [NONE; 8],
};

// The layout of a kind in a place, or one of no fields, which `layout_in_rule` gives where the kind may not stand: so there is no Option.
#[tactic(auto, unfolding(crate::specs::Code::shape_of, crate::specs::Layouts::layout_in_rule, crate::specs::Layouts::places, crate::specs::Layouts::no_layout))]
pub fn layout_in(place: usize, kind: usize) -> Shape
    ensures { result ≡ shape_of (layout_in_rule places place kind) }
{
    match (place, kind) {
        (0, 1) => STATION,
        (1, 2) => SOURCE,
        (2, 3) => ORIENTATION,
        (2, 5) => MARKED,
        (3, 4) => PASS,
        _ => NO_LAYOUT,
    }
}
