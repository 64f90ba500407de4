// Why a call is refused. Document 01, 'Refusal numbers', and document 02, L3.
ghost use Rattle.std.specs.Prelude.{◌≡◌, pos};
ghost use Rattle.whole.specs.Refusals.{number_of};

// In the order of their numbers: a contents table or a length (1), a value out of its range (2), ids that do not rise (3), days that do not follow one another
// (4), what is asked for is not there (5), an epoch without its days (6), the room for samples or for a file (7), the room for a track (8), a malformed track
// or a sample that it does not cover (9), a row without what it should hold (10), a day without a row (11).
#[derive(Clone, Copy, Debug, PartialEq, Eq)]
pub enum Refusal {
    Contents,
    Range,
    Order,
    Days,
    Absent,
    Uncovered,
    Room,
    RoomForTrack,
    Malformed,
    Row,
    NoRow,
}

impl Refusal {
    // The number that C and the programs give for it. A match, not `as`: each number stands beside its name, and a new refusal moves no other.
    pub fn number(self) -> i64
        ensures { result ≡ pos (number_of self) }
    {
        match self {
            Refusal::Contents => 1,
            Refusal::Range => 2,
            Refusal::Order => 3,
            Refusal::Days => 4,
            Refusal::Absent => 5,
            Refusal::Uncovered => 6,
            Refusal::Room => 7,
            Refusal::RoomForTrack => 8,
            Refusal::Malformed => 9,
            Refusal::Row => 10,
            Refusal::NoRow => 11,
        }
    }
}
