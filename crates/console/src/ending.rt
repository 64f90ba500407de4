// How a run ends: what of it was lost, in words on standard error, and its status. The status is written to descriptor 3, where a caller may listen; where
// nobody does, that write fails and nothing else happens.
ghost use Rattle.std.specs.Prelude.{◌≡◌, ◌||◌, not, ◌≤◌, pos};
ghost use Rattle.whole.specs.Ranges.{eq_z};
ghost use Rattle.console.specs.Status.{status_by, status_in};

// Each ending has its place here, counted from 0, for a status.
#[derive(Clone, Copy, Debug, PartialEq, Eq)]
pub enum Ending {
    Answered,
    Refused,
    Misused,
    Lost,
}

// Whether something was lost: a read failed, or not all was written.
pub fn lost_any(failed: bool, whole: bool) -> bool
    ensures { result ≡ (failed || not whole) }
{
    failed || !whole
}

// Whether a call with this refusal answered. It is the number that the calls hand to C, 0 for none.
pub fn answered(n: i64) -> bool
    ensures { result ≡ eq_z n (pos 0) }
{
    n == 0
}

impl Ending {
    // What was lost goes before what was refused.
    pub fn of(lost: bool, answered: bool) -> Ending
        ensures { status_in result ≡ status_by lost answered }
    {
        match (lost, answered) {
            (true, _) => Ending::Lost,
            (false, true) => Ending::Answered,
            (false, false) => Ending::Refused,
        }
    }

    pub fn status(self) -> u64
        ensures { (result ≡ status_in self) × (result ≤ 3) }
    {
        self as u64
    }

    // Writes the status to descriptor 3: one digit and a line feed.
    pub fn tell(self) {
        let line = [b'0' + self as u8, b'\n'];
        io::write_all(3, &line);
    }
}
