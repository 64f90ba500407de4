// One sample after another: a day's record is read, and its tide taken away, once a pass; the tide of an epoch is worked out once a minute.
ghost use Rattle.std.specs.Prelude.{◌≡◌, true};
ghost use Rattle.delay.specs.Keeping.{delay_at_rule};
ghost use Rattle.delay.specs.Sessions.{covers};

use crate::records::Days;
use earth::Epoch;
use earth::rows::tide_at_minute;
use sections::Session;
use wave::values::{Minute, earth_at, minute_at, minutes_by};
use wave::{Sight, delay_seen};

// The records of a day and of the next, and the tide of a minute, kept from one sample to the next.
#[derive(Clone, Copy)]
pub struct Kept<'a> {
    days: Days<'a>,
    minute: Minute,
}

impl<'a> Kept<'a> {
    // What is kept at the start of a pass, on a day that the file covers.
    pub fn from(session: Session<'a>, day: i64) -> Kept<'a>
        requires { covers session.file.now day ≡ true }
        ensures { result.days.session.file.now ≡ session.entry.file.now }
    {
        Kept {
            days: Days::from(session, day),
            minute: Minute {
                n: 0,
                tide: tide_at_minute(0),
            },
        }
    }

    // The delay along a sight at an epoch that the file covers, and what is kept for the next.
    pub fn delay_at(self, v: Sight, e: Epoch) -> (i64, Kept<'a>)
        requires { covers self.days.session.file.now e.day ≡ true }
        ensures delay { result.0 ≡ delay_at_rule self.entry.days.session.file.now v e }
        ensures session { result.1.days.session.file.now ≡ self.entry.days.session.file.now }
    {
        let days = self.days.at(e.day);
        let minute = minute_at(self.minute, minutes_by(days.today, e));
        let earth = earth_at(days.today, days.next, e, minute.tide);
        (delay_seen(v, earth), Kept { days, minute })
    }
}
