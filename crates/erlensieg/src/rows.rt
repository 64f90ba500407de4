// Rows of finals2000A.
ghost use Rattle.bulletin.specs.Promises.{DaysPromise, RowsPromise};

use bulletin::Days;
use whole::Number;

#[unsafe(no_mangle)]
pub extern "C" fn fringe_days_from_rows(text: &[u8], first: i64, count: i64, tai: &[i64]) -> Days
    ensures { DaysPromise text.now first count tai.now result }
{
    bulletin::days_from_rows(text, first, count, tai)
}

#[unsafe(no_mangle)]
pub extern "C" fn fringe_rows_from_days(days: &[i64], room: &mut [u8]) -> Number
    ensures { RowsPromise days.now room.old result room.new }
{
    bulletin::rows_from_days(days, room)
}
