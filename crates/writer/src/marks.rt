// A day list for kind 3, whose records have no mark. Document 02, L4.
ghost use Rattle.std.specs.Prelude.{◌≡◌, ◌/◌, ◌*◌, ◌≤◌, length, take};
ghost use Rattle.writer.specs.Writing.{unmarked, without_marks};

use whole::below::all_pass;

// Whether each record of a day list is marked 0.
#[tactic(auto, unfolding(crate::specs::Writing::unmarked))]
pub fn unmarked(days: &[i64]) -> bool
    ensures { result ≡ unmarked days.now }
{
    all_pass(days.len() / 6, |i| days[6 * i + 5] == 0)
}

// The first five numbers of each record, from the start of the room; how many numbers these are.
pub fn put_unmarked(room: &mut [i64], days: &[i64]) -> usize
    requires { 5 * (length days.now / 6) ≤ length room.old }
    ensures { (result ≡ length (without_marks days.now)) × (take result room.new ≡ without_marks days.now) }
{
    let n = 5 * (days.len() / 6);
    // Behind each five numbers a mark is passed by.
    for i in 0..n {
        room[i] = days[i + i / 5];
    }
    n
}
