// Refusal 6 of a pass, in words on standard error: the first sample whose epoch the file does not cover, and the day that is lacking. The search for it gives
// the count where nothing is found, as `first_not` does.
ghost use Rattle.std.specs.Prelude.{◌≡◌, ℕ, ◌<◌, ◌≤◌, pos};
ghost use Rattle.whole.specs.Each.{first_not};
ghost use Rattle.whole.specs.Whole.{∣◌∣};
ghost use Rattle.sections.specs.File.{count_of_rule};
ghost use Rattle.delay.specs.Calls.{samples_of};
ghost use Rattle.delay.specs.Sessions.{covers, sample_epoch_rule};
ghost use Rattle.lines.specs.Text.{lent_outcome};

use crate::has;
use console::say::{say, say_decimal, say_natural};
use delay::{SessionPass, covers};
use sections::Session;
use session::day_at;
use whole::below::first_failing;

// Whether the file covers the epoch of sample i.
fn covered(p: SessionPass<'_>, i: usize) -> bool
    requires { i < 4096 }
    ensures { result ≡ covers p.entry.session.file.now (sample_epoch_rule p.entry.pass i).day }
{
    let e = p.epoch(i);
    covers(p.session, e.day)
}

// The first sample whose epoch the file does not cover, or the number of samples.
fn first_uncovered(p: SessionPass<'_>) -> usize
    ensures { result ≡ first_not (samples_of p.entry.pass) (λ (i : ℕ). covers p.entry.session.file.now (sample_epoch_rule p.entry.pass i).day) }
{
    first_failing(p.pass.samples as usize, |i| covered(p, i))
}

// The day after.
fn after(day: i64) -> i64
    requires { ∣ day ∣ ≤ 1_000_000 }
{
    day + 1
}

// The day of a sample, and the two days that it needs.
fn say_needs(day: i64, next: i64) {
    say(b" is on MJD ");
    say_decimal(day);
    say(b" and needs the orientation of MJD ");
    say_decimal(day);
    say(b" and ");
    say_decimal(next);
}

// The days that the file has.
fn say_days(s: Session<'_>) {
    let last = s.count(2).saturating_sub(1);
    say(b"; the file has MJD ");
    say_decimal(day_at(s.file, 0).mjd);
    say(b" to ");
    say_decimal(day_at(s.file, last).mjd);
}

// Which of a day and the next the file lacks.
fn say_lacking(s: Session<'_>, day: i64, next: i64) {
    say(b", so ");
    if has(s, 2, day) {
        say_decimal(next);
        say(b" is lacking");
        return;
    }
    say_decimal(day);
    if has(s, 2, next) {
        say(b" is lacking");
        return;
    }
    say(b" and ");
    say_decimal(next);
    say(b" are lacking");
}

// Refusal 6: the pass has that number, so there is such a sample.
pub(crate) fn explain_days(s: Session<'_>, i: usize)
    requires { (i < count_of_rule s.file.now 3) × ((lent_outcome s.file.now i).answer.refusal ≡ pos 6) }
{
    let p = SessionPass::at(s, i);
    let j = first_uncovered(p);
    let e = p.epoch(j);
    let next = after(e.day);
    say(b"sample ");
    say_natural(j as u64);
    say_needs(e.day, next);
    say_days(s);
    say_lacking(s, e.day, next);
    say(b"; passes and samples");
}
