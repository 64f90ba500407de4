// What a refusal means, in plain words, on standard error.
#![tactic(auto)]

ghost use Rattle.std.specs.Prelude.{◌≡◌, true, ◌<◌, ◌≤◌, pos, length};
ghost use Rattle.std.specs.Int.Signed.{le_z};
ghost use Rattle.sections.specs.File.{count_of_rule};
ghost use Rattle.lines.specs.Text.{lent_outcome};
ghost use Rattle.explain.specs.Numbers.{Numbers};

mod contents;
mod days;
mod fault;

use console::say::{say, say_decimal, say_natural};
use console::section::Section;
use contents::explain_contents;
use days::explain_days;
use fault::explain_fault;
use sections::Session;
use session::records::{pass_of, place_by};
use whole::sign::size;

// ---- a file

// What the refusal of a file means, and where it arises. The numbers of the refusal and of the wrong word are those of the C struct that `session::fault`
// hands out.
pub fn explain_file(file: &[u8]) {
    let p = session::fault(file);
    say(b"refused ");
    say_decimal(p.number);
    say(b": ");
    if p.number == 1 {
        explain_contents(file, size(p.field));
    } else {
        explain_fault(file, p);
    }
    say(b"\n");
}

// ---- a pass

// Whether place p has a record of an id.
pub(crate) fn has(s: Session<'_>, p: usize, id: i64) -> bool
    requires { p < 4 }
{
    place_by(s, p, id) < s.count(p)
}

// Field k of a pass and the id in it, if place p has no record of that id.
fn absent(s: Session<'_>, k: usize, p: usize, id: i64)
    requires { p < 4 }
{
    if has(s, p, id) {
        return;
    }
    say(b", ");
    Section::Passes.say_field(k);
    say(b" (id ");
    say_decimal(id);
    say(b")");
}

// Refusal 5: which of the three ids the file lacks.
fn explain_names(s: Session<'_>, i: usize)
    requires { (i < count_of_rule s.file.now 3) × ((lent_outcome s.file.now i).answer.refusal ≡ pos 5) }
{
    let p = pass_of(s, i);
    say(b"the file lacks what the pass names");
    absent(s, 0, 0, p.station1);
    absent(s, 1, 0, p.station2);
    absent(s, 2, 1, p.source);
    say(b"; passes");
}

// Which pass is refused, and its number.
fn refused_pass(i: usize, n: i64) {
    say(b"pass ");
    say_natural(i as u64);
    say(b" refused ");
    say_decimal(n);
    say(b": ");
}

// What the number of a refused pass means: it is 5 or 6. It is the one that `pass_text` promises, as `Numbers` says. No struct has a session and a pass of
// it: this function, `explain_names` and `explain_days` each ask that the pass is there, but each for another number of it, which it could not say.
fn explain_pass(s: Session<'_>, i: usize, n: i64)
    requires { (i < count_of_rule s.file.now 3) × (n ≡ (lent_outcome s.file.now i).answer.refusal) × (le_z (pos 1) n ≡ true) }
{
    refused_pass(i, n);
    if n == 5 {
        explain_names(s, i);
    } else {
        explain_days(s, i);
    }
    say(b" count from 0\n");
}

// What the numbers of the refused passes mean, one for each pass; what stands behind them in the list is not read. `Numbers` stays a clause: a struct of the
// file and the slice would be made once and taken apart at once.
pub fn explain_passes(s: Session<'_>, numbers: &[i64])
    requires { Numbers s.file.now (count_of_rule s.file.now 3) numbers.now }
{
    for i in 0..s.count(3) {
        let n = numbers[i];
        if 1 <= n {
            explain_pass(s, i, n);
        }
    }
}
