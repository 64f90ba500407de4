// How a run ends: what of the text was lost, in words on standard error, and whether all was answered.
ghost use Rattle.std.specs.Prelude.{◌≡◌, length};
ghost use Rattle.whole.specs.Each.{all_below};
ghost use Rattle.program.specs.Endings.{pass_answered};
ghost use Rattle.explain.specs.Numbers.{Numbers};

use console::ending::answered;
use console::say::{say, say_natural};
use whole::below::all_pass;

// ---- what was lost

// That the line of a refused file was not written.
pub(crate) fn say_line_lost(whole: bool) {
    if !whole {
        say(
            b"standard output could not be written; the line of the refusal was not written whole\n",
        );
    }
}

// That only the first of the passes were written.
pub(crate) fn say_passes_lost(written: usize, passes: usize) {
    if written < passes {
        say(b"standard output could not be written; ");
        say_natural(written as u64);
        say(b" of ");
        say_natural(passes as u64);
        say(b" passes were written whole\n");
    }
}

// ---- what was answered

// Whether each of the file's passes is answered, by the numbers that they have.
pub(crate) fn passes_answered(file: &[u8], numbers: &[i64]) -> bool
    requires { Numbers file.now (length numbers.now) numbers.now }
    ensures { result ≡ all_below (length numbers.now) (pass_answered file.now) }
{
    all_pass(numbers.len(), |i| answered(numbers[i]))
}
