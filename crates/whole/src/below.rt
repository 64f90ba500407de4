// A test of each number below a given one: whether all pass it, and the first that does not, or the given one where all do. That is how `all_below` and
// `first_not` say it, by places; an Option would be compared with a count all the same.
ghost use Rattle.std.specs.Prelude.{◌≡◌, ℕ, Bool, ◌<◌};
ghost use Rattle.whole.specs.Each.{all_below, first_not};

// The first number below n that does not pass, or n.
pub fn first_failing<F: Fn(usize) -> bool>(n: usize, passes: F) -> usize
    requires { (i : ℕ) → i < n → F.pre passes i }
    ensures { (p : ℕ → Bool) → ((i : ℕ) (b : Bool) → i < n → F.post passes i b → b ≡ p i) → result ≡ first_not n p }
{
    for i in 0..n {
        if !passes(i) {
            return i;
        }
    }
    n
}

// Whether each number below n passes.
pub fn all_pass<F: Fn(usize) -> bool>(n: usize, passes: F) -> bool
    requires { (i : ℕ) → i < n → F.pre passes i }
    ensures { (p : ℕ → Bool) → ((i : ℕ) (b : Bool) → i < n → F.post passes i b → b ≡ p i) → result ≡ all_below n p }
{
    first_failing(n, passes) == n
}
