// The lines of a text. A text and a place in it stay two parameters: docs/CALLS.md names `line_end` with both.
ghost use Rattle.std.specs.Prelude.{◌≡◌, ◌+◌, ◌≤◌, length, drop};
ghost use Rattle.text.specs.Lines.{first_line, line_of};

// Where the line that starts at `at` ends: at its line feed, or at the end of the text.
pub fn line_end(s: &[u8], at: usize) -> usize
    requires { at ≤ length s.now }
    ensures { result ≡ at + length (first_line (drop at s.now)) }
{
    let rest = &s[at..];
    at + rest.iter().position(|b| *b == b'\n').unwrap_or(rest.len())
}

// Line k of a text, counted from 0; an empty one beyond the last.
pub fn line_of(s: &[u8], k: usize) -> &[u8]
    ensures { result.now ≡ line_of s.now k }
{
    s.split(|b| *b == b'\n').nth(k).unwrap_or(&[])
}
