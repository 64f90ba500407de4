// A session file that is accepted, and what its places hold.
ghost use Rattle.std.specs.Prelude.{◌≡◌, ℕ, ◌+◌, ◌*◌, ◌<◌, ◌≤◌, length, IfOk};
ghost use Rattle.whole.specs.Refusals.{number_in};
ghost use Rattle.text.specs.Words.{number_at_rule};
ghost use Rattle.sections.specs.File.{refusal_of_rule, count_of_rule, size_of, record_byte_rule};
ghost use Rattle.sections.specs.Layouts.{places};
ghost use Rattle.sections.specs.Rows.{in_row, row_of};

use crate::contents::Contents;
use crate::layouts::Order;
use crate::order::wrong_order;
use crate::ranges::wrong_section;
use text::words::number_at;
use whole::Refusal;

// A file to which no refusal number applies.
#[derive(Clone, Copy)]
pub struct Session<'a> {
    pub file: &'a [u8],
    pub ghost accepted: { refusal_of_rule file.now ≡ 0 },
}

impl<'a> Session<'a> {
    // The file, or the lowest refusal that applies to it.
    pub fn read(file: &'a [u8]) -> Result<Session<'a>, Refusal>
        ensures number { number_in result ≡ refusal_of_rule file.now }
        ensures most { number_in result ≤ 4 }
        ensures file { IfOk result (λ s. s.file.now ≡ file.now) }
    {
        let Ok(c) = Contents::read(file) else {
            return Err(Refusal::Contents);
        };
        if wrong_section(c) < 4 {
            return Err(Refusal::Range);
        }
        if wrong_order(c, Order::Rising) < 4 {
            return Err(Refusal::Order);
        }
        if wrong_order(c, Order::Consecutive) < 4 {
            return Err(Refusal::Days);
        }
        Ok(Session { file })
    }

    // Its contents table is right.
    pub fn contents(self) -> Contents<'a>
        ensures { result.file.now ≡ self.entry.file.now }
    {
        Contents { file: self.file }
    }

    // How many records stand in place p.
    pub fn count(self, p: usize) -> usize
        requires { p < 4 }
        ensures { (result ≡ count_of_rule self.entry.file.now p) × (result ≤ 256) }
    {
        self.contents().count(p)
    }

    // The byte at which record i of place p starts.
    pub fn record_byte(self, p: usize, i: usize) -> usize
        requires { (p < 4) × (i < count_of_rule self.file.now p) }
        ensures { (result ≡ record_byte_rule places self.entry.file.now p i) × (result + 8 * size_of places self.entry.file.now p ≤ length self.entry.file.now) }
    {
        self.contents().record_byte(p, i)
    }

    // Record i of place p as a row of eight numbers, zeros behind its last.
    pub fn record(self, p: usize, i: usize) -> [i64; 8]
        requires { (p < 4) × (i < count_of_rule self.file.now p) }
        ensures { result ≡ row_of places self.entry.file.now p i }
    {
        let c = self.contents();
        row_at(self.file, c.record_byte(p, i), c.layout(p).size)
    }
}

// The size numbers from byte at on, and zeros behind them: a row of any kind in fixed memory.
fn row_at(s: &[u8], at: usize, size: usize) -> [i64; 8]
    requires { (at + 8 * size ≤ length s.now) × (size ≤ 8) }
    ensures { result ≡ in_row size (λ (k : ℕ). number_at_rule s.now (at + 8 * k)) }
{
    let mut row = [0i64; 8];
    for k in 0..size {
        row[k] = number_at(s, at + 8 * k);
    }
    row
}
