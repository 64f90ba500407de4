// The contents table: its thirteen words in the order in which they stand, then the file's length.
ghost use Rattle.std.specs.Prelude.{◌≡◌, true, suc, ◌+◌, ◌*◌, ◌<◌, ◌≤◌, length, IfOk, IfErr};
ghost use Rattle.whole.specs.Each.{first_not};
ghost use Rattle.sections.specs.Code.{shape_of, word_in};
ghost use Rattle.sections.specs.File.{present, layout_of, kind_of, first_byte, count_of_rule, sections_right_rule, kind_right_rule, offset_right_rule, count_right_rule, length_right_rule, start_of, contents_right, record_byte_rule, size_of};
ghost use Rattle.sections.specs.Table.{entry_right, wrong_word_rule};
ghost use Rattle.sections.specs.Layouts.{places};

use crate::layouts::{Shape, layout_in};
use text::words::word_at;

fn present(s: &[u8], j: usize) -> bool
    requires { j < 14 }
    ensures { result ≡ present s.now j }
{
    8 * j + 8 <= s.len()
}

// The layout of the records in place p, also in a file that is not right.
pub fn layout_of(s: &[u8], p: usize) -> Shape
    requires { (p < 4) × (8 * (3 * p + 1) + 8 ≤ length s.now) }
    ensures { result ≡ shape_of (layout_of places s.now p) }
{
    layout_in(p, word_at(s, 3 * p + 1))
}

#[tactic(auto, unfolding(crate::specs::File::sections_right_rule))]
fn sections_right(s: &[u8]) -> bool
    ensures { result ≡ sections_right_rule s.now }
{
    present(s, 0) && word_at(s, 0) == 4
}

fn kind_right(s: &[u8], p: usize) -> bool
    requires { p < 4 }
    ensures { result ≡ kind_right_rule places s.now p }
{
    present(s, 3 * p + 1) && 0 < layout_of(s, p).size
}

#[tactic(auto, unfolding(crate::specs::File::offset_right_rule))]
fn offset_right(s: &[u8], p: usize, start: usize) -> bool
    requires { (p < 4) × (start ≡ start_of places s.now p) }
    ensures { result ≡ offset_right_rule places s.now p }
{
    present(s, 3 * p + 2) && word_at(s, 3 * p + 2) == start
}

#[tactic(auto, unfolding(crate::specs::File::count_right_rule, crate::specs::Code::shape_of))]
fn count_right(s: &[u8], p: usize) -> bool
    requires { p < 4 }
    ensures { result ≡ count_right_rule places s.now p }
{
    if !present(s, 3 * p + 3) {
        return false;
    }
    let l = layout_of(s, p);
    (l.fewest..=l.most).contains(&word_at(s, 3 * p + 3))
}

#[tactic(auto, unfolding(crate::specs::File::length_right_rule))]
fn length_right(s: &[u8], end: usize) -> bool
    requires { end ≡ start_of places s.now 4 }
    ensures { result ≡ length_right_rule places s.now }
{
    s.len() <= 65536 && s.len() == end
}

// Where the body of place p ends, which is to start at start, or the first wrong word of its entry.
fn entry_end(s: &[u8], p: usize, start: usize) -> Result<usize, usize>
    requires { (p < 4) × (start ≡ start_of places s.now p) × (start ≤ 65536) }
    ensures end { IfOk result (λ e. (first_not 3 (entry_right places s.now p) ≡ 3) × (e ≡ start_of places s.now (suc p)) × (e ≤ start + 16384)) }
    ensures word { IfErr result (λ w. (first_not 3 (entry_right places s.now p) < 3) × (w ≡ 3 * p + 1 + first_not 3 (entry_right places s.now p))) }
{
    if !kind_right(s, p) {
        return Err(3 * p + 1);
    }
    if !offset_right(s, p, start) {
        return Err(3 * p + 2);
    }
    if !count_right(s, p) {
        return Err(3 * p + 3);
    }
    let l = layout_of(s, p);
    Ok(start + 8 * (l.size * word_at(s, 3 * p + 3)))
}

// A file whose contents table is right.
#[derive(Clone, Copy)]
pub struct Contents<'a> {
    pub file: &'a [u8],
    pub ghost right: { contents_right places file.now ≡ true },
}

impl<'a> Contents<'a> {
    // The file, or the first wrong word of its contents table, 0 to 12; 13 where only its length is wrong.
    pub fn read(file: &'a [u8]) -> Result<Contents<'a>, usize>
        ensures word { word_in result ≡ wrong_word_rule places file.now }
        ensures most { IfErr result (λ w. w < 14) }
        ensures file { IfOk result (λ c. c.file.now ≡ file.now) }
    {
        if !sections_right(file) {
            return Err(0);
        }
        let mut start: usize = 104;
        for p in 0..4 {
            start = entry_end(file, p, start)?;
        }
        if !length_right(file, start) {
            return Err(13);
        }
        Ok(Contents { file })
    }

    // The kind of the records in place p.
    pub fn kind(self, p: usize) -> usize
        requires { p < 4 }
        ensures { (result ≡ kind_of self.entry.file.now p) × (result ≤ 255) }
    {
        word_at(self.file, 3 * p + 1)
    }

    // How many records stand in place p.
    pub fn count(self, p: usize) -> usize
        requires { p < 4 }
        ensures { (result ≡ count_of_rule self.entry.file.now p) × (result ≤ 256) }
    {
        word_at(self.file, 3 * p + 3)
    }

    // The layout of the records in place p.
    pub fn layout(self, p: usize) -> Shape
        requires { p < 4 }
        ensures { result ≡ shape_of (layout_of places self.entry.file.now p) }
    {
        layout_of(self.file, p)
    }

    // The byte at which place p starts.
    pub fn first_byte(self, p: usize) -> usize
        requires { p < 4 }
        ensures { result ≡ first_byte self.entry.file.now p }
    {
        word_at(self.file, 3 * p + 2)
    }

    // The byte at which record i of place p starts.
    pub fn record_byte(self, p: usize, i: usize) -> usize
        requires { (p < 4) × (i < count_of_rule self.file.now p) }
        ensures { (result ≡ record_byte_rule places self.entry.file.now p i) × (result + 8 * size_of places self.entry.file.now p ≤ length self.entry.file.now) }
    {
        self.first_byte(p) + 8 * (self.layout(p).size * i)
    }
}
