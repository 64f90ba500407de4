// Refusal 1, in words on standard error: the first wrong number of the contents table, or the length of the file.
ghost use Rattle.std.specs.Prelude.{◌<◌, ◌≤◌};

use console::say::{say, say_decimal, say_natural};
use console::section::Section;
use sections::layouts::layout_in;
use text::words::number_at;
use whole::sign::size;

// The number of 8 bytes from byte `at` on; 0 where the file does not hold them. No Option: the words go on with what is there.
pub(crate) fn number_from(file: &[u8], at: usize) -> i64 {
    if file.len() < 8 || file.len() - 8 < at {
        return 0;
    }
    number_at(file, at)
}

// That number's size, or 65,536 where it is more: no place and no count of a file is beyond it.
fn size_from(file: &[u8], at: usize) -> usize
    ensures { result ≤ 65_536 }
{
    size(number_from(file, at)).min(65_536) as usize
}

// How many bytes so many records take. A record has at most eight numbers, and there are at most 65,536 records.
fn bytes_of(numbers: usize, records: usize) -> usize
    ensures { result ≤ 4_194_304 }
{
    8 * numbers.saturating_mul(records).min(524_288)
}

// The entry of a place in the contents table of a file, be it right or wrong.
#[derive(Clone, Copy)]
pub(crate) struct Entry<'a> {
    pub(crate) file: &'a [u8],
    pub(crate) place: usize,
    pub(crate) ghost four: { place < 4 },
}

impl<'a> Entry<'a> {
    // The entry of a kind. The last is not asked for it.
    pub(crate) fn of_kind(file: &'a [u8], kind: i64) -> Entry<'a> {
        for place in 0..3 {
            if number_from(file, 24 * place + 8) == kind {
                return Entry { file, place };
            }
        }
        Entry { file, place: 3 }
    }

    // The byte of the kind; the first byte of the records is said 8 bytes on, and their count 16 bytes on.
    fn byte(self) -> usize
        ensures { result ≤ 80 }
    {
        24 * self.place + 8
    }

    fn kind(self) -> usize {
        size_from(self.file, self.byte())
    }

    // The byte at which record i starts, where each has so many numbers.
    pub(crate) fn record_byte(self, numbers: usize, i: usize) -> usize
        ensures { result ≤ 5_000_000 }
    {
        size_from(self.file, self.byte() + 8) + bytes_of(numbers, i)
    }

    // Where the records end, by the kind, the first byte and the count.
    fn end(self) -> usize {
        let l = layout_in(self.place, self.kind());
        self.record_byte(l.size, size_from(self.file, self.byte() + 16))
    }

    fn say_section(self) {
        Section::at(self.place).say_name();
    }

    // The kinds that may stand there. None is beyond 255.
    fn say_kinds(self) {
        let mut said = false;
        for kind in 0..256 {
            if layout_in(self.place, kind).size != 0 {
                if said {
                    say(b" or ");
                }
                say_natural(kind as u64);
                said = true;
            }
        }
    }

    // That a wrong count shows where the records end.
    fn say_count(self) {
        say(b"; a wrong number of ");
        self.say_section();
        say(b" (");
        say_decimal(number_from(self.file, self.byte() + 16));
        say(b") shows here, too");
    }

    fn explain_kind(self) {
        say(b"kind of the ");
        self.say_section();
        say_found(self.file, self.byte(), b", expected ");
        self.say_kinds();
        say(b", byte ");
        say_natural(self.byte() as u64);
    }

    fn explain_first_byte(self) {
        let at = self.byte() + 8;
        say(b"first byte of the ");
        self.say_section();
        say_found(self.file, at, b", expected ");
        if self.place == 0 {
            say(b"104 because the contents table has 104 bytes, byte 16");
            return;
        }
        let before = Entry {
            file: self.file,
            place: self.place - 1,
        };
        say_natural(before.end() as u64);
        say(b", where the ");
        before.say_section();
        say(b" end, byte ");
        say_natural(at as u64);
        before.say_count();
    }

    fn explain_count(self) {
        let at = self.byte() + 16;
        let l = layout_in(self.place, self.kind());
        say(b"number of ");
        self.say_section();
        say_found(self.file, at, b", allowed ");
        say_natural(l.fewest as u64);
        say(b" to ");
        say_natural(l.most as u64);
        say(b", byte ");
        say_natural(at as u64);
    }
}

// What was found at byte `at`, and what comes before what should stand there.
fn say_found(file: &[u8], at: usize, before: &[u8]) {
    say(b" is ");
    say_decimal(number_from(file, at));
    say(before);
}

// Word j of the contents table, which is wrong. The file ends inside the table if it holds no more whole numbers than stand before that word.
fn explain_word(file: &[u8], j: usize)
    requires { j < 13 }
{
    if file.len() / 8 <= j {
        say(b"the file has ");
        say_natural(file.len() as u64);
        say(b" bytes and ends inside its contents table, which has 104");
        return;
    }
    say(b"contents table, ");
    if j == 0 {
        say(b"number of sections");
        say_found(file, 0, b", expected 4, byte 0");
        return;
    }
    let entry = Entry {
        file,
        place: (j - 1) / 3,
    };
    // the words of an entry in their order; an enum of the three would be made here to be matched at once
    match (j - 1) % 3 {
        0 => entry.explain_kind(),
        1 => entry.explain_first_byte(),
        _ => entry.explain_count(),
    }
}

// The length, where the contents table is right and the length is not.
fn explain_length(file: &[u8]) {
    if 65_536 < file.len() {
        say(b"the file has more than 65536");
    } else {
        say(b"the file has ");
        say_natural(file.len() as u64);
    }
    let last = Entry { file, place: 3 };
    say(b" bytes, expected ");
    say_natural(last.end() as u64);
    say(b" by its contents table");
    last.say_count();
}

// Whether the first 32 bytes are text, all of them where there are fewer: tabs, lines' ends, and what a keyboard has.
fn starts_as_text(file: &[u8]) -> bool {
    file.iter()
        .take(32)
        .all(|&b| matches!(b, b'\t' | b'\n' | b'\r' | b' '..=b'~'))
}

// What refusal 1 means: the first wrong word of the contents table, 0 to 12, or the length.
pub(crate) fn explain_contents(file: &[u8], word: u64) {
    if file.is_empty() {
        say(b"the file is empty, expected a contents table of 104 bytes");
        return;
    }
    if word < 13 {
        explain_word(file, word as usize);
    } else {
        explain_length(file);
    }
    if starts_as_text(file) {
        say(
            b"; the file looks like text: a session file is numbers of 8 bytes (docs/SESSION-FILE.md)",
        );
    }
}
