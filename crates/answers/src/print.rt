// What is printed: lines of numbers, and a room of bytes as one line. They are written to standard output's descriptor: `main` is given no handle by which
// std's `print!` could, and numbers in hexadecimal need one or a String, which is heap.
ghost use Rattle.std.specs.Prelude.{◌+◌, ◌<◌, ◌≤◌};

use text::decimal::put_number;

// The descriptor of standard output.
const STDOUT: i32 = 1;

// A line that is gathered in a buffer: what stands before `at` is still to be written. That is done when the buffer is full and when the line ends.
#[derive(Drop)]
struct Line {
    buffer: [u8; 4096],
    at: usize,
    ghost inside: { at ≤ 4096 },
}

impl Line {
    fn new() -> Line {
        Line {
            buffer: [0; 4096],
            at: 0,
        }
    }

    // Makes room for some more bytes.
    fn make_room(&mut self, more: usize)
        requires { more ≤ 4096 }
        ensures { self.new.at + more ≤ 4096 }
    {
        if 4096 - self.at < more {
            io::write_all(STDOUT, &self.buffer[..self.at]);
            self.at = 0;
        }
    }

    // A number and a space.
    fn put_number(&mut self, z: i64) {
        self.make_room(21);
        self.at = put_number(&mut self.buffer, self.at, z, b' ');
    }

    // The two digits of a byte.
    fn put_hex(&mut self, b: u8) {
        self.make_room(2);
        self.buffer[self.at] = digit(b / 16);
        self.buffer[self.at + 1] = digit(b % 16);
        self.at += 2;
    }

    // Takes back the space behind the last number.
    fn take_space(&mut self) {
        self.at = self.at.saturating_sub(1);
    }

    // Writes the rest, and a line feed.
    fn end(&mut self) {
        self.make_room(1);
        self.buffer[self.at] = b'\n';
        io::write_all(STDOUT, &self.buffer[..self.at + 1]);
        self.at = 0;
    }
}

fn digit(n: u8) -> u8
    requires { n < 16 }
{
    b"0123456789abcdef"[n as usize]
}

// One line of numbers.
pub(crate) fn print_numbers(list: &[i64]) {
    let mut line = Line::new();
    for z in list {
        line.put_number(*z);
    }
    line.take_space();
    line.end();
}

// One line of bytes, in hexadecimal.
pub(crate) fn print_bytes(bytes: &[u8]) {
    let mut line = Line::new();
    for b in bytes {
        line.put_hex(*b);
    }
    line.end();
}

pub(crate) fn print_number(a: whole::Number) {
    print_numbers(&[a.refusal, a.value]);
}

// A number without a sign, and what stands behind it.
pub(crate) fn print_bits(n: u64, behind: u8) {
    io::print_decimal(STDOUT, n);
    io::write_all(STDOUT, &[behind]);
}
