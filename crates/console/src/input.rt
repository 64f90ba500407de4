// Standard input, and whether a read of it failed.
ghost use Rattle.std.specs.Prelude.{◌≤◌, length};

use crate::say::{say, say_natural};
use std::io::Read;

// How many bytes were read to the start of a buffer, and whether a read failed behind them. No Result: what was read before a failure is taken in, too. No
// slice: the programs' `RunPromise` speaks of the buffer after the call, and of so many of its bytes.
#[derive(Drop)]
pub struct Input {
    pub bytes: usize,
    pub failed: bool,
}

impl Input {
    // That a read failed, after so many bytes.
    pub fn say_unread(&self) {
        if self.failed {
            say(b"standard input could not be read beyond byte ");
            say_natural(self.bytes as u64);
            say(b"\n");
        }
    }
}

// Reads until the buffer is full, the input ends or a read fails. The kit's `io::read_full` does not tell the last two apart, nor does `read_exact` say how
// many bytes there were.
pub fn read_input<R: Read>(stdin: &mut R, buffer: &mut [u8]) -> Input
    ensures { result.bytes ≤ length buffer.new }
{
    let mut n: usize = 0;
    // A read takes in as much as it likes, so no `for` counts the bytes.
    while n < buffer.len() {
        match stdin.read(&mut buffer[n..]) {
            Ok(0) => break,
            Ok(more) => n += more,
            Err(_) => {
                return Input {
                    bytes: n,
                    failed: true,
                };
            }
        }
    }
    Input {
        bytes: n,
        failed: false,
    }
}
