// What a user gives a program: a budget, a file, standard input.
ghost use Rattle.std.specs.Prelude.{◌≤◌, IfSome, length};
ghost use Rattle.messages.specs.Fits.{Fits};

use crate::speaking::Console;
use crate::system;
use crate::system::{EprintBytes, read_full};
use std::io::{IsTerminal, Read};
use std::rt::Files;

// As many bytes as a text or an input may have.
const MOST: usize = 1048576;

// One byte more, so that a longer text or input shows.
pub const ROOM: usize = 1048577;

// A budget as it is written: decimal digits, and no more than a u64 holds. Std's `parse` takes a plus before them.
pub fn budget_of(digits: &[u8]) -> Option<u64> {
    if digits.is_empty() {
        return None;
    }
    let mut value: u64 = 0;
    for c in digits {
        let digit = char::from(*c).to_digit(10)?;
        value = value.checked_mul(10)?.checked_add(u64::from(digit))?;
    }
    Some(value)
}

// The number of bytes read; none if they cannot be had, which is then said.
impl<R: EprintBytes> Console<'_, R> {
    fn load<S: Read + IsTerminal>(
        &self,
        source: &mut S,
        buffer: &mut [u8],
        name: &[u8],
    ) -> Option<usize>
        ensures { Fits result buffer.new }
    {
        let n = read_full(source, buffer);
        if n > MOST {
            self.tell_of(
                "",
                name,
                " is longer than 1048576 bytes; nothing was run.\n",
            );
            return None;
        }
        // A further read tells an end from a failure; at a terminal it would wait for a further line.
        if !source.is_terminal() {
            if let Err(e) = source.read(&mut [0; 1]) {
                self.fail("cannot read ", name, &e);
                return None;
            }
        }
        Some(n)
    }
}

impl<R: EprintBytes + Files> Console<'_, R> {
    // A file's bytes, in the room that is lent.
    pub fn load_file<'b>(&self, path: &[u8], room: &'b mut [u8]) -> Option<&'b [u8]>
    where
        R::File: IsTerminal,
        ensures { IfSome result (λ source. length source.now ≤ length room.old) }
    {
        match system::open(self.rt, path) {
            Ok(mut file) => {
                let n = self.load(&mut file, room, path)?;
                Some(&room[..n])
            }
            Err(e) => {
                self.fail("cannot read ", path, &e);
                None
            }
        }
    }
}

impl<R: EprintBytes + Input> Console<'_, R> {
    // Standard input's bytes, likewise. At a terminal nothing happens until the input is ended, so the user is told how.
    pub fn load_input<'b>(&self, room: &'b mut [u8]) -> Option<&'b [u8]>
    where
        R::Reader: IsTerminal,
        ensures { IfSome result (λ input. length input.now ≤ length room.old) }
    {
        let mut input = self.rt.reader();
        if input.is_terminal() {
            self.tell(
                "type the program's input, if it reads any; Ctrl-D at the start of a line ends it.\n",
            );
        }
        let n = self.load(&mut input, room, b"standard input")?;
        Some(&room[..n])
    }
}
