// What the programs ask of the system, over std: arguments and files by their bytes, standard error for bytes, an error's own words.
ghost use Rattle.std.specs.Prelude.{◌≡◌, ◌≤◌, length};

use std::env::{Env, FillError};
use std::fmt::InlineText;
use std::fs::File;
use std::io;
use std::io::{Error, Read};
use std::rt::Files;

// Standard error, where what is said need not be text, as the name of a file need not: std's `Eprint` takes text alone.
pub trait EprintBytes: Eprint {
    fn eprint_bytes(&self, bytes: &[u8]) -> io::Result<()>;
}

impl EprintBytes for HostRuntime {
    fn eprint_bytes(&self, bytes: &[u8]) -> io::Result<()> {
        self.stderr().write_all(bytes)
    }
}

// As many bytes as the name of any file has.
pub const NAME_ROOM: usize = 4096;

// Zeros, lent where they are many: of an array written out the check counts the elements, and of a million it cannot.
pub fn zeros<const N: usize>() -> [u8; N]
    ensures { length result ≡ N }
{
    [0; N]
}

// Reads until the buffer is full, the input ends or a read fails; how many bytes were read. (Std's `read_exact` does not say how many came
// before the end.)
pub fn read_full(reader: &mut impl Read, buffer: &mut [u8]) -> usize
    ensures { result ≤ length buffer.new }
{
    let mut done = 0;
    while done < buffer.len() {
        let n = reader.read(&mut buffer[done..]).unwrap_or(0);
        if n == 0 {
            break;
        }
        done += n;
    }
    done
}

// How many words the command line has, the program's own name among them.
pub fn arg_count(rt: &impl Env) -> usize {
    for at in 0..usize::MAX {
        if let Err(FillError::NotPresent) = rt.arg(at, &mut []) {
            return at;
        }
    }
    usize::MAX
}

// The number of the system's error for an argument that is not there, that is too long, and for a name that is no text.
const INVALID: i32 = 22;

const TOO_LONG: i32 = 36;

const NO_TEXT: i32 = 84;

// Both types are std's, so this is no `From`.
pub fn argument_error(e: FillError) -> Error {
    Error::from_raw_os_error(match e {
        FillError::NotPresent => INVALID,
        FillError::TooLong => TOO_LONG,
    })
}

// Opens a file for reading. Std's names are text in UTF-8, so a file of any other name cannot be opened.
pub fn open<R: Files>(rt: &R, path: &[u8]) -> io::Result<R::File> {
    let name = str::from_utf8(path).map_err(|_| Error::from_raw_os_error(NO_TEXT))?;
    File::open(rt, name)
}

// Says what failed, and why: in the system's words, without its number, which std puts behind them.
pub fn fail(rt: &impl EprintBytes, what: &[u8], error: &Error) {
    let shown = InlineText::<128>::of(error);
    let all = shown.as_str();
    let words = all
        .split_once(" (os error ")
        .map_or(all, |(words, _)| words);
    let _ = rt.eprint_bytes(what);
    let _ = eprintln!(rt; ": {words}");
}
