// A line of a text, with a caret under a place of it.
ghost use Rattle.std.specs.Prelude.{◌≤◌, length};

use crate::speaking::Console;
use crate::system::EprintBytes;
use std::fmt;
use std::fmt::Display;

// So many bytes of a line are shown at most, and so many of them before the caret.
const SHOWN: usize = 96;

const BEFORE: usize = 64;

// The part of its line that stands before a place.
fn before(source: &[u8], place: usize) -> &[u8] {
    let all = &source[..place.min(source.len())];
    let newline = all.iter().rposition(|c| *c == b'\n');
    &all[newline.map_or(0, |i| i + 1)..]
}

// The part of its line from a place on.
fn behind(source: &[u8], place: usize) -> &[u8] {
    let all = &source[place.min(source.len())..];
    let end = all.iter().position(|c| *c == b'\n').unwrap_or(all.len());
    &all[..end]
}

// Where in its line a place is, from 1.
pub fn column_of(source: &[u8], place: usize) -> usize {
    if place > source.len() {
        return 1;
    }
    before(source, place).len() + 1
}

// A byte as it is shown: a tab is kept, and what cannot be shown is a question mark.
fn face(c: u8) -> u8 {
    match c {
        b'\t' | b' '..=b'~' => c,
        _ => b'?',
    }
}

#[derive(Clone, Copy)]
struct Shown<'a>(&'a [u8]);

impl Display for Shown<'_> {
    fn fmt<W: fmt::Write>(&self, f: &mut fmt::Formatter<W>) -> fmt::Result {
        for c in self.0 {
            f.write_char(char::from(face(*c)))?;
        }
        Ok(())
    }
}

// What stands under bytes, so that the caret comes under its place however wide tabs are.
#[derive(Clone, Copy)]
struct Beneath<'a>(&'a [u8]);

impl Display for Beneath<'_> {
    fn fmt<W: fmt::Write>(&self, f: &mut fmt::Formatter<W>) -> fmt::Result {
        for c in self.0 {
            f.write_char(if *c == b'\t' { '\t' } else { ' ' })?;
        }
        Ok(())
    }
}

// The last `most` of some bytes, or all of them where they are fewer; the first likewise.
fn last(bytes: &[u8], most: usize) -> &[u8]
    ensures { length result.now ≤ most }
{
    &bytes[bytes.len().saturating_sub(most)..]
}

fn first(bytes: &[u8], most: usize) -> &[u8] {
    bytes.get(..most).unwrap_or(bytes)
}

impl<R: EprintBytes> Console<'_, R> {
    pub fn show_line(&self, source: &[u8], place: usize) {
        let line = before(source, place);
        let left = last(line, BEFORE);
        let rest = behind(source, place);
        let right = first(rest, SHOWN - left.len());
        let (dots, blanks) = if left.len() < line.len() {
            ("...", "   ")
        } else {
            ("", "")
        };
        let more = if right.len() < rest.len() { "..." } else { "" };
        let end = if place < source.len() {
            ""
        } else {
            " the text ends here"
        };
        self.say(format_args!("    {dots}{}{}{more}\n", Shown(left), Shown(right)));
        self.say(format_args!("    {blanks}{}^{end}\n", Beneath(left)));
        if left.iter().chain(right).any(|c| face(*c) != *c) {
            self.say("(A byte that cannot be shown is shown as ? above.)\n");
        }
    }
}
