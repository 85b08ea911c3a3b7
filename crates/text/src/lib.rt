// What source text and assembly text share: line numbers, refusals, and characters between quotes.
#![tactic(auto)]

mod faults;

ghost use Rattle.std.specs.Prelude.{◌≡◌, ◌==◌, Some, Err, count_by, drop, take};
ghost use Rattle.text.specs.Faults.{number_of};
ghost use Rattle.text.specs.Line.{line_of, refusal, refusal_text};
ghost use Rattle.text.specs.Quoted.{by_digits, by_number, escape, character, fault_before, quoted};
ghost use Rattle.text.specs.Parts.{value_of, value_if, is_closed, widened};
ghost use Rattle.text.specs.Answers.{as_written, found, counted};

pub use faults::{Fault, UnknownNumber};
use std::fmt;

// A refusal: document 01's number, the place of the byte (from 0) and its line (from 1).
#[derive(Drop)]
pub struct Refusal {
    pub number: u16,
    pub place: usize,
    pub line: usize,
}

impl fmt::Display for Refusal {
    ghost output = { λ r. Some (refusal_text r) };

    fn fmt<W: fmt::Write>(&self, f: &mut fmt::Formatter<W>) -> fmt::Result {
        write!(
            f,
            "refused {} at {} line {}",
            self.number, self.place, self.line
        )
    }
}

// What stands at a place between quotes: a character and the bytes that write it, the closing quote, a newline or the end, or a mistake.
#[derive(Clone, Copy)]
pub enum Character {
    Is(u8, usize),
    Closing,
    Ended,
    Mistake(Fault),
}

// A constant that is closed, from past its opening quote on: how many characters it has, and how many bytes write them and the closing quote.
#[derive(Clone, Copy)]
pub struct Closed {
    pub characters: usize,
    pub width: usize,
}

// What is wrong with a constant: it is not closed; or its first fault, and how many bytes stand before that.
#[derive(Clone, Copy)]
pub enum Flaw {
    Unclosed,
    Faulty { fault: Fault, offset: usize },
}

// How many newlines stand before a place.
fn newlines(text: &[u8], place: usize) -> usize
    ensures { result ≡ count_by (λ c. c == 10) (take place text.now) }
{
    text.iter().take(place).filter(|c| **c == b'\n').count()
}

// A place past the end is on the last line.
#[tactic(auto, using(crate::proofs::Lines::counted_line))]
pub fn line_of(text: &[u8], place: usize) -> usize
    ensures { result ≡ line_of text.now place }
{
    1 + newlines(text, place)
}

#[tactic(auto, unfolding(crate::specs::Line::refusal))]
pub fn refuse(text: &[u8], number: u16, place: usize) -> Refusal
    ensures { result ≡ refusal text.now number place }
{
    Refusal {
        number,
        place,
        line: line_of(text, place),
    }
}

// Three digits for a byte.
#[tactic(auto, unfolding(crate::specs::Quoted::by_digits))]
fn by_digits(a: u8, b: u8, c: u8) -> Character
    ensures { as_written result ≡ by_digits a b c }
{
    if !(a.is_ascii_digit() && b.is_ascii_digit() && c.is_ascii_digit()) {
        return Character::Mistake(Fault::Escape);
    }
    let number = (a - b'0') as u16 * 100 + (b - b'0') as u16 * 10 + (c - b'0') as u16;
    if number > 255 {
        return Character::Mistake(Fault::Escape);
    }
    Character::Is(number as u8, 4)
}

#[tactic(auto, unfolding(crate::specs::Quoted::by_number))]
fn by_number(rest: &[u8]) -> Character
    ensures { as_written result ≡ by_number rest.now }
{
    match rest {
        [a, b, c, ..] => by_digits(*a, *b, *c),
        _ => Character::Mistake(Fault::Escape),
    }
}

// What stands after an asterisk.
#[tactic(auto, unfolding(crate::specs::Quoted::escape))]
fn escape(rest: &[u8]) -> Character
    ensures { as_written result ≡ escape rest.now }
{
    match rest {
        [] => Character::Mistake(Fault::Escape),
        [b'N', ..] => Character::Is(10, 2),
        [b'S', ..] => Character::Is(32, 2),
        [b'T', ..] => Character::Is(9, 2),
        [b'B', ..] => Character::Is(8, 2),
        [b'P', ..] => Character::Is(12, 2),
        [b'C', ..] => Character::Is(13, 2),
        [c @ (b'*' | b'\'' | b'"'), ..] => Character::Is(*c, 2),
        _ => by_number(rest),
    }
}

#[tactic(auto, unfolding(crate::specs::Quoted::character))]
pub fn character_at(text: &[u8], at: usize, quote: u8) -> Character
    ensures { as_written result ≡ character quote (drop at text.now) }
{
    let Some([c, rest @ ..]) = text.get(at..) else {
        return Character::Ended;
    };
    match *c {
        c if c == quote => Character::Closing,
        b'*' => escape(rest),
        b'\n' => Character::Ended,
        c @ b' '..=b'~' => Character::Is(c, 1),
        _ => Character::Mistake(Fault::QuotedByte),
    }
}

// The value of the character at a place between quotes; 0 where there is none.
pub fn value_at(text: &[u8], at: usize, quote: u8) -> u8
    ensures { result ≡ value_of (character quote (drop at text.now)) }
{
    match character_at(text, at, quote) {
        Character::Is(value, _) => value,
        _ => 0,
    }
}

// The same, if a character stands there.
pub fn value_if_at(text: &[u8], at: usize, quote: u8) -> Option<u8>
    ensures { result ≡ value_if (character quote (drop at text.now)) }
{
    match character_at(text, at, quote) {
        Character::Is(value, _) => Some(value),
        _ => None,
    }
}

// Whether the closing quote comes before a newline and the end. Each character decides how far the loop goes on, so no `for` is plainer.
fn closes(text: &[u8], at: usize, quote: u8) -> bool
    ensures { result ≡ is_closed (quoted quote 0 0 (drop at text.now)) }
{
    let mut i = at;
    loop {
        match character_at(text, i, quote) {
            Character::Is(_, width) => {
                i += width;
            }
            Character::Closing => {
                return true;
            }
            Character::Ended => {
                return false;
            }
            Character::Mistake(_) => {
                i += 1;
            }
        }
    }
}

// A fault at a place, so many bytes into a constant, which may not be closed.
fn fault_at(text: &[u8], at: usize, quote: u8, fault: Fault, offset: usize) -> Flaw
    ensures { found (Err result) ≡ counted (widened offset (fault_before (number_of fault) (quoted quote 0 0 (drop at text.now)))) }
{
    if closes(text, at, quote) {
        Flaw::Faulty { fault, offset }
    } else {
        Flaw::Unclosed
    }
}

// A constant of at most `room` characters, from past its opening quote on. As in `closes`, each character decides how far the loop goes on.
pub fn quoted_at(text: &[u8], at: usize, quote: u8, room: usize) -> Result<Closed, Flaw>
    ensures { found result ≡ counted (quoted quote room 0 (drop at text.now)) }
{
    let mut characters: usize = 0;
    let mut i = at;
    loop {
        match character_at(text, i, quote) {
            Character::Is(_, width) => {
                if characters == room {
                    return Err(fault_at(text, i, quote, Fault::QuotedLength, i - at));
                }
                characters += 1;
                i += width;
            }
            Character::Closing => {
                return Ok(Closed {
                    characters,
                    width: i - at + 1,
                });
            }
            Character::Ended => {
                return Err(Flaw::Unclosed);
            }
            Character::Mistake(fault) => {
                return Err(fault_at(text, i, quote, fault, i - at));
            }
        }
    }
}
