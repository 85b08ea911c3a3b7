// From source bytes to symbols in lent scratch, by the rules of document 01's "Symbols".
//
// `read_symbols` goes over the text once, from symbol to symbol by `next_symbol`: each is matched with the open brackets,
// which stand on a stack, and written. At a refusal what is written is cleared.
#![tactic(auto)]

mod elements;
mod kinds;
mod spellings;

ghost use Rattle.std.specs.Prelude.{◌+◌, ◌*◌, ◌-◌, ◌<◌, ◌≤◌, ◌≡◌, cond, [], ◌∷◌, ◌++◌, length, replicate, take, eqb};
ghost use Rattle.std.proofs.lemmas.List.Edits.{sets};
ghost use Rattle.language.specs.Symbols.{kind_of};
ghost use Rattle.language.specs.Candidates.{compared};
ghost use Rattle.language.specs.Source.{too_long, scratch_too_short};
ghost use Rattle.symbols.specs.Kinds.{number_of, number_or};
ghost use Rattle.symbols.specs.Read.{Reads};
ghost use Rattle.symbols.specs.Parts.{Finds, Matches, wanting, Writes, gain, ReadsAll};

use crate::elements::Element;
pub use kinds::Kind;
use text::Fault;

// Why there are no symbols: document 01's refusal 1, or 15; or a fault, and the place of the byte that is wrong.
#[derive(Clone, Copy, PartialEq, Eq)]
pub enum Unread {
    TooLong,
    TooShort,
    Refused { fault: Fault, place: usize },
}

// A word's kind, and how many reserved words it was compared whole with.
#[derive(Drop)]
pub struct Word {
    pub kind: Kind,
    pub compared: usize,
}

// A symbol with its place and the place past it, and whether a newline stands before it.
#[derive(Drop)]
struct Found {
    kind: Kind,
    value: usize,
    place: usize,
    past: usize,
    newline: bool,
}

// A fault and its place.
#[derive(Drop)]
struct Faulty {
    fault: Fault,
    place: usize,
}

// Refusal 1.
pub fn too_long(text: &[u8]) -> bool
    ensures { result ≡ too_long text.now }
{
    16384 < text.len()
}

// Refusal 15, as far as scratch goes.
pub fn scratch_too_short(text: &[u8], scratch: &[u32]) -> bool
    ensures { result ≡ scratch_too_short text.now (length scratch.now) }
{
    let room = scratch.len();
    room < 64 || (room - 64) / 8 < text.len()
}

// The first symbol from a place on, if there is one.
fn next_symbol(text: &[u8], at: usize) -> Result<Option<Found>, Faulty>
    requires { at ≤ length text.now }
    ensures { Finds text.now at result }
{
    let mut newline = false;
    let mut place = at;
    while place < text.len() {
        match elements::element_at(&text[place..]) {
            Ok(Element::Symbol { kind, value, width }) => {
                return Ok(Some(Found {
                    kind,
                    value,
                    place,
                    past: place + width,
                    newline,
                }));
            }
            Ok(Element::Gap(width)) => {
                newline = newline || text[place] == b'\n';
                place += width;
            }
            Err(wrong) => {
                return Err(Faulty {
                    fault: wrong.fault,
                    place: place + wrong.offset,
                });
            }
        }
    }
    Ok(None)
}

// An opening bracket goes on the stack, by whether it is $(; the number of open brackets then.
fn opening(stack: &mut [bool], depth: usize, block: bool) -> usize
    requires { depth < length stack.old }
    ensures { (result ≡ depth + 1) × (stack.new ≡ sets stack.old depth (block ∷ [])) }
{
    stack[depth] = block;
    depth + 1
}

// A closing bracket has to close the one on top of the stack; the number of open brackets then.
fn closing(stack: &[bool], depth: usize, block: bool) -> Option<usize>
    requires { depth ≤ length stack.now }
    ensures { result ≡ wanting stack.now depth block }
{
    if depth > 0 && stack[depth - 1] == block {
        return Some(depth - 1);
    }
    None
}

// The number of open brackets after a symbol, if it matches them.
fn bracket(stack: &mut [bool], depth: usize, kind: Kind) -> Option<usize>
    requires { depth < length stack.old }
    ensures { Matches kind depth stack.old result stack.new }
{
    match kind {
        Kind::Open => Some(opening(stack, depth, false)),
        Kind::Begin => Some(opening(stack, depth, true)),
        Kind::Close => closing(stack, depth, false),
        Kind::End => closing(stack, depth, true),
        _ => Some(depth),
    }
}

// Whether a semicolon is inserted between two symbols, by whether a newline stands there.
fn gains(before: Option<Kind>, kind: Kind, newline: bool) -> bool
    ensures { result ≡ gain (number_or before) (number_of kind) newline }
{
    match before {
        Some(before) => newline && before.ends_line() && kind.begins_line(),
        None => false,
    }
}

// A string's value is its position among the strings.
fn numbered(kind: Kind, value: usize, strings: usize) -> usize
    ensures { result ≡ cond (eqb (number_of kind) 61) strings value }
{
    if kind == Kind::String { strings } else { value }
}

fn strings_past(kind: Kind, strings: usize) -> usize
    requires { strings < 16384 }
    ensures { result ≡ cond (eqb (number_of kind) 61) (strings + 1) strings }
{
    if kind == Kind::String {
        strings + 1
    } else {
        strings
    }
}

// A symbol's three entries.
fn put(scratch: &mut [u32], count: usize, kind: Kind, value: usize, place: usize)
    requires { (count * 3 + 3 ≤ length scratch.old) × (value < 131072) × (place < 65536) }
    ensures { scratch.new ≡ sets scratch.old (count * 3) (number_of kind ∷ value ∷ place ∷ []) }
{
    let base = count * 3;
    scratch[base] = kind.number();
    scratch[base + 1] = value as u32;
    scratch[base + 2] = place as u32;
}

// A symbol after `count` others, with a semicolon before it or not; the number of symbols then.
fn write(
    scratch: &mut [u32],
    count: usize,
    semicolon: bool,
    kind: Kind,
    value: usize,
    place: usize,
) -> usize
    requires { (count * 3 + cond semicolon 6 3 ≤ length scratch.old) × (value < 131072) × (place < 65536) }
    ensures { Writes count semicolon (number_of kind) value place scratch.old result scratch.new }
{
    if semicolon {
        put(scratch, count, Kind::Semicolon, 0, place);
        put(scratch, count + 1, kind, value, place);
        return count + 2;
    }
    put(scratch, count, kind, value, place);
    count + 1
}

// Zeros from that entry on, to the end.
pub fn clear_from(scratch: &mut [u32], from: usize)
    ensures { scratch.new ≡ take from scratch.old ++ replicate (length scratch.old - from) 0 }
{
    let start = from.min(scratch.len());
    scratch[start..].fill(0);
}

// From symbol to symbol, to a fault or the text's end; the number of symbols. Zeros stand behind them.
fn read_all(text: &[u8], stack: &mut [bool], scratch: &mut [u32]) -> Result<usize, Faulty>
    requires text_len_bound { (length text.now ≤ 16384) × (length stack.old ≡ 16384) }
    requires text_in_bounds { length text.now * 3 ≤ length scratch.old }
    ensures { ReadsAll text.now scratch.old result scratch.new }
{
    let mut at: usize = 0;
    let mut depth: usize = 0;
    let mut count: usize = 0;
    let mut before = None;
    let mut strings: usize = 0;
    while let Some(found) = next_symbol(text, at)? {
        let Some(open) = bracket(stack, depth, found.kind) else {
            return Err(Faulty {
                fault: Fault::Bracket,
                place: found.place,
            });
        };
        let semicolon = gains(before, found.kind, found.newline);
        let value = numbered(found.kind, found.value, strings);
        count = write(scratch, count, semicolon, found.kind, value, found.place);
        strings = strings_past(found.kind, strings);
        before = Some(found.kind);
        depth = open;
        at = found.past;
    }
    if depth != 0 {
        return Err(Faulty {
            fault: Fault::Bracket,
            place: text.len(),
        });
    }
    clear_from(scratch, count * 3);
    Ok(count)
}

// The search of the reserved words by itself: the kind of any bytes, taken as a word.
pub fn word_kind(word: &[u8]) -> Word
    ensures kind_value { number_of result.kind ≡ kind_of word.now }
    ensures compared_value { (result.compared ≡ compared word.now) × (result.compared ≤ 3) }
{
    spellings::kind_of(word)
}

// A source's symbols into scratch, which needs three entries a byte; how many they are. There are no more brackets than bytes.
pub fn read_symbols(text: &[u8], scratch: &mut [u32]) -> Result<usize, Unread>
    ensures { Reads text.now scratch.old result scratch.new }
{
    if too_long(text) {
        return Err(Unread::TooLong);
    }
    if scratch.len() < text.len() * 3 {
        return Err(Unread::TooShort);
    }
    let mut stack = [false; 16384];
    match read_all(text, &mut stack, scratch) {
        Ok(count) => Ok(count),
        Err(Faulty { fault, place }) => {
            scratch.fill(0);
            Err(Unread::Refused { fault, place })
        }
    }
}
