// What is written behind the functions: the strings, and the globals in which functions start.
ghost use Rattle.std.specs.Prelude.{◌≡◌, List, [], ◌∷◌, ◌++◌, ℕ, suc, ◌+◌, ◌*◌, ◌/◌, ◌%◌, ◌≤◌, ◌<◌, ◌^◌, length, get_or, drop};
ghost use Rattle.items.specs.Render.{plain_text, character_text};
ghost use Rattle.tree.specs.Read.{decoded};
ghost use Rattle.writing.specs.Text.{Appends};
ghost use Rattle.compiler.specs.Strings.{string_count, one_if, Escapes, WritesCharacters, WritesString, WritesSymbol};
ghost use Rattle.compiler.specs.Strings.{WritesStrings, FindsGlobal, WritesStart, WritesStarts};

use crate::kinds::STRING;
use crate::scope::entry;
use text::{Character, character_at};
use writing::{emit, global, label};

// 1 for the kind of a string, 0 for any other.
#[tactic(auto, using(crate::proofs::StringTexts::one_if_yes, crate::proofs::StringTexts::one_if_no))]
fn one_if(kind: usize) -> usize
    ensures { result ≡ one_if kind }
{
    (kind == STRING) as usize
}

// How many of so many symbols are strings.
pub(crate) fn string_count(s: &[u32], count: usize) -> usize
    requires { count < 2 ^ 32 }
    ensures { result ≡ string_count (decoded count s.now) }
{
    let mut n = 0;
    for i in 0..count {
        n += one_if(entry(s, i * 3));
    }
    n
}

// The byte after the asterisk in a character's escape; 0 where it has none of its own.
fn escape_of(c: u8) -> u8
    ensures { Escapes c result }
{
    match c {
        10 => b'N',
        9 => b'T',
        8 => b'B',
        12 => b'P',
        13 => b'C',
        42 => b'*',
        34 => b'"',
        _ => 0,
    }
}

// A character that has no escape of its own, by its number.
fn numbered(text: &mut [u8], at: usize, c: u8) -> usize
    ensures { Appends (42 ∷ (48 + c / 100) ∷ (48 + c / 10 % 10) ∷ (48 + c % 10) ∷ []) at result text.old text.new }
{
    let a = emit(text, at, b'*');
    let b = emit(text, a, 48 + c / 100);
    let d = emit(text, b, 48 + c / 10 % 10);
    emit(text, d, 48 + c % 10)
}

// As it stands, or by its number.
#[tactic(auto, using(crate::proofs::StringTexts::plain_low, crate::proofs::StringTexts::plain_high, crate::proofs::StringTexts::plain_itself))]
fn plain(text: &mut [u8], at: usize, c: u8) -> usize
    ensures { Appends (plain_text c) at result text.old text.new }
{
    if matches!(c, 32..=126) {
        return emit(text, at, c);
    }
    numbered(text, at, c)
}

// A character of a string.
fn character(text: &mut [u8], at: usize, c: u8) -> usize
    ensures { Appends (character_text c) at result text.old text.new }
{
    let e = escape_of(c);
    if e == 0 {
        return plain(text, at, c);
    }
    let x = emit(text, at, b'*');
    emit(text, x, e)
}

// The characters of a string from a place of the source on, up to the closing quote.
fn characters(source: &[u8], from: usize, text: &mut [u8], at: usize) -> usize
    ensures { WritesCharacters source.now from at result text.old text.new }
{
    let mut i = from;
    let mut x = at;
    // goes on by each character's width
    loop {
        let one = character_at(source, i, b'"');
        match one {
            Character::Is(c, width) => {
                x = character(text, x, c);
                i += width;
            }
            Character::Closing | Character::Ended | Character::Mistake(_) => {
                return x;
            }
        }
    }
}

// The line of the string whose quote stands at a place of the source.
fn string(source: &[u8], place: usize, text: &mut [u8], at: usize) -> usize
    requires { place < 2 ^ 32 }
    ensures { WritesString source.now place at result text.old text.new }
{
    let c = emit(text, at, b'C');
    let open = emit(text, c, b'"');
    let close = characters(source, place + 1, text, open);
    let end = emit(text, close, b'"');
    emit(text, end, b'\n')
}

// What is written for one symbol: its label and its line, if it is a string.
fn string_symbol(
    source: &[u8],
    kind: usize,
    place: usize,
    text: &mut [u8],
    at: usize,
    number: usize,
) -> usize
    requires { place < 2 ^ 32 }
    ensures { WritesSymbol source.now kind place number at result text.old text.new }
{
    if kind != STRING {
        return at;
    }
    let x = label(text, at, number);
    string(source, place, text, x)
}

// The strings among so many symbols, each with its label.
pub(crate) fn strings(
    source: &[u8],
    s: &[u32],
    count: usize,
    text: &mut [u8],
    at: usize,
    first: usize,
) -> usize
    requires { (count < 2 ^ 32) × (first < 2 ^ 32) }
    ensures { WritesStrings source.now s.now count first at result text.old text.new }
{
    let mut x = at;
    let mut number = first;
    for i in 0..count {
        let kind = entry(s, i * 3);
        let place = entry(s, i * 3 + 2);
        x = string_symbol(source, kind, place, text, x, number);
        number += one_if(kind);
    }
    x
}

// The global whose entry in the table is that label, if there is one.
fn global_of(table: &[u32], label: usize) -> Option<usize>
    ensures { FindsGlobal table.now label result }
{
    for n in 0..400 {
        if entry(table, n) == label {
            return Some(n);
        }
    }
    None
}

// The global in which the function with that label starts, if there is one.
fn start(table: &[u32], label: usize, text: &mut [u8], at: usize) -> usize
    ensures { WritesStart table.now label at result text.old text.new }
{
    match global_of(table, label) {
        Some(n) => global(text, at, n, label),
        None => at,
    }
}

// The globals in which functions start: of each global the table has its function's label, or 0.
pub(crate) fn starts(table: &[u32], functions: usize, text: &mut [u8], at: usize) -> usize
    requires { functions < 2 ^ 32 }
    ensures { WritesStarts table.now functions at result text.old text.new }
{
    let mut x = at;
    for k in 0..functions {
        x = start(table, k + 1, text, x);
    }
    x
}

// The line before all items, and the one behind them.
pub(crate) fn opening(text: &mut [u8], at: usize) -> usize
    ensures { Appends (36 ∷ 10 ∷ []) at result text.old text.new }
{
    let x = emit(text, at, b'$');
    emit(text, x, b'\n')
}

pub(crate) fn closing(text: &mut [u8], at: usize) -> usize
    ensures { Appends (90 ∷ 10 ∷ []) at result text.old text.new }
{
    let x = emit(text, at, b'Z');
    emit(text, x, b'\n')
}
