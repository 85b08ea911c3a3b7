// What stands at a place of a text: a symbol, a gap, or neither. One function for each part of document 01's "Symbols".
ghost use Rattle.std.specs.Prelude.{◌+◌, ◌-◌, ◌*◌, ◌<◌, ◌≤◌, ◌≡◌, ◌==◌, not, position, length, get_or, drop};
ghost use Rattle.language.specs.Bytes.{class_of};
ghost use Rattle.language.specs.Symbols.{in_word, word, digit_of, digits, value_of, decimal, octal, character, string};
ghost use Rattle.language.specs.Symbols.{sign_or_comment, by_class};
ghost use Rattle.language.specs.Symbols as S;
ghost use Rattle.text.specs.Faults.{number_of};
ghost use Rattle.symbols.specs.Answers.{element_of};
ghost use Rattle.symbols.specs.Parts.{capped};

use crate::kinds::Kind;
use crate::spellings;
use text::{Fault, Flaw};

// A symbol with its value and the number of bytes that write it; or the bytes of a gap.
#[derive(Drop)]
pub(crate) enum Element {
    Symbol {
        kind: Kind,
        value: usize,
        width: usize,
    },
    Gap(usize),
}

// A fault, and the number of bytes before the one that is wrong.
#[derive(Drop)]
pub(crate) struct Wrong {
    pub fault: Fault,
    pub offset: usize,
}

// A fault of the first byte.
pub(crate) fn refused_here(fault: Fault) -> Result<Element, Wrong>
    ensures { element_of result ≡ S.wrong (number_of fault) 0 }
{
    Err(Wrong { fault, offset: 0 })
}

// How many digits stand at a place, and their value; 65,536 stands for all that are larger.
#[derive(Drop)]
struct Digits {
    count: usize,
    value: usize,
}

// The classes of bytes. A dot stands in words only.
const LETTER: u8 = 1;

const DIGIT: u8 = 2;

const DOT: u8 = 3;

const HASH: u8 = 4;

const QUOTE: u8 = 5;

const DOUBLE: u8 = 6;

const SIGN: u8 = 7;

const SEPARATOR: u8 = 8;

const NEWLINE: u8 = 9;

// The class of each byte, as a digit.
static CLASSES: [u8; 256] = *b"00000000089008000000000000000000\
    87647075777777372222222222777770\
    71111111111111111111111111100000\
    00000000000000000000000000007070\
    00000000000000000000000000000000\
    00000000000000000000000000000000\
    00000000000000000000000000000000\
    00000000000000000000000000000000";

fn class_of(byte: u8) -> u8
    ensures { result ≡ class_of byte }
{
    CLASSES[byte as usize] - b'0'
}

// Whether a byte may stand in a word: a capital, a digit or a dot.
fn in_word(byte: u8) -> bool
    ensures { result ≡ in_word (class_of byte) }
{
    (LETTER..=DOT).contains(&class_of(byte))
}

// The place of the first byte that stands in no word.
fn word_end(bytes: &[u8]) -> Option<usize>
    ensures { result ≡ position (λ c. not (in_word (class_of c))) bytes.now }
{
    bytes.iter().position(|c| !in_word(*c))
}

// The word at the head.
fn word_at(bytes: &[u8]) -> Result<Element, Wrong>
    ensures { element_of result ≡ word bytes.now }
{
    let width = word_end(bytes).unwrap_or(bytes.len());
    let kind = spellings::kind_of(&bytes[..width]).kind;
    Ok(Element::Symbol {
        kind,
        value: width,
        width,
    })
}

fn is_digit(base: usize, c: usize) -> bool
    requires { base ≤ 10 }
    ensures { result ≡ digit_of base c }
{
    48 <= c && c < 48 + base
}

// A number of one digit more.
fn and_digit(base: usize, n: usize, c: usize) -> usize
    requires { (base ≤ 10) × (n ≤ 65536) × (48 ≤ c) × (c < 256) }
    ensures { result ≡ capped (n * base + (c - 48)) }
{
    (n * base + (c - 48)).min(65536)
}

// Alike but not one with `read_decimal` of items, which says why.
fn digits_at(bytes: &[u8], base: usize) -> Digits
    requires { (1 ≤ base) × (base ≤ 10) }
    ensures { (result.count ≡ digits base bytes.now) × (result.value ≡ capped (value_of base 0 bytes.now)) }
{
    let mut value = 0;
    for (count, byte) in bytes.iter().enumerate() {
        let c = usize::from(*byte);
        if !is_digit(base, c) {
            return Digits { count, value };
        }
        value = and_digit(base, value, c);
    }
    Digits {
        count: bytes.len(),
        value,
    }
}

fn decimal_at(bytes: &[u8]) -> Result<Element, Wrong>
    ensures { element_of result ≡ decimal bytes.now }
{
    let number = digits_at(bytes, 10);
    if number.value > 32767 {
        return refused_here(Fault::Number);
    }
    Ok(Element::Symbol {
        kind: Kind::Number,
        value: number.value,
        width: number.count,
    })
}

// What follows #.
fn octal_at(bytes: &[u8]) -> Result<Element, Wrong>
    ensures { element_of result ≡ octal bytes.now }
{
    let number = digits_at(bytes, 8);
    if number.count < 1 {
        return refused_here(Fault::Number);
    }
    if number.value <= 65535 {
        return Ok(Element::Symbol {
            kind: Kind::Number,
            value: number.value,
            width: number.count + 1,
        });
    }
    refused_here(Fault::Number)
}

// What follows a single quote.
fn character_at(bytes: &[u8]) -> Result<Element, Wrong>
    ensures { element_of result ≡ character bytes.now }
{
    match text::quoted_at(bytes, 0, b'\'', 1) {
        Ok(constant) => {
            if constant.characters == 0 {
                return refused_here(Fault::QuotedLength);
            }
            let value = text::value_at(bytes, 0, b'\'');
            Ok(Element::Symbol {
                kind: Kind::Number,
                value: usize::from(value),
                width: constant.width + 1,
            })
        }
        Err(Flaw::Unclosed) => refused_here(Fault::Unclosed),
        Err(Flaw::Faulty { fault, offset }) => Err(Wrong {
            fault,
            offset: offset + 1,
        }),
    }
}

// What follows a double quote.
fn string_at(bytes: &[u8]) -> Result<Element, Wrong>
    ensures { element_of result ≡ string bytes.now }
{
    match text::quoted_at(bytes, 0, b'"', 255) {
        Ok(constant) => Ok(Element::Symbol {
            kind: Kind::String,
            value: constant.characters,
            width: constant.width + 1,
        }),
        Err(Flaw::Unclosed) => refused_here(Fault::Unclosed),
        Err(Flaw::Faulty { fault, offset }) => Err(Wrong {
            fault,
            offset: offset + 1,
        }),
    }
}

// The place of the first newline.
fn line_end(bytes: &[u8]) -> Option<usize>
    ensures { result ≡ position (λ c. c == 10) bytes.now }
{
    bytes.iter().position(|c| *c == b'\n')
}

fn sign_or_comment(bytes: &[u8]) -> Result<Element, Wrong>
    requires { 0 < length bytes.now }
    ensures { element_of result ≡ sign_or_comment bytes.now }
{
    if bytes.starts_with(b"//") {
        let width = line_end(bytes).unwrap_or(bytes.len());
        return Ok(Element::Gap(width));
    }
    spellings::sign_at(bytes)
}

// By the class of the first byte.
pub(crate) fn element_at(bytes: &[u8]) -> Result<Element, Wrong>
    requires { 0 < length bytes.now }
    ensures { element_of result ≡ by_class (class_of (get_or bytes.now 0 0)) bytes.now }
{
    match class_of(bytes[0]) {
        LETTER => word_at(bytes),
        DIGIT => decimal_at(bytes),
        HASH => octal_at(&bytes[1..]),
        QUOTE => character_at(&bytes[1..]),
        DOUBLE => string_at(&bytes[1..]),
        SIGN => sign_or_comment(bytes),
        SEPARATOR => Ok(Element::Gap(1)),
        NEWLINE => Ok(Element::Gap(1)),
        _ => refused_here(Fault::NoSymbol),
    }
}
