// The words and signs by their spellings: which one stands at a place of a text.
//
// `kind_of` alone decides whether a word is reserved, and `sign_at` which sign stands at a place.
ghost use Rattle.std.specs.Prelude.{◌<◌, ◌≡◌, length, get_or};
ghost use Rattle.language.specs.Symbols.{kind_of, symbol, sign};
ghost use Rattle.language.specs.Candidates.{compared};
ghost use Rattle.symbols.specs.Kinds.{number_of};
ghost use Rattle.symbols.specs.Spellings.{Spans};
ghost use Rattle.symbols.specs.Answers.{element_of};

use crate::Word;
use crate::elements::{Element, Wrong, refused_here};
use crate::kinds::Kind;
use text::Fault;

// A reserved word.
#[derive(Clone, Copy)]
pub(crate) struct Spelled {
    pub kind: Kind,
    pub spelling: &'static [u8],
}

// The reserved words by first letter, those of one letter in 01's order.
static WORDS: [Spelled; 35] = [
    Spelled {
        kind: Kind::And,
        spelling: b"AND",
    },
    Spelled {
        kind: Kind::Be,
        spelling: b"BE",
    },
    Spelled {
        kind: Kind::By,
        spelling: b"BY",
    },
    Spelled {
        kind: Kind::Break,
        spelling: b"BREAK",
    },
    Spelled {
        kind: Kind::Case,
        spelling: b"CASE",
    },
    Spelled {
        kind: Kind::Do,
        spelling: b"DO",
    },
    Spelled {
        kind: Kind::Default,
        spelling: b"DEFAULT",
    },
    Spelled {
        kind: Kind::Endcase,
        spelling: b"ENDCASE",
    },
    Spelled {
        kind: Kind::False,
        spelling: b"FALSE",
    },
    Spelled {
        kind: Kind::For,
        spelling: b"FOR",
    },
    Spelled {
        kind: Kind::Finish,
        spelling: b"FINISH",
    },
    Spelled {
        kind: Kind::Global,
        spelling: b"GLOBAL",
    },
    Spelled {
        kind: Kind::If,
        spelling: b"IF",
    },
    Spelled {
        kind: Kind::Into,
        spelling: b"INTO",
    },
    Spelled {
        kind: Kind::Let,
        spelling: b"LET",
    },
    Spelled {
        kind: Kind::Loop,
        spelling: b"LOOP",
    },
    Spelled {
        kind: Kind::Manifest,
        spelling: b"MANIFEST",
    },
    Spelled {
        kind: Kind::Not,
        spelling: b"NOT",
    },
    Spelled {
        kind: Kind::Or,
        spelling: b"OR",
    },
    Spelled {
        kind: Kind::Resultis,
        spelling: b"RESULTIS",
    },
    Spelled {
        kind: Kind::Rem,
        spelling: b"REM",
    },
    Spelled {
        kind: Kind::Repeat,
        spelling: b"REPEAT",
    },
    Spelled {
        kind: Kind::Repeatwhile,
        spelling: b"REPEATWHILE",
    },
    Spelled {
        kind: Kind::Repeatuntil,
        spelling: b"REPEATUNTIL",
    },
    Spelled {
        kind: Kind::Return,
        spelling: b"RETURN",
    },
    Spelled {
        kind: Kind::Switchon,
        spelling: b"SWITCHON",
    },
    Spelled {
        kind: Kind::True,
        spelling: b"TRUE",
    },
    Spelled {
        kind: Kind::Test,
        spelling: b"TEST",
    },
    Spelled {
        kind: Kind::Do,
        spelling: b"THEN",
    },
    Spelled {
        kind: Kind::To,
        spelling: b"TO",
    },
    Spelled {
        kind: Kind::Unless,
        spelling: b"UNLESS",
    },
    Spelled {
        kind: Kind::Until,
        spelling: b"UNTIL",
    },
    Spelled {
        kind: Kind::Vec,
        spelling: b"VEC",
    },
    Spelled {
        kind: Kind::Valof,
        spelling: b"VALOF",
    },
    Spelled {
        kind: Kind::While,
        spelling: b"WHILE",
    },
];

// The reserved words that start with a byte.
fn words_of(first: u8) -> &'static [Spelled]
    ensures { Spans first result.now }
{
    match first {
        b'A' => &WORDS[0..1],
        b'B' => &WORDS[1..4],
        b'C' => &WORDS[4..5],
        b'D' => &WORDS[5..7],
        b'E' => &WORDS[7..8],
        b'F' => &WORDS[8..11],
        b'G' => &WORDS[11..12],
        b'I' => &WORDS[12..14],
        b'L' => &WORDS[14..16],
        b'M' => &WORDS[16..17],
        b'N' => &WORDS[17..18],
        b'O' => &WORDS[18..19],
        b'R' => &WORDS[19..25],
        b'S' => &WORDS[25..26],
        b'T' => &WORDS[26..30],
        b'U' => &WORDS[30..32],
        b'V' => &WORDS[32..34],
        b'W' => &WORDS[34..35],
        _ => &[],
    }
}

// The search of a word. Only candidates are compared whole: of the words of its first letter, those of its length.
pub(crate) fn kind_of(word: &[u8]) -> Word
    ensures kind_value { number_of result.kind ≡ kind_of word.now }
    ensures compared_value { result.compared ≡ compared word.now }
{
    let mut compared = 0;
    if let Some(first) = word.first() {
        for row in words_of(*first) {
            if row.spelling.len() == word.len() {
                compared += 1;
                if row.spelling == word {
                    return Word {
                        kind: row.kind,
                        compared,
                    };
                }
            }
        }
    }
    Word {
        kind: Kind::Name,
        compared,
    }
}

// A sign of so many bytes.
fn sign_of(kind: Kind, width: usize) -> Result<Element, Wrong>
    ensures { element_of result ≡ symbol (number_of kind) 0 width }
{
    Ok(Element::Symbol {
        kind,
        value: 0,
        width,
    })
}

// The second byte; 0 where there is none, with which no sign goes on.
fn second(bytes: &[u8]) -> u8
    ensures { result ≡ get_or bytes.now 1 0 }
{
    bytes.get(1).copied().unwrap_or(0)
}

// The longest sign at the head.
pub(crate) fn sign_at(bytes: &[u8]) -> Result<Element, Wrong>
    requires { 0 < length bytes.now }
    ensures { element_of result ≡ sign bytes.now }
{
    match bytes[0] {
        b'+' => sign_of(Kind::Plus, 1),
        b'-' => sign_of(Kind::Minus, 1),
        b'*' => sign_of(Kind::Star, 1),
        b'/' => sign_of(Kind::Slash, 1),
        b'=' => sign_of(Kind::Equal, 1),
        b'&' => sign_of(Kind::Ampersand, 1),
        b'|' => sign_of(Kind::Bar, 1),
        b'!' => sign_of(Kind::Pling, 1),
        b'@' => sign_of(Kind::At, 1),
        b'(' => sign_of(Kind::Open, 1),
        b')' => sign_of(Kind::Close, 1),
        b',' => sign_of(Kind::Comma, 1),
        b';' => sign_of(Kind::Semicolon, 1),
        b'~' => match second(bytes) {
            b'=' => sign_of(Kind::Unequal, 2),
            _ => refused_here(Fault::NoSymbol),
        },
        b'<' => match second(bytes) {
            b'=' => sign_of(Kind::AtMost, 2),
            b'<' => sign_of(Kind::Left, 2),
            _ => sign_of(Kind::Less, 1),
        },
        b'>' => match second(bytes) {
            b'=' => sign_of(Kind::AtLeast, 2),
            b'>' => sign_of(Kind::Right, 2),
            _ => sign_of(Kind::More, 1),
        },
        b':' => match second(bytes) {
            b'=' => sign_of(Kind::Assign, 2),
            _ => sign_of(Kind::Colon, 1),
        },
        b'$' => match second(bytes) {
            b'(' => sign_of(Kind::Begin, 2),
            b')' => sign_of(Kind::End, 2),
            _ => refused_here(Fault::NoSymbol),
        },
        _ => refused_here(Fault::NoSymbol),
    }
}
