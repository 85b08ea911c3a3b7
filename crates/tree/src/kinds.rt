// The kinds by number, as they stand in scratch: of symbols (`symbols::Kind`), and of nodes that are no kind of symbol (`Encoding`).
// What is read is compared as a number, since scratch may hold any: one that is no kind is refused where it stands, and 0 is the end.
use symbols::Kind;

// Where no symbol stands.
pub const NOTHING: u32 = 0;

pub const GLOBAL: u32 = Kind::Global as u32;

pub const MANIFEST: u32 = Kind::Manifest as u32;

pub const LET: u32 = Kind::Let as u32;

pub const AND: u32 = Kind::And as u32;

pub const BE: u32 = Kind::Be as u32;

pub const VEC: u32 = Kind::Vec as u32;

pub const VALOF: u32 = Kind::Valof as u32;

pub const RESULTIS: u32 = Kind::Resultis as u32;

pub const TRUE: u32 = Kind::True as u32;

pub const FALSE: u32 = Kind::False as u32;

pub const NOT: u32 = Kind::Not as u32;

pub const REM: u32 = Kind::Rem as u32;

pub const TEST: u32 = Kind::Test as u32;

pub const DO: u32 = Kind::Do as u32;

pub const OR: u32 = Kind::Or as u32;

pub const IF: u32 = Kind::If as u32;

pub const UNLESS: u32 = Kind::Unless as u32;

pub const WHILE: u32 = Kind::While as u32;

pub const UNTIL: u32 = Kind::Until as u32;

pub const REPEAT: u32 = Kind::Repeat as u32;

pub const REPEATWHILE: u32 = Kind::Repeatwhile as u32;

pub const REPEATUNTIL: u32 = Kind::Repeatuntil as u32;

pub const FOR: u32 = Kind::For as u32;

pub const TO: u32 = Kind::To as u32;

pub const BY: u32 = Kind::By as u32;

pub const SWITCHON: u32 = Kind::Switchon as u32;

pub const INTO: u32 = Kind::Into as u32;

pub const CASE: u32 = Kind::Case as u32;

pub const DEFAULT: u32 = Kind::Default as u32;

pub const ENDCASE: u32 = Kind::Endcase as u32;

pub const BREAK: u32 = Kind::Break as u32;

pub const LOOP: u32 = Kind::Loop as u32;

pub const RETURN: u32 = Kind::Return as u32;

pub const FINISH: u32 = Kind::Finish as u32;

pub const PLUS: u32 = Kind::Plus as u32;

pub const MINUS: u32 = Kind::Minus as u32;

pub const STAR: u32 = Kind::Star as u32;

pub const SLASH: u32 = Kind::Slash as u32;

pub const EQUAL: u32 = Kind::Equal as u32;

pub const UNEQUAL: u32 = Kind::Unequal as u32;

pub const LESS: u32 = Kind::Less as u32;

pub const ATMOST: u32 = Kind::AtMost as u32;

pub const MORE: u32 = Kind::More as u32;

pub const ATLEAST: u32 = Kind::AtLeast as u32;

pub const LEFT: u32 = Kind::Left as u32;

pub const RIGHT: u32 = Kind::Right as u32;

pub const AMPERSAND: u32 = Kind::Ampersand as u32;

pub const BAR: u32 = Kind::Bar as u32;

pub const PLING: u32 = Kind::Pling as u32;

pub const AT: u32 = Kind::At as u32;

pub const OPEN: u32 = Kind::Open as u32;

pub const CLOSE: u32 = Kind::Close as u32;

pub const COMMA: u32 = Kind::Comma as u32;

pub const SEMICOLON: u32 = Kind::Semicolon as u32;

pub const COLON: u32 = Kind::Colon as u32;

pub const ASSIGN: u32 = Kind::Assign as u32;

pub const BEGIN: u32 = Kind::Begin as u32;

pub const END: u32 = Kind::End as u32;

pub const NAME: u32 = Kind::Name as u32;

pub const NUMBER: u32 = Kind::Number as u32;

pub const STRING: u32 = Kind::String as u32;

// Kinds of nodes that are no kind of symbol.
pub const MONADIC: u32 = 128;

pub const SUFFIXED: u32 = 129;

// A record of suffixes of which the last is a call.
pub const CALLED: u32 = 130;

pub const DYADIC: u32 = 131;

pub const LABELLED: u32 = 132;

pub const REPEATED: u32 = 133;
