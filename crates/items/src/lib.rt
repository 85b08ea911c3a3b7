// MINICODE text as items: what stands at a place of a text, by the rules of document 01's "Assembly text".
//
// `start_in` finds where the items begin and `next_in` reads one of them; both look at any place of any bytes. Below
// them each function reads one part at the head of some bytes, and answers with the part and the number of bytes that
// write it.
#![tactic(auto)]

ghost use Rattle.std.specs.Prelude.{◌≡◌, ◌≤◌, true, false, cond, length};
ghost use Rattle.items.specs.Reader.{got, nothing, optional, decimal};
ghost use Rattle.items.specs.Read.{ended, quoted_character, operand, base, label_item, instruction_item, constant_item};
ghost use Rattle.items.specs.Read.{string_item, global_item, item};
ghost use Rattle.items.specs.Scan.{gaps, mark};
ghost use Rattle.items.specs.Next.{next_in, start_in};
ghost use Rattle.items.specs.Answers.{operand_of, base_of, as_item, as_next, as_start};
ghost use Rattle.items.specs.Parts.{as_got, as_part, Within, function_in, Characters, in_gap, in_comment};

use text::Closed;

// A number as it is written, with a minus or not; or a label.
#[derive(Clone, Copy)]
pub enum Operand {
    Number { minus: bool, size: u32 },
    Address(u32),
}

// What is added to an operand.
#[derive(Clone, Copy)]
pub enum Base {
    Plain,
    P,
    G,
}

#[derive(Clone, Copy)]
pub enum Item {
    // n:
    Label(u32),
    // The function's number, whether I stands after it, and its operand.
    Instruction(u16, bool, Base, Operand),
    // D and an operand.
    Constant(Operand),
    // C"..": the number of its characters.
    String(usize),
    // GnLm
    Global(u32, u32),
}

// What stands next: an item with its place and the place past it, or how the text ends. It has three cases, so it is no `Option` or `Result`.
#[derive(Clone, Copy)]
pub enum Next {
    One(usize, Item, usize),
    Whole,
    Unreadable(usize),
}

// The place where something else is wanted.
#[derive(Clone, Copy)]
pub struct Unreadable {
    pub place: usize,
}

// A part that was read, and the number of bytes that write it.
#[derive(Clone, Copy)]
struct Part<T> {
    value: T,
    width: usize,
}

// Whether the byte c of a gap, in a comment or not, belongs to it.
#[tactic(auto, unfolding(crate::specs::Parts::in_gap))]
fn in_gap(comment: bool, c: u8) -> bool
    ensures { result ≡ in_gap comment c }
{
    comment || matches!(c, b' ' | b'\n' | b'/')
}

// Whether what follows the byte c of a gap is in a comment.
#[tactic(auto, unfolding(crate::specs::Parts::in_comment))]
fn in_comment(comment: bool, c: u8) -> bool
    ensures { result ≡ in_comment comment c }
{
    if comment { c != b'\n' } else { c == b'/' }
}

// The blanks, newlines and comments at the head.
#[tactic(auto, using(crate::proofs::Gaps::gap_steps))]
fn gap_width(bytes: &[u8]) -> usize
    ensures counted { result ≡ gaps false bytes.now }
    ensures within { result ≤ length bytes.now }
{
    let mut comment = false;
    for (i, c) in bytes.iter().enumerate() {
        if !in_gap(comment, *c) {
            return i;
        }
        comment = in_comment(comment, *c);
    }
    bytes.len()
}

// Whether an item may end here.
#[tactic(auto, unfolding(crate::specs::Reader::head, crate::specs::Read::ended))]
fn ended(bytes: &[u8]) -> bool
    ensures { ended bytes.now ≡ cond result (got true 0) nothing }
{
    matches!(bytes, [] | [b' ' | b'\n' | b'/', ..])
}

// Whether $ or Z, the byte c, stands here as an item.
#[tactic(auto, unfolding(crate::specs::Reader::head, crate::specs::Reader::byte, crate::specs::Scan::mark))]
fn marked(bytes: &[u8], c: u8) -> bool
    ensures { mark c bytes.now ≡ cond result (got true 1) nothing }
{
    match bytes {
        [first, rest @ ..] => *first == c && ended(rest),
        [] => false,
    }
}

// A number; 65,536 stands for all that are larger. Symbols' `digits_at` is alike for a source's numbers, of two bases and by the language's
// definitions: one function for both would stand on two definitions of a number, and be no plainer.
#[tactic(auto, using(crate::proofs::Decimals::digit_steps), unfolding(crate::specs::Reader::decimal, crate::specs::Reader::head))]
fn read_decimal(bytes: &[u8]) -> Option<Part<u32>>
    ensures reads { as_got (λ n. n) result ≡ decimal bytes.now }
    ensures within { Within bytes.now result }
{
    let [b'0'..=b'9', ..] = bytes else {
        return None;
    };
    let mut value: u32 = 0;
    for (width, c) in bytes.iter().enumerate() {
        if !c.is_ascii_digit() {
            return Some(Part { value, width });
        }
        value = (value * 10 + u32::from(*c - b'0')).min(65536);
    }
    Some(Part {
        value,
        width: bytes.len(),
    })
}

// A character, from past its first quote on.
fn read_quoted(bytes: &[u8]) -> Option<Part<Operand>>
    ensures reads { as_got operand_of result ≡ quoted_character bytes.now }
    ensures within { Within bytes.now result }
{
    let Ok(Closed { width, .. }) = text::quoted_at(bytes, 0, b'\'', 1) else {
        return None;
    };
    let value = text::value_if_at(bytes, 0, b'\'')?;
    Some(Part {
        value: Operand::Number {
            minus: false,
            size: u32::from(value),
        },
        width,
    })
}

#[tactic(auto, unfolding(crate::specs::Read::operand, crate::specs::Read::negative, crate::specs::Read::labelled, crate::specs::Read::positive, crate::specs::Read::quotation, crate::specs::Reader::byte, crate::specs::Reader::head))]
fn read_operand(bytes: &[u8]) -> Option<Part<Operand>>
    ensures reads { as_got operand_of result ≡ operand bytes.now }
    ensures within { Within bytes.now result }
{
    match bytes {
        [b'-', rest @ ..] => {
            let number = read_decimal(rest)?;
            Some(Part {
                value: Operand::Number {
                    minus: true,
                    size: number.value,
                },
                width: 1 + number.width,
            })
        }
        [b'\'', rest @ ..] => {
            let character = read_quoted(rest)?;
            Some(Part {
                width: 1 + character.width,
                ..character
            })
        }
        [b'L', rest @ ..] => {
            let label = read_decimal(rest)?;
            Some(Part {
                value: Operand::Address(label.value),
                width: 1 + label.width,
            })
        }
        _ => {
            let number = read_decimal(bytes)?;
            Some(Part {
                value: Operand::Number {
                    minus: false,
                    size: number.value,
                },
                width: number.width,
            })
        }
    }
}

// P or G, if any.
#[tactic(auto, unfolding(crate::specs::Reader::head, crate::specs::Read::base))]
fn read_base(bytes: &[u8]) -> Part<Base>
    ensures reads { got (base_of result.value) result.width ≡ base bytes.now }
    ensures within { result.width ≤ length bytes.now }
{
    match bytes {
        [b'P', ..] => Part {
            value: Base::P,
            width: 1,
        },
        [b'G', ..] => Part {
            value: Base::G,
            width: 1,
        },
        _ => Part {
            value: Base::Plain,
            width: 0,
        },
    }
}

// I, if it stands here.
#[tactic(auto, unfolding(crate::specs::Reader::head, crate::specs::Reader::optional))]
fn read_indirect(bytes: &[u8]) -> Part<bool>
    ensures reads { got result.value result.width ≡ optional 73 bytes.now }
    ensures within { result.width ≤ length bytes.now }
{
    let value = matches!(bytes, [b'I', ..]);
    Part {
        value,
        width: usize::from(value),
    }
}

// What follows a function's letter.
#[tactic(auto, unfolding(crate::specs::Read::instruction_item, crate::specs::Answers::as_item))]
fn read_instruction(bytes: &[u8], function: u16) -> Option<Part<Item>>
    ensures reads { result ≡ as_part as_item (instruction_item function bytes.now) }
    ensures within { Within bytes.now result }
{
    let indirect = read_indirect(bytes);
    let rest = &bytes[indirect.width..];
    let base = read_base(rest);
    let rest = &rest[base.width..];
    let operand = read_operand(rest)?;
    if !ended(&rest[operand.width..]) {
        return None;
    }
    Some(Part {
        value: Item::Instruction(function, indirect.value, base.value, operand.value),
        width: indirect.width + base.width + operand.width,
    })
}

// What follows D.
#[tactic(auto, unfolding(crate::specs::Read::constant_item, crate::specs::Answers::as_item))]
fn read_constant(bytes: &[u8]) -> Option<Part<Item>>
    ensures reads { result ≡ as_part as_item (constant_item bytes.now) }
    ensures within { Within bytes.now result }
{
    let operand = read_operand(bytes)?;
    if !ended(&bytes[operand.width..]) {
        return None;
    }
    Some(Part {
        value: Item::Constant(operand.value),
        width: operand.width,
    })
}

#[tactic(auto, unfolding(crate::specs::Read::label_item, crate::specs::Reader::byte, crate::specs::Reader::head, crate::specs::Answers::as_item))]
fn read_label(bytes: &[u8]) -> Option<Part<Item>>
    ensures reads { result ≡ as_part as_item (label_item bytes.now) }
    ensures within { Within bytes.now result }
{
    let label = read_decimal(bytes)?;
    let [b':', ..] = &bytes[label.width..] else {
        return None;
    };
    Some(Part {
        value: Item::Label(label.value),
        width: label.width + 1,
    })
}

// A string's characters, from past its first quote on, by their number.
fn read_characters(bytes: &[u8]) -> Option<Part<usize>>
    ensures reads { Characters bytes.now result }
    ensures within { Within bytes.now result }
{
    let Ok(Closed { characters, width }) = text::quoted_at(bytes, 0, b'"', 255) else {
        return None;
    };
    Some(Part {
        value: characters,
        width,
    })
}

// What follows C.
#[tactic(auto, unfolding(crate::specs::Read::string_item, crate::specs::Reader::byte, crate::specs::Reader::head, crate::specs::Answers::as_item))]
fn read_string(bytes: &[u8]) -> Option<Part<Item>>
    ensures reads { result ≡ as_part as_item (string_item bytes.now) }
    ensures within { Within bytes.now result }
{
    let [b'"', rest @ ..] = bytes else {
        return None;
    };
    let string = read_characters(rest)?;
    if !ended(&rest[string.width..]) {
        return None;
    }
    Some(Part {
        value: Item::String(string.value),
        width: 1 + string.width,
    })
}

// What follows G.
#[tactic(auto, unfolding(crate::specs::Read::global_item, crate::specs::Reader::byte, crate::specs::Reader::head, crate::specs::Answers::as_item))]
fn read_global(bytes: &[u8]) -> Option<Part<Item>>
    ensures reads { result ≡ as_part as_item (global_item bytes.now) }
    ensures within { Within bytes.now result }
{
    let global = read_decimal(bytes)?;
    let [b'L', rest @ ..] = &bytes[global.width..] else {
        return None;
    };
    let label = read_decimal(rest)?;
    if !ended(&rest[label.width..]) {
        return None;
    }
    Some(Part {
        value: Item::Global(global.value, label.value),
        width: global.width + 1 + label.width,
    })
}

// The number of a function's letter.
#[tactic(auto, unfolding(crate::specs::Read::function_of))]
fn function_of(c: u8) -> Option<u16>
    ensures { result ≡ function_in c }
{
    match c {
        b'L' => Some(0),
        b'S' => Some(1),
        b'A' => Some(2),
        b'J' => Some(3),
        b'T' => Some(4),
        b'F' => Some(5),
        b'K' => Some(6),
        b'X' => Some(7),
        _ => None,
    }
}

#[tactic(auto, unfolding(crate::specs::Read::item, crate::specs::Read::function_of, crate::specs::Reader::head))]
fn read_item(bytes: &[u8]) -> Option<Part<Item>>
    ensures reads { result ≡ as_part as_item (item bytes.now) }
    ensures within { Within bytes.now result }
{
    let [c, rest @ ..] = bytes else {
        return None;
    };
    let part = match *c {
        b'0'..=b'9' => return read_label(bytes),
        b'D' => read_constant(rest)?,
        b'C' => read_string(rest)?,
        b'G' => read_global(rest)?,
        letter => read_instruction(rest, function_of(letter)?)?,
    };
    Some(Part {
        width: 1 + part.width,
        ..part
    })
}

// What stands next at a place, the gap there passed over.
#[tactic(auto, using(crate::proofs::Elements::next_past), unfolding(crate::specs::Next::next_in, crate::specs::Next::element_at, crate::specs::Scan::gaps, crate::specs::Scan::mark, crate::specs::Scan::trailing, crate::specs::Reader::byte, crate::specs::Reader::head, crate::specs::Answers::as_next))]
pub fn next_in(text: &[u8], at: usize) -> Next
    ensures { result ≡ as_next (next_in text.now at) }
{
    let Some(rest) = text.get(at..) else {
        return Next::Unreadable(at);
    };
    let gap = gap_width(rest);
    let place = at + gap;
    let bytes = &rest[gap..];
    if let [b'Z', after @ ..] = bytes {
        if !ended(after) {
            return Next::Unreadable(place);
        }
        let trailing = gap_width(after);
        if trailing == after.len() {
            return Next::Whole;
        }
        return Next::Unreadable(place + 1 + trailing);
    }
    match read_item(bytes) {
        Some(part) => Next::One(place, part.value, place + part.width),
        None => Next::Unreadable(place),
    }
}

// Where the items begin: past the first one, which is $.
#[tactic(auto, unfolding(crate::specs::Next::start_in, crate::specs::Answers::as_start))]
pub fn start_in(text: &[u8]) -> Result<usize, Unreadable>
    ensures { result ≡ as_start (start_in text.now) }
{
    let place = gap_width(text);
    if marked(&text[place..], b'$') {
        Ok(place + 1)
    } else {
        Err(Unreadable { place })
    }
}
