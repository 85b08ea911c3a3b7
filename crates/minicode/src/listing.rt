// The list of an accepted text: a line for each item with its address, its words and its bytes, so that a line of the text can
// be followed down to the words that run.
//
//       417   6146         LIP2
//       419  41472    425  FL4
//
// A label has its address and no word. GnLm has the address of global n and the word that the image has there: that of the last
// GnLm for n. A string of more than two words goes on in further lines. Z, at the end, has the address of the first stack word.
//
// An accepted text fits the memory, so the tests of places and addresses here never fail; they stand in for its proof.
use items::{Item, Next};

// So many words stand in a line.
const ROW: usize = 2;

// An address and the words of a line. What cannot be written is lost, and nothing comes of it.
fn put_words(rt: &impl Print, address: u16, words: &[u16]) {
    let _ = print!(rt; "{address:5}");
    for word in words {
        let _ = print!(rt; "  {word:5}");
    }
}

fn put_lines(rt: &impl Print, address: u16, words: &[u16], bytes: &[u8]) {
    let (first, rest) = words.split_at(words.len().min(ROW));
    put_words(rt, address, first);
    for _ in first.len()..ROW {
        let _ = rt.print("       ");
    }
    let _ = rt.print("  ");
    let _ = rt.write_all(bytes);
    let _ = rt.print("\n");
    let mut at = address;
    for row in rest.chunks(ROW) {
        at = words::sum(at, 2);
        put_words(rt, at, row);
        let _ = rt.print("\n");
    }
}

// An item of so many words at an address of the memory.
fn put_item(rt: &impl Print, memory: &[u16], at: usize, count: usize, bytes: &[u8]) {
    let Ok(address) = u16::try_from(at) else {
        return;
    };
    if at <= memory.len() && count <= memory.len() - at {
        put_lines(rt, address, &memory[at..at + count], bytes);
    }
}

// How many words an item has: the first word of an instruction says whether its operand is a second one.
fn count_of(item: Item, first: u16) -> usize {
    match item {
        Item::Label(_) => 0,
        Item::Instruction(..) if first / 512 % 2 == 1 => 2,
        Item::Instruction(..) | Item::Constant(_) | Item::Global(..) => 1,
        Item::String(characters) => characters / 2 + 1,
    }
}

// Lists an item, which has the bytes, and gives the address past it. GnLm is no word of the program.
fn list_item(rt: &impl Print, memory: &[u16], at: usize, item: Item, bytes: &[u8]) -> usize {
    let from = match item {
        Item::Global(n, _) if n < 400 => 16 + n as usize,
        _ => at,
    };
    let first = memory.get(from).copied().unwrap_or(0);
    let count = count_of(item, first);
    put_item(rt, memory, from, count, bytes);
    match item {
        Item::Global(..) => at,
        _ => at.saturating_add(count),
    }
}

pub fn list(rt: &impl Print, text: &[u8], memory: &[u16]) {
    let Ok(mut place) = items::start_in(text) else {
        return;
    };
    let mut at: usize = 416;
    loop {
        match items::next_in(text, place) {
            Next::One(first, item, past) if place <= first && first < past && past <= text.len() =>
                {
                    at = list_item(rt, memory, at, item, &text[first..past]);
                    place = past;
                }
            Next::Whole => {
                put_item(rt, memory, at, 0, b"Z");
                return;
            }
            Next::One(..) | Next::Unreadable(_) => return,
        }
    }
}
