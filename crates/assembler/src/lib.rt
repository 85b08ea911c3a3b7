// The assembler: MINICODE text into the machine's memory, with a lent table of labels (document 01, "Assembly text").
//
// Two passes over the items. The first finds each label's address, writes its record into the lent table, and finds every fault
// but an unknown label; the second writes the words. `look_up` finds a label in the records. The passes find a label by an index,
// the address of every label number, so that a look-up is one read however many labels there are.
#![tactic(auto)]

ghost use Rattle.std.specs.Prelude.{◌+◌, ◌-◌, ◌*◌, ◌<◌, ◌≤◌, ◌≡◌, true, [], ◌++◌, length, replicate, drop};
ghost use Rattle.std.proofs.lemmas.List.Edits.{sets};
ghost use Rattle.items.specs.Item as I;
ghost use Rattle.items.specs.Scan.{body};
ghost use Rattle.assembler.specs.Words.{label_in_range, operand_in_range, in_range, signed, short, size, indirect_bit, base_bit};
ghost use Rattle.text.specs.Faults.{number_of};
ghost use Rattle.text.specs.Line.{refusal};
ghost use Rattle.text.specs.Packed.{pairs};
ghost use Rattle.assembler.specs.Layout.{vacant, fault, lay};
ghost use Rattle.assembler.specs.Assemble.{Assembles, assembled, looked_up, on_laid, start};
ghost use Rattle.words.specs.Globals.{no_globals};
ghost use Rattle.assembler.specs.Passes.{operand_of, base_of, item_of, blank, as_found, no_index, listed, label_fault, beyond, Notable, Notes, Lays, value_of};
ghost use Rattle.assembler.specs.Passes.{Writable, Writes, letters, Spelling, item_at, Spelled, FitsAll, WritesAll, Zeros, Vacant, Ready, Passes};
ghost use Rattle.assembler.specs.Passes.{Loads, fault_number};

use items::{Base, Item, Next, Operand, Unreadable};
use text::{Character, Fault, Refusal};

// A record of the label table.
#[repr(C)]
#[derive(Clone, Copy, Drop)]
pub struct Label {
    pub number: u16,
    pub address: u16,
}

// Document 01's fault of an item, and the item's place.
#[derive(Drop)]
struct Faulted {
    fault: Fault,
    place: usize,
}

// Words 0 to 7.
const START: [u16; 8] = [5121, 49154, 57366, 57371, 57348, 6146, 57372, 57348];

// The word of global 0, and the first word of the program.
const GLOBALS: usize = 16;

const FIRST: usize = 416;

// The records of a table that has room for every label, and the entries of an index: one for 0 too, which is no label's number.
const LABELS: usize = 32767;

const NUMBERS: usize = LABELS + 1;

// The record of no label.
const VACANT: Label = Label {
    number: 0,
    address: 0,
};

// An operand below it is short; in an instruction's word it says that the operand is the next word.
const D: u16 = 512;

// The labels so far: how many, and by each number the label's address, or 0, which is no label's.
#[derive(Drop)]
struct Index {
    addresses: [u16; NUMBERS],
    count: usize,
}

impl Index {
    fn new() -> Self
        ensures { result ≡ no_index }
    {
        Self {
            addresses: [0; NUMBERS],
            count: 0,
        }
    }

    fn find(&self, number: u32) -> Option<u16>
        requires { label_in_range number ≡ true }
        ensures { result ≡ as_found (listed self.now) number }
    {
        match self.addresses[number as usize] {
            0 => None,
            address => Some(address),
        }
    }

    // A label twice, or one for which there is no record.
    #[tactic(auto, unfolding(crate::specs::Passes::as_found))]
    fn fault(&self, room: usize, number: u32) -> Result<(), Fault>
        requires { (length (listed self.now) ≡ self.now.count) × (label_in_range number ≡ true) }
        ensures { fault_number result ≡ label_fault room (listed self.now) number }
    {
        if self.find(number).is_some() {
            return Err(Fault::LabelTwice);
        }
        if room <= self.count {
            return Err(Fault::TableTooShort);
        }
        Ok(())
    }

    // Gives an item that is a label its record and its entry.
    fn note(&mut self, labels: &mut [Label], at: usize, item: Item)
        requires { Notable at item labels.old self.old }
        ensures { Notes at (item_of blank item) labels.old self.old labels.new self.new }
    {
        if let Item::Label(number) = item {
            self.addresses[number as usize] = at as u16;
            labels[self.count] = Label {
                number: number as u16,
                address: at as u16,
            };
            self.count += 1;
        }
    }
}

fn label_in_range(number: u32) -> bool
    ensures { result ≡ label_in_range number }
{
    (1..=32767).contains(&number)
}

#[tactic(auto, unfolding(crate::specs::Words::operand_in_range, crate::specs::Passes::operand_of))]
fn operand_in_range(x: Operand) -> bool
    ensures { result ≡ operand_in_range (operand_of x) }
{
    match x {
        Operand::Number { minus: true, size } => size <= 32768,
        Operand::Number { minus: false, size } => size <= 65535,
        Operand::Address(number) => label_in_range(number),
    }
}

#[tactic(auto, unfolding(crate::specs::Words::in_range, crate::specs::Passes::item_of))]
fn in_range(item: Item) -> bool
    ensures { result ≡ in_range (item_of blank item) }
{
    match item {
        Item::Label(number) => label_in_range(number),
        Item::Instruction(_, _, _, x) | Item::Constant(x) => operand_in_range(x),
        Item::String(_) => true,
        Item::Global(n, m) => n <= 399 && label_in_range(m),
    }
}

// The word of a number that is in range.
fn signed(minus: bool, size: u32) -> u16
    requires { size < 65536 }
    ensures { result ≡ signed minus size }
{
    let word = size as u16;
    if minus { words::negation(word) } else { word }
}

#[tactic(auto, unfolding(crate::specs::Words::short, crate::specs::Words::operand_in_range, crate::specs::Passes::operand_of))]
fn short(x: Operand) -> bool
    requires { operand_in_range (operand_of x) ≡ true }
    ensures { result ≡ short (operand_of x) }
{
    match x {
        Operand::Number { minus, size } => signed(minus, size) < D,
        Operand::Address(_) => false,
    }
}

// The number of words that an item makes.
#[tactic(auto, unfolding(crate::specs::Words::size, crate::specs::Words::in_range, crate::specs::Passes::item_of))]
fn size(item: Item) -> usize
    requires { in_range (item_of blank item) ≡ true }
    ensures { result ≡ size (item_of blank item) }
{
    match item {
        Item::Label(_) | Item::Global(..) => 0,
        Item::Instruction(_, _, _, x) => if short(x) { 1 } else { 2 },
        Item::Constant(_) => 1,
        Item::String(length) => length / 2 + 1,
    }
}

// Whether some words from an address on reach past the memory.
fn beyond(memory: usize, at: usize, words: usize) -> Result<(), Fault>
    requires { at ≤ memory }
    ensures { fault_number result ≡ beyond memory at words }
{
    if memory - at < words {
        Err(Fault::Memory)
    } else {
        Ok(())
    }
}

// The fault of an item that is to stand at an address, after the labels so far.
#[tactic(auto, unfolding(crate::specs::Layout::fault, crate::specs::Layout::misplaced, crate::specs::Words::in_range, crate::specs::Passes::item_of))]
fn fault(memory: usize, room: usize, index: &Index, at: usize, item: Item) -> Result<(), Fault>
    requires { (length (listed index.now) ≡ index.now.count) × (at ≤ memory) }
    ensures { fault_number result ≡ fault memory room at (listed index.now) (item_of blank item) }
{
    if !in_range(item) {
        return Err(Fault::OutOfRange);
    }
    match item {
        Item::Label(number) => index.fault(room, number),
        Item::Instruction(..) | Item::Constant(_) | Item::String(_) => {
            beyond(memory, at, size(item))
        }
        Item::Global(..) => Ok(()),
    }
}

// The first pass: each label into the table and into the index, and the first fault, undefined labels apart; then the
// address past the last item.
fn lay_out(
    text: &[u8],
    from: usize,
    memory: usize,
    labels: &mut [Label],
    index: &mut Index,
) -> Result<usize, Faulted>
    requires { (416 ≤ memory) × (memory ≤ 32768) × Vacant labels.old × (index.old ≡ no_index) }
    ensures { Lays memory (body 0 from (drop from text.now)) labels.old result labels.new index.new }
{
    let room = labels.len();
    let mut place = from;
    let mut at = FIRST;
    loop {
        match items::next_in(text, place) {
            Next::Whole => {
                return Ok(at);
            }
            Next::Unreadable(place) => {
                return Err(Faulted {
                    fault: Fault::Unreadable,
                    place,
                });
            }
            Next::One(first, item, past) => {
                fault(memory, room, index, at, item).map_err(|fault| Faulted {
                    fault,
                    place: first,
                })?;
                index.note(labels, at, item);
                at += size(item);
                place = past;
            }
        }
    }
}

// An operand's word, if its label is known.
#[tactic(auto, unfolding(crate::specs::Passes::value_of, crate::specs::Words::operand_in_range, crate::specs::Passes::operand_of))]
fn value(index: &Index, x: Operand) -> Option<u16>
    requires { operand_in_range (operand_of x) ≡ true }
    ensures { result ≡ value_of (listed index.now) (operand_of x) }
{
    match x {
        Operand::Number { minus, size } => Some(signed(minus, size)),
        Operand::Address(number) => index.find(number),
    }
}

fn indirect_bit(indirect: bool) -> u16
    ensures { (result ≡ indirect_bit indirect) × (result ≤ 4096) }
{
    if indirect { 4096 } else { 0 }
}

#[tactic(auto, unfolding(crate::specs::Passes::base_of))]
fn base_bit(base: Base) -> u16
    ensures { (result ≡ base_bit (base_of base)) × (result ≤ 2048) }
{
    match base {
        Base::Plain => 0,
        Base::P => 2048,
        Base::G => 1024,
    }
}

// An instruction's word but for its address.
fn head(function: u16, indirect: bool, base: Base) -> u16
    requires { function < 8 }
    ensures { (result ≡ function * 8192 + indirect_bit indirect + base_bit (base_of base)) × (result ≤ 63488) }
{
    function * 8192 + indirect_bit(indirect) + base_bit(base)
}

// The writing functions take memory, address and index as they are: a struct that held the lent memory would have to say in each
// contract that it holds the same memory still.
fn write_instruction(
    memory: &mut [u16],
    at: usize,
    index: &Index,
    function: u16,
    indirect: bool,
    base: Base,
    x: Operand,
) -> Option<usize>
    requires { Writable (I.instruction function indirect (base_of base) (operand_of x)) at memory.old }
    ensures { Writes (listed index.now) (I.instruction function indirect (base_of base) (operand_of x)) at memory.old
        result memory.new }
{
    let word = head(function, indirect, base);
    let operand = value(index, x)?;
    if short(x) {
        memory[at] = word + operand;
        return Some(at + 1);
    }
    memory[at] = word + D;
    memory[at + 1] = operand;
    Some(at + 2)
}

fn write_constant(memory: &mut [u16], at: usize, index: &Index, x: Operand) -> Option<usize>
    requires { Writable (I.constant (operand_of x)) at memory.old }
    ensures { Writes (listed index.now) (I.constant (operand_of x)) at memory.old result memory.new }
{
    memory[at] = value(index, x)?;
    Some(at + 1)
}

fn write_global(
    memory: &mut [u16],
    at: usize,
    index: &Index,
    global: u32,
    number: u32,
) -> Option<usize>
    requires { Writable (I.global global number) at memory.old }
    ensures { Writes (listed index.now) (I.global global number) at memory.old result memory.new }
{
    memory[GLOBALS + global as usize] = index.find(number)?;
    Some(at)
}

// Two bytes of a string as a word.
fn pair(high: u16, low: u8) -> u16
    requires { high < 256 }
    ensures { result ≡ high * 256 + low }
{
    high * 256 + u16::from(low)
}

// A string's words: `first`, its length, and its characters, which begin at a place.
// It goes on by each character's width, two characters a word: no `for` over bytes is plainer, since `*` begins two or four of them.
fn write_string(memory: &mut [u16], at: usize, text: &[u8], from: usize, first: u16)
    requires { Spelling text.now from first at memory.old }
    ensures { memory.new ≡ sets memory.old at (pairs first (letters text.now from)) }
{
    let mut place = from;
    let mut to = at;
    let mut high = first;
    loop {
        let one = text::character_at(text, place, b'"');
        match one {
            Character::Ended | Character::Mistake(_) => {
                return;
            }
            Character::Closing => {
                memory[to] = pair(high, 0);
                return;
            }
            Character::Is(low, width) => {
                memory[to] = pair(high, low);
                place += width;
            }
        }
        let two = text::character_at(text, place, b'"');
        match two {
            Character::Ended | Character::Mistake(_) | Character::Closing => {
                return;
            }
            Character::Is(next, width) => {
                high = u16::from(next);
                place += width;
                to += 1;
            }
        }
    }
}

#[tactic(auto, unfolding(crate::specs::Passes::item_of))]
fn write_item(
    memory: &mut [u16],
    at: usize,
    index: &Index,
    text: &[u8],
    place: usize,
    item: Item,
) -> Option<usize>
    requires { Writable (item_at text.now place item) at memory.old × Spelled text.now place item }
    ensures { Writes (listed index.now) (item_at text.now place item) at memory.old result memory.new }
{
    match item {
        Item::Label(_) => Some(at),
        Item::Instruction(function, indirect, base, x) => write_instruction(
            memory, at, index, function, indirect, base, x,
        ),
        Item::Constant(x) => write_constant(memory, at, index, x),
        Item::String(length) => {
            write_string(memory, at, text, place + 2, length as u16);
            Some(at + (length / 2 + 1))
        }
        Item::Global(global, number) => write_global(memory, at, index, global, number),
    }
}

// The second pass: the words of every item, up to one whose label is unknown.
fn write_items(memory: &mut [u16], index: &Index, text: &[u8], from: usize) -> Result<(), Faulted>
    requires { (416 ≤ length memory.old) × FitsAll (length memory.old) 416 (body 0 from (drop from text.now)).items }
    ensures { WritesAll (listed index.now) (body 0 from (drop from text.now)) memory.old
        result memory.new }
{
    let mut place = from;
    let mut at = FIRST;
    loop {
        match items::next_in(text, place) {
            Next::Whole | Next::Unreadable(_) => {
                return Ok(());
            }
            Next::One(first, item, past) => {
                at = write_item(memory, at, index, text, first, item).ok_or(Faulted {
                    fault: Fault::UnknownLabel,
                    place: first,
                })?;
                place = past;
            }
        }
    }
}

// The words that do not come from the text: words 0 to 7, and globals 13 and 14.
fn write_start(memory: &mut [u16])
    requires { Zeros memory.old × (416 ≤ length memory.old) }
    ensures { memory.new ≡ start ++ no_globals ++ replicate (length memory.old - 416) 0 }
{
    memory[..8].copy_from_slice(&START);
    memory[GLOBALS + 13] = 3;
    memory[GLOBALS + 14] = 5;
}

// Before the passes, and after a refusal.
fn clear(memory: &mut [u16], labels: &mut [Label])
    ensures words { memory.new ≡ replicate (length memory.old) 0 }
    ensures labels { labels.new ≡ replicate (length labels.old) vacant }
{
    memory.fill(0);
    labels.fill(VACANT);
}

// Both passes, from past `$` on.
fn passes_from(
    text: &[u8],
    from: usize,
    memory: &mut [u16],
    labels: &mut [Label],
) -> Result<u16, Faulted>
    requires { Ready memory.old labels.old }
    ensures { Passes text.now (length memory.old) (length labels.old) (on_laid text.now (length memory.old) (length labels.old)
        (lay (length memory.old) (length labels.old) 416 [] (body 0 from (drop from text.now)).items)
        (body 0 from (drop from text.now))) result memory.new labels.new }
{
    let mut index = Index::new();
    let end = lay_out(text, from, memory.len(), labels, &mut index)?;
    write_start(memory);
    write_items(memory, &index, text, from)?;
    Ok(end as u16)
}

// The first stack word, or the fault that the text is refused for.
fn passes(text: &[u8], memory: &mut [u16], labels: &mut [Label]) -> Result<u16, Faulted>
    requires { Zeros memory.old × Vacant labels.old }
    ensures { Passes text.now (length memory.old) (length labels.old) (assembled text.now (length memory.old) (length labels.old))
        result memory.new labels.new }
{
    if !(512..=32768).contains(&memory.len()) {
        return Err(Faulted {
            fault: Fault::Memory,
            place: 0,
        });
    }
    match items::start_in(text) {
        Err(Unreadable { place }) => Err(Faulted {
            fault: Fault::Unreadable,
            place,
        }),
        Ok(from) => passes_from(text, from, memory, labels),
    }
}

// A label's address in a table, if it has a record there: the first one counts. Vacant records have the number 0, which
// is no label's.
pub fn look_up(labels: &[Label], number: u16) -> Option<u16>
    ensures { result ≡ looked_up labels.now number }
{
    if number == 0 {
        return None;
    }
    for label in labels {
        if label.number == number {
            return Some(label.address);
        }
    }
    None
}

pub fn assemble(text: &[u8], memory: &mut [u16], labels: &mut [Label]) -> Result<u16, Refusal>
    ensures { Assembles text.now memory.old labels.old result memory.new labels.new }
{
    clear(memory, labels);
    // A match: `map_err` is no plainer with a closure that holds memory and labels.
    match passes(text, memory, labels) {
        Ok(first) => Ok(first),
        Err(Faulted { fault, place }) => {
            clear(memory, labels);
            Err(text::refuse(text, fault.number(), place))
        }
    }
}

// For a caller that needs no table: one for every label is lent to `assemble`.
pub fn load(text: &[u8], memory: &mut [u16]) -> Result<u16, Refusal>
    ensures { Loads (assembled text.now (length memory.old) 32767) result memory.new }
{
    let mut labels = [VACANT; LABELS];
    assemble(text, memory, &mut labels)
}
