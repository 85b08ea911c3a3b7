// What is wrong, by the number of a refusal or stop. Each cause ends where a full stop is to stand.
use machine::Stop;
use text::{Fault, UnknownNumber};

// What an assembly text that cannot be read lacks: its $, its Z, or an item in its proper form.
#[derive(Clone, Copy)]
pub enum Lack {
    Start,
    End,
    Item,
}

// What the text lacks, by the place of its refusal. A $ with something right behind it is there, but cannot be read.
pub fn lack_of(source: &[u8], place: usize) -> Lack {
    match (items::start_in(source), source.get(place)) {
        (Ok(_), Some(_)) | (_, Some(b'$')) => Lack::Item,
        (Ok(_), None) => Lack::End,
        (Err(_), _) => Lack::Start,
    }
}

pub fn cause_of(source: &[u8], number: u16, place: usize) -> &'static str {
    let at_end = place >= source.len();
    match Fault::try_from(number) {
        Ok(Fault::SourceTooLong) => "the source is longer than 16384 bytes",
        Ok(Fault::NoSymbol) => "no symbol of the language begins with this character",
        Ok(Fault::Number) => "this number has no digits, or is too large",
        Ok(Fault::Bracket) | Err(UnknownNumber(4)) if at_end => {
            "the source ends, and a bracket is still open"
        }
        // No refusal is 4, which lies between those of symbols.
        Ok(Fault::Bracket) | Err(UnknownNumber(4)) => {
            "this bracket closes none, or not the one that was opened last"
        }
        Ok(Fault::Unexpected) if at_end => "the source ends where more of it is wanted",
        Ok(Fault::Unexpected) => "this symbol cannot follow what stands before it",
        Ok(Fault::TooDeep) => {
            "more than 64 commands, brackets and operators are open, one inside the other"
        }
        Ok(Fault::UnknownName) => "this name is not known here",
        Ok(Fault::NameTwice) => {
            "this name is declared already, or its global already has a function"
        }
        Ok(Fault::NoPlace) => "this can neither be assigned to nor have its address taken",
        Ok(Fault::Constant) => "this constant is not allowed here",
        Ok(Fault::Case) => "this CASE or DEFAULT stands twice, or belongs to no SWITCHON",
        Ok(Fault::NothingToLeave) => "there is nothing here that this command could leave",
        Ok(Fault::NoStart) => "no function is in global 1, where a program starts",
        Ok(Fault::RoomTooShort) => "there is not room enough to compile this source",
        Ok(Fault::TooHigh) => "this function needs more than 8192 words of the stack",
        Ok(Fault::Unreadable) => match lack_of(source, place) {
            Lack::Start => "the text does not begin with $",
            Lack::End => "the text ends without Z",
            Lack::Item => "no item can be read here",
        },
        Ok(Fault::LabelTwice) => "this label stands twice",
        Ok(Fault::UnknownLabel) => "this item uses a label that stands nowhere",
        Ok(Fault::OutOfRange) => "the number in this item is out of range",
        Ok(Fault::Memory) => "the program is too long for the memory",
        Ok(Fault::TableTooShort) => "the text has more labels than the label table has room for",
        Ok(Fault::Unclosed) => "this string or character constant is not closed on its line",
        Ok(Fault::Escape) => "this asterisk begins no escape",
        Ok(Fault::QuotedByte) => "a string or character constant may not hold this byte",
        Ok(Fault::QuotedLength) => {
            "this is one character too many, or a character constant with none"
        }
        Err(_) => "a refusal that has no words yet",
    }
}

pub fn stop_cause_of(stop: u16) -> &'static str {
    match Stop::try_from(stop) {
        Ok(Stop::MemoryLength) => "the memory has a wrong length",
        Ok(Stop::Budget) => "the budget is used up",
        Ok(Stop::Address) => "an address lies at or past the end of memory",
        Ok(Stop::ZeroDivisor) => "a division by zero",
        Ok(Stop::UnlistedAct) => "an X number that no act has",
        Ok(Stop::Finished | Stop::OutputFull) | Err(_) => "the output could not be written",
    }
}
