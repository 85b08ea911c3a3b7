// What may be wrong with a text, by name: document 01's numbers stand beside the names, and in `specs/Faults.antt`.
ghost use Rattle.std.specs.Prelude.{◌≡◌};
ghost use Rattle.text.specs.Faults.{number_of, Numbers};

// The faults of sources (1 to 16), of assembly texts (20 to 25), and of constants between quotes (40 to 43).
#[derive(Clone, Copy, PartialEq, Eq)]
pub enum Fault {
    SourceTooLong = 1,
    NoSymbol = 2,
    Number = 3,
    Bracket = 5,
    Unexpected = 6,
    TooDeep = 7,
    UnknownName = 8,
    NameTwice = 9,
    NoPlace = 10,
    Constant = 11,
    Case = 12,
    NothingToLeave = 13,
    NoStart = 14,
    RoomTooShort = 15,
    TooHigh = 16,
    Unreadable = 20,
    LabelTwice = 21,
    UnknownLabel = 22,
    OutOfRange = 23,
    Memory = 24,
    TableTooShort = 25,
    Unclosed = 40,
    Escape = 41,
    QuotedByte = 42,
    QuotedLength = 43,
}

impl Fault {
    pub fn number(self) -> u16
        ensures { result ≡ number_of self }
    {
        self as u16
    }
}

// A number that no fault has.
#[derive(Clone, Copy, PartialEq, Eq)]
pub struct UnknownNumber(pub u16);

impl TryFrom<u16> for Fault {
    type Error = UnknownNumber;

    ghost try_from_gives = { Numbers };

    fn try_from(number: u16) -> Result<Self, UnknownNumber> {
        match number {
            1 => Ok(Fault::SourceTooLong),
            2 => Ok(Fault::NoSymbol),
            3 => Ok(Fault::Number),
            5 => Ok(Fault::Bracket),
            6 => Ok(Fault::Unexpected),
            7 => Ok(Fault::TooDeep),
            8 => Ok(Fault::UnknownName),
            9 => Ok(Fault::NameTwice),
            10 => Ok(Fault::NoPlace),
            11 => Ok(Fault::Constant),
            12 => Ok(Fault::Case),
            13 => Ok(Fault::NothingToLeave),
            14 => Ok(Fault::NoStart),
            15 => Ok(Fault::RoomTooShort),
            16 => Ok(Fault::TooHigh),
            20 => Ok(Fault::Unreadable),
            21 => Ok(Fault::LabelTwice),
            22 => Ok(Fault::UnknownLabel),
            23 => Ok(Fault::OutOfRange),
            24 => Ok(Fault::Memory),
            25 => Ok(Fault::TableTooShort),
            40 => Ok(Fault::Unclosed),
            41 => Ok(Fault::Escape),
            42 => Ok(Fault::QuotedByte),
            43 => Ok(Fault::QuotedLength),
            _ => Err(UnknownNumber(number)),
        }
    }
}
