// The kinds of symbols by name, with the numbers of the language's definitions (`Kinds`), by which they stand in scratch.
ghost use Rattle.std.specs.Prelude.{◌≡◌, ◌<◌};
ghost use Rattle.language.specs.Semicolons.{ends_line, begins_line};
ghost use Rattle.symbols.specs.Kinds.{number_of};

#[derive(Clone, Copy, PartialEq, Eq)]
pub enum Kind {
    Global = 1,
    Manifest = 2,
    Let = 3,
    And = 4,
    Be = 5,
    Vec = 6,
    Valof = 7,
    Resultis = 8,
    True = 9,
    False = 10,
    Not = 11,
    Rem = 12,
    Test = 13,
    Do = 14,
    Or = 15,
    If = 16,
    Unless = 17,
    While = 18,
    Until = 19,
    Repeat = 20,
    Repeatwhile = 21,
    Repeatuntil = 22,
    For = 23,
    To = 24,
    By = 25,
    Switchon = 26,
    Into = 27,
    Case = 28,
    Default = 29,
    Endcase = 30,
    Break = 31,
    Loop = 32,
    Return = 33,
    Finish = 34,
    Plus = 35,
    Minus = 36,
    Star = 37,
    Slash = 38,
    Equal = 39,
    Unequal = 40,
    Less = 41,
    AtMost = 42,
    More = 43,
    AtLeast = 44,
    Left = 45,
    Right = 46,
    Ampersand = 47,
    Bar = 48,
    Pling = 49,
    At = 50,
    Open = 51,
    Close = 52,
    Comma = 53,
    Semicolon = 54,
    Colon = 55,
    Assign = 56,
    Begin = 57,
    End = 58,
    Name = 59,
    Number = 60,
    String = 61,
}

// Of each kind by its number, whether a semicolon is inserted after it, and before it, where a line ends between.
static ENDS_LINE: [u8; 62] = *b"00000000011000000000100000000011111000000000000000001000001111";

static BEGINS_LINE: [u8; 62] = *b"00000001100001001111000100101111111000000000000000010000010100";

impl Kind {
    pub fn number(self) -> u32
        ensures { (result ≡ number_of self) × (result < 62) }
    {
        self as u32
    }

    pub(crate) fn ends_line(self) -> bool
        ensures { result ≡ ends_line (number_of self) }
    {
        ENDS_LINE[self.number() as usize] == b'1'
    }

    pub(crate) fn begins_line(self) -> bool
        ensures { result ≡ begins_line (number_of self) }
    {
        BEGINS_LINE[self.number() as usize] == b'1'
    }
}
