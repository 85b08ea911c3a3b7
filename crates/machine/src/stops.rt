// Why a run ends, by name: document 01's numbers stand beside the names, and in `specs/Stops.antt`.
ghost use Rattle.std.specs.Prelude.{◌≡◌};
ghost use Rattle.machine.specs.Stops.{number_of, Numbers};

#[derive(Clone, Copy, PartialEq, Eq)]
pub enum Stop {
    MemoryLength = 24,
    Finished = 30,
    Budget = 31,
    Address = 32,
    ZeroDivisor = 33,
    UnlistedAct = 34,
    OutputFull = 35,
}

impl Stop {
    pub fn number(self) -> u16
        ensures { result ≡ number_of self }
    {
        self as u16
    }
}

// A number that no stop has.
#[derive(Clone, Copy, PartialEq, Eq)]
pub struct UnknownStop(pub u16);

impl TryFrom<u16> for Stop {
    type Error = UnknownStop;

    ghost try_from_gives = { Numbers };

    fn try_from(number: u16) -> Result<Self, UnknownStop> {
        match number {
            24 => Ok(Stop::MemoryLength),
            30 => Ok(Stop::Finished),
            31 => Ok(Stop::Budget),
            32 => Ok(Stop::Address),
            33 => Ok(Stop::ZeroDivisor),
            34 => Ok(Stop::UnlistedAct),
            35 => Ok(Stop::OutputFull),
            _ => Err(UnknownStop(number)),
        }
    }
}
