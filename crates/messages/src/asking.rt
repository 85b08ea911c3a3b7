// A further budget, asked for at the terminal, whatever standard input is.
ghost use Rattle.std.specs.Prelude.{◌<◌, IfSome};

use crate::given::budget_of;
use crate::speaking::Console;
use crate::system;
use crate::system::{EprintBytes, NAME_ROOM};
use std::io::Read;
use std::rt::Files;

// How often the user may answer with what is no number.
const TRIES: u64 = 3;

impl<R: EprintBytes> Console<'_, R> {
    // The budget in one line from the terminal: 0 for an empty line, none for what is no number.
    fn read_answer(&self, terminal: &mut impl Read) -> Option<u64> {
        let mut room = [0; NAME_ROOM];
        let n = terminal.read(&mut room).unwrap_or(0);
        let line = &room[..n];
        if line.is_empty() {
            self.say("\n");
            return Some(0);
        }
        let digits = line.strip_suffix(b"\n")?;
        if digits.is_empty() {
            return Some(0);
        }
        budget_of(digits)
    }

    fn answer(&self, terminal: &mut impl Read) -> Option<u64>
        ensures { IfSome result (λ n. 0 < n) }
    {
        for _ in 0..TRIES {
            self.tell("how many instructions more? (Enter alone ends the run) ");
            match self.read_answer(terminal) {
                Some(0) => return None,
                Some(n) => return Some(n),
                None => self.say("That is no number of instructions.\n"),
            }
        }
        None
    }
}

impl<R: EprintBytes + Files> Console<'_, R> {
    // How many instructions more the user wants, if any.
    pub fn further_budget(&self) -> Option<u64>
        ensures { IfSome result (λ n. 0 < n) }
    {
        match system::open(self.rt, b"/dev/tty") {
            Ok(mut terminal) => self.answer(&mut terminal),
            Err(_) => {
                self.tell("there is no terminal to ask for a further BUDGET.\n");
                None
            }
        }
    }
}
