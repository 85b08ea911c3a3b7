// A program's beginning: what its command line asks for, and the source that is given.
ghost use Rattle.std.specs.Prelude.{◌≡◌, ◌≤◌, IfSome, Some, length};

use crate::given::budget_of;
use crate::speaking::Console;
use crate::system;
use crate::system::{EprintBytes, NAME_ROOM};
use std::io::IsTerminal;
use std::rt::{Env, Files};

// A program of a source: it runs one or, by an option of its own, shows what it makes of it.
pub trait Program {
    const NAME: &'static [u8];

    const USAGE: &'static str;

    // The letter of the option that shows.
    const LETTER: u8;

    // With standard input as the run's input.
    fn run<R: EprintBytes + Files + Input + Print>(
        console: &Console<'_, R>,
        source: &[u8],
        budget: u64,
        asks: bool,
    )
    where
        R::Reader: IsTerminal;

    fn show<R: EprintBytes + Print>(console: &Console<'_, R>, source: &[u8]);
}

// What is to be done with a source; to ask is to run, and to ask for more where the budget is used up.
#[derive(Clone, Copy, PartialEq, Eq)]
enum Task {
    Run,
    Ask,
    Show,
}

// What a command line asks for: the file is argument `file`.
#[derive(Clone, Copy)]
struct Command {
    task: Task,
    file: usize,
    budget: u64,
}

// The budget of a run where none is given.
const BUDGET: u64 = 1000000000;

impl<R: Env + EprintBytes> Console<'_, R> {
    // The argument that is the name of a file. If it cannot be had, that is said.
    pub fn file_argument<'b>(&self, at: usize, room: &'b mut [u8]) -> Option<&'b [u8]>
        ensures { IfSome result (λ name. length name.now ≤ length room.old) }
    {
        match self.rt.arg(at, room) {
            Ok(n) => Some(&room[..n]),
            Err(e) => {
                self.fail("", b"FILE", &system::argument_error(e));
                None
            }
        }
    }

    // The budget that is argument `at`, if there is one. What is no number is said.
    pub fn budget_argument(&self, at: usize, count: usize) -> Option<u64>
        ensures { count ≤ at → result ≡ Some 1000000000 }
    {
        if count <= at {
            return Some(BUDGET);
        }
        let mut room = [0; NAME_ROOM];
        let n = self.rt.arg(at, &mut room).unwrap_or(0);
        let budget = budget_of(&room[..n]);
        if budget.is_none() {
            self.tell(
                "BUDGET is to be a number of instructions, 0 to 18446744073709551615; nothing was run.\n",
            );
        }
        budget
    }

    // What a command line of `count` words asks for; none if that is said to be amiss.
    fn command<P: Program>(&self, first: &[u8], count: usize) -> Option<Command> {
        let (task, file) = match first {
            b"-c" => (Task::Ask, 2),
            [b'-', letter] if *letter == P::LETTER => (Task::Show, 2),
            [b'-', ..] => {
                self.tell_of(
                    "there is no option ",
                    first,
                    "; nothing was run. (A file of that name is given as ./NAME.)\n",
                );
                self.say(P::USAGE);
                return None;
            }
            _ => (Task::Run, 1),
        };
        // A budget may stand behind the file of a run.
        let last = if task == Task::Show { file } else { file + 1 };
        if count <= file || count > last + 1 {
            self.say(P::USAGE);
            return None;
        }
        let budget = self.budget_argument(file + 1, count)?;
        Some(Command { task, file, budget })
    }
}

// What a program does with its command line. The room for its source is lent.
pub fn start<P: Program, R: Env + EprintBytes + Files + Input + Print>(rt: &R, room: &mut [u8])
where
    R::File: IsTerminal,
    R::Reader: IsTerminal,
{
    let console = Console {
        rt,
        program: P::NAME,
    };
    let count = system::arg_count(rt);
    if count < 2 {
        console.say(P::USAGE);
        return;
    }
    let mut name = [0; NAME_ROOM];
    let Some(first) = console.file_argument(1, &mut name) else {
        return;
    };
    let Some(command) = console.command::<P>(first, count) else {
        return;
    };
    let Some(path) = console.file_argument(command.file, &mut name) else {
        return;
    };
    let Some(source) = console.load_file(path, room) else {
        return;
    };
    match command.task {
        Task::Run => P::run(&console, source, command.budget, false),
        Task::Ask => P::run(&console, source, command.budget, true),
        Task::Show => P::show(&console, source),
    }
}
