// minicode FILE [BUDGET] < input
// minicode -c FILE [BUDGET] < input
// minicode -l FILE
//
// Assembles a MINICODE text and runs it in 32,768 words with standard input as its input; with -c it asks at the terminal for a further
// budget where the run stops for budget, and carries it on; with -l it lists the text beside its words instead. Standard output gets exactly
// the run's bytes, the list, or a refusal's one line; whatever else is to be said goes to standard error (crate `messages`).
#![tactic(auto)]

mod listing;

use messages::{Console, EprintBytes, Program, ROOM};
use std::io::IsTerminal;
use std::rt::Files;

// The words of the memory.
const WORDS: usize = 32768;

// The image's first stack word, once the text is in memory; none if it is refused, which is then said.
fn assemble<R: EprintBytes + Print>(
    console: &Console<'_, R>,
    source: &[u8],
    memory: &mut [u16],
) -> Option<u16> {
    match assembler::load(source, memory) {
        Ok(first) => Some(first),
        Err(r) => {
            console.say_refusal(source, r);
            None
        }
    }
}

struct Minicode;

impl Program for Minicode {
    const NAME: &'static [u8] = b"minicode";

    const USAGE: &'static str =
        "usage: minicode FILE [BUDGET] < input    runs a MINICODE text, for BUDGET instructions at most\n       \
         minicode -c FILE [BUDGET]         the same, and asks for more when BUDGET is used up\n       \
         minicode -l FILE                  lists the text with its addresses and words\n";

    const LETTER: u8 = b'l';

    fn run<R: EprintBytes + Files + Input + Print>(
        console: &Console<'_, R>,
        source: &[u8],
        budget: u64,
        asks: bool,
    )
    where
        R::Reader: IsTerminal,
    {
        let mut memory = [0; WORDS];
        let Some(first) = assemble(console, source, &mut memory) else {
            return;
        };
        // Whether the image has a function in global 1, which the machine calls first.
        let starts = memory[17] != 0;
        let mut input = messages::zeros::<ROOM>();
        let Some(input) = console.load_input(&mut input) else {
            return;
        };
        if console.run_image(first, &mut memory, input, budget, asks) {
            return;
        }
        if !starts {
            console.say(
                "The text gives global 1 no label, as G1L12 does, so there is nothing for the machine to start with.\n",
            );
        }
        console.say("What stands at each address is listed by: minicode -l FILE\n");
    }

    fn show<R: EprintBytes + Print>(console: &Console<'_, R>, source: &[u8]) {
        let mut memory = [0; WORDS];
        if assemble(console, source, &mut memory).is_some() {
            listing::list(console.rt, source, &memory);
        }
    }
}

fn main(rt: HostRuntime) {
    let mut room = messages::zeros::<ROOM>();
    messages::start::<Minicode, HostRuntime>(&rt, &mut room);
}
