// bcpl FILE [BUDGET] < input
// bcpl -c FILE [BUDGET] < input
// bcpl -S FILE
//
// Compiles a BCPL source, assembles its text and runs it in 32,768 words with standard input as its input; with -c it asks at the terminal
// for a further budget where the run stops for budget, and carries it on; with -S it prints the text instead. Standard output gets exactly
// the run's bytes, the text, or a refusal's one line; whatever else is to be said goes to standard error (crate `messages`). What a run does
// is `execution`'s to promise.
#![tactic(auto)]

use execution::NotRun;
use messages::{Console, EprintBytes, OUTPUT_ROOM, Program, ROOM};
use std::io::IsTerminal;
use std::rt::Files;

// A source has 16,384 bytes at most, and one that does not fit here is refused as too long by what does.
const SOURCE_ROOM: usize = 65536;

// What is lent: the longest source's scratch and text, and the memory.
const SCRATCH: usize = 131136;

const TEXT_ROOM: usize = 1049600;

const WORDS: usize = 32768;

// The text, in the room that is lent; none if the source is refused, which is then said.
fn compile<'a, R: EprintBytes + Print>(
    console: &Console<'_, R>,
    source: &[u8],
    room: &'a mut [u8],
) -> Option<&'a [u8]> {
    let mut scratch = [0; SCRATCH];
    match compiler::compile(source, &mut scratch, room) {
        Ok(n) => Some(&room[..n]),
        Err(r) => {
            console.say_refusal(source, r);
            None
        }
    }
}

// So that no input is asked for in vain. The room is let go before the input's is taken.
fn compiles<R: EprintBytes + Print>(console: &Console<'_, R>, source: &[u8]) -> bool {
    let mut room = messages::zeros::<TEXT_ROOM>();
    compile(console, source, &mut room).is_some()
}

fn execute<R: EprintBytes + Files + Print>(
    console: &Console<'_, R>,
    source: &[u8],
    input: &[u8],
    budget: u64,
    asks: bool,
) {
    let mut scratch = [0; SCRATCH];
    let mut text = messages::zeros::<TEXT_ROOM>();
    let mut memory = [0; WORDS];
    let mut output = [0; OUTPUT_ROOM];
    match execution::execute(
        source,
        &mut scratch,
        &mut text,
        &mut memory,
        input,
        &mut output,
        budget,
    ) {
        Err(NotRun::Source(r)) => console.say_refusal(source, r),
        Err(NotRun::Text(r)) => {
            console.say_refusal(&text, r);
            console.say("The place is in the MINICODE text, which is printed by: bcpl -S FILE\n");
        }
        Ok(ran) => {
            if !console.carry_on(ran, &mut memory, input, &mut output, budget, asks) {
                console.say("What the machine runs is printed by: bcpl -S FILE\n");
            }
        }
    }
}

struct Bcpl;

impl Program for Bcpl {
    const NAME: &'static [u8] = b"bcpl";

    const USAGE: &'static str =
        "usage: bcpl FILE [BUDGET] < input    runs a BCPL source, for BUDGET instructions at most\n       \
         bcpl -c FILE [BUDGET]         the same, and asks for more when BUDGET is used up\n       \
         bcpl -S FILE                  prints the MINICODE text that is made of it\n";

    const LETTER: u8 = b'S';

    fn run<R: EprintBytes + Files + Input + Print>(
        console: &Console<'_, R>,
        source: &[u8],
        budget: u64,
        asks: bool,
    )
    where
        R::Reader: IsTerminal,
    {
        if !compiles(console, source) {
            return;
        }
        let mut input = messages::zeros::<ROOM>();
        if let Some(input) = console.load_input(&mut input) {
            execute(console, source, input, budget, asks);
        }
    }

    fn show<R: EprintBytes + Print>(console: &Console<'_, R>, source: &[u8]) {
        let mut room = messages::zeros::<TEXT_ROOM>();
        if let Some(text) = compile(console, source, &mut room) {
            let _ = console.rt.write_all(text);
        }
    }
}

fn main(rt: HostRuntime) {
    messages::start::<Bcpl, HostRuntime>(&rt, &mut [0; SOURCE_ROOM]);
}
