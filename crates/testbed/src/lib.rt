// The library's functions exported on numbers and slices, for the comparison with the second program (tests/).
#![tactic(auto, unfolding(text::specs::Line::refusal))]

ghost use Rattle.std.specs.Prelude.{◌≡◌, [], ◌∷◌, length};
ghost use Rattle.assembler.specs.Assemble.{assembled, numbers};
ghost use Rattle.machine.specs.Run.{resume, run};
ghost use Rattle.machine.specs.State.{at};
ghost use Rattle.testbed.specs.Exported.{registers_of, flag_of, ran_numbers, AssembleExported, RunExported, SymbolsExported, TreeExported};
ghost use Rattle.testbed.specs.Exported.{TreeAnswered, CompileExported};

use assembler::Label;
use machine::{Ran, Registers};
use symbols::Unread;
use text::{Fault, Refusal};
use tree::Unparsed;

// The refusals at a source's first byte: it is too long, or the room for its reading too short.
const TOO_LONG: [u64; 3] = [Fault::SourceTooLong as u64, 0, 1];

const TOO_SHORT: [u64; 3] = [Fault::RoomTooShort as u64, 0, 1];

fn refused(r: Refusal) -> [u64; 3]
    ensures { result ≡ r.number ∷ r.place ∷ r.line ∷ [] }
{
    [u64::from(r.number), r.place as u64, r.line as u64]
}

#[unsafe(no_mangle)]
pub extern "C" fn morkvasil_assemble(
    text: &[u8],
    memory: &mut [u16],
    labels: &mut [Label],
    answer: &mut [u64; 3],
)
    ensures { AssembleExported (assembled text.now (length memory.old) (length labels.old))
        memory.new labels.new answer.new }
{
    let assembly = assembler::assemble(text, memory, labels);
    tell(assembly, answer);
}

fn tell(assembly: Result<u16, Refusal>, answer: &mut [u64; 3])
    ensures { answer.new ≡ numbers assembly }
{
    match assembly {
        Ok(first) => {
            *answer = [0, u64::from(first), 0];
        }
        Err(r) => {
            *answer = refused(r);
        }
    }
}

#[unsafe(no_mangle)]
pub extern "C" fn morkvasil_run(
    memory: &mut [u16],
    first: u16,
    input: &[u8],
    output: &mut [u8],
    budget: u64,
    answer: &mut [u64; 12],
)
    ensures { RunExported (run first memory.old input.now output.old budget)
        memory.new output.new answer.new }
{
    let ran = machine::run(memory, first, input, output, budget);
    tell_run(ran, answer);
}

#[unsafe(no_mangle)]
pub extern "C" fn morkvasil_resume(
    a: u16,
    b: u16,
    c: u16,
    p: u16,
    g: u16,
    taken: usize,
    written: usize,
    stored: bool,
    from: u16,
    words: u16,
    memory: &mut [u16],
    input: &[u8],
    output: &mut [u8],
    budget: u64,
    answer: &mut [u64; 12],
)
    ensures { RunExported (resume input.now budget
        (at (registers_of a b c p g taken written stored from words) memory.old output.old))
        memory.new output.new answer.new }
{
    let registers = Registers {
        a,
        b,
        c,
        p,
        g,
        taken,
        written,
        stored,
        from,
        words,
    };
    let ran = machine::resume(registers, memory, input, output, budget);
    tell_run(ran, answer);
}

fn tell_run(ran: Ran, answer: &mut [u64; 12])
    ensures { answer.new ≡ ran_numbers ran }
{
    let r = ran.registers;
    *answer = [
        ran.stop as u64,
        ran.count,
        r.taken as u64,
        r.written as u64,
        r.a as u64,
        r.b as u64,
        r.c as u64,
        r.p as u64,
        r.g as u64,
        u64::from(r.stored),
        r.from as u64,
        r.words as u64,
    ];
}

#[unsafe(no_mangle)]
pub extern "C" fn morkvasil_symbols(text: &[u8], scratch: &mut [u32], answer: &mut [u64; 3])
    ensures { SymbolsExported text.now scratch.old scratch.new answer.new }
{
    let read = symbols::read_symbols(text, scratch);
    match read {
        Err(Unread::TooLong) => {
            *answer = TOO_LONG;
        }
        Err(Unread::TooShort) => {
            *answer = TOO_SHORT;
        }
        Ok(count) => {
            *answer = [0, count as u64, 0];
        }
        Err(Unread::Refused { fault, place }) => {
            *answer = refused(text::refuse(text, fault.number(), place));
        }
    }
}

// The tree of so many symbols, which stand in scratch.
fn answer_tree(text: &[u8], scratch: &mut [u32], count: usize, answer: &mut [u64; 3])
    ensures { TreeAnswered text.now count scratch.old scratch.new answer.new }
{
    let read = tree::read_tree(scratch, count, text.len());
    match read {
        Err(Unparsed::TooShort) => {
            *answer = TOO_SHORT;
        }
        Ok(end) => {
            *answer = [0, end as u64, 0];
        }
        Err(Unparsed::Refused { fault, place }) => {
            *answer = refused(text::refuse(text, fault.number(), place));
        }
    }
}

#[unsafe(no_mangle)]
pub extern "C" fn morkvasil_tree(text: &[u8], scratch: &mut [u32], answer: &mut [u64; 3])
    ensures { TreeExported text.now scratch.old scratch.new answer.new }
{
    let read = symbols::read_symbols(text, scratch);
    match read {
        Err(Unread::TooLong) => {
            *answer = TOO_LONG;
        }
        Err(Unread::TooShort) => {
            *answer = TOO_SHORT;
        }
        Ok(count) => answer_tree(text, scratch, count, answer),
        Err(Unread::Refused { fault, place }) => {
            *answer = refused(text::refuse(text, fault.number(), place));
        }
    }
}

#[unsafe(no_mangle)]
pub extern "C" fn morkvasil_compile(
    source: &[u8],
    scratch: &mut [u32],
    text: &mut [u8],
    answer: &mut [u64; 3],
)
    ensures { CompileExported source.now scratch.old scratch.new text.old text.new
        answer.new }
{
    let compiled = compiler::compile(source, scratch, text);
    match compiled {
        Ok(length) => {
            *answer = [0, length as u64, 0];
        }
        Err(r) => {
            *answer = refused(r);
        }
    }
}
