// A source taken all the way: compiled, assembled and run, with an input, in lent memory (document 01, all three stages).
#![tactic(auto)]

ghost use Rattle.std.specs.Prelude.{◌≤◌, length, take};
ghost use Rattle.execution.specs.Executes.{Executes, RunsText};

use assembler::load;
use compiler::compile;
use machine::{Ran, run};
use text::Refusal;

// Why there was no run: the source is refused, or its text, which does not fit the memory.
#[derive(Drop)]
pub enum NotRun {
    Source(Refusal),
    Text(Refusal),
}

// The assembling and the run.
fn run_text(
    text: &[u8],
    memory: &mut [u16],
    input: &[u8],
    output: &mut [u8],
    budget: u64,
) -> Result<Ran, NotRun>
    ensures { RunsText text.now memory.old memory.new input.now output.old
        output.new budget result }
{
    let first = load(text, memory).map_err(NotRun::Text)?;
    Ok(run(memory, first, input, output, budget))
}

// Compiles a source, assembles its text and runs the image with that input.
pub fn execute(
    source: &[u8],
    scratch: &mut [u32],
    text: &mut [u8],
    memory: &mut [u16],
    input: &[u8],
    output: &mut [u8],
    budget: u64,
) -> Result<Ran, NotRun>
    ensures { Executes source.now scratch.old scratch.new text.old text.new
        memory.old memory.new input.now output.old output.new budget result }
{
    let n = compile(source, scratch, text).map_err(NotRun::Source)?;
    run_text(&text[..n], memory, input, output, budget)
}
