// The compiler: from source bytes to MINICODE text in lent room (document 01, "Compiler").
//
// `symbols` and `tree` read the source into scratch. One walk of the tree then finds the names' meanings, the least refusal of 8 to 13,
// heights and labels, and writes the text: `steps` has its single steps, `scope` the names in scope, `labels` the labels of a SWITCHON,
// `walk` expressions and commands, `outer` a declaration's parts, `program` all declarations, `strings` what follows the functions.
#![tactic(auto)]

mod kinds;
mod labels;
mod outer;
mod program;
mod scope;
mod steps;
mod strings;
mod walk;

ghost use Rattle.text.specs.Faults.{number_of};
ghost use Rattle.text.specs.Line.{refusal};
ghost use Rattle.std.specs.Prelude.{◌≡◌, Err, ◌++◌, ◌+◌, ◌*◌, ◌-◌, ◌≤◌, length, take, replicate};
ghost use Rattle.compiler.specs.Compiles.{Compiles, Translates, NONE, by_keys, ReadyTree, ReadySymbols, Lent, Serves, AllStrings, Behind};

use crate::outer::function_count;
use crate::program::{Done, program};
use crate::scope::entry;
use crate::steps::State;
use crate::strings::{closing, opening, starts, string_count, strings};
use symbols::{Unread, clear_from, read_symbols, scratch_too_short, too_long};
use text::{Fault, Refusal, refuse};
use tree::{Unparsed, read_tree};

// A key, place * 32 + number, above all refusals'.
const NONE: usize = 137438953472;

// How deep a tree may be.
const DEPTH: usize = 520;

// Zeros from a place on: symbols' `clear_from` for bytes. One for both, generic over the entry, would have to be given the zero: no plainer.
fn clear_text(text: &mut [u8], from: usize)
    ensures { text.new ≡ take from text.old ++ replicate (length text.old - from) 0 }
{
    let start = from.min(text.len());
    text[start..].fill(0);
}

// The strings, so many, from that label on. The names in scope stood where the symbols were, so where there are any these are read again,
// into as much of scratch as that takes.
fn all_strings(
    source: &[u8],
    s: &mut [u32],
    count: usize,
    names: usize,
    text: &mut [u8],
    at: usize,
    first: usize,
) -> usize
    requires { Lent source.now (length s.old) × (count ≤ 16384) × (first ≤ 81921) }
    ensures { AllStrings source.now s.old s.new count names first at result
        text.old text.new }
{
    if names == 0 {
        return at;
    }
    let _ = read_symbols(source, &mut s[..source.len() * 3]);
    strings(source, s, count, text, at, first)
}

// What follows the functions.
fn behind(
    source: &[u8],
    s: &mut [u32],
    count: usize,
    names: usize,
    text: &mut [u8],
    functions: usize,
    table: &[u32],
    at: usize,
) -> usize
    requires { Lent source.now (length s.old) × (count ≤ 16384) × (functions ≤ 81920) }
    ensures { Behind source.now s.old s.new count names functions table.now at result
        text.old text.new }
{
    let a = all_strings(source, s, count, names, text, at, functions + 1);
    let b = starts(table, functions, text, a);
    closing(text, b)
}

// A refusal by its fault.
fn refused(source: &[u8], fault: Fault, place: usize) -> Result<usize, Refusal>
    ensures { result ≡ Err (refusal source.now (number_of fault) place) }
{
    Err(refuse(source, fault.number(), place))
}

// The answer by the least keys of 8 to 13 and of 16, the label of START, and the end of the text.
fn decide(
    source: &[u8],
    worst: usize,
    tall: usize,
    start: usize,
    at: usize,
    room: usize,
) -> Result<usize, Refusal>
    ensures { result ≡ by_keys source.now worst tall start at room }
{
    if worst < NONE {
        return Err(refuse(source, (worst % 32) as u16, worst / 32));
    }
    if tall < NONE {
        return Err(refuse(source, (tall % 32) as u16, tall / 32));
    }
    if start == 0 {
        return refused(source, Fault::NoStart, 0);
    }
    if room < at {
        return refused(source, Fault::RoomTooShort, 0);
    }
    Ok(at)
}

// The walk of the tree, which stands behind so many symbols and ends there. Scratch is zeros behind the tree,
// and at the end all of it.
fn walked(
    source: &[u8],
    s: &mut [u32],
    count: usize,
    end: usize,
    text: &mut [u8],
) -> Result<usize, Refusal>
    requires { ReadyTree source.now s.old count end }
    ensures { Translates source.now s.old s.new text.old text.new result }
{
    let base = count * 3;
    let functions = function_count(s, base, end);
    let names = string_count(s, count);
    // Of each global, the label of the function that starts in it: none yet.
    let mut table = [0u32; 400];
    let at = opening(text, 0);
    let d = Done {
        tall: NONE,
        state: State {
            at,
            label: functions + 1 + names,
            worst: NONE,
            high: 0,
        },
    };
    let e = program(
        source,
        s,
        &mut table,
        base,
        end,
        DEPTH,
        functions + 1,
        text,
        d,
    );
    let last = behind(source, s, count, names, text, functions, &table, e.state.at);
    clear_from(&mut s[..end], 0);
    decide(
        source,
        e.state.worst,
        e.tall,
        entry(&table, 1),
        last,
        text.len(),
    )
}

// The tree of so many symbols, in as much of scratch as it may take, and its walk.
fn parsed(source: &[u8], s: &mut [u32], count: usize, text: &mut [u8]) -> Result<usize, Refusal>
    requires { ReadySymbols source.now s.old count }
    ensures { Translates source.now s.old s.new text.old text.new result }
{
    match read_tree(&mut s[..count * 8 + 64], count, source.len()) {
        Ok(end) => walked(source, s, count, end, text),
        Err(Unparsed::Refused { fault, place }) => {
            clear_from(&mut s[..count * 3], 0);
            refused(source, fault, place)
        }
        Err(Unparsed::TooShort) => refused(source, Fault::RoomTooShort, 0),
    }
}

// The symbols, their tree, and its walk, in scratch of just the length that is asked for.
fn translated(source: &[u8], s: &mut [u32], text: &mut [u8]) -> Result<usize, Refusal>
    requires { Lent source.now (length s.old) }
    ensures { Translates source.now s.old s.new text.old text.new result }
{
    match read_symbols(source, s) {
        Ok(count) => parsed(source, s, count, text),
        Err(Unread::Refused { fault, place }) => refused(source, fault, place),
        Err(Unread::TooShort) => refused(source, Fault::RoomTooShort, 0),
        Err(Unread::TooLong) => refused(source, Fault::SourceTooLong, 0),
    }
}

// The part of scratch that is asked for is worked in, and what is behind it cleared.
fn in_part(source: &[u8], scratch: &mut [u32], text: &mut [u8]) -> Result<usize, Refusal>
    requires { Serves source.now scratch.old }
    ensures { Translates source.now scratch.old scratch.new text.old text.new result }
{
    let asked = source.len() * 8 + 64;
    let r = translated(source, &mut scratch[..asked], text);
    clear_from(scratch, asked);
    r
}

// All but the clearing of the text.
fn attempt(source: &[u8], scratch: &mut [u32], text: &mut [u8]) -> Result<usize, Refusal>
    ensures { Translates source.now scratch.old scratch.new text.old text.new result }
{
    if too_long(source) {
        clear_from(scratch, 0);
        return refused(source, Fault::SourceTooLong, 0);
    }
    if scratch_too_short(source, scratch) {
        clear_from(scratch, 0);
        return refused(source, Fault::RoomTooShort, 0);
    }
    in_part(source, scratch, text)
}

// A source's MINICODE text, or why there is none: document 01's refusals 1 to 16. Scratch is zeros after every call, and so is all of
// `text` but an accepted source's text at its front.
pub fn compile(source: &[u8], scratch: &mut [u32], text: &mut [u8]) -> Result<usize, Refusal>
    ensures { Compiles source.now scratch.old scratch.new text.old text.new result }
{
    match attempt(source, scratch, text) {
        Ok(n) => {
            clear_text(text, n);
            Ok(n)
        }
        Err(refusal) => {
            clear_text(text, 0);
            Err(refusal)
        }
    }
}
