// The tree reader: symbols in scratch to a tree in the same scratch (document 01, "Grammar").
//
// `scratch` has the state of the reading and its single steps, `binding` what the symbols' kinds say, `parts` names, constants and
// labels, `phrases` expressions and commands, `declarations` programs. How a tree stands in scratch is `specs/Encoding.antt`.
#![tactic(auto)]

mod binding;
mod declarations;
pub mod kinds;
mod parts;
mod phrases;
mod scratch;

ghost use Rattle.std.specs.Prelude.{◌*◌, ◌-◌, ◌≤◌, ◌≡◌, ◌++◌, length, take, replicate};
ghost use Rattle.language.specs.Reader.{place_at};
ghost use Rattle.tree.specs.Read.{source_in, too_short, ReadsTree};

use crate::declarations::program;
use crate::scratch::State;
use symbols::clear_from;
use text::Fault;

// Why there is no tree: document 01's refusal 15; or a fault, and the place of the symbol that is refused.
#[derive(Clone, Copy, PartialEq, Eq)]
pub enum Unparsed {
    TooShort,
    Refused { fault: Fault, place: usize },
}

// The place of the symbol at that position: past the symbols, the text's length.
fn place_at(s: &[u32], n: usize, size: usize, at: usize) -> usize
    requires { n * 3 ≤ length s.now }
    ensures { result ≡ place_at (source_in s.now n size) at }
{
    if at < n { s[at * 3 + 2] as usize } else { size }
}

#[tactic(auto, unfolding(crate::specs::Read::too_short))]
fn too_short(s: &[u32], count: usize) -> bool
    ensures { result ≡ too_short (length s.now) count }
{
    let room = s.len();
    room < 64 || room > u32::MAX as usize || (room - 64) / 8 < count
}

// Reads so many symbols, which stand in scratch and come from a text of that size, and writes their tree behind them, and zeros
// behind that.
pub fn read_tree(scratch: &mut [u32], count: usize, size: usize) -> Result<usize, Unparsed>
    ensures { ReadsTree scratch.old count size result scratch.new }
{
    if too_short(scratch, count) {
        return Err(Unparsed::TooShort);
    }
    let start = count * 3;
    match program(scratch, count, State::Read { at: 0, free: start }) {
        State::Read { free, .. } => {
            clear_from(scratch, free);
            Ok(free)
        }
        State::Refused { fault, at } => {
            let place = place_at(scratch, count, size, at);
            clear_from(scratch, start);
            Err(Unparsed::Refused { fault, place })
        }
    }
}
