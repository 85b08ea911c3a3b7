// What a student at a terminal meets, for every program here: refusals and stops in plain words, and what the programs share.
//
// Standard output gets a refusal's one line; all that is said to a reader goes to standard error. `starting` takes a program's command line,
// `speaking` holds who speaks, `reporting` says refusals and stops: `causes` what is wrong, `advice` what to do, each by document 01's number;
// `excerpt` shows the line with a caret under the place; `given` takes what the user gives: a budget, a file, standard input; `running` runs
// an image and writes its output out, and `asking` asks for a further budget. `system` is what std is asked for. No contract can say what is
// written, so most functions here have none: they are proved safe, and to end.
#![tactic(auto)]

mod advice;
mod asking;
mod causes;
mod excerpt;
mod given;
mod reporting;
mod running;
mod speaking;
mod starting;
mod system;

pub use given::ROOM;
pub use running::OUTPUT_ROOM;
pub use speaking::Console;
pub use starting::{Program, start};
pub use system::{EprintBytes, NAME_ROOM, arg_count, fail, open, read_full, zeros};
