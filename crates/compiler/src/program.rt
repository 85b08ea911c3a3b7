// A group's functions one after another, and the whole program.
ghost use Rattle.std.specs.Prelude.{◌≡◌, cond, [], ◌<◌, ◌^◌, ltb};
ghost use Rattle.language.specs.Kinds as K;
ghost use Rattle.language.specs.Constants.{fault};
ghost use Rattle.compiler.specs.Walked.{least};
ghost use Rattle.compiler.specs.Groups.{ReadyFs, GaveFs};
ghost use Rattle.compiler.specs.Items.{ReadyItems};
ghost use Rattle.compiler.specs.Programs.{NamedItems, ReadyDeclaration, GaveDeclaration, ReadyProgram, GaveProgram};

use crate::kinds::{GLOBAL, LET};
use crate::outer::{function, group_names, items};
use crate::scope::entry;
use crate::steps::{Here, State, count};

// What is done, and the least refusal 16, as place * 32 + 16.
#[derive(Clone, Copy, Drop)]
pub struct Done {
    pub tall: usize,
    pub state: State,
}

// The least 16.
#[tactic(auto, using(crate::proofs::FunctionLists::tall_new, crate::proofs::FunctionLists::tall_low))]
fn too_tall(tall: usize, high: usize, place: usize) -> usize
    requires { place < 2 ^ 32 }
    ensures { result ≡ least tall (cond (ltb 8192 high) (fault place 16) []) }
{
    let key = place * 32 + 16;
    if 8192 < high { tall.min(key) } else { tall }
}

// The heights of the next function are its own.
fn level(st: State) -> State
    ensures { result ≡ record { at = st.at; label = st.label; worst = st.worst; high = 0 } }
{
    State { high: 0, ..st }
}

// The functions of a group, whose names are known, with their labels from `label` on.
fn group(
    source: &[u8],
    s: &mut [u32],
    from: usize,
    end: usize,
    text: &mut [u8],
    here: Here,
    d: Done,
    label: usize,
) -> Done
    requires { ReadyFs s.old from end here d × (label < 2 ^ 32) }
    ensures { GaveFs source.now s.old s.new from end label here text.old text.new d result }
{
    let mut at = from;
    let mut l = label;
    let mut r = d.state;
    let mut tall = d.tall;
    // goes on by each item's size
    while at < end {
        let next = at + 2 + entry(s, at);
        let a = function(source, s, next, text, here, r, l);
        let place = entry(s, at + 4);
        tall = too_tall(tall, a.high, place);
        r = level(a);
        l += 1;
        at = next;
    }
    Done { tall, state: r }
}

// Where the declarations stand: the end of the names in scope, how many functions there were, and what is done.
#[derive(Clone, Copy, Drop)]
pub struct Progress {
    pub top: usize,
    pub functions: usize,
    pub done: Done,
}

// The items of GLOBAL or of MANIFEST.
fn named(
    source: &[u8],
    s: &mut [u32],
    from: usize,
    end: usize,
    global: bool,
    l: Progress,
) -> Progress
    requires { ReadyItems s.old from end l.top × (l.done.state.high ≡ 0) }
    ensures { NamedItems global source.now s.old s.new from end l result }
{
    let k = items(source, s, from, end, l.top, global, l.done.state);
    Progress {
        top: k.top,
        done: Done {
            state: level(k.state),
            ..l.done
        },
        ..l
    }
}

// A group of functions: all of its names, then each function.
fn functions(
    source: &[u8],
    s: &mut [u32],
    table: &mut [u32],
    from: usize,
    end: usize,
    left: usize,
    strings: usize,
    text: &mut [u8],
    l: Progress,
) -> Progress
    requires { ReadyDeclaration s.old table.old from end K.LET left strings l }
    ensures { GaveDeclaration source.now s.old s.new table.old table.new
        from end K.LET left strings text.old text.new l result }
{
    let n = count(s, from, end);
    let k = group_names(
        source,
        s,
        table,
        from,
        end,
        l.top,
        l.functions,
        l.done.state,
    );
    let d = group(
        source,
        s,
        from,
        end,
        text,
        Here {
            top: k.top,
            height: 0,
            left,
            strings,
            routine: false,
        },
        Done {
            state: level(k.state),
            ..l.done
        },
        l.functions + 1,
    );
    Progress {
        top: k.top,
        functions: l.functions + n,
        done: d,
    }
}

// A declaration by its tag.
fn declaration(
    source: &[u8],
    s: &mut [u32],
    table: &mut [u32],
    from: usize,
    end: usize,
    tag: usize,
    left: usize,
    strings: usize,
    text: &mut [u8],
    l: Progress,
) -> Progress
    requires { ReadyDeclaration s.old table.old from end tag left strings l }
    ensures { GaveDeclaration source.now s.old s.new table.old table.new
        from end tag left strings text.old text.new l result }
{
    if tag == LET {
        return functions(source, s, table, from, end, left, strings, text, l);
    }
    named(source, s, from, end, tag == GLOBAL, l)
}

// The whole tree, which stands from `base` on, up to `end`.
pub(crate) fn program(
    source: &[u8],
    s: &mut [u32],
    table: &mut [u32],
    base: usize,
    end: usize,
    left: usize,
    strings: usize,
    text: &mut [u8],
    d: Done,
) -> Done
    requires { ReadyProgram s.old table.old base end left strings d }
    ensures { GaveProgram source.now s.old s.new table.old table.new
        base end left strings text.old text.new d result }
{
    let mut at = base;
    let mut l = Progress {
        top: 0,
        functions: 0,
        done: d,
    };
    // goes on by each item's size
    while at < end {
        let next = at + 2 + entry(s, at);
        let tag = entry(s, at + 1);
        l = declaration(source, s, table, at + 2, next, tag, left, strings, text, l);
        at = next;
    }
    l.done
}
