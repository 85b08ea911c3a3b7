// The outermost level: GLOBAL and MANIFEST, the names of a group of functions, and a function.
ghost use Rattle.std.specs.Prelude.{◌≡◌, ◌≢◌, ◌%◌, MatchOption, Bool, List, [], ◌∷◌, ℕ, suc, ◌+◌, ◌*◌, ◌-◌, ◌≤◌, ◌<◌, ◌^◌, length, get_or};
ghost use Rattle.language.specs.Fine.{FineName};
ghost use Rattle.compiler.specs.Scope.{code, name_at, entry_of, code_of};
ghost use Rattle.compiler.specs.Walks.{ReadyE, GaveE};
ghost use Rattle.compiler.specs.Commands.{ReadyC, GaveC};
ghost use Rattle.compiler.specs.Items.{meaning, JudgesItem, Items, ReadyItems};
ghost use Rattle.compiler.specs.Groups.{NameFaults, Enters, ReadyGroup, GroupNames, ReadyBody, GaveBody, ReadyF, GaveF, CountsFunctions};

use crate::kinds::{EQUAL, GLOBAL, LET};
use crate::scope::{Meaning, entry, in_block, lookup, push, push_name};
use crate::steps::{
    Here, Refused, State, Ways, again, blame, count, declare, judge, judge_most, mark, node_at,
    put, reached, word_of, wrong,
};
use crate::walk::{command, expr};
use text::Fault;
use writing::Base;

// What is done, and the end of the names in scope.
#[derive(Clone, Copy, Drop)]
pub struct Known {
    pub top: usize,
    pub state: State,
}

// ---- GLOBAL and MANIFEST

// The constant of an item, of GLOBAL or of MANIFEST.
fn item_constant(
    source: &[u8],
    s: &[u32],
    end: usize,
    top: usize,
    global: bool,
) -> Result<usize, Refused>
    requires { end < 2 ^ 32 }
    ensures { JudgesItem global source.now s.now end top result }
{
    if global {
        return judge_most(source, s, end, top, 399);
    }
    judge(source, s, end, top)
}

fn meaning(global: bool, v: usize) -> Meaning
    ensures { entry_of result ≡ code (meaning global v) }
{
    if global {
        Meaning::Global(v)
    } else {
        Meaning::Manifest(v)
    }
}

// Items from `from` on, each known from its end on.
pub(crate) fn items(
    source: &[u8],
    s: &mut [u32],
    from: usize,
    end: usize,
    top: usize,
    global: bool,
    st: State,
) -> Known
    requires { ReadyItems s.old from end top }
    ensures { Items global source.now s.old s.new from end top st result }
{
    let mut at = from;
    let mut k = 0;
    let mut r = st;
    // goes on by each item's size
    while at < end {
        let next = at + 2 + entry(s, at);
        let c = item_constant(source, s, next, top + 2 * k, global);
        let m = in_block(source, s, top + 2 * k, at + 2);
        let place = entry(s, at + 4);
        let a = blame(r, c);
        r = again(a, m, place);
        push_name(s, top + 2 * k, at + 2, meaning(global, word_of(c)));
        k += 1;
        at = next;
    }
    Known {
        top: top + 2 * k,
        state: r,
    }
}

// ---- functions

// 9 at a function's name: it is known and no global, or its global is taken.
fn name_fault(table: &[u32], st: State, m: Option<Meaning>, place: usize) -> State
    requires { (place < 2 ^ 32) × (length table.now ≡ 400) }
    ensures { NameFaults table.now (code_of m) place st result }
{
    match m {
        None => st,
        Some(Meaning::Global(n)) => {
            if entry(table, n) == 0 {
                return st;
            }
            wrong(st, place, Fault::NameTwice)
        }
        Some(Meaning::Local(_)) => wrong(st, place, Fault::NameTwice),
        Some(Meaning::Manifest(_)) => wrong(st, place, Fault::NameTwice),
        Some(Meaning::Function(_)) => wrong(st, place, Fault::NameTwice),
    }
}

// The global that is meant, if it is one.
fn global_in(m: Option<Meaning>) -> Option<usize>
    ensures { MatchOption result (code_of m % 4 ≢ 2) (λ n. code_of m ≡ n * 4 + 2) }
{
    match m {
        Some(Meaning::Global(n)) => Some(n),
        None => None,
        Some(Meaning::Local(_)) => None,
        Some(Meaning::Manifest(_)) => None,
        Some(Meaning::Function(_)) => None,
    }
}

// A function's name: it starts in its global, or it is known from here on. The names' end.
fn enter(
    s: &mut [u32],
    table: &mut [u32],
    top: usize,
    leaf: usize,
    m: Option<Meaning>,
    k: usize,
) -> usize
    requires { (top + 2 ≤ length s.old) × (leaf < 2 ^ 32) × (k < 2 ^ 29) × FineName (name_at s.old leaf) }
    ensures { Enters s.old s.new table.old table.new top leaf (code_of m) k result }
{
    match global_in(m) {
        Some(n) => {
            if n < table.len() {
                table[n] = (k + 1) as u32;
            }
            top
        }
        None => {
            push_name(s, top, leaf, Meaning::Function(k));
            top + 2
        }
    }
}

// The names of a group, before any of its functions is walked.
pub(crate) fn group_names(
    source: &[u8],
    s: &mut [u32],
    table: &mut [u32],
    from: usize,
    end: usize,
    top: usize,
    before: usize,
    st: State,
) -> Known
    requires { ReadyGroup s.old table.old from end top before }
    ensures { GroupNames source.now s.old s.new table.old table.new
        from end top before st result }
{
    let mut at = from;
    let mut k = before;
    let mut now_top = top;
    let mut r = st;
    // goes on by each item's size
    while at < end {
        let next = at + 2 + entry(s, at);
        let m = lookup(source, s, now_top, at + 2);
        let place = entry(s, at + 4);
        r = name_fault(table, r, m, place);
        now_top = enter(s, table, now_top, at + 2, m, k);
        k += 1;
        at = next;
    }
    Known {
        top: now_top,
        state: r,
    }
}

// A function: its label, its parameters in a block of their own, its body, and the return.
pub(crate) fn function(
    source: &[u8],
    s: &mut [u32],
    end: usize,
    text: &mut [u8],
    here: Here,
    st: State,
    label: usize,
) -> State
    requires { ReadyF s.old end here st }
    ensures { GaveF source.now s.old s.new label end here text.old text.new st result }
{
    let n = node_at(s, end);
    let first = n.start + 4;
    let last = first + n.value;
    let many = n.value / 4;
    let a = mark(text, st, label);
    push(s, here.top, 0, 0);
    let b = declare(source, s, first, last, here.top + 2, 2, a);
    let c = reached(b, 2 + many);
    let x = Here {
        top: here.top + 2 + 2 * many,
        height: 2 + many,
        routine: n.kind != EQUAL,
        ..here
    };
    let d = body(source, s, n.inner, text, x, c, n.kind);
    put(text, d, 7, false, Base::Plain, 4)
}

// A function's value, or a routine's command, from which nothing is left but by RETURN.
fn body(
    source: &[u8],
    s: &mut [u32],
    end: usize,
    text: &mut [u8],
    here: Here,
    st: State,
    word: usize,
) -> State
    requires { ReadyBody s.old end here st word }
    ensures { GaveBody source.now s.old s.new end word here text.old text.new st result }
{
    if word == EQUAL {
        return expr(source, s, end, text, here, st);
    }
    command(
        source,
        s,
        end,
        text,
        here,
        Ways {
            after: 0,
            next: 0,
            done: 0,
            result: 0,
        },
        st,
    )
}

// How many functions there are: the strings' labels follow theirs.
pub(crate) fn function_count(s: &[u32], from: usize, end: usize) -> usize
    requires { end < 2 ^ 32 }
    ensures { CountsFunctions s.now from end result }
{
    let mut at = from;
    let mut n = 0;
    // goes on by each item's size
    while at < end {
        let next = at + 2 + entry(s, at);
        if entry(s, at + 1) == LET && next <= end {
            n += count(s, at + 2, next);
        }
        at = next;
    }
    n
}
