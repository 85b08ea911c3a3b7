// Labels and constants of commands: CASE and DEFAULT, the table after a SWITCHON's X23, and BY.
ghost use Rattle.std.specs.Prelude.{◌≡◌, Bool, true, false, List, [], ◌∷◌, ◌++◌, ℕ, ◌+◌, ◌*◌, ◌-◌, ◌≤◌, ◌<◌, ◌^◌, length, get_or, replicate};
ghost use Rattle.code.specs.Generate as G;
ghost use Rattle.compiler.specs.Walked.{Emits};
ghost use Rattle.compiler.specs.Switching.{ReadyLabels, JudgesLabels, WritesTable, ReadyMisplaced, Misplaces, JudgesBy};
ghost use Rattle.compiler.specs.Labels.{NextItem, Spans, MisplacesLabel, CountsLabel, CountsCases, CountsAll, HasDefault, FindsDefault};
ghost use Rattle.compiler.specs.Labels.{WritesPair, WritesPairs, WritesAll, Notes, JudgesLabel, JudgesCommand};

use crate::kinds::{CASE, LABELLED};
use crate::scope::entry;
use crate::steps::{Refused, State, blame, judge, node_at, put, word_of, wrong};
use text::Fault;
use writing::{Base, label_word, word};

// The constant of BY between `from` and `end`; 1 where there is none.
pub(crate) fn by_constant(
    source: &[u8],
    s: &[u32],
    from: usize,
    end: usize,
    top: usize,
) -> Result<usize, Refused>
    requires { end < 2 ^ 32 }
    ensures { JudgesBy source.now s.now from end top result }
{
    if end <= from {
        return Ok(1);
    }
    let word = judge(source, s, end, top)?;
    if word == 0 {
        return Err(Refused {
            place: entry(s, end.saturating_sub(2)),
            fault: Fault::Constant,
        });
    }
    Ok(word)
}

// Where the labels before a command stand.
#[derive(Clone, Copy, Drop)]
pub struct Span {
    pub from: usize,
    pub to: usize,
}

// Where the item at `at` ends. The loops below walk the same items with other acts, some with text, flags or a count beside the state: one
// walk over a closure would need what each says as the closure's contract, and be no plainer.
fn next_item(s: &[u32], at: usize, end: usize) -> usize
    requires { (at < end) × (end < 2 ^ 32) }
    ensures { NextItem s.now at end result }
{
    end.min(at + 2 + entry(s, at))
}

// The labels of the command that ends there.
fn labels_of(s: &[u32], end: usize) -> Span
    requires { end < 2 ^ 32 }
    ensures { Spans s.now end result }
{
    let n = node_at(s, end);
    if n.kind != LABELLED {
        return Span { from: 0, to: 0 };
    }
    let to = n.start + n.value;
    if n.inner < to {
        return Span { from: 0, to: 0 };
    }
    Span { from: n.start, to }
}

// 12 at a label, and what is refused in its constant.
fn misplaced_label(source: &[u8], s: &[u32], end: usize, top: usize, st: State) -> State
    requires { end < 2 ^ 32 }
    ensures { MisplacesLabel source.now s.now end top st result }
{
    let n = node_at(s, end);
    let a = wrong(st, n.place, Fault::Case);
    if n.kind != CASE {
        return a;
    }
    let j = judge(source, s, n.inner, top);
    blame(a, j)
}

// 12 at each label, and what is refused in its constant: labels that stand before no command of a list after INTO itself.
pub(crate) fn misplaced(
    source: &[u8],
    s: &[u32],
    from: usize,
    end: usize,
    top: usize,
    st: State,
) -> State
    requires { end < 2 ^ 32 }
    ensures { Misplaces source.now s.now from end top st result }
{
    let mut at = from;
    let mut r = st;
    // goes on by each item's size
    while at < end {
        let next = next_item(s, at, end);
        r = misplaced_label(source, s, next, top, r);
        at = next;
    }
    r
}

// How many labels are CASE: of one, of several, and of those before commands.
#[tactic(auto, using(crate::proofs::Switching::one_case_is, crate::proofs::Switching::one_case_not))]
fn one_case(s: &[u32], end: usize) -> usize
    ensures { CountsLabel s.now end result }
{
    if entry(s, end.saturating_sub(1)) == CASE {
        1
    } else {
        0
    }
}

fn count_cases(s: &[u32], from: usize, end: usize) -> usize
    requires { end < 2 ^ 32 }
    ensures { CountsCases s.now from end result }
{
    let mut at = from;
    let mut n = 0;
    // goes on by each item's size
    while at < end {
        let next = next_item(s, at, end);
        n += one_case(s, next);
        at = next;
    }
    n
}

fn count_all(s: &[u32], from: usize, end: usize) -> usize
    requires { end < 2 ^ 32 }
    ensures { CountsAll s.now from end result }
{
    let mut at = from;
    let mut n = 0;
    // goes on by each item's size
    while at < end {
        let next = next_item(s, at, end);
        let l = labels_of(s, next);
        n += count_cases(s, l.from, l.to);
        at = next;
    }
    n
}

// Whether DEFAULT is among labels.
fn has_default(s: &[u32], from: usize, end: usize) -> bool
    requires { end < 2 ^ 32 }
    ensures { HasDefault s.now from end result }
{
    let mut at = from;
    // goes on by each item's size
    while at < end {
        let next = next_item(s, at, end);
        if one_case(s, next) == 0 {
            return true;
        }
        at = next;
    }
    false
}

// The label of the first command with DEFAULT before it, or the end.
fn default_of(s: &[u32], from: usize, end: usize, first: usize, done: usize) -> usize
    requires { (end < 2 ^ 32) × (first < 2 ^ 32) }
    ensures { FindsDefault s.now from end first done result }
{
    let mut at = from;
    let mut k = first;
    // goes on by each item's size
    while at < end {
        let next = next_item(s, at, end);
        let l = labels_of(s, next);
        if has_default(s, l.from, l.to) {
            return k;
        }
        at = next;
        k += 1;
    }
    done
}

// A word, and one that is a label's address. Each is one call of `writing`, as `put` and `mark` are: one function that is told which to call
// would be no plainer.
fn put_word(text: &mut [u8], st: State, n: usize) -> State
    ensures { Emits (G.D n ∷ []) [] text.old text.new st result }
{
    State {
        at: word(text, st.at, n),
        ..st
    }
}

fn put_address(text: &mut [u8], st: State, n: usize) -> State
    ensures { Emits (G.DL n ∷ []) [] text.old text.new st result }
{
    State {
        at: label_word(text, st.at, n),
        ..st
    }
}

// A CASE's number with its command's label.
fn pair(
    source: &[u8],
    s: &[u32],
    end: usize,
    top: usize,
    text: &mut [u8],
    st: State,
    k: usize,
) -> State
    requires { end < 2 ^ 32 }
    ensures { WritesPair source.now s.now end top k text.old text.new st result }
{
    let n = node_at(s, end);
    if n.kind != CASE {
        return st;
    }
    let j = judge(source, s, n.inner, top);
    let a = put_word(text, st, word_of(j));
    put_address(text, a, k)
}

// The pairs of labels, and of those before commands, which are labelled from k on.
fn pairs(
    source: &[u8],
    s: &[u32],
    from: usize,
    end: usize,
    top: usize,
    text: &mut [u8],
    st: State,
    k: usize,
) -> State
    requires { end < 2 ^ 32 }
    ensures { WritesPairs source.now s.now from end top k text.old text.new st result }
{
    let mut at = from;
    let mut r = st;
    // goes on by each item's size
    while at < end {
        let next = next_item(s, at, end);
        r = pair(source, s, next, top, text, r, k);
        at = next;
    }
    r
}

fn all_pairs(
    source: &[u8],
    s: &[u32],
    from: usize,
    end: usize,
    top: usize,
    text: &mut [u8],
    st: State,
    first: usize,
) -> State
    requires { (end < 2 ^ 32) × (first < 2 ^ 32) }
    ensures { WritesAll source.now s.now from end top first text.old text.new st result }
{
    let mut at = from;
    let mut k = first;
    let mut r = st;
    // goes on by each item's size
    while at < end {
        let next = next_item(s, at, end);
        let l = labels_of(s, next);
        r = pairs(source, s, l.from, l.to, top, text, r, k);
        at = next;
        k += 1;
    }
    r
}

// X23 and the words after it. The commands of the list are labelled from `first` on; the SWITCHON ends at `done`.
pub(crate) fn table(
    source: &[u8],
    s: &[u32],
    from: usize,
    end: usize,
    top: usize,
    text: &mut [u8],
    st: State,
    first: usize,
    done: usize,
) -> State
    requires { (end < 2 ^ 32) × (first < 2 ^ 32) × (done < 2 ^ 32) }
    ensures { WritesTable source.now s.now from end top first done text.old text.new st result }
{
    let a = put(text, st, 7, false, Base::Plain, 23);
    let n = count_all(s, from, end);
    let b = put_word(text, a, n);
    let to = default_of(s, from, end, first, done);
    let c = put_address(text, b, to);
    all_pairs(source, s, from, end, top, text, c, first)
}

// Flag v is 1 where a good CASE v was met in the list, flag 65536 where DEFAULT was: none yet. There are eight in a byte, since their
// room stands in the frames of the walk, once for each level of commands.
const MARKS: usize = 8193;

// A flag is set, or it is already: 12.
fn note(seen: &mut [u8], i: usize, place: usize, st: State) -> State
    requires { place < 2 ^ 32 }
    ensures { Notes i place seen.old seen.new st result }
{
    let at = i / 8;
    if seen.len() <= at {
        return st;
    }
    let mark = 1 << (i % 8);
    if seen[at] / mark % 2 == 1 {
        return wrong(st, place, Fault::Case);
    }
    seen[at] += mark;
    st
}

// A label's constant judged, and 12 where the label was met before.
fn doubled_label(
    source: &[u8],
    s: &[u32],
    end: usize,
    top: usize,
    seen: &mut [u8],
    st: State,
) -> State
    requires { end < 2 ^ 32 }
    ensures { JudgesLabel source.now s.now end top seen.old seen.new st result }
{
    let n = node_at(s, end);
    if n.kind != CASE {
        return note(seen, 65536, n.place, st);
    }
    let j = judge(source, s, n.inner, top);
    match j {
        Ok(word) => note(seen, word, n.place, st),
        Err(_) => blame(st, j),
    }
}

// The labels before a command.
fn doubled_in(
    source: &[u8],
    s: &[u32],
    from: usize,
    end: usize,
    top: usize,
    seen: &mut [u8],
    st: State,
) -> State
    requires { end < 2 ^ 32 }
    ensures { JudgesCommand source.now s.now from end top seen.old seen.new st result }
{
    let mut at = from;
    let mut r = st;
    // goes on by each item's size
    while at < end {
        let next = next_item(s, at, end);
        r = doubled_label(source, s, next, top, seen, r);
        at = next;
    }
    r
}

// What is refused in the labels of the list after INTO: their constants, and 12 where one is there already.
pub(crate) fn doubled(
    source: &[u8],
    s: &[u32],
    from: usize,
    end: usize,
    top: usize,
    st: State,
) -> State
    requires { end < 2 ^ 32 }
    ensures { JudgesLabels source.now s.now from end top st result }
{
    let mut seen = [0u8; MARKS];
    let mut at = from;
    let mut r = st;
    // goes on by each item's size
    while at < end {
        let next = next_item(s, at, end);
        let l = labels_of(s, next);
        r = doubled_in(source, s, l.from, l.to, top, &mut seen, r);
        at = next;
    }
    r
}
