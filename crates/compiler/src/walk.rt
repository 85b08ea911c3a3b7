// One walk of the tree: names, refusals 8 to 13, heights, labels and the text.
//
// The tree stands in scratch from `base` on, and the names in scope below it. A function is given where its part of the tree ends, what
// holds there (`Here`) and what was done so far (`State`), and gives what is done then.
ghost use Rattle.std.specs.Prelude.{◌≡◌, Bool, true, false, cond, eqb, List, [], ◌∷◌, ◌++◌, ℕ, ◌+◌, ◌*◌, ◌-◌, ◌≤◌, ◌<◌, ◌^◌, length, get_or};
ghost use Rattle.items.specs.Item as I;
ghost use Rattle.items.specs.Answers.{base_of};
ghost use Rattle.code.specs.Generate as G;
ghost use Rattle.compiler.specs.Walked.{NodeAt, Emits, Reached, Faulted, Means, Fresh, LeavesTo, inside, raised, marked, placed, in_valof};
ghost use Rattle.compiler.specs.Walked.{in_loop};
ghost use Rattle.compiler.specs.Walks.{ReadyE, GaveE, ReadyArgs, GaveArgs, ReadyChain, GaveChain, ReadySuffixes, GaveSuffixes, GaveIndexed};
ghost use Rattle.compiler.specs.Walks.{GavePassed, Counts};
ghost use Rattle.language.specs.Constants.{signed};
ghost use Rattle.compiler.specs.Commands.{ReadyC, GaveC, GaveCase, ReadyR, GaveR, ReadyForms, GaveForms, ReadyForm, GaveForm, ReadyU, GaveU};
ghost use Rattle.compiler.specs.Commands.{KindIs, WhenKind, WhileKind, ReadyCases, GaveCases, ReadyNames, Declares, Again, ReadyList, GaveList};
ghost use Rattle.compiler.specs.Commands.{BlockKind, GaveMonadic, GaveAddress, GaveAddressIndex, GaveSide, GaveSideIndex, GaveRefused};
ghost use Rattle.compiler.specs.Commands.{IndexKind, AddressOf, StoreTo};
ghost use Rattle.compiler.specs.Assigns.{ReadyAssign, GaveAssign};
ghost use Rattle.compiler.specs.Locals.{NamedConstant, Judges, JudgesMost, Blames, ReadyLocal, GaveLocal, ReadyLocals, GaveLocals, VectorKind};
ghost use Rattle.language.specs.Kinds as K;

use crate::kinds::{
    ASSIGN, AT, BEGIN, CALLED, DYADIC, FOR, IF, LABELLED, MINUS, MONADIC, NAME, NOT, NUMBER, OPEN,
    PLING, REPEATED, RESULTIS, STRING, SUFFIXED, SWITCHON, TEST, UNLESS, UNTIL, VALOF, VEC, WHILE,
};
use crate::labels::{by_constant, doubled, misplaced, table};
use crate::scope::{Meaning, entry, lookup, push, push_name};
use crate::steps::{
    Here, Placed, State, Ways, act_of, away, blame, count, declare, for_step, for_test, fresh,
    in_loop, in_switch, in_valof, index_end, inside, jump_unless, jump_when, keep, leave, mark,
    marked, name_word, node_at, operate, put, put_to, raised, reached, set_at, store_indexed,
    store_through, tops, value, vector, word_of, wrong,
};
use text::Fault;
use writing::Base;

// An expression's value into A.
#[cycle(walk)]
pub(crate) fn expr(
    source: &[u8],
    s: &mut [u32],
    end: usize,
    text: &mut [u8],
    here: Here,
    st: State,
) -> State
    requires { ReadyE s.old end here st }
    ensures { GaveE source.now s.old s.new end here text.old text.new st result }
{
    let n = node_at(s, end);
    let kind = n.kind;
    match kind {
        NUMBER => put(text, st, 0, false, Base::Plain, n.value),
        STRING => put_to(text, st, 0, here.strings + n.value),
        NAME => {
            let m = lookup(source, s, here.top, n.inner);
            value(text, st, m, n.place)
        }
        OPEN => expr(source, s, n.inner, text, inside(here), st),
        DYADIC => {
            let deep = inside(here);
            let middle = n.start + n.value;
            let a = expr(source, s, middle, text, deep, st);
            chain(source, s, middle, n.inner, text, deep, a)
        }
        VALOF => {
            let a = fresh(st, 1);
            let b = command(
                source,
                s,
                n.inner,
                text,
                inside(here),
                in_valof(st.label),
                a,
            );
            mark(text, b, st.label)
        }
        MONADIC => monadic(source, s, n.inner, text, inside(here), st, n.value),
        _ => {
            let middle = n.start + n.value;
            applied(source, s, middle, n.inner, text, inside(here), st)
        }
    }
}

// Operators of one binding level with their right operands, after the first operand.
#[cycle(walk)]
fn chain(
    source: &[u8],
    s: &mut [u32],
    from: usize,
    end: usize,
    text: &mut [u8],
    here: Here,
    st: State,
) -> State
    requires { ReadyChain s.old from end here st }
    ensures { GaveChain source.now s.old s.new from end here text.old text.new st result }
{
    let mut at = from;
    let mut r = st;
    // goes on by each item's size
    while at < end {
        let size = entry(s, at);
        let operator = entry(s, at + 1);
        let next = at + 2 + size;
        let a = keep(text, r, here.height);
        let b = expr(source, s, next, text, raised(here, 1), a);
        r = operate(text, b, here.height, act_of(operator));
        at = next;
    }
    r
}

// Arguments and first values: each into the word of its height.
#[cycle(walk)]
fn args(
    source: &[u8],
    s: &mut [u32],
    from: usize,
    end: usize,
    text: &mut [u8],
    here: Here,
    st: State,
) -> State
    requires { ReadyArgs s.old from end here st }
    ensures { GaveArgs source.now s.old s.new from end here text.old text.new st result }
{
    let mut at = from;
    let mut k = 0;
    let mut r = st;
    // goes on by each item's size
    while at < end {
        let next = at + 2 + entry(s, at);
        let a = expr(source, s, next, text, raised(here, k), r);
        r = keep(text, a, here.height + k);
        k += 1;
        at = next;
    }
    r
}

// A primary, which ends at `middle`, and what follows it, from the last one in. It calls itself as often as there are suffixes, so its
// own frame is small: what stands around a call is in functions of its own.
#[cycle(walk)]
fn applied(
    source: &[u8],
    s: &mut [u32],
    middle: usize,
    end: usize,
    text: &mut [u8],
    here: Here,
    st: State,
) -> State
    requires { ReadySuffixes s.old middle end here st }
    ensures { GaveSuffixes source.now s.old s.new middle end here
        text.old text.new st result }
{
    if end <= middle {
        return expr(source, s, middle, text, here, st);
    }
    let inner = end.saturating_sub(2);
    let start = inner.saturating_sub(entry(s, inner));
    if entry(s, end.saturating_sub(1)) == PLING {
        let a = applied(source, s, middle, start, text, here, st);
        return indexed(source, s, inner, text, here, a);
    }
    let n = count(s, start, inner);
    let b = passed(source, s, start, inner, text, here, st);
    let c = applied(source, s, middle, start, text, raised(here, n + 2), b);
    put(text, c, 6, false, Base::Plain, here.height)
}

// The word at an index, which ends there, of what is in A.
#[cycle(walk)]
fn indexed(
    source: &[u8],
    s: &mut [u32],
    end: usize,
    text: &mut [u8],
    here: Here,
    st: State,
) -> State
    requires { ReadyE s.old end (raised 1 here) st }
    ensures { GaveIndexed source.now s.old s.new end here text.old text.new st result }
{
    let b = keep(text, st, here.height);
    let c = expr(source, s, end, text, raised(here, 1), b);
    index_end(text, c, here.height)
}

// The arguments of a call, above its two link words.
#[cycle(walk)]
fn passed(
    source: &[u8],
    s: &mut [u32],
    from: usize,
    end: usize,
    text: &mut [u8],
    here: Here,
    st: State,
) -> State
    requires { ReadyArgs s.old from end (raised 2 here) st }
    ensures { GavePassed source.now s.old s.new from end here text.old text.new st result }
{
    let a = reached(st, here.height + 2);
    args(source, s, from, end, text, raised(here, 2), a)
}

// An operand with a monadic operator before it.
#[cycle(walk)]
fn monadic(
    source: &[u8],
    s: &mut [u32],
    end: usize,
    text: &mut [u8],
    here: Here,
    st: State,
    operator: usize,
) -> State
    requires { ReadyE s.old end here st }
    ensures { GaveMonadic source.now s.old s.new operator end here
        text.old text.new st result }
{
    if operator == AT {
        let n = node_at(s, end);
        return address(source, s, end, text, here, st, n.place);
    }
    let a = expr(source, s, end, text, here, st);
    match operator {
        PLING => put(text, a, 7, false, Base::Plain, 1),
        MINUS => put(text, a, 7, false, Base::Plain, 2),
        NOT => put(text, a, 7, false, Base::Plain, 3),
        _ => a,
    }
}

// The address of what @ may take; 10 at that place where it may not.
#[cycle(walk)]
fn address(
    source: &[u8],
    s: &mut [u32],
    end: usize,
    text: &mut [u8],
    here: Here,
    st: State,
    place: usize,
) -> State
    requires { ReadyE s.old end here st × (place < 2 ^ 32) }
    ensures { GaveAddress source.now s.old s.new end place here text.old text.new st result }
{
    let n = node_at(s, end);
    let kind = n.kind;
    match kind {
        OPEN => address(source, s, n.inner, text, inside(here), st, place),
        NAME => {
            let m = lookup(source, s, here.top, n.inner);
            name_word(text, st, 0, m, n.place, place)
        }
        SUFFIXED => located(source, s, end, text, here, st),
        MONADIC => {
            if n.value == PLING {
                return expr(source, s, n.inner, text, inside(here), st);
            }
            refuse(source, s, end, text, here, st, place)
        }
        _ => refuse(source, s, end, text, here, st, place),
    }
}

// What is neither assigned to nor taken by @: its own refusals, and 10 at that place.
#[cycle(walk)]
fn refuse(
    source: &[u8],
    s: &mut [u32],
    end: usize,
    text: &mut [u8],
    here: Here,
    st: State,
    place: usize,
) -> State
    requires { ReadyE s.old end here st × (place < 2 ^ 32) }
    ensures { GaveRefused source.now s.old s.new end place here text.old text.new st result }
{
    let a = expr(source, s, end, text, here, st);
    wrong(a, place, Fault::NoPlace)
}

// The address of a word at an index.
#[cycle(walk)]
fn located(
    source: &[u8],
    s: &mut [u32],
    end: usize,
    text: &mut [u8],
    here: Here,
    st: State,
) -> State
    requires { ReadyE s.old end here st × IndexKind s.old end }
    ensures { GaveAddressIndex source.now s.old s.new end here text.old text.new st result }
{
    let n = node_at(s, end);
    let inner = n.inner.saturating_sub(2);
    let start = inner.saturating_sub(entry(s, inner));
    let deep = inside(here);
    let a = applied(source, s, n.start + n.value, start, text, deep, st);
    let b = keep(text, a, here.height);
    let c = expr(source, s, inner, text, raised(deep, 1), b);
    put(text, c, 2, true, Base::P, here.height)
}

// From a right side in A to its left side; 10 at that place where it is none.
#[cycle(walk)]
fn side(
    source: &[u8],
    s: &mut [u32],
    end: usize,
    text: &mut [u8],
    here: Here,
    st: State,
    place: usize,
) -> State
    requires { ReadyE s.old end (raised 1 here) st × (place < 2 ^ 32) }
    ensures { GaveSide source.now s.old s.new end place here text.old text.new st result }
{
    let n = node_at(s, end);
    let kind = n.kind;
    match kind {
        OPEN => side(source, s, n.inner, text, inside(here), st, place),
        NAME => {
            let m = lookup(source, s, here.top, n.inner);
            name_word(text, st, 1, m, n.place, place)
        }
        SUFFIXED => stored(source, s, end, text, here, st),
        MONADIC => {
            if n.value == PLING {
                let a = keep(text, st, here.height);
                let b = expr(source, s, n.inner, text, raised(inside(here), 1), a);
                return store_through(text, b, here.height);
            }
            refuse(source, s, end, text, raised(here, 1), st, place)
        }
        _ => refuse(source, s, end, text, raised(here, 1), st, place),
    }
}

// A goes to a word at an index.
#[cycle(walk)]
fn stored(source: &[u8], s: &mut [u32], end: usize, text: &mut [u8], here: Here, st: State) -> State
    requires { ReadyE s.old end (raised 1 here) st × IndexKind s.old end }
    ensures { GaveSideIndex source.now s.old s.new end here text.old text.new st result }
{
    let n = node_at(s, end);
    let inner = n.inner.saturating_sub(2);
    let start = inner.saturating_sub(entry(s, inner));
    let up = raised(inside(here), 1);
    let a = keep(text, st, here.height);
    let b = applied(source, s, n.start + n.value, start, text, up, a);
    let c = keep(text, b, here.height + 1);
    let d = expr(source, s, inner, text, raised(up, 1), c);
    store_indexed(text, d, here.height)
}

// The sides of an assignment: each right side, then its left side. The first left side ends at `left`; the right sides start at `right`.
#[cycle(walk)]
fn assign(
    source: &[u8],
    s: &mut [u32],
    left: usize,
    right: usize,
    end: usize,
    text: &mut [u8],
    here: Here,
    st: State,
) -> State
    requires { ReadyAssign s.old left right end here st }
    ensures { GaveAssign source.now s.old s.new left right end here
        text.old text.new st result }
{
    let mut l = left;
    let mut at = right;
    let mut r = st;
    // goes on by each item's size
    while at < end {
        let next = at + 2 + entry(s, at);
        let a = expr(source, s, next, text, here, r);
        let n = node_at(s, l);
        r = side(source, s, l, text, here, a, n.place);
        l = l + 2 + entry(s, l);
        at = next;
    }
    r
}

// A declaration of locals.
#[cycle(walk)]
fn local(source: &[u8], s: &mut [u32], end: usize, text: &mut [u8], here: Here, st: State) -> Placed
    requires { ReadyLocal s.old end here st }
    ensures { GaveLocal source.now s.old s.new end here text.old text.new st result }
{
    let n = node_at(s, end);
    if n.kind == VEC {
        return vector(source, s, end, text, here, st);
    }
    let middle = n.start + n.value;
    let a = args(source, s, middle, n.inner, text, here, st);
    let b = declare(source, s, n.start, middle, here.top, here.height, a);
    Placed {
        top: here.top + n.value / 2,
        height: here.height + n.value / 4,
        done: b,
    }
}

// Declarations of locals, one after another.
#[cycle(walk)]
fn locals(
    source: &[u8],
    s: &mut [u32],
    from: usize,
    end: usize,
    text: &mut [u8],
    here: Here,
    st: State,
) -> Placed
    requires { ReadyLocals s.old from end here st }
    ensures { GaveLocals source.now s.old s.new from end here text.old text.new st result }
{
    let mut at = from;
    let mut r = Placed {
        top: here.top,
        height: here.height,
        done: st,
    };
    // goes on by each item's size
    while at < end {
        let next = at + 2 + entry(s, at);
        let now = set_at(here, r.top, r.height);
        let was = r.done;
        r = local(source, s, next, text, now, was);
        at = next;
    }
    r
}

// A list of commands.
#[cycle(walk)]
fn list(
    source: &[u8],
    s: &mut [u32],
    from: usize,
    end: usize,
    text: &mut [u8],
    here: Here,
    ways: Ways,
    st: State,
) -> State
    requires { ReadyList s.old from end here st }
    ensures { GaveList source.now s.old s.new from end here ways
        text.old text.new st result }
{
    let mut at = from;
    let mut r = st;
    // goes on by each item's size
    while at < end {
        let next = at + 2 + entry(s, at);
        r = command(source, s, next, text, here, ways, r);
        at = next;
    }
    r
}

// A block: its locals, then its commands.
#[cycle(walk)]
fn block(
    source: &[u8],
    s: &mut [u32],
    end: usize,
    text: &mut [u8],
    here: Here,
    ways: Ways,
    st: State,
) -> State
    requires { ReadyU s.old end here st × BlockKind s.old end }
    ensures { GaveU source.now s.old s.new end here ways text.old text.new st result }
{
    let n = node_at(s, end);
    let middle = n.start + n.value;
    push(s, here.top, 0, 0);
    let a = locals(source, s, n.start, middle, text, marked(here), st);
    let b = a.done;
    list(
        source,
        s,
        middle,
        n.inner,
        text,
        set_at(here, a.top, a.height),
        ways,
        b,
    )
}

// A command with its labels and REPEAT forms. Its labels stand before no command of a list after INTO itself.
#[cycle(walk)]
pub(crate) fn command(
    source: &[u8],
    s: &mut [u32],
    end: usize,
    text: &mut [u8],
    here: Here,
    ways: Ways,
    st: State,
) -> State
    requires { ReadyC s.old end here st }
    ensures { GaveC source.now s.old s.new end here ways text.old text.new st result }
{
    let n = node_at(s, end);
    if n.kind == LABELLED {
        let a = misplaced(source, s, n.start, n.start + n.value, here.top, st);
        return bare(source, s, end, text, here, ways, a);
    }
    bare(source, s, end, text, here, ways, st)
}

// The same, whose labels are judged already.
#[cycle(walk)]
fn bare(
    source: &[u8],
    s: &mut [u32],
    end: usize,
    text: &mut [u8],
    here: Here,
    ways: Ways,
    st: State,
) -> State
    requires { ReadyC s.old end here st }
    ensures { GaveCase source.now s.old s.new end here ways text.old text.new st result }
{
    let n = node_at(s, end);
    if n.kind == LABELLED {
        if n.start + n.value == n.inner {
            return st;
        }
        return repeated(source, s, n.inner, text, inside(here), ways, st);
    }
    repeated(source, s, end, text, inside(here), ways, st)
}

// A command with its REPEAT forms: three labels each, the outermost form's first. All top labels stand before the command, the forms
// after it.
#[cycle(walk)]
fn repeated(
    source: &[u8],
    s: &mut [u32],
    end: usize,
    text: &mut [u8],
    here: Here,
    ways: Ways,
    st: State,
) -> State
    requires { ReadyR s.old end here st }
    ensures { GaveR source.now s.old s.new end here ways text.old text.new st result }
{
    let n = node_at(s, end);
    if n.kind == REPEATED {
        let middle = n.start + n.value;
        let k = count(s, middle, n.inner);
        let own = (st.label + 3 * k).saturating_sub(3);
        let a = fresh(st, 3 * k);
        let b = tops(text, a, st.label, k);
        let c = plain(
            source,
            s,
            middle,
            text,
            here,
            in_loop(ways, own + 1, own + 2),
            b,
        );
        return forms(source, s, middle, n.inner, text, here, c, own);
    }
    plain(source, s, end, text, here, ways, st)
}

// REPEAT forms, from the innermost out, whose labels start at `innermost`.
#[cycle(walk)]
fn forms(
    source: &[u8],
    s: &mut [u32],
    from: usize,
    end: usize,
    text: &mut [u8],
    here: Here,
    st: State,
    innermost: usize,
) -> State
    requires { ReadyForms s.old from end here st × (innermost < 2 ^ 32) }
    ensures { GaveForms source.now s.old s.new from end innermost here
        text.old text.new st result }
{
    let mut at = from;
    let mut own = innermost;
    let mut r = st;
    // goes on by each item's size
    while at < end {
        let size = entry(s, at);
        let word = entry(s, at + 1);
        let next = at + 2 + size;
        let a = mark(text, r, own + 1);
        let b = form(source, s, next, text, here, a, size, word, own);
        r = mark(text, b, own + 2);
        own = own.saturating_sub(3);
        at = next;
    }
    r
}

// The jump back of a form, after its condition of so many entries; REPEAT alone has none.
#[cycle(walk)]
fn form(
    source: &[u8],
    s: &mut [u32],
    end: usize,
    text: &mut [u8],
    here: Here,
    st: State,
    size: usize,
    word: usize,
    own: usize,
) -> State
    requires { ReadyForm s.old end size here st }
    ensures { GaveForm source.now s.old s.new end size word own here
        text.old text.new st result }
{
    if size == 0 {
        return put_to(text, st, 3, own);
    }
    let a = expr(source, s, end, text, here, st);
    put_to(text, a, jump_when(word), own)
}

// A command without labels and REPEAT forms.
#[cycle(walk)]
fn plain(
    source: &[u8],
    s: &mut [u32],
    end: usize,
    text: &mut [u8],
    here: Here,
    ways: Ways,
    st: State,
) -> State
    requires { ReadyU s.old end here st }
    ensures { GaveU source.now s.old s.new end here ways text.old text.new st result }
{
    let n = node_at(s, end);
    let kind = n.kind;
    match kind {
        RESULTIS => {
            let a = expr(source, s, n.inner, text, here, st);
            leave(text, a, ways.result, n.place)
        }
        IF | UNLESS => when(source, s, end, text, here, ways, st),
        BEGIN => block(source, s, end, text, here, ways, st),
        ASSIGN => assign(
            source,
            s,
            n.start + n.value,
            n.start + n.place,
            n.inner,
            text,
            here,
            st,
        ),
        TEST => test(source, s, end, text, here, ways, st),
        WHILE | UNTIL => while_do(source, s, end, text, here, ways, st),
        FOR => for_to(source, s, end, text, here, ways, st),
        SWITCHON => switch(source, s, end, text, here, ways, st),
        CALLED => expr(source, s, end, text, here, st),
        _ => away(text, st, here, ways, kind, n.place),
    }
}

// IF or UNLESS.
#[cycle(walk)]
fn when(
    source: &[u8],
    s: &mut [u32],
    end: usize,
    text: &mut [u8],
    here: Here,
    ways: Ways,
    st: State,
) -> State
    requires { ReadyU s.old end here st × WhenKind s.old end }
    ensures { GaveU source.now s.old s.new end here ways text.old text.new st result }
{
    let n = node_at(s, end);
    let body = node_at(s, n.inner);
    let a = fresh(st, 1);
    let b = expr(source, s, body.start, text, here, a);
    let c = put_to(text, b, jump_unless(n.kind, IF), st.label);
    let d = command(source, s, n.inner, text, here, ways, c);
    mark(text, d, st.label)
}

// TEST: the command after OR at the first label, the end at the second.
#[cycle(walk)]
fn test(
    source: &[u8],
    s: &mut [u32],
    end: usize,
    text: &mut [u8],
    here: Here,
    ways: Ways,
    st: State,
) -> State
    requires { ReadyU s.old end here st × KindIs K.TEST s.old end }
    ensures { GaveU source.now s.old s.new end here ways text.old text.new st result }
{
    let n = node_at(s, end);
    let other = node_at(s, n.inner);
    let body = node_at(s, other.start);
    let a = fresh(st, 2);
    let b = expr(source, s, body.start, text, here, a);
    let c = put_to(text, b, 5, st.label);
    let d = command(source, s, other.start, text, here, ways, c);
    let e = put_to(text, d, 3, st.label + 1);
    let f = mark(text, e, st.label);
    let g = command(source, s, n.inner, text, here, ways, f);
    mark(text, g, st.label + 1)
}

// WHILE or UNTIL: the test at the first label, the end at the second.
#[cycle(walk)]
fn while_do(
    source: &[u8],
    s: &mut [u32],
    end: usize,
    text: &mut [u8],
    here: Here,
    ways: Ways,
    st: State,
) -> State
    requires { ReadyU s.old end here st × WhileKind s.old end }
    ensures { GaveU source.now s.old s.new end here ways text.old text.new st result }
{
    let n = node_at(s, end);
    let body = node_at(s, n.inner);
    let a = fresh(st, 2);
    let b = mark(text, a, st.label);
    let c = expr(source, s, body.start, text, here, b);
    let d = put_to(text, c, jump_unless(n.kind, WHILE), st.label + 1);
    let e = command(
        source,
        s,
        n.inner,
        text,
        here,
        in_loop(ways, st.label, st.label + 1),
        d,
    );
    let f = put_to(text, e, 3, st.label);
    mark(text, f, st.label + 1)
}

// FOR: its test at the first label, its step at the second, its end at the third.
#[cycle(walk)]
fn for_to(
    source: &[u8],
    s: &mut [u32],
    end: usize,
    text: &mut [u8],
    here: Here,
    ways: Ways,
    st: State,
) -> State
    requires { ReadyU s.old end here st × KindIs K.FOR s.old end }
    ensures { GaveU source.now s.old s.new end here ways text.old text.new st result }
{
    let n = node_at(s, end);
    let body = node_at(s, n.inner);
    let limit_end = body.start.saturating_sub(n.value);
    let limit = node_at(s, limit_end);
    let a = fresh(st, 3);
    let b = expr(source, s, limit.start, text, here, a);
    let c = keep(text, b, here.height);
    let d = expr(source, s, limit_end, text, raised(here, 1), c);
    let e = keep(text, d, here.height + 1);
    let by = by_constant(source, s, limit_end, body.start, here.top);
    let f = blame(e, by);
    let step = word_of(by);
    let g = for_test(text, f, here.height, step, st.label);
    push(s, here.top, 0, 0);
    push_name(s, here.top + 2, n.start, Meaning::Local(here.height));
    let inner = set_at(here, here.top + 4, here.height + 2);
    let h = command(
        source,
        s,
        n.inner,
        text,
        inner,
        in_loop(ways, st.label + 1, st.label + 2),
        g,
    );
    for_step(text, h, here.height, step, st.label)
}

// SWITCHON: its end at the first label after those of its value, then a label for each command of the list.
#[cycle(walk)]
fn switch(
    source: &[u8],
    s: &mut [u32],
    end: usize,
    text: &mut [u8],
    here: Here,
    ways: Ways,
    st: State,
) -> State
    requires { ReadyU s.old end here st × KindIs K.SWITCHON s.old end }
    ensures { GaveU source.now s.old s.new end here ways text.old text.new st result }
{
    let n = node_at(s, end);
    let middle = n.start + n.value;
    let a = expr(source, s, middle, text, here, st);
    let k = count(s, middle, n.inner);
    let b = fresh(a, k + 1);
    let c = doubled(source, s, middle, n.inner, here.top, b);
    let d = table(
        source,
        s,
        middle,
        n.inner,
        here.top,
        text,
        c,
        a.label + 1,
        a.label,
    );
    let e = cases(
        source,
        s,
        middle,
        n.inner,
        text,
        here,
        in_switch(ways, a.label),
        d,
        a.label + 1,
    );
    mark(text, e, a.label)
}

// The commands of the list after INTO, each with its label in front.
#[cycle(walk)]
fn cases(
    source: &[u8],
    s: &mut [u32],
    from: usize,
    end: usize,
    text: &mut [u8],
    here: Here,
    ways: Ways,
    st: State,
    first: usize,
) -> State
    requires { ReadyCases s.old from end here st × (first < 2 ^ 32) }
    ensures { GaveCases source.now s.old s.new from end first here ways
        text.old text.new st result }
{
    let mut at = from;
    let mut k = 0;
    let mut r = st;
    // goes on by each item's size
    while at < end {
        let next = at + 2 + entry(s, at);
        let a = mark(text, r, first + k);
        r = bare(source, s, next, text, here, ways, a);
        k += 1;
        at = next;
    }
    r
}
