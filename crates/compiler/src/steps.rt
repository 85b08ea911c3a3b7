// The single steps of the walk: what was done so far and where it stands, nodes of the tree, items written, names and constants.
ghost use Rattle.std.specs.Prelude.{◌≡◌, Bool, true, false, cond, eqb, List, [], ◌∷◌, ◌++◌, ℕ, ◌+◌, ◌*◌, ◌-◌, ◌≤◌, ◌<◌, ◌^◌, length, get_or};
ghost use Rattle.text.specs.Faults.{number_of};
ghost use Rattle.compiler.specs.Scope.{code_of};
ghost use Rattle.items.specs.Item as I;
ghost use Rattle.items.specs.Answers.{base_of};
ghost use Rattle.code.specs.Generate as G;
ghost use Rattle.language.specs.Kinds as K;
ghost use Rattle.compiler.specs.Walked.{NodeAt, Emits, Reached, Faulted, Means, Fresh, LeavesTo, inside, raised, marked, placed, in_valof};
ghost use Rattle.compiler.specs.Walked.{in_loop, in_switch};
ghost use Rattle.compiler.specs.Repeats.{tops_code};
ghost use Rattle.compiler.specs.Walks.{ReadyE, GaveE, ReadyArgs, GaveArgs, ReadyChain, GaveChain, ReadySuffixes, GaveSuffixes, GaveIndexed};
ghost use Rattle.compiler.specs.Walks.{GavePassed, Counts};
ghost use Rattle.language.specs.Constants.{signed};
ghost use Rattle.compiler.specs.Commands.{ReadyC, GaveC, ReadyU, GaveU, WhenKind, ReadyNames, Declares, Again, ReadyList, GaveList, BlockKind};
ghost use Rattle.compiler.specs.Commands.{GaveMonadic, GaveAddress, GaveAddressIndex, GaveSide, GaveSideIndex, GaveRefused, IndexKind};
ghost use Rattle.compiler.specs.Commands.{AddressOf, StoreTo, GoesAway};
ghost use Rattle.compiler.specs.Assigns.{ReadyAssign, GaveAssign};
ghost use Rattle.compiler.specs.Locals.{NamedConstant, Judges, JudgesMost, Blames, Fitting, word_of, ReadyLocal, GaveLocal, ReadyLocals, GaveLocals, VectorKind};

use crate::kinds::{
    AMPERSAND, ATLEAST, ATMOST, BAR, BREAK, ENDCASE, EQUAL, LEFT, LESS, LOOP, MINUS, MORE, NAME,
    NUMBER, PLUS, REM, REPEATWHILE, RETURN, RIGHT, SLASH, STAR, UNEQUAL,
};
use crate::scope::{Meaning, entry, in_block, lookup, push_name};
use text::Fault;
use writing::{Base, instruction, label, labelled};

// What was done so far: bytes of text, labels, the least refusal as place * 32 + number, and the greatest height. The refusal stays one
// number, and NONE for none, since the definitions `Did` and `least` (specs/Walked) say it of that number, and they may not change.
#[derive(Clone, Copy, Drop)]
pub struct State {
    pub at: usize,
    pub label: usize,
    pub worst: usize,
    pub high: usize,
}

// Where the walk stands: the end of the names in scope, the height, how much deeper the tree may be, the first string's label, and
// whether RETURN may stand.
#[derive(Clone, Copy, Drop)]
pub struct Here {
    pub top: usize,
    pub height: usize,
    pub left: usize,
    pub strings: usize,
    pub routine: bool,
}

// The labels to which BREAK, LOOP, ENDCASE and RESULTIS go; 0 where there is none, as the definition of these ways out (code's `Exits`)
// has it.
#[derive(Clone, Copy, Drop)]
pub struct Ways {
    pub after: usize,
    pub next: usize,
    pub done: usize,
    pub result: usize,
}

// The end of the names in scope and the height after declarations, and what was done.
#[derive(Clone, Copy, Drop)]
pub struct Placed {
    pub top: usize,
    pub height: usize,
    pub done: State,
}

// What is refused in a constant, and where.
#[derive(Clone, Copy, Drop)]
pub struct Refused {
    pub place: usize,
    pub fault: Fault,
}

// A node: where it starts, where what stands before its record ends, and the record.
#[derive(Clone, Copy, Drop)]
pub struct Node {
    pub start: usize,
    pub inner: usize,
    pub value: usize,
    pub place: usize,
    pub kind: usize,
}

#[tactic(auto, using(crate::proofs::Done::node_is))]
pub(crate) fn node_at(s: &[u32], end: usize) -> Node
    ensures { NodeAt s.now end result }
{
    let inner = end.saturating_sub(4);
    let size = entry(s, inner);
    let start = inner.saturating_sub(size);
    let value = entry(s, end.saturating_sub(3));
    let place = entry(s, end.saturating_sub(2));
    let kind = entry(s, end.saturating_sub(1));
    Node {
        start,
        inner,
        value,
        place,
        kind,
    }
}

// One level deeper.
#[tactic(auto, using(crate::proofs::Done::inside_is))]
pub(crate) fn inside(here: Here) -> Here
    ensures { result ≡ inside here }
{
    Here {
        left: here.left.saturating_sub(1),
        ..here
    }
}

// So much higher.
pub(crate) fn raised(here: Here, k: usize) -> Here
    requires { here.height + k < 2 ^ 64 }
    ensures { result ≡ raised k here }
{
    Here {
        height: here.height + k,
        ..here
    }
}

// An instruction with a number, and one with a label.
pub(crate) fn put(text: &mut [u8], st: State, f: usize, i: bool, b: Base, n: usize) -> State
    ensures { Emits (I.instruction f i (base_of b) (I.number false n) ∷ []) [] text.old text.new st result }
{
    State {
        at: instruction(text, st.at, f, i, b, n),
        ..st
    }
}

pub(crate) fn put_to(text: &mut [u8], st: State, f: usize, n: usize) -> State
    ensures { Emits (G.to f n ∷ []) [] text.old text.new st result }
{
    State {
        at: labelled(text, st.at, f, n),
        ..st
    }
}

// A refusal.
#[tactic(auto, using(crate::proofs::Done::faulted_least))]
pub(crate) fn wrong(st: State, place: usize, fault: Fault) -> State
    requires { (place < 2 ^ 32) × (number_of fault < 32) }
    ensures { Faulted place (number_of fault) st result }
{
    State {
        worst: st.worst.min(place * 32 + fault.number() as usize),
        ..st
    }
}

// A height is reached.
#[tactic(auto, using(crate::proofs::Done::reached_max))]
pub(crate) fn reached(st: State, h: usize) -> State
    ensures { Reached h st result }
{
    State {
        high: st.high.max(h),
        ..st
    }
}

// The value goes into the word at the height.
pub(crate) fn keep(text: &mut [u8], st: State, h: usize) -> State
    requires { h < 2 ^ 32 }
    ensures { Emits (G.SP h ∷ []) ((h + 1) ∷ []) text.old text.new st result }
{
    let a = put(text, st, 1, false, Base::P, h);
    reached(a, h + 1)
}

// The value of a name, by what it means; 8 if it is unknown.
pub(crate) fn value(text: &mut [u8], st: State, m: Option<Meaning>, place: usize) -> State
    requires { (place < 2 ^ 32) × (code_of m < 2 ^ 32) }
    ensures { Means (code_of m) place text.old text.new st result }
{
    match m {
        None => wrong(st, place, Fault::UnknownName),
        Some(Meaning::Local(k)) => put(text, st, 0, true, Base::P, k),
        Some(Meaning::Global(n)) => put(text, st, 0, true, Base::G, n),
        Some(Meaning::Manifest(v)) => put(text, st, 0, false, Base::Plain, v),
        Some(Meaning::Function(k)) => put_to(text, st, 0, k + 1),
    }
}

// The act of a dyadic operator.
pub(crate) fn act_of(operator: usize) -> usize
    ensures { result ≡ G.dyadic_act operator }
{
    match operator {
        STAR => 5,
        SLASH => 6,
        REM => 7,
        PLUS => 8,
        MINUS => 9,
        EQUAL => 10,
        UNEQUAL => 11,
        LESS => 12,
        ATMOST => 15,
        MORE => 14,
        ATLEAST => 13,
        LEFT => 16,
        RIGHT => 17,
        AMPERSAND => 18,
        BAR => 19,
        _ => 0,
    }
}

// The left operand is in the word at the height, the right one in A.
pub(crate) fn operate(text: &mut [u8], st: State, h: usize, act: usize) -> State
    requires { h < 2 ^ 32 }
    ensures { Emits (G.SP (h + 1) ∷ G.LIP h ∷ G.LIP (h + 1) ∷ G.X act ∷ []) [] text.old text.new st result }
{
    let a = put(text, st, 1, false, Base::P, h + 1);
    let b = put(text, a, 0, true, Base::P, h);
    let c = put(text, b, 0, true, Base::P, h + 1);
    put(text, c, 7, false, Base::Plain, act)
}

// The word that the sum of the word at the height and A points to.
pub(crate) fn index_end(text: &mut [u8], st: State, h: usize) -> State
    ensures { Emits (G.AIP h ∷ G.X 1 ∷ []) [] text.old text.new st result }
{
    let a = put(text, st, 2, true, Base::P, h);
    put(text, a, 7, false, Base::Plain, 1)
}

// So many new labels.
pub(crate) fn fresh(st: State, k: usize) -> State
    requires { st.label + k < 2 ^ 64 }
    ensures { Fresh k st result }
{
    State {
        label: st.label + k,
        ..st
    }
}

// A label.
pub(crate) fn mark(text: &mut [u8], st: State, n: usize) -> State
    ensures { Emits (I.label n ∷ []) [] text.old text.new st result }
{
    State {
        at: label(text, st.at, n),
        ..st
    }
}

// In a VALOF that ends at that label.
pub(crate) fn in_valof(end: usize) -> Ways
    ensures { result ≡ in_valof end }
{
    Ways {
        after: 0,
        next: 0,
        done: 0,
        result: end,
    }
}

// A jump to where the word leads, or 13 where it leads nowhere.
pub(crate) fn leave(text: &mut [u8], st: State, to: usize, place: usize) -> State
    requires { place < 2 ^ 32 }
    ensures { LeavesTo to place text.old text.new st result }
{
    if to == 0 {
        return wrong(st, place, Fault::NothingToLeave);
    }
    put_to(text, st, 3, to)
}

// The jump that leaves out what a word guards: F where it is the one that wants true (IF, WHILE), else T.
pub(crate) fn jump_unless(word: usize, wants: usize) -> usize
    ensures { result ≡ cond (eqb word wants) 5 4 }
{
    if word == wants { 5 } else { 4 }
}

// The jump back that REPEATWHILE or REPEATUNTIL makes.
pub(crate) fn jump_when(word: usize) -> usize
    ensures { result ≡ cond (eqb word K.REPEATWHILE) 4 5 }
{
    if word == REPEATWHILE { 4 } else { 5 }
}

// What BREAK, LOOP, ENDCASE, RETURN or FINISH does, or 13 where there is nothing to leave.
pub(crate) fn away(
    text: &mut [u8],
    st: State,
    here: Here,
    ways: Ways,
    word: usize,
    place: usize,
) -> State
    requires { place < 2 ^ 32 }
    ensures { GoesAway here ways word place text.old text.new st result }
{
    match word {
        BREAK => leave(text, st, ways.after, place),
        LOOP => {
            if ways.after == 0 {
                return wrong(st, place, Fault::NothingToLeave);
            }
            put_to(text, st, 3, ways.next)
        }
        ENDCASE => leave(text, st, ways.done, place),
        RETURN => {
            if here.routine {
                return put(text, st, 7, false, Base::Plain, 4);
            }
            wrong(st, place, Fault::NothingToLeave)
        }
        _ => put(text, st, 7, false, Base::Plain, 22),
    }
}

// The top labels of REPEAT forms, each three after the one before.
pub(crate) fn tops(text: &mut [u8], st: State, first: usize, k: usize) -> State
    requires { first + 3 * k < 2 ^ 64 }
    ensures { Emits (tops_code first k) [] text.old text.new st result }
{
    let mut r = st;
    for i in 0..k {
        r = mark(text, r, first + 3 * i);
    }
    r
}

// The act that tests a FOR's word against its limit: i >= limit for a negative BY, else i <= limit.
pub(crate) fn limit_act(by: usize) -> usize
    ensures { result ≡ G.limit_act by }
{
    if 32768 <= by { 13 } else { 15 }
}

// The test of a FOR, whose word is at the height and its limit one above: past it, to `n + 2`.
pub(crate) fn for_test(text: &mut [u8], st: State, h: usize, by: usize, n: usize) -> State
    requires { (h < 2 ^ 32) × (n < 2 ^ 32) }
    ensures { Emits (I.label n ∷ G.LIP h ∷ G.LIP (h + 1) ∷ G.X (G.limit_act by) ∷ G.FL (n + 2) ∷ []) []
        text.old text.new st result }
{
    let a = mark(text, st, n);
    let b = put(text, a, 0, true, Base::P, h);
    let c = put(text, b, 0, true, Base::P, h + 1);
    let d = put(text, c, 7, false, Base::Plain, limit_act(by));
    put_to(text, d, 5, n + 2)
}

// The step of a FOR, and its end.
pub(crate) fn for_step(text: &mut [u8], st: State, h: usize, by: usize, n: usize) -> State
    requires { (h < 2 ^ 32) × (n < 2 ^ 32) }
    ensures { Emits (I.label (n + 1) ∷ G.LIP h ∷ G.A by ∷ G.SP h ∷ G.JL n ∷ I.label (n + 2) ∷ []) []
        text.old text.new st result }
{
    let a = mark(text, st, n + 1);
    let b = put(text, a, 0, true, Base::P, h);
    let c = put(text, b, 2, false, Base::Plain, by);
    let d = put(text, c, 1, false, Base::P, h);
    let e = put_to(text, d, 3, n);
    mark(text, e, n + 2)
}

// In a SWITCHON that ends at that label.
pub(crate) fn in_switch(ways: Ways, end: usize) -> Ways
    ensures { result ≡ in_switch end ways }
{
    Ways { done: end, ..ways }
}

// 9 at a name that means something in its block already.
pub(crate) fn again(st: State, m: Option<Meaning>, place: usize) -> State
    requires { place < 2 ^ 32 }
    ensures { Again (code_of m) place st result }
{
    match m {
        None => st,
        Some(_) => wrong(st, place, Fault::NameTwice),
    }
}

// Names, by their leaves, declared one after another at frame words from the height on.
pub(crate) fn declare(
    source: &[u8],
    s: &mut [u32],
    from: usize,
    end: usize,
    top: usize,
    height: usize,
    st: State,
) -> State
    requires { ReadyNames s.old from end top height }
    ensures { Declares source.now s.old s.new from end top height st result }
{
    let mut r = st;
    for k in 0..end.saturating_sub(from) / 4 {
        let at = from + 4 * k;
        let m = in_block(source, s, top + 2 * k, at);
        let place = entry(s, at + 2);
        r = again(r, m, place);
        push_name(s, top + 2 * k, at, Meaning::Local(height + k));
    }
    r
}

// What a name means, by the machine's function 0, which takes its address, or 1, by which A goes to it; 8 if it is unknown, 10 if it has no
// address.
pub(crate) fn name_word(
    text: &mut [u8],
    st: State,
    function: usize,
    m: Option<Meaning>,
    name: usize,
    place: usize,
) -> State
    requires { (name < 2 ^ 32) × (place < 2 ^ 32) }
    ensures { (function ≡ 0 → AddressOf (code_of m) name place text.old text.new st result)
        × (function ≡ 1 → StoreTo (code_of m) name place text.old text.new st result) }
{
    match m {
        None => {
            let a = wrong(st, name, Fault::UnknownName);
            wrong(a, place, Fault::NoPlace)
        }
        Some(Meaning::Local(k)) => put(text, st, function, false, Base::P, k),
        Some(Meaning::Global(n)) => put(text, st, function, false, Base::G, n),
        Some(Meaning::Manifest(_)) => wrong(st, place, Fault::NoPlace),
        Some(Meaning::Function(_)) => wrong(st, place, Fault::NoPlace),
    }
}

// The right side is in the word at the height, the address in A.
pub(crate) fn store_through(text: &mut [u8], st: State, h: usize) -> State
    requires { h < 2 ^ 32 }
    ensures { Emits (G.SP (h + 1) ∷ G.LIP h ∷ G.Sip (h + 1) ∷ []) [] text.old text.new st result }
{
    let a = put(text, st, 1, false, Base::P, h + 1);
    let b = put(text, a, 0, true, Base::P, h);
    put(text, b, 1, true, Base::P, h + 1)
}

// The same, where the address is the sum of the word above the height and A.
pub(crate) fn store_indexed(text: &mut [u8], st: State, h: usize) -> State
    requires { h < 2 ^ 32 }
    ensures { Emits (G.AIP (h + 1) ∷ G.SP (h + 1) ∷ G.LIP h ∷ G.Sip (h + 1) ∷ []) [] text.old text.new st result }
{
    let a = put(text, st, 2, true, Base::P, h + 1);
    store_through(text, a, h)
}

// What a name means, as a constant: `name` and `place` are the places of the name and of the constant.
pub(crate) fn named_constant(
    m: Option<Meaning>,
    minus: bool,
    name: usize,
    place: usize,
) -> Result<usize, Refused>
    requires { (name < 2 ^ 32) × (place < 2 ^ 32) × (code_of m < 2 ^ 32) }
    ensures { NamedConstant (code_of m) minus name place result }
{
    let other = Refused {
        place,
        fault: Fault::Constant,
    };
    match m {
        None => Err(Refused {
            place: name,
            fault: Fault::UnknownName,
        }),
        Some(Meaning::Manifest(v)) => Ok(signed(minus, v)),
        Some(Meaning::Local(_)) => Err(other),
        Some(Meaning::Global(_)) => Err(other),
        Some(Meaning::Function(_)) => Err(other),
    }
}

pub(crate) fn signed(negative: bool, v: usize) -> usize
    ensures { result ≡ signed negative v }
{
    if negative {
        65536usize.saturating_sub(v) % 65536
    } else {
        v
    }
}

// The constant that ends there.
pub(crate) fn judge(source: &[u8], s: &[u32], end: usize, top: usize) -> Result<usize, Refused>
    requires { end < 2 ^ 32 }
    ensures { Judges source.now s.now end top result }
{
    let n = node_at(s, end);
    if n.kind == NUMBER {
        return Ok(n.value % 65536);
    }
    if n.kind == NAME {
        let m = lookup(source, s, top, n.inner);
        return named_constant(m, false, n.place, n.place);
    }
    if n.start == n.inner {
        return Ok(signed(true, n.value));
    }
    let m = lookup(source, s, top, n.start);
    let name = entry(s, n.start + 2);
    named_constant(m, true, name, n.place)
}

// The same with a limit, as for VEC and GLOBAL: 11 where it is greater.
pub(crate) fn judge_most(
    source: &[u8],
    s: &[u32],
    end: usize,
    top: usize,
    most: usize,
) -> Result<usize, Refused>
    requires { end < 2 ^ 32 }
    ensures { JudgesMost most source.now s.now end top result }
{
    let word = judge(source, s, end, top)?;
    if most < word {
        return Err(Refused {
            place: entry(s, end.saturating_sub(2)),
            fault: Fault::Constant,
        });
    }
    Ok(word)
}

// A constant's refusal, if it has one.
pub(crate) fn blame(st: State, j: Result<usize, Refused>) -> State
    requires { Fitting j }
    ensures { Blames j st result }
{
    match j {
        Ok(_) => st,
        Err(e) => wrong(st, e.place, e.fault),
    }
}

// Its word; 0 where it is refused.
pub(crate) fn word_of(j: Result<usize, Refused>) -> usize
    ensures { result ≡ word_of j }
{
    j.unwrap_or(0)
}

// A vector's address into its name's word.
pub(crate) fn vector_code(text: &mut [u8], st: State, h: usize, n: usize) -> State
    requires { (h < 2 ^ 32) × (n < 2 ^ 32) }
    ensures { Emits (G.LP (h + 1) ∷ G.SP h ∷ []) ((h + 2 + n) ∷ []) text.old text.new st result }
{
    let a = put(text, st, 0, false, Base::P, h + 1);
    let b = put(text, a, 1, false, Base::P, h);
    reached(b, h + 2 + n)
}

// A vector declared.
pub(crate) fn vector(
    source: &[u8],
    s: &mut [u32],
    end: usize,
    text: &mut [u8],
    here: Here,
    st: State,
) -> Placed
    requires { ReadyLocal s.old end here st × VectorKind s.old end }
    ensures { GaveLocal source.now s.old s.new end here text.old text.new st result }
{
    let n = node_at(s, end);
    let j = judge_most(source, s, n.inner, here.top, 4095);
    let a = blame(st, j);
    let b = declare(source, s, n.start, n.start + 4, here.top, here.height, a);
    let size = word_of(j);
    let c = vector_code(text, b, here.height, size);
    Placed {
        top: here.top + 2,
        height: here.height + 2 + size,
        done: c,
    }
}

// Above a mark, and after declarations.
pub(crate) fn marked(here: Here) -> Here
    requires { here.top + 2 < 2 ^ 64 }
    ensures { result ≡ marked here }
{
    Here {
        top: here.top + 2,
        ..here
    }
}

pub(crate) fn set_at(here: Here, top: usize, height: usize) -> Here
    ensures { result ≡ placed top height here }
{
    Here {
        top,
        height,
        ..here
    }
}

// In a loop.
pub(crate) fn in_loop(ways: Ways, next: usize, after: usize) -> Ways
    ensures { result ≡ in_loop next after ways }
{
    Ways {
        next,
        after,
        ..ways
    }
}

// How many items a list has. Each item begins with its size, and so does each part of the tree: a loop over them goes from one's end,
// `at + 2 + entry(s, at)`, to the next one's, and there is no index for a `for` to count.
pub(crate) fn count(s: &[u32], from: usize, end: usize) -> usize
    requires { end < 2 ^ 32 }
    ensures { Counts s.now from end result × (result ≤ end - from) }
{
    let mut at = from;
    let mut n = 0;
    // goes on by each item's size
    while at < end {
        at = at + 2 + entry(s, at);
        n += 1;
    }
    n
}
