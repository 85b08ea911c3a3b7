// The parts of the grammar that hold no expression and no command: names, constants, labels, and the symbols that are leaves.
ghost use Rattle.std.specs.Prelude.{ℕ, ◌+◌, ◌-◌, ◌<◌, ◌≡◌, [], ◌∷◌, length};
ghost use Rattle.language.specs.Kinds as K;
ghost use Rattle.language.specs.Tree as T;
ghost use Rattle.language.specs.Reader.{Source, the, a_name, many_up_to, is_comma};
ghost use Rattle.language.specs.Binding.{is_label};
ghost use Rattle.language.specs.Expressions as E;
ghost use Rattle.language.specs.Grammar.{within, readers};
ghost use Rattle.language.specs.Commands as C;
ghost use Rattle.tree.specs.Encoding.{closed, leaf, encode, encode_name, encode_names, encode_by, encode_labels, encode_unlabelled, encode_constant};
ghost use Rattle.tree.specs.Reads.{HoldsSymbols, Ready, LeavesRoom, TakesRoom, KindHere, Follows, Prepends, Reads, Passes, free_of, Reading};
ghost use Rattle.tree.specs.Reads.{ReadingAt, Encodes};
ghost use Rattle.tree.specs.Between.{atomic, leaving, a_further_name, Gives};

use crate::binding::is_label;
use crate::kinds::{
    BY, CASE, COLON, COMMA, DEFAULT, FALSE, MINUS, NAME, NUMBER, STRING, TRUE, VEC,
};
use crate::scratch::{
    State, begin_item, expect, free_of, kind_here, node, place_here, refuse, set_size, value_here,
};
use text::Fault;

// A symbol that is a leaf of the tree.
fn leaf(s: &mut [u32], n: usize, r: State, kind: u32, value: u32, tag: u32) -> State
    requires { Ready 0 s.old n r × (0 < kind) }
    ensures { Reading 1 (the kind) (Encodes (λ place. leaf value place tag)) s.old s.new n r result }
{
    let place = place_here(s, n, r);
    let a = expect(s, n, r, kind);
    let lo = free_of(s, a);
    node(s, n, a, lo, value, place, tag)
}

// number | string | TRUE | FALSE | name
pub(crate) fn atom(s: &mut [u32], n: usize, r: State, kind: u32) -> State
    requires { Ready 0 s.old n r }
    ensures { ReadingAt kind 1 atomic (Encodes encode) s.old s.new n r result }
{
    let value = value_here(s, n, r);
    match kind {
        NUMBER => leaf(s, n, r, NUMBER, value, NUMBER),
        STRING => leaf(s, n, r, STRING, value, STRING),
        TRUE => leaf(s, n, r, TRUE, 65535, NUMBER),
        FALSE => leaf(s, n, r, FALSE, 0, NUMBER),
        NAME => leaf(s, n, r, NAME, value, NAME),
        _ => refuse(s, n, r, Fault::Unexpected),
    }
}

// BREAK | LOOP | ENDCASE | RETURN | FINISH
pub(crate) fn leave(s: &mut [u32], n: usize, r: State, kind: u32) -> State
    requires { Ready 0 s.old n r × (0 < kind) }
    ensures { ReadingAt kind 1 leaving (Encodes encode_unlabelled) s.old s.new n r result }
{
    leaf(s, n, r, kind, 0, kind)
}

// [number | TRUE | FALSE | name], as a constant.
fn positive(s: &mut [u32], n: usize, r: State, kind: u32) -> State
    requires { Ready 0 s.old n r }
    ensures { ReadingAt kind 1 E.positive (Encodes encode_constant) s.old s.new n r result }
{
    let value = value_here(s, n, r);
    match kind {
        NUMBER => leaf(s, n, r, NUMBER, value, NUMBER),
        TRUE => leaf(s, n, r, TRUE, 65535, NUMBER),
        FALSE => leaf(s, n, r, FALSE, 0, NUMBER),
        _ => leaf(s, n, r, NAME, value, NAME),
    }
}

// A number after its minus, which stands at that place.
fn negated(s: &mut [u32], n: usize, r: State, kind: u32, value: u32, place: u32) -> State
    requires { Ready 0 s.old n r × (0 < kind) }
    ensures { Reading 1 (the kind) (Encodes (λ _. leaf value place K.MINUS)) s.old s.new n r result }
{
    let a = expect(s, n, r, kind);
    let lo = free_of(s, a);
    node(s, n, a, lo, value, place, MINUS)
}

// A name after its minus, which stands at that place.
fn negated_name(s: &mut [u32], n: usize, r: State, value: u32, place: u32) -> State
    requires { Ready 3 s.old n r }
    ensures { TakesRoom 3 s.old s.new n r result
        × ((src : Source) → HoldsSymbols src n s.old → Reads (the K.NAME src) (λ at. closed (leaf value at K.NAME) 0 place K.MINUS)
        s.old s.new r result) }
{
    let lo = free_of(s, r);
    let name = leaf(s, n, r, NAME, value, NAME);
    node(s, n, name, lo, 0, place, MINUS)
}

// - (number | TRUE | FALSE | name): the minus opens a level.
fn negative(s: &mut [u32], n: usize, levels: usize, r: State) -> State
    requires { Ready 0 s.old n r }
    ensures { Reading 1 (E.negative (within levels)) (Encodes encode_constant) s.old s.new n r result }
{
    if levels == 0 {
        return refuse(s, n, r, Fault::TooDeep);
    }
    let place = place_here(s, n, r);
    let minus = expect(s, n, r, MINUS);
    let kind = kind_here(s, n, minus);
    let value = value_here(s, n, minus);
    match kind {
        NUMBER => negated(s, n, minus, NUMBER, value, place),
        TRUE => negated(s, n, minus, TRUE, 65535, place),
        FALSE => negated(s, n, minus, FALSE, 0, place),
        _ => negated_name(s, n, minus, value, place),
    }
}

// A constant.
pub(crate) fn constant(s: &mut [u32], n: usize, levels: usize, r: State) -> State
    requires { Ready 0 s.old n r }
    ensures { Reading 1 (E.constant (within levels)) (Encodes encode_constant) s.old s.new n r result }
{
    let kind = kind_here(s, n, r);
    if kind == MINUS {
        negative(s, n, levels, r)
    } else {
        positive(s, n, r, kind)
    }
}

// A name.
pub(crate) fn a_name(s: &mut [u32], n: usize, r: State) -> State
    requires { Ready 0 s.old n r }
    ensures { Reading 1 a_name (Encodes encode_name) s.old s.new n r result }
{
    let value = value_here(s, n, r);
    leaf(s, n, r, NAME, value, NAME)
}

// {, name}
pub(crate) fn further_names(s: &mut [u32], n: usize, r: State) -> State
    requires { Ready 0 s.old n r }
    ensures { Reading 0 (many_up_to n [] is_comma a_further_name) (Encodes encode_names) s.old s.new n r result }
{
    let mut a = r;
    for _ in 0..n {
        let kind = kind_here(s, n, a);
        if kind != COMMA {
            return a;
        }
        let comma = expect(s, n, a, COMMA);
        a = a_name(s, n, comma);
    }
    a
}

// CASE constant :
fn case_label(s: &mut [u32], n: usize, levels: usize, r: State) -> State
    requires { Ready 0 s.old n r }
    ensures { ReadingAt K.CASE 4 (C.label (within levels)) (Prepends encode_labels) s.old s.new n r result }
{
    let lo = free_of(s, r);
    let place = place_here(s, n, r);
    let word = expect(s, n, r, CASE);
    let begun = begin_item(s, n, word, CASE);
    let start = free_of(s, begun);
    let value = constant(s, n, levels, begun);
    let colon = expect(s, n, value, COLON);
    let a = node(s, n, colon, start, 0, place, CASE);
    set_size(s, n, a, lo);
    a
}

// DEFAULT :
fn default_label(s: &mut [u32], n: usize, levels: usize, r: State) -> State
    requires { Ready 0 s.old n r }
    ensures { LeavesRoom 4 s.old s.new n r result × ((src : Source) → HoldsSymbols src n s.old → (kind : ℕ)
        → KindHere src r kind → (kind ≡ K.CASE → ⊥) → Follows (C.label (within levels) src) (Prepends encode_labels) s.old s.new r
        result) }
{
    let lo = free_of(s, r);
    let place = place_here(s, n, r);
    let word = expect(s, n, r, DEFAULT);
    let begun = begin_item(s, n, word, DEFAULT);
    let start = free_of(s, begun);
    let colon = expect(s, n, begun, COLON);
    let a = node(s, n, colon, start, 0, place, DEFAULT);
    set_size(s, n, a, lo);
    a
}

// CASE constant : | DEFAULT :
pub(crate) fn label(s: &mut [u32], n: usize, levels: usize, kind: u32, r: State) -> State
    requires { Ready 0 s.old n r }
    ensures { ReadingAt kind 4 (C.label (within levels)) (Prepends encode_labels) s.old s.new n r result }
{
    if kind == CASE {
        case_label(s, n, levels, r)
    } else {
        default_label(s, n, levels, r)
    }
}

// The labels after the first.
pub(crate) fn labels(s: &mut [u32], n: usize, levels: usize, r: State) -> State
    requires { Ready 0 s.old n r }
    ensures { Reading 0 (many_up_to (n - 1) [] is_label (C.label (within levels))) (Encodes encode_labels)
        s.old s.new n r result }
{
    let mut a = r;
    for _ in 1..n {
        let kind = kind_here(s, n, a);
        if !is_label(kind) {
            return a;
        }
        a = label(s, n, levels, kind, a);
    }
    a
}

// [BY constant]
pub(crate) fn optional_by(s: &mut [u32], n: usize, levels: usize, r: State) -> State
    requires { Ready 0 s.old n r }
    ensures { Reading 0 (C.optional_by (readers (within levels))) (Encodes encode_by) s.old s.new n r result }
{
    let kind = kind_here(s, n, r);
    if kind == BY {
        let word = expect(s, n, r, BY);
        return constant(s, n, levels, word);
    }
    r
}

// VEC constant, after the name, which begins at start.
pub(crate) fn vector(s: &mut [u32], n: usize, levels: usize, start: usize, r: State) -> State
    requires { Ready 0 s.old n r }
    ensures { LeavesRoom 2 s.old s.new n r result × ((src : Source) → HoldsSymbols src n s.old → Passes r result
        × ((name : T.Name) → free_of (length s.old) r ≡ start + length (encode_name name)
        → Follows (C.vector (readers (within levels)) name src) (Gives (name ∷ [])) s.old s.new r result)) }
{
    let size = free_of(s, r).saturating_sub(start);
    let word = expect(s, n, r, VEC);
    let length = constant(s, n, levels, word);
    node(s, n, length, start, size as u32, 0, VEC)
}
