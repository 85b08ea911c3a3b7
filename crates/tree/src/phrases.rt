// Expressions and commands: a cycle of functions, since an expression may hold a command (VALOF) and a command expressions.
//
// Each function takes the state of the reading so far and gives the next one; a refusal is passed on as it is, so that a construct
// is a few lines, one for each part. `levels` is how many levels are left; every round of the cycle takes one.
//
// The loops differ in the reader that they repeat. One generic function for them, and for those of `parts` and `declarations`, would take
// it as a closure, and a closure made in a cycle of calls gets no proof.
ghost use Rattle.std.specs.Prelude.{◌+◌, ◌-◌, ◌<◌, ◌≤◌, ◌≡◌, true, false, List, ◌∷◌, length, eqb};
ghost use Rattle.language.specs.Kinds as K;
ghost use Rattle.language.specs.Tree as T;
ghost use Rattle.language.specs.Reader.{Source, the, optional, many_up_to, more_up_to, is_comma, up_to_close};
ghost use Rattle.language.specs.Binding as B;
ghost use Rattle.language.specs.Binding.{binding_of, is_suffix, is_repeat, is_label};
ghost use Rattle.language.specs.Expressions as E;
ghost use Rattle.language.specs.Grammar.{within, readers};
ghost use Rattle.language.specs.Commands as C;
ghost use Rattle.tree.specs.Encoding.{item, encode, encode_names, encode_expressions, encode_operations, encode_command, encode_commands};
ghost use Rattle.tree.specs.Encoding.{encode_unlabelled, encode_repeats, encode_locals};
ghost use Rattle.tree.specs.Reads.{HoldsSymbols, Ready, LeavesRoom, TakesRoom, KindHere, Follows, Prepends, Reads, Passes, free_of, Reading};
ghost use Rattle.tree.specs.Reads.{ReadingAt, Encodes};
ghost use Rattle.tree.specs.Between.{PrependsSuffix, PrependsOne, further_most, an_argument, a_further, repeated_only, encode_repeated_only};
ghost use Rattle.tree.specs.Between.{body_after, Ended, Counted, After, Gives};

use crate::binding::{
    LOOSEST, NEGATION, begins_command, binding_of, further_most, goes_on_assignment, is_guard,
    is_label, is_leave, is_monadic, is_repeat, is_suffix, is_vector, reach_of, right_of,
};
use crate::kinds::{
    ASSIGN, BEGIN, CLOSE, COMMA, DO, DYADIC, END, EQUAL, FOR, INTO, LABELLED, LET, MONADIC, NOT,
    OPEN, OR, PLING, REPEAT, REPEATED, RESULTIS, SEMICOLON, SWITCHON, TEST, TO, VALOF,
};
use crate::parts::{a_name, atom, further_names, label, labels, leave, optional_by, vector};
use crate::scratch::{
    State, begin_item, close_item, expect, free_of, is_call, kind_here, node, optional, place_here,
    place_of, refuse, set_size, suffixed_kind,
};
use text::Fault;

// What follows the first suffix: where it ends, and whether the last suffix is a call.
#[derive(Drop)]
struct SuffixesRead {
    end: State,
    call: bool,
}

// Expressions after the first of a list: where they end, and how many they are.
#[derive(Drop)]
struct FurtherRead {
    end: State,
    count: usize,
}

// An expression whose dyadic operators bind no more loosely than that. At the binding of NOT stands NOT and its operand, or a shift
// expression.
#[cycle(phrases)]
pub(crate) fn expr(s: &mut [u32], n: usize, levels: usize, binding: u32, r: State) -> State
    requires { Ready 0 s.old n r × (binding ≤ B.LOOSEST) }
    ensures { Reading 1 (E.expression (within levels) binding) (Encodes encode) s.old s.new n r result }
{
    if binding == 0 {
        return term(s, n, levels, r);
    }
    if binding == NEGATION {
        let first = kind_here(s, n, r);
        if first == NOT {
            return monad(s, n, levels, first, r);
        }
        return expr(s, n, levels, binding - 1, r);
    }
    let lo = free_of(s, r);
    let left = expr(s, n, levels, binding - 1, r);
    let kind = kind_here(s, n, left);
    if binding_of(kind) != binding {
        return left;
    }
    let size = free_of(s, left).saturating_sub(lo);
    let place = place_of(s, n, left);
    let right = right_of(binding);
    let first = op(s, n, levels, right, kind, left);
    let last = run(s, n, levels, binding, right, first);
    node(s, n, last, lo, size as u32, place, DYADIC)
}

// operator operand
#[cycle(phrases)]
fn op(s: &mut [u32], n: usize, levels: usize, right: u32, kind: u32, r: State) -> State
    requires { Ready 0 s.old n r × (right ≤ B.LOOSEST) × (0 < kind) }
    ensures { ReadingAt kind 4 (E.operation (E.expression (within levels) right)) (Prepends encode_operations) s.old s.new
        n r result }
{
    let lo = free_of(s, r);
    let operator = expect(s, n, r, kind);
    let begun = begin_item(s, n, operator, kind);
    let a = expr(s, n, levels, right, begun);
    set_size(s, n, a, lo);
    a
}

// The operations after the first: there is at most one relation.
#[cycle(phrases)]
fn run(s: &mut [u32], n: usize, levels: usize, binding: u32, right: u32, r: State) -> State
    requires { Ready 0 s.old n r × (right ≤ B.LOOSEST) × (0 < binding) }
    ensures { Reading 0 (many_up_to (further_most binding n) T.no_operations (λ kind. eqb (binding_of kind) binding)
        (E.operation (E.expression (within levels) right))) (Encodes encode_operations) s.old s.new n r result }
{
    let mut a = r;
    for _ in 0..further_most(binding, n) {
        let kind = kind_here(s, n, a);
        if binding_of(kind) != binding {
            return a;
        }
        a = op(s, n, levels, right, kind, a);
    }
    a
}

// An operand of the operators that bind tightest.
#[cycle(phrases)]
fn term(s: &mut [u32], n: usize, levels: usize, r: State) -> State
    requires { Ready 0 s.old n r }
    ensures { Reading 1 (E.operand (within levels)) (Encodes encode) s.old s.new n r result }
{
    let kind = kind_here(s, n, r);
    if is_monadic(kind) {
        monad(s, n, levels, kind, r)
    } else {
        whole(s, n, levels, r)
    }
}

// ! @ + - or NOT, and its operand.
#[cycle(phrases)]
fn monad(s: &mut [u32], n: usize, levels: usize, kind: u32, r: State) -> State
    requires { Ready 0 s.old n r × (0 < kind) }
    ensures { ReadingAt kind 1 (E.monadic (within levels)) (Encodes encode) s.old s.new n r result }
{
    if levels == 0 {
        return refuse(s, n, r, Fault::TooDeep);
    }
    let lo = free_of(s, r);
    let place = place_here(s, n, r);
    let operator = expect(s, n, r, kind);
    let a = expr(s, n, levels - 1, reach_of(kind), operator);
    node(s, n, a, lo, kind, place, MONADIC)
}

// primary { ( arguments ) | ! primary }
#[cycle(phrases)]
fn whole(s: &mut [u32], n: usize, levels: usize, r: State) -> State
    requires { Ready 0 s.old n r }
    ensures { Reading 1 (E.suffixed (within levels)) (Encodes encode) s.old s.new n r result }
{
    let lo = free_of(s, r);
    let primary = unit(s, n, levels, r);
    let kind = kind_here(s, n, primary);
    if is_suffix(kind) {
        let size = free_of(s, primary).saturating_sub(lo);
        let place = place_of(s, n, primary);
        let first = tail(s, n, levels, kind, primary);
        let last = tails(s, n, levels, kind == OPEN, first);
        return node(
            s,
            n,
            last.end,
            lo,
            size as u32,
            place,
            suffixed_kind(last.call),
        );
    }
    primary
}

// ( arguments ) | ! primary
#[cycle(phrases)]
fn tail(s: &mut [u32], n: usize, levels: usize, kind: u32, r: State) -> State
    requires { Ready 0 s.old n r }
    ensures { ReadingAt kind 4 (E.suffix (within levels)) (PrependsSuffix (eqb kind K.OPEN)) s.old s.new n r result }
{
    if kind == OPEN {
        call(s, n, levels, r)
    } else {
        index(s, n, levels, r)
    }
}

// The suffixes after the first, which is a call or is not.
#[cycle(phrases)]
fn tails(s: &mut [u32], n: usize, levels: usize, first: bool, r: State) -> SuffixesRead
    requires { Ready 0 s.old n r }
    ensures { Reading 0 (many_up_to (n - 1) T.no_suffixes is_suffix (E.suffix (within levels))) (Ended first result.call) s.old
        s.new n r result.end }
{
    let mut call = first;
    let mut a = r;
    for _ in 1..n {
        let kind = kind_here(s, n, a);
        if !is_suffix(kind) {
            return SuffixesRead { end: a, call };
        }
        a = tail(s, n, levels, kind, a);
        call = kind == OPEN;
    }
    SuffixesRead { end: a, call }
}

// ( [expression {, expression}] ), after what is called.
#[cycle(phrases)]
fn call(s: &mut [u32], n: usize, levels: usize, r: State) -> State
    requires { Ready 0 s.old n r }
    ensures { Reading 4 (E.arguments (within levels)) (PrependsSuffix true) s.old s.new n r result }
{
    if levels == 0 {
        return refuse(s, n, r, Fault::TooDeep);
    }
    let lo = free_of(s, r);
    let open = expect(s, n, r, OPEN);
    let a = pass(s, n, levels - 1, open);
    close_item(s, n, a, lo, OPEN)
}

// [expression {, expression}] )
#[cycle(phrases)]
fn pass(s: &mut [u32], n: usize, levels: usize, r: State) -> State
    requires { Ready 3 s.old n r }
    ensures { Reading 4 (up_to_close T.no_expressions (an_argument levels)) (Encodes encode_expressions) s.old s.new n r result }
{
    let kind = kind_here(s, n, r);
    if kind == CLOSE {
        return expect(s, n, r, CLOSE);
    }
    let first = arg(s, n, levels, r);
    let last = also(s, n, levels, first);
    expect(s, n, last.end, CLOSE)
}

// An argument, as an item.
#[cycle(phrases)]
fn arg(s: &mut [u32], n: usize, levels: usize, r: State) -> State
    requires { Ready 2 s.old n r }
    ensures { TakesRoom 1 s.old s.new n r result
        × ((src : Source) → HoldsSymbols src n s.old
        → Follows (an_argument levels src) PrependsOne s.old s.new r result) }
{
    let lo = free_of(s, r);
    let begun = begin_item(s, n, r, 0);
    let a = expr(s, n, levels, LOOSEST, begun);
    set_size(s, n, a, lo);
    a
}

// {, expression}
#[cycle(phrases)]
fn also(s: &mut [u32], n: usize, levels: usize, r: State) -> FurtherRead
    requires { Ready 0 s.old n r }
    ensures { Reading 0 (many_up_to n T.no_expressions is_comma (a_further levels)) (Counted result.count) s.old s.new n r
        result.end }
{
    let mut a = r;
    for count in 0..n {
        let kind = kind_here(s, n, a);
        if kind != COMMA {
            return FurtherRead { end: a, count };
        }
        let comma = expect(s, n, a, COMMA);
        a = arg(s, n, levels, comma);
    }
    FurtherRead { end: a, count: n }
}

// ! primary
#[cycle(phrases)]
fn index(s: &mut [u32], n: usize, levels: usize, r: State) -> State
    requires { Ready 0 s.old n r }
    ensures { Reading 4 (E.index (within levels)) (PrependsSuffix false) s.old s.new n r result }
{
    let lo = free_of(s, r);
    let pling = expect(s, n, r, PLING);
    let a = unary(s, n, levels, pling);
    close_item(s, n, a, lo, PLING)
}

// A monadic operator may begin any operand.
#[cycle(phrases)]
fn unary(s: &mut [u32], n: usize, levels: usize, r: State) -> State
    requires { Ready 0 s.old n r }
    ensures { Reading 1 (E.subscript (within levels)) (Encodes encode) s.old s.new n r result }
{
    let kind = kind_here(s, n, r);
    if is_monadic(kind) {
        monad(s, n, levels, kind, r)
    } else {
        unit(s, n, levels, r)
    }
}

// number | string | TRUE | FALSE | name | ( expression ) | VALOF command
#[cycle(phrases)]
fn unit(s: &mut [u32], n: usize, levels: usize, r: State) -> State
    requires { Ready 0 s.old n r }
    ensures { Reading 1 (E.primary (within levels)) (Encodes encode) s.old s.new n r result }
{
    let kind = kind_here(s, n, r);
    match kind {
        OPEN => nest(s, n, levels, r),
        VALOF => valof(s, n, levels, r),
        _ => atom(s, n, r, kind),
    }
}

// ( expression )
#[cycle(phrases)]
fn nest(s: &mut [u32], n: usize, levels: usize, r: State) -> State
    requires { Ready 0 s.old n r }
    ensures { Reading 1 (E.bracketed (within levels)) (Encodes encode) s.old s.new n r result }
{
    if levels == 0 {
        return refuse(s, n, r, Fault::TooDeep);
    }
    let lo = free_of(s, r);
    let place = place_here(s, n, r);
    let open = expect(s, n, r, OPEN);
    let inner = expr(s, n, levels - 1, LOOSEST, open);
    let a = expect(s, n, inner, CLOSE);
    node(s, n, a, lo, 0, place, OPEN)
}

// VALOF command
#[cycle(phrases)]
fn valof(s: &mut [u32], n: usize, levels: usize, r: State) -> State
    requires { Ready 0 s.old n r }
    ensures { Reading 1 (E.valof (within levels)) (Encodes encode) s.old s.new n r result }
{
    if levels == 0 {
        return refuse(s, n, r, Fault::TooDeep);
    }
    let lo = free_of(s, r);
    let place = place_here(s, n, r);
    let word = expect(s, n, r, VALOF);
    let a = cmd(s, n, levels - 1, word);
    node(s, n, a, lo, 0, place, VALOF)
}

// A command, with its labels before it.
#[cycle(phrases)]
pub(crate) fn cmd(s: &mut [u32], n: usize, levels: usize, r: State) -> State
    requires { Ready 0 s.old n r }
    ensures { Reading 0 (C.command (within levels)) (Encodes encode_command) s.old s.new n r result }
{
    let kind = kind_here(s, n, r);
    if is_label(kind) {
        return cases(s, n, levels, kind, r);
    }
    body(s, n, levels, false, r)
}

// Labels and what follows them.
#[cycle(phrases)]
fn cases(s: &mut [u32], n: usize, levels: usize, kind: u32, r: State) -> State
    requires { Ready 0 s.old n r }
    ensures { LeavesRoom 0 s.old s.new n r result × ((src : Source) → HoldsSymbols src n s.old → KindHere src r kind
        → is_label kind ≡ true → Reads (C.command (within levels) src) encode_command s.old s.new r result) }
{
    let lo = free_of(s, r);
    let first = label(s, n, levels, kind, r);
    let last = labels(s, n, levels, first);
    let size = free_of(s, last).saturating_sub(lo);
    let a = body(s, n, levels, true, last);
    node(s, n, a, lo, size as u32, 0, LABELLED)
}

// unlabelled { REPEAT form }, whose first symbol opens a level; or an empty command, after labels.
#[cycle(phrases)]
fn body(s: &mut [u32], n: usize, levels: usize, labelled: bool, r: State) -> State
    requires { Ready 0 s.old n r }
    ensures { Reading 0 (body_after labelled levels) (Encodes encode_repeated_only) s.old s.new n r result }
{
    let kind = kind_here(s, n, r);
    if begins_command(kind) {
        if levels == 0 {
            return refuse(s, n, r, Fault::TooDeep);
        }
        return redo(s, n, levels - 1, r);
    }
    if labelled {
        return r;
    }
    refuse(s, n, r, Fault::Unexpected)
}

// unlabelled { REPEAT form }
#[cycle(phrases)]
fn redo(s: &mut [u32], n: usize, levels: usize, r: State) -> State
    requires { Ready 0 s.old n r }
    ensures { Reading 0 (repeated_only levels) (Encodes encode_repeated_only) s.old s.new n r result }
{
    let lo = free_of(s, r);
    let body = plain(s, n, levels, r);
    let kind = kind_here(s, n, body);
    if is_repeat(kind) {
        let size = free_of(s, body).saturating_sub(lo);
        let first = form(s, n, levels, kind, body);
        let last = forms(s, n, levels, first);
        return node(s, n, last, lo, size as u32, 0, REPEATED);
    }
    body
}

// The REPEAT forms after the first.
#[cycle(phrases)]
fn forms(s: &mut [u32], n: usize, levels: usize, r: State) -> State
    requires { Ready 0 s.old n r }
    ensures { Reading 0 (many_up_to (n - 1) T.no_repeats is_repeat (C.repeat_form (readers (within levels)))) (Encodes encode_repeats)
        s.old s.new n r result }
{
    let mut a = r;
    for _ in 1..n {
        let kind = kind_here(s, n, a);
        if !is_repeat(kind) {
            return a;
        }
        a = form(s, n, levels, kind, a);
    }
    a
}

// REPEAT | REPEATWHILE expression | REPEATUNTIL expression
#[cycle(phrases)]
fn form(s: &mut [u32], n: usize, levels: usize, kind: u32, r: State) -> State
    requires { Ready 0 s.old n r × (0 < kind) }
    ensures { ReadingAt kind 3 (C.repeat_form (readers (within levels))) (Prepends encode_repeats) s.old s.new n r result }
{
    let lo = free_of(s, r);
    let word = expect(s, n, r, kind);
    let begun = begin_item(s, n, word, kind);
    if kind == REPEAT {
        return begun;
    }
    let a = expr(s, n, levels, LOOSEST, begun);
    set_size(s, n, a, lo);
    a
}

// A command without its labels and REPEAT forms, by its first symbol.
#[cycle(phrases)]
fn plain(s: &mut [u32], n: usize, levels: usize, r: State) -> State
    requires { Ready 0 s.old n r }
    ensures { Reading 1 (C.unlabelled (readers (within levels))) (Encodes encode_unlabelled) s.old s.new n r result }
{
    let kind = kind_here(s, n, r);
    if is_guard(kind) {
        return when(s, n, levels, kind, r);
    }
    if is_leave(kind) {
        return leave(s, n, r, kind);
    }
    match kind {
        TEST => test(s, n, levels, r),
        FOR => step(s, n, levels, r),
        SWITCHON => pick(s, n, levels, r),
        RESULTIS => give(s, n, levels, r),
        BEGIN => block(s, n, levels, r),
        _ => bare(s, n, levels, r),
    }
}

// TEST expression DO command OR command
#[cycle(phrases)]
fn test(s: &mut [u32], n: usize, levels: usize, r: State) -> State
    requires { Ready 0 s.old n r }
    ensures { Reading 1 (C.test (readers (within levels))) (Encodes encode_unlabelled) s.old s.new n r result }
{
    let lo = free_of(s, r);
    let word = expect(s, n, r, TEST);
    let condition = expr(s, n, levels, LOOSEST, word);
    let then = expect(s, n, condition, DO);
    let first = cmd(s, n, levels, then);
    let or = expect(s, n, first, OR);
    let a = cmd(s, n, levels, or);
    node(s, n, a, lo, 0, 0, TEST)
}

// IF expression DO command, and so UNLESS, WHILE and UNTIL
#[cycle(phrases)]
fn when(s: &mut [u32], n: usize, levels: usize, kind: u32, r: State) -> State
    requires { Ready 0 s.old n r × (0 < kind) }
    ensures { ReadingAt kind 1 (C.guarded (readers (within levels))) (Encodes encode_unlabelled) s.old s.new n r result }
{
    let lo = free_of(s, r);
    let word = expect(s, n, r, kind);
    let condition = expr(s, n, levels, LOOSEST, word);
    let then = expect(s, n, condition, DO);
    let a = cmd(s, n, levels, then);
    node(s, n, a, lo, 0, 0, kind)
}

// RESULTIS expression
#[cycle(phrases)]
fn give(s: &mut [u32], n: usize, levels: usize, r: State) -> State
    requires { Ready 0 s.old n r }
    ensures { Reading 1 (C.resultis (readers (within levels))) (Encodes encode_unlabelled) s.old s.new n r result }
{
    let lo = free_of(s, r);
    let place = place_here(s, n, r);
    let word = expect(s, n, r, RESULTIS);
    let a = expr(s, n, levels, LOOSEST, word);
    node(s, n, a, lo, 0, place, RESULTIS)
}

// FOR name = expression TO expression [BY constant] DO command
#[cycle(phrases)]
fn step(s: &mut [u32], n: usize, levels: usize, r: State) -> State
    requires { Ready 0 s.old n r }
    ensures { Reading 1 (C.for (readers (within levels))) (Encodes encode_unlabelled) s.old s.new n r result }
{
    let lo = free_of(s, r);
    let word = expect(s, n, r, FOR);
    let name = a_name(s, n, word);
    let equal = expect(s, n, name, EQUAL);
    let first = expr(s, n, levels, LOOSEST, equal);
    let to = expect(s, n, first, TO);
    let limit = expr(s, n, levels, LOOSEST, to);
    let by = optional_by(s, n, levels, limit);
    let size = free_of(s, by).saturating_sub(free_of(s, limit));
    let then = expect(s, n, by, DO);
    let a = cmd(s, n, levels, then);
    node(s, n, a, lo, size as u32, 0, FOR)
}

// SWITCHON expression INTO $( command { ; command } [;] $)
#[cycle(phrases)]
fn pick(s: &mut [u32], n: usize, levels: usize, r: State) -> State
    requires { Ready 0 s.old n r }
    ensures { Reading 1 (C.switchon (readers (within levels))) (Encodes encode_unlabelled) s.old s.new n r result }
{
    let lo = free_of(s, r);
    let word = expect(s, n, r, SWITCHON);
    let value = expr(s, n, levels, LOOSEST, word);
    let size = free_of(s, value).saturating_sub(lo);
    let into = expect(s, n, value, INTO);
    let begin = expect(s, n, into, BEGIN);
    let first = item(s, n, levels, begin);
    let a = list(s, n, levels, first);
    node(s, n, a, lo, size as u32, 0, SWITCHON)
}

// A command, as an item.
#[cycle(phrases)]
fn item(s: &mut [u32], n: usize, levels: usize, r: State) -> State
    requires { Ready 2 s.old n r }
    ensures { TakesRoom 2 s.old s.new n r result
        × ((src : Source) → HoldsSymbols src n s.old → Follows (C.listed (readers (within levels)) src) (Prepends encode_commands)
        s.old s.new r result) }
{
    let lo = free_of(s, r);
    let begun = begin_item(s, n, r, 0);
    let a = cmd(s, n, levels, begun);
    set_size(s, n, a, lo);
    a
}

// { ; command } [;] $)
#[cycle(phrases)]
fn list(s: &mut [u32], n: usize, levels: usize, r: State) -> State
    requires { Ready 0 s.old n r }
    ensures { Reading 5 (more_up_to n T.no_commands (C.listed (readers (within levels)))) (Encodes encode_commands) s.old
        s.new n r result }
{
    let mut a = r;
    for _ in 0..n {
        let here = kind_here(s, n, a);
        if here == END {
            return expect(s, n, a, END);
        }
        let semicolon = expect(s, n, a, SEMICOLON);
        let kind = kind_here(s, n, semicolon);
        if kind == END {
            return expect(s, n, semicolon, END);
        }
        a = item(s, n, levels, semicolon);
    }
    refuse(s, n, a, Fault::Unexpected)
}

// [ command { ; command } ] [;] $)
#[cycle(phrases)]
fn till(s: &mut [u32], n: usize, levels: usize, r: State) -> State
    requires { Ready 2 s.old n r }
    ensures { Reading 3 (C.commands_to_end (readers (within levels))) (Encodes encode_commands) s.old s.new n r result }
{
    let kind = kind_here(s, n, r);
    match kind {
        END => expect(s, n, r, END),
        SEMICOLON => {
            let semicolon = expect(s, n, r, SEMICOLON);
            expect(s, n, semicolon, END)
        }
        _ => {
            let first = item(s, n, levels, r);
            list(s, n, levels, first)
        }
    }
}

// $( { LET local [;] } [ command { ; command } ] [;] $)
#[cycle(phrases)]
fn block(s: &mut [u32], n: usize, levels: usize, r: State) -> State
    requires { Ready 0 s.old n r }
    ensures { Reading 1 (C.block (readers (within levels))) (Encodes encode_unlabelled) s.old s.new n r result }
{
    let lo = free_of(s, r);
    let begin = expect(s, n, r, BEGIN);
    let locals = lets(s, n, levels, begin);
    let size = free_of(s, locals).saturating_sub(lo);
    let a = till(s, n, levels, locals);
    node(s, n, a, lo, size as u32, 0, BEGIN)
}

// { LET local [;] }
#[cycle(phrases)]
fn lets(s: &mut [u32], n: usize, levels: usize, r: State) -> State
    requires { Ready 0 s.old n r }
    ensures { Reading 0 (many_up_to n T.no_locals (λ kind. eqb kind K.LET) (C.local (readers (within levels)))) (Encodes encode_locals)
        s.old s.new n r result }
{
    let mut a = r;
    for _ in 0..n {
        let kind = kind_here(s, n, a);
        if kind != LET {
            return a;
        }
        a = local(s, n, levels, a);
    }
    a
}

// LET ( name = VEC constant | name {, name} = expression {, expression} ) [;]
#[cycle(phrases)]
fn local(s: &mut [u32], n: usize, levels: usize, r: State) -> State
    requires { Ready 0 s.old n r }
    ensures { Reading 4 (C.local (readers (within levels))) (Prepends encode_locals) s.old s.new n r result }
{
    let lo = free_of(s, r);
    let word = expect(s, n, r, LET);
    let begun = begin_item(s, n, word, LET);
    let start = free_of(s, begun);
    let first = a_name(s, n, begun);
    let names = further_names(s, n, first);
    let further = free_of(s, names).saturating_sub(free_of(s, first)) / 4;
    let equal = expect(s, n, names, EQUAL);
    let value = init(s, n, levels, start, further, equal);
    let a = optional(s, n, SEMICOLON, value);
    set_size(s, n, a, lo);
    a
}

// What a local declaration gives its names, which begin at start.
#[cycle(phrases)]
fn init(s: &mut [u32], n: usize, levels: usize, start: usize, further: usize, r: State) -> State
    requires { Ready 5 s.old n r }
    ensures { TakesRoom 5 s.old s.new n r result × ((src : Source) → HoldsSymbols src n s.old → Passes r result
        × ((name : T.Name) (names : List T.Name) → further ≡ length names → free_of (length s.old) r ≡ start + length
        (encode_names (name ∷ names)) → Follows (C.given (readers (within levels)) name names src) (Gives (name ∷ names)) s.old
        s.new r result)) }
{
    let kind = kind_here(s, n, r);
    if is_vector(kind, further) {
        return vector(s, n, levels, start, r);
    }
    let size = free_of(s, r).saturating_sub(start);
    let first = arg(s, n, levels, r);
    let last = rest(s, n, levels, further, first);
    node(s, n, last, start, size as u32, 0, LET)
}

// {, expression}, so many of them
#[cycle(phrases)]
fn rest(s: &mut [u32], n: usize, levels: usize, number: usize, r: State) -> State
    requires { Ready 0 s.old n r }
    ensures { Reading 0 (C.further (readers (within levels)) number) (Encodes encode_expressions) s.old s.new n r result }
{
    let mut a = r;
    for _ in 0..number {
        let comma = expect(s, n, a, COMMA);
        a = arg(s, n, levels, comma);
    }
    a
}

// {, expression} := expression {, expression}, after the first expression, which begins at lo; as many right as left
#[cycle(phrases)]
fn set(s: &mut [u32], n: usize, levels: usize, lo: usize, r: State) -> State
    requires { Ready 0 s.old n r }
    ensures { LeavesRoom 0 s.old s.new n r result × ((src : Source) → HoldsSymbols src n s.old → Passes r result
        × ((e : T.Expression) → free_of (length s.old) r ≡ lo + length (encode e) → Follows (C.assignment (readers (within levels)) e src)
        (After e) s.old s.new r result)) }
{
    let size = free_of(s, r).saturating_sub(lo);
    let left = also(s, n, levels, r);
    let all = free_of(s, left.end).saturating_sub(lo);
    let word = expect(s, n, left.end, ASSIGN);
    let first = arg(s, n, levels, word);
    let last = rest(s, n, levels, left.count, first);
    node(s, n, last, lo, size as u32, all as u32, ASSIGN)
}

// An assignment, or an expression that is a call.
#[cycle(phrases)]
fn bare(s: &mut [u32], n: usize, levels: usize, r: State) -> State
    requires { Ready 0 s.old n r }
    ensures { Reading 1 (C.assignment_or_call (readers (within levels))) (Encodes encode_unlabelled) s.old s.new n r result }
{
    let lo = free_of(s, r);
    let first = expr(s, n, levels, LOOSEST, r);
    let kind = kind_here(s, n, first);
    if goes_on_assignment(kind) {
        return set(s, n, levels, lo, first);
    }
    if is_call(s, n, first) {
        return first;
    }
    refuse(s, n, first, Fault::Unexpected)
}
