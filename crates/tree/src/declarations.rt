// Programs: declarations, their items and functions (document 01, "Grammar").
ghost use Rattle.std.specs.Prelude.{◌+◌, ◌-◌, ◌<◌, ◌≡◌, true, List, [], length, eqb};
ghost use Rattle.language.specs.Kinds as K;
ghost use Rattle.language.specs.Tree as T;
ghost use Rattle.language.specs.Reader.{Source, the, optional, many_up_to, more_up_to, up_to_close};
ghost use Rattle.language.specs.Binding.{is_declaration};
ghost use Rattle.language.specs.Grammar as G;
ghost use Rattle.tree.specs.Encoding.{item, encode_name, encode_names, encode_items, encode_functions, encode_program};
ghost use Rattle.tree.specs.Reads.{HoldsSymbols, Ready, LeavesRoom, KindHere, Follows, Prepends, Passes, free_of, Reading, Encodes};
ghost use Rattle.tree.specs.Between.{item_list, Bodies, function_list, declaration_after, Declares};

use crate::binding::{LOOSEST, is_declaration};
use crate::kinds::{
    AND, BE, BEGIN, CLOSE, COLON, END, EQUAL, GLOBAL, MANIFEST, NOTHING, OPEN, SEMICOLON,
};
use crate::parts::{a_name, constant, further_names};
use crate::phrases::{cmd, expr};
use crate::scratch::{
    State, begin_item, expect, free_of, kind_here, node, optional, refuse, set_size,
};
use text::Fault;

// Commands, brackets and expressions nest to 64 levels.
const LEVELS: usize = 64;

// name : constant, in GLOBAL; name = constant, in MANIFEST; as an item
fn one_item(s: &mut [u32], n: usize, sign: u32, r: State) -> State
    requires { Ready 2 s.old n r × (0 < sign) }
    ensures { Reading 5 (G.item sign) (Prepends encode_items) s.old s.new n r result }
{
    let lo = free_of(s, r);
    let begun = begin_item(s, n, r, 0);
    let name = a_name(s, n, begun);
    let middle = expect(s, n, name, sign);
    let a = constant(s, n, LEVELS, middle);
    set_size(s, n, a, lo);
    a
}

// { ; item } [;] $)
fn further_items(s: &mut [u32], n: usize, sign: u32, r: State) -> State
    requires { Ready 0 s.old n r × (0 < sign) }
    ensures { Reading 5 (more_up_to n [] (G.item sign)) (Encodes encode_items) s.old s.new n r result }
{
    let mut a = r;
    for _ in 0..n {
        let here = kind_here(s, n, a);
        if here == END {
            return expect(s, n, a, END);
        }
        let semicolon = expect(s, n, a, SEMICOLON);
        let kind = kind_here(s, n, semicolon);
        if kind == END {
            return expect(s, n, semicolon, END);
        }
        a = one_item(s, n, sign, semicolon);
    }
    refuse(s, n, a, Fault::Unexpected)
}

// $( item { ; item } [;] $)
fn item_list(s: &mut [u32], n: usize, sign: u32, r: State) -> State
    requires { Ready 0 s.old n r × (0 < sign) }
    ensures { Reading 10 (item_list sign) (Encodes encode_items) s.old s.new n r result }
{
    let begin = expect(s, n, r, BEGIN);
    let first = one_item(s, n, sign, begin);
    further_items(s, n, sign, first)
}

// [name {, name}] )
fn parameters(s: &mut [u32], n: usize, r: State) -> State
    requires { Ready 0 s.old n r }
    ensures { Reading 5 (up_to_close [] G.parameter) (Encodes encode_names) s.old s.new n r result }
{
    let kind = kind_here(s, n, r);
    if kind == CLOSE {
        return expect(s, n, r, CLOSE);
    }
    let first = a_name(s, n, r);
    let last = further_names(s, n, first);
    expect(s, n, last, CLOSE)
}

// = expression, or BE command, after the name, which begins at start, and the parameters
fn function_body(s: &mut [u32], n: usize, start: usize, size: u32, r: State) -> State
    requires { Ready 0 s.old n r }
    ensures { LeavesRoom 1 s.old s.new n r result × ((src : Source) → HoldsSymbols src n s.old → Passes r result
        × ((name : T.Name) (names : List T.Name) → free_of (length s.old) r ≡ start +
        (length (encode_name name) + length (encode_names names)) → size ≡ length (encode_names names) → Follows (G.body src) (Bodies name names)
        s.old s.new r result)) }
{
    let kind = kind_here(s, n, r);
    if kind == EQUAL {
        let equal = expect(s, n, r, EQUAL);
        let value = expr(s, n, LEVELS, LOOSEST, equal);
        return node(s, n, value, start, size, 0, EQUAL);
    }
    let word = expect(s, n, r, BE);
    let routine = cmd(s, n, LEVELS, word);
    node(s, n, routine, start, size, 0, BE)
}

// name ( [name {, name}] ) ( = expression | BE command ), as an item
fn function(s: &mut [u32], n: usize, r: State) -> State
    requires { Ready 2 s.old n r }
    ensures { Reading 5 G.function (Prepends encode_functions) s.old s.new n r result }
{
    let lo = free_of(s, r);
    let begun = begin_item(s, n, r, 0);
    let start = free_of(s, begun);
    let name = a_name(s, n, begun);
    let open = expect(s, n, name, OPEN);
    let parameters = parameters(s, n, open);
    let size = free_of(s, parameters).saturating_sub(free_of(s, open));
    let a = function_body(s, n, start, size as u32, parameters);
    set_size(s, n, a, lo);
    a
}

// { AND function }
fn further_functions(s: &mut [u32], n: usize, r: State) -> State
    requires { Ready 0 s.old n r }
    ensures { Reading 0 (many_up_to n [] (λ kind. eqb kind K.AND) G.and_function) (Encodes encode_functions) s.old s.new n r result }
{
    let mut a = r;
    for _ in 0..n {
        let kind = kind_here(s, n, a);
        if kind != AND {
            return a;
        }
        let word = expect(s, n, a, AND);
        a = function(s, n, word);
    }
    a
}

// function { AND function }
fn functions(s: &mut [u32], n: usize, r: State) -> State
    requires { Ready 2 s.old n r }
    ensures { Reading 5 function_list (Encodes encode_functions) s.old s.new n r result }
{
    let first = function(s, n, r);
    further_functions(s, n, first)
}

// declaration [;], as an item
fn declared(s: &mut [u32], n: usize, kind: u32, r: State) -> State
    requires { Ready 0 s.old n r × (0 < kind) }
    ensures { LeavesRoom 3 s.old s.new n r result × ((src : Source) → HoldsSymbols src n s.old → KindHere src r kind
        → is_declaration kind ≡ true → Follows (G.declared src) (Prepends encode_program) s.old s.new r result) }
{
    let lo = free_of(s, r);
    let word = expect(s, n, r, kind);
    let begun = begin_item(s, n, word, kind);
    let a = declaration(s, n, kind, begun);
    set_size(s, n, a, lo);
    optional(s, n, SEMICOLON, a)
}

// What a declaration's word declares.
fn declaration(s: &mut [u32], n: usize, kind: u32, r: State) -> State
    requires { Ready 2 s.old n r }
    ensures { LeavesRoom 0 s.old s.new n r result
        × ((src : Source) → HoldsSymbols src n s.old → is_declaration kind ≡ true → Follows (declaration_after kind src) (Declares kind)
        s.old s.new r result) }
{
    match kind {
        GLOBAL => item_list(s, n, COLON, r),
        MANIFEST => item_list(s, n, EQUAL, r),
        _ => functions(s, n, r),
    }
}

// { declaration [;] }
fn declarations(s: &mut [u32], n: usize, r: State) -> State
    requires { Ready 0 s.old n r }
    ensures { Reading 0 (many_up_to n [] is_declaration G.declared) (Encodes encode_program) s.old s.new n r result }
{
    let mut a = r;
    for _ in 0..n {
        let kind = kind_here(s, n, a);
        if !is_declaration(kind) {
            return a;
        }
        a = declared(s, n, kind, a);
    }
    a
}

// { declaration [;] }, and nothing after it
pub(crate) fn program(s: &mut [u32], n: usize, r: State) -> State
    requires { Ready 0 s.old n r }
    ensures { Reading 0 G.program (Encodes encode_program) s.old s.new n r result }
{
    let a = declarations(s, n, r);
    let kind = kind_here(s, n, a);
    if kind == NOTHING {
        return a;
    }
    refuse(s, n, a, Fault::Unexpected)
}
