// Which symbols stand where: how operators bind, and which symbols begin what (language's `Binding`).
ghost use Rattle.std.specs.Prelude.{◌<◌, ◌≤◌, ◌≡◌, false, cond, eqb};
ghost use Rattle.language.specs.Kinds as K;
ghost use Rattle.language.specs.Binding as B;
ghost use Rattle.language.specs.Binding.{binding_of, is_monadic, is_suffix, is_guard, is_leave, is_repeat, is_label, is_declaration, goes_on_assignment};
ghost use Rattle.language.specs.Binding.{begins_expression, begins_command, reach_of};
ghost use Rattle.tree.specs.Between.{right_of, further_most};

use crate::kinds::{
    AMPERSAND, ASSIGN, AT, ATLEAST, ATMOST, BAR, BEGIN, BREAK, CASE, COMMA, DEFAULT, ENDCASE,
    EQUAL, FALSE, FINISH, FOR, GLOBAL, IF, LEFT, LESS, LET, LOOP, MANIFEST, MINUS, MORE, NAME, NOT,
    NUMBER, OPEN, PLING, PLUS, REM, REPEAT, REPEATUNTIL, REPEATWHILE, RESULTIS, RETURN, RIGHT,
    SLASH, STAR, STRING, SWITCHON, TEST, TRUE, UNEQUAL, UNLESS, UNTIL, VALOF, VEC, WHILE,
};

pub(crate) const LOOSEST: u32 = 7;

const RELATION: u32 = 3;

const SHIFT: u32 = 4;

// The binding of NOT, which no dyadic operator has.
pub(crate) const NEGATION: u32 = 5;

// The binding of a dyadic operator, and 0 for any other symbol.
#[tactic(auto, unfolding(language::specs::Binding::binding_of, language::specs::Kinds::member))]
pub(crate) fn binding_of(kind: u32) -> u32
    ensures { result ≡ binding_of kind }
{
    match kind {
        STAR | SLASH | REM => 1,
        PLUS | MINUS => 2,
        EQUAL | UNEQUAL | LESS | ATMOST | MORE | ATLEAST => RELATION,
        LEFT | RIGHT => SHIFT,
        AMPERSAND => 6,
        BAR => LOOSEST,
        _ => 0,
    }
}

#[tactic(auto, unfolding(language::specs::Binding::is_monadic, language::specs::Kinds::member))]
pub(crate) fn is_monadic(kind: u32) -> bool
    ensures { result ≡ is_monadic kind }
{
    matches!(kind, PLING | AT | PLUS | MINUS | NOT)
}

#[tactic(auto, unfolding(language::specs::Binding::is_suffix, language::specs::Kinds::member))]
pub(crate) fn is_suffix(kind: u32) -> bool
    ensures { result ≡ is_suffix kind }
{
    matches!(kind, OPEN | PLING)
}

// How loosely the operators in the operand of a monadic operator may bind.
#[tactic(auto, unfolding(language::specs::Binding::reach_of, language::specs::Kinds::member))]
pub(crate) fn reach_of(kind: u32) -> u32
    ensures { (result ≡ reach_of kind) × (result ≤ B.LOOSEST) }
{
    match kind {
        PLING | AT => 0,
        PLUS | MINUS => 1,
        _ => SHIFT,
    }
}

// The binding of the right operands of an operator.
#[tactic(auto, unfolding(crate::specs::Between::right_of))]
pub(crate) fn right_of(binding: u32) -> u32
    requires { 0 < binding }
    ensures { (result ≡ right_of binding) × (result < binding) }
{
    if binding == SHIFT { 2 } else { binding - 1 }
}

// How many operations may follow the first.
#[tactic(auto, unfolding(crate::specs::Between::further_most))]
pub(crate) fn further_most(binding: u32, n: usize) -> usize
    ensures { result ≡ further_most binding n }
{
    if binding == RELATION {
        0
    } else {
        n.saturating_sub(1)
    }
}

#[tactic(auto, unfolding(language::specs::Binding::is_guard, language::specs::Kinds::member))]
pub(crate) fn is_guard(kind: u32) -> bool
    ensures { result ≡ is_guard kind }
{
    matches!(kind, IF | UNLESS | WHILE | UNTIL)
}

#[tactic(auto, unfolding(language::specs::Binding::is_leave, language::specs::Kinds::member))]
pub(crate) fn is_leave(kind: u32) -> bool
    ensures { result ≡ is_leave kind }
{
    matches!(kind, ENDCASE | BREAK | LOOP | RETURN | FINISH)
}

#[tactic(auto, unfolding(language::specs::Binding::is_repeat, language::specs::Kinds::member))]
pub(crate) fn is_repeat(kind: u32) -> bool
    ensures { result ≡ is_repeat kind }
{
    matches!(kind, REPEAT | REPEATWHILE | REPEATUNTIL)
}

#[tactic(auto, unfolding(language::specs::Binding::is_label, language::specs::Kinds::member))]
pub(crate) fn is_label(kind: u32) -> bool
    ensures { result ≡ is_label kind }
{
    matches!(kind, CASE | DEFAULT)
}

#[tactic(auto, unfolding(language::specs::Binding::goes_on_assignment, language::specs::Kinds::member))]
pub(crate) fn goes_on_assignment(kind: u32) -> bool
    ensures { result ≡ goes_on_assignment kind }
{
    matches!(kind, COMMA | ASSIGN)
}

#[tactic(auto, unfolding(language::specs::Binding::is_declaration, language::specs::Kinds::member))]
pub(crate) fn is_declaration(kind: u32) -> bool
    ensures { result ≡ is_declaration kind }
{
    matches!(kind, GLOBAL | MANIFEST | LET)
}

#[tactic(auto, unfolding(language::specs::Binding::begins_expression, language::specs::Kinds::member))]
fn begins_expression(kind: u32) -> bool
    ensures { result ≡ begins_expression kind }
{
    matches!(
        kind,
        NUMBER | STRING | TRUE | FALSE | NAME | OPEN | VALOF | PLING | AT | PLUS | MINUS | NOT
    )
}

#[tactic(auto, unfolding(language::specs::Binding::begins_command, language::specs::Kinds::member))]
pub(crate) fn begins_command(kind: u32) -> bool
    ensures { result ≡ begins_command kind }
{
    begins_expression(kind)
        || is_guard(kind)
        || is_leave(kind)
        || matches!(kind, TEST | FOR | SWITCHON | RESULTIS | BEGIN)
}

// VEC stands only after one name.
pub(crate) fn is_vector(kind: u32, further: usize) -> bool
    ensures { result ≡ cond (eqb kind K.VEC) (eqb further 0) false }
{
    kind == VEC && further == 0
}
