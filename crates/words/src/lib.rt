// Sixteen-bit arithmetic: sums, products, quotients, signed relations and shifts of words.
//
// The machine's acts and the definition of the source run both stand on `specs/Words.antt`; each function here is
// proved equal to its definition there.
#![tactic(auto)]

ghost use Rattle.std.specs.Prelude.{◌≡◌};
ghost use Rattle.words.specs.Words.{add, sub, neg, complement, mul, quot, rem, truth, below, eq, ne, lt, ge, gt, le, conj, disj};
ghost use Rattle.words.specs.Words.{shl, shr};
ghost use Rattle.words.specs.Answers.{divided};

pub fn sum(x: u16, y: u16) -> u16
    ensures { result ≡ add x y }
{
    x.wrapping_add(y)
}

pub fn difference(x: u16, y: u16) -> u16
    ensures { result ≡ sub x y }
{
    x.wrapping_sub(y)
}

pub fn negation(x: u16) -> u16
    ensures { result ≡ neg x }
{
    x.wrapping_neg()
}

pub fn complement(x: u16) -> u16
    ensures { result ≡ complement x }
{
    !x
}

#[tactic(auto, unfolding(crate::specs::Words::mul))]
pub fn product(x: u16, y: u16) -> u16
    ensures { result ≡ mul x y }
{
    x.wrapping_mul(y)
}

// None for a zero divisor; -32768 by -1 wraps.
pub fn quotient(x: u16, y: u16) -> Option<u16>
    ensures { result ≡ divided y (quot x y) }
{
    if y == 0 {
        return None;
    }
    Some(
        x.cast_signed()
            .wrapping_div(y.cast_signed())
            .cast_unsigned(),
    )
}

// None for a zero divisor.
pub fn remainder(x: u16, y: u16) -> Option<u16>
    ensures { result ≡ divided y (rem x y) }
{
    if y == 0 {
        return None;
    }
    Some(
        x.cast_signed()
            .wrapping_rem(y.cast_signed())
            .cast_unsigned(),
    )
}

fn truth(t: bool) -> u16
    ensures { result ≡ truth t }
{
    if t { 65535 } else { 0 }
}

// The signed order.
#[tactic(auto, unfolding(crate::specs::Words::below, crate::specs::Words::value))]
fn below(x: u16, y: u16) -> bool
    ensures { result ≡ below x y }
{
    x.cast_signed() < y.cast_signed()
}

pub fn equal(x: u16, y: u16) -> u16
    ensures { result ≡ eq x y }
{
    truth(x == y)
}

pub fn unequal(x: u16, y: u16) -> u16
    ensures { result ≡ ne x y }
{
    truth(x != y)
}

pub fn less(x: u16, y: u16) -> u16
    ensures { result ≡ lt x y }
{
    truth(below(x, y))
}

pub fn at_least(x: u16, y: u16) -> u16
    ensures { result ≡ ge x y }
{
    truth(!below(x, y))
}

pub fn greater(x: u16, y: u16) -> u16
    ensures { result ≡ gt x y }
{
    truth(below(y, x))
}

pub fn at_most(x: u16, y: u16) -> u16
    ensures { result ≡ le x y }
{
    truth(!below(y, x))
}

pub fn conjunction(x: u16, y: u16) -> u16
    ensures { result ≡ conj x y }
{
    x & y
}

pub fn disjunction(x: u16, y: u16) -> u16
    ensures { result ≡ disj x y }
{
    x | y
}

#[tactic(auto, unfolding(crate::specs::Words::shl))]
pub fn shift_left(x: u16, n: u16) -> u16
    ensures { result ≡ shl x n }
{
    if n < 16 { x << n } else { 0 }
}

#[tactic(auto, unfolding(crate::specs::Words::shr))]
pub fn shift_right(x: u16, n: u16) -> u16
    ensures { result ≡ shr x n }
{
    if n < 16 { x >> n } else { 0 }
}
