// The names in scope, on a stack at the front of scratch: two entries each, the name's place and width as one number, and what the name
// means as a number; or two zeros where a block opens. The tree stands behind the stack and never changes.
ghost use Rattle.std.specs.Prelude.{◌≡◌, Bool, ℕ, ◌+◌, ◌*◌, ◌-◌, ◌/◌, ◌%◌, ◌≤◌, ◌<◌, ◌^◌, length, get_or, take, drop};
ghost use Rattle.language.specs.Names.{same_bytes, same_name};
ghost use Rattle.language.specs.Fine.{FineName};
ghost use Rattle.compiler.specs.Scope.{named, name_at, entry_of, code_of, Looked, Told, Pushed, PushedName};

// What a name means: a local by its height, a global by its number, a manifest by its value, a function by its number from 0.
// Where several kinds are treated alike each has an arm of its own: in one arm for several, the proof is not told which they are.
#[derive(Clone, Copy)]
pub enum Meaning {
    Local(usize),
    Global(usize),
    Manifest(usize),
    Function(usize),
}

// The same as it stands in lent scratch, as a number that is not 0.
fn encode(m: Meaning) -> usize
    requires { entry_of m < 2 ^ 32 }
    ensures { result ≡ entry_of m }
{
    match m {
        Meaning::Local(k) => k * 4 + 1,
        Meaning::Global(n) => n * 4 + 2,
        Meaning::Manifest(v) => v * 4 + 3,
        Meaning::Function(k) => k * 4 + 4,
    }
}

fn decode(n: usize) -> Meaning
    requires { 0 < n }
    ensures { entry_of result ≡ n }
{
    match n % 4 {
        1 => Meaning::Local(n / 4),
        2 => Meaning::Global(n / 4),
        3 => Meaning::Manifest(n / 4),
        _ => Meaning::Function(n / 4 - 1),
    }
}

// An entry of scratch; past its end, 0.
pub(crate) fn entry(s: &[u32], i: usize) -> usize
    ensures { (result ≡ get_or s.now i 0) × (result < 2 ^ 32) }
{
    s.get(i).copied().unwrap_or(0) as usize
}

// The last byte of so many at a place; past the end of the source, 0.
fn last_byte(source: &[u8], place: usize, n: usize) -> u8
    requires { (place < 2 ^ 32) × (n < 2 ^ 32) }
    ensures { result ≡ get_or source.now (place + (n - 1)) 0 }
{
    let at = place + n.saturating_sub(1);
    source.get(at).copied().unwrap_or(0)
}

// So many bytes of the source from a place on, as far as it goes.
fn part(source: &[u8], place: usize, n: usize) -> &[u8]
    ensures { result.now ≡ take n (drop place source.now) }
{
    let rest = &source[place.min(source.len())..];
    &rest[..n.min(rest.len())]
}

// Whether bytes are the same, from the last one back: names of one width that differ mostly do near their ends. (The slices' own `==` goes
// from the front, and long names cost it more.)
fn same(a: &[u8], b: &[u8]) -> bool
    ensures { result ≡ same_bytes a.now b.now }
{
    if a.len() != b.len() {
        return false;
    }
    for i in (0..a.len()).rev() {
        if a[i] != b[i] {
            return false;
        }
    }
    true
}

// The same of so many bytes at two places of the source, where one may reach past its end.
#[cold]
#[inline(never)]
fn cut(source: &[u8], p: usize, q: usize, n: usize) -> bool
    ensures { result ≡ same_bytes (take n (drop p source.now)) (take n (drop q source.now)) }
{
    same(part(source, p, n), part(source, q, n))
}

// The same, quick where both stand in the source: `last` is the last byte at `q`.
fn alike(source: &[u8], p: usize, q: usize, n: usize, last: u8) -> bool
    requires { (p < 2 ^ 32) × (q < 2 ^ 32) × (n < 2 ^ 32) × (last ≡ get_or source.now (q + (n - 1)) 0) }
    ensures { result ≡ same_bytes (take n (drop p source.now)) (take n (drop q source.now)) }
{
    if n > 0 && last_byte(source, p, n) != last {
        return false;
    }
    let (Some(a), Some(b)) = (source.get(p..p + n), source.get(q..q + n)) else {
        return cut(source, p, q, n);
    };
    same(a, b)
}

// Whether a name of the stack is spelt like one of that place, width and last byte.
#[tactic(auto, using(crate::proofs::Scoping::other_width, crate::proofs::Scoping::same_width))]
fn spelt(source: &[u8], name: usize, place: usize, width: usize, last: u8) -> bool
    requires { (name < 2 ^ 32) × (place < 2 ^ 32) × (width < 2 ^ 32) × (last ≡ get_or source.now (place + (width - 1)) 0) }
    ensures { result ≡ same_name source.now (named (name / 65536) (name % 65536)) (named place width) }
{
    name % 65536 == width && alike(source, name / 65536, place, width, last)
}

// An entry of the stack.
fn stacked(s: &[u32], i: usize) -> usize
    requires { i < length s.now }
    ensures { (result ≡ get_or s.now i 0) × (result < 2 ^ 32) }
{
    s[i] as usize
}

// What a leaf's name means, if it is known: blocks from the innermost out, and the names of each. Nested labelled loops, the form that
// document 01 names. A function of its own for speed, as `in_block`: inlined into the walk of the tree, it has too few registers.
#[inline(never)]
pub(crate) fn lookup(source: &[u8], s: &[u32], top: usize, leaf: usize) -> Option<Meaning>
    requires { leaf < 2 ^ 32 }
    ensures { Looked source.now s.now top leaf (code_of result) × (code_of result < 2 ^ 32) }
{
    if s.len() < top {
        return None;
    }
    let width = entry(s, leaf + 1);
    let place = entry(s, leaf + 2);
    let last = last_byte(source, place, width);
    let mut at = top;
    'search: loop {
        loop {
            if at < 2 {
                return None;
            }
            at -= 2;
            if stacked(s, at + 1) == 0 {
                break;
            }
            if spelt(source, stacked(s, at), place, width, last) {
                break 'search;
            }
        }
    }
    Some(decode(stacked(s, at + 1)))
}

// What a leaf's name means in the innermost block itself, if it is there.
#[inline(never)]
pub(crate) fn in_block(source: &[u8], s: &[u32], top: usize, leaf: usize) -> Option<Meaning>
    requires { leaf < 2 ^ 32 }
    ensures { Told source.now s.now top leaf (code_of result) }
{
    if s.len() < top {
        return None;
    }
    let width = entry(s, leaf + 1);
    let place = entry(s, leaf + 2);
    let last = last_byte(source, place, width);
    let mut at = top;
    // goes down by two entries, as in `lookup`
    while at >= 2 {
        at -= 2;
        let m = stacked(s, at + 1);
        if m == 0 {
            return None;
        }
        if spelt(source, stacked(s, at), place, width, last) {
            return Some(decode(m));
        }
    }
    None
}

// Puts two entries on the stack.
pub(crate) fn push(s: &mut [u32], top: usize, first: usize, second: usize)
    requires { (top + 2 ≤ length s.old) × (first < 2 ^ 32) × (second < 2 ^ 32) }
    ensures { Pushed s.old s.new top first second }
{
    s[top] = first as u32;
    s[top + 1] = second as u32;
}

// Puts a leaf's name on the stack, with what it means.
pub(crate) fn push_name(s: &mut [u32], top: usize, leaf: usize, m: Meaning)
    requires { (top + 2 ≤ length s.old) × (leaf < 2 ^ 32) × (entry_of m < 2 ^ 32) × FineName (name_at s.old leaf) }
    ensures { PushedName s.old s.new top leaf (entry_of m) }
{
    let width = entry(s, leaf + 1);
    let place = entry(s, leaf + 2);
    push(s, top, place * 65536 + width, encode(m));
}
