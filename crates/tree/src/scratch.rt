// The state of the reading, and the functions that read and write single entries of scratch. The symbols stand at its front, three
// entries each; the tree behind them.
ghost use Rattle.std.specs.Prelude.{◌+◌, ◌-◌, ◌*◌, ◌<◌, ◌≤◌, ◌≡◌, false, [], ◌∷◌, length};
ghost use Rattle.language.specs.Reader.{Source, value_at, place_at, the, optional};
ghost use Rattle.tree.specs.Encoding.{item, suffixed_kind};
ghost use Rattle.tree.specs.Reads.{HoldsSymbols, Ready, LeavesRoom, TakesRoom, Here, KindHere, Refuses, Adds, record_from, behind_from};
ghost use Rattle.tree.specs.Reads.{SetsSize, free_of, Reading, Encodes};
ghost use Rattle.tree.specs.Between.{CallHere, PlaceHere};

use crate::kinds::{CALLED, NOTHING, SUFFIXED};
use text::Fault;

#[derive(Clone, Copy)]
pub(crate) enum State {
    // the position of the next symbol, and the next free entry
    Read { at: usize, free: usize },
    // what is wrong, and the position of the symbol refused
    Refused { fault: Fault, at: usize },
}

// The three entries of the symbol here. One function that is told which would have to say what each is where no symbol stands: no plainer.
pub(crate) fn kind_here(s: &[u32], n: usize, r: State) -> u32
    requires { Ready 0 s.now n r }
    ensures { (src : Source) → HoldsSymbols src n s.now → KindHere src r result }
{
    match r {
        State::Read { at, .. } if at < n => s[at * 3],
        _ => NOTHING,
    }
}

pub(crate) fn value_here(s: &[u32], n: usize, r: State) -> u32
    requires { Ready 0 s.now n r }
    ensures { (src : Source) → HoldsSymbols src n s.now → Here (value_at src) n r result }
{
    match r {
        State::Read { at, .. } if at < n => s[at * 3 + 1],
        _ => 0,
    }
}

pub(crate) fn place_here(s: &[u32], n: usize, r: State) -> u32
    requires { Ready 0 s.now n r }
    ensures { (src : Source) → HoldsSymbols src n s.now → Here (place_at src) n r result }
{
    match r {
        State::Read { at, .. } if at < n => s[at * 3 + 2],
        _ => 0,
    }
}

// The next free entry.
#[tactic(auto, unfolding(crate::specs::Reads::free_of))]
pub(crate) fn free_of(s: &[u32], r: State) -> usize
    ensures { result ≡ free_of (length s.now) r }
{
    match r {
        State::Read { free, .. } => free,
        State::Refused { .. } => s.len(),
    }
}

pub(crate) fn refuse(s: &[u32], n: usize, r: State, fault: Fault) -> State
    requires { Ready 0 s.now n r }
    ensures { LeavesRoom 5 s.now s.now n r result × Refuses fault r result }
{
    match r {
        State::Read { at, .. } => State::Refused { fault, at },
        State::Refused { .. } => r,
    }
}

// The symbol here is of that kind, or it is refused.
pub(crate) fn expect(s: &[u32], n: usize, r: State, kind: u32) -> State
    requires { Ready 0 s.now n r × (0 < kind) }
    ensures { Reading 5 (the kind) (Encodes (λ _. [])) s.now s.now n r result }
{
    match r {
        State::Read { at, free } => if at < n && s[at * 3] == kind {
            State::Read { at: at + 1, free }
        } else {
            State::Refused {
                fault: Fault::Unexpected,
                at,
            }
        },
        State::Refused { .. } => r,
    }
}

// [symbol]
pub(crate) fn optional(s: &[u32], n: usize, kind: u32, r: State) -> State
    requires { Ready 0 s.now n r × (0 < kind) }
    ensures { Reading 0 (optional kind) (Encodes (λ _. [])) s.now s.now n r result }
{
    if kind_here(s, n, r) == kind {
        expect(s, n, r, kind)
    } else {
        r
    }
}

// Writes a record behind what stands from lo on.
pub(crate) fn node(
    s: &mut [u32],
    n: usize,
    r: State,
    lo: usize,
    value: u32,
    place: u32,
    kind: u32,
) -> State
    requires { Ready 4 s.old n r }
    ensures { TakesRoom 4 s.old s.new n r result
        × Adds (record_from lo value place kind) s.old s.new r result }
{
    let State::Read { at, free } = r else {
        return r;
    };
    s[free] = free.saturating_sub(lo) as u32;
    s[free + 1] = value;
    s[free + 2] = place;
    s[free + 3] = kind;
    State::Read { at, free: free + 4 }
}

// Begins an item of a list: its size, which is set later, and its tag.
pub(crate) fn begin_item(s: &mut [u32], n: usize, r: State, tag: u32) -> State
    requires { Ready 2 s.old n r }
    ensures { TakesRoom 2 s.old s.new n r result × Adds (λ _. 0 ∷ tag ∷ []) s.old s.new r result }
{
    let State::Read { at, free } = r else {
        return r;
    };
    s[free] = 0;
    s[free + 1] = tag;
    State::Read { at, free: free + 2 }
}

// Sets the size of the item that begins at lo.
pub(crate) fn set_size(s: &mut [u32], n: usize, r: State, lo: usize)
    requires { Ready 0 s.old n r × (n * 3 ≤ lo) }
    ensures { LeavesRoom 0 s.old s.new n r r × SetsSize lo s.old s.new r }
{
    match r {
        State::Read { free, .. } if lo < free => s[lo] = (free - lo).saturating_sub(2) as u32,
        _ => {}
    }
}

// Ends a suffix, which begins at lo: its size and its tag behind it.
pub(crate) fn close_item(s: &mut [u32], n: usize, r: State, lo: usize, tag: u32) -> State
    requires { Ready 2 s.old n r }
    ensures { TakesRoom 2 s.old s.new n r result × Adds (behind_from lo tag) s.old s.new r result }
{
    let State::Read { at, free } = r else {
        return r;
    };
    s[free] = free.saturating_sub(lo) as u32;
    s[free + 1] = tag;
    State::Read { at, free: free + 2 }
}

// The kind of a record with suffixes, by whether the last of them is a call.
#[tactic(auto, unfolding(crate::specs::Encoding::suffixed_kind))]
pub(crate) fn suffixed_kind(call: bool) -> u32
    ensures { result ≡ suffixed_kind call }
{
    if call { CALLED } else { SUFFIXED }
}

// Whether the expression that ends at the next free entry is a call: its record says so.
pub(crate) fn is_call(s: &[u32], n: usize, r: State) -> bool
    requires { Ready 0 s.now n r }
    ensures { CallHere s.now r result }
{
    match r {
        State::Read { free, .. } => 0 < free && s[free - 1] == CALLED,
        State::Refused { .. } => false,
    }
}

// The place of the expression that ends at the next free entry.
pub(crate) fn place_of(s: &[u32], n: usize, r: State) -> u32
    requires { Ready 0 s.now n r }
    ensures { PlaceHere s.now r result }
{
    match r {
        State::Read { free, .. } if 1 < free => s[free - 2],
        _ => 0,
    }
}
