//! Pairs of slots.
ghost use Rattle.std.specs.Prelude.{◌≡◌, ◌≤◌, length, insert, OnOk, OnErr, IfOk, IfNone, IfSome, [], ◌∷◌, ◌++◌};
ghost use Rattle.rd_ecl.specs.SlotPairs.{has_pair, insert_pair, is_before, same_pair, union_pairs};

use rd_base::NoMemory;
use std::alloc::Global;
use std::marker::Model;

/// Pairs of a slot of side 1 and a slot of side 2, one after another. Contracts see it as the list of the pairs.
#[derive(Drop)]
pub struct SlotPairs {
    held: Vec<(u8, u8)>,
}

impl Model for SlotPairs {
    ghost use Rattle.std.specs.Prelude.{List, ℕ};

    ghost Value = { List (ℕ × ℕ) };

    ghost view = { λ s. s.held.items };
}

// Does the one stand before the other?
fn is_before(x: (u8, u8), y: (u8, u8)) -> bool
    ensures { result ≡ is_before x y }
{
    x.0 < y.0 || (x.0 == y.0 && x.1 < y.1)
}

// Are they the same?
fn are_same(x: (u8, u8), y: (u8, u8)) -> bool
    ensures { result ≡ same_pair x y }
{
    x.0 == y.0 && x.1 == y.1
}

// Where the pair goes, unless it is there.
fn place(pairs: &[(u8, u8)], pair: (u8, u8)) -> Option<usize>
    ensures there { IfNone result (pairs.now ≡ insert_pair pair pairs.now) }
    ensures within { IfSome result (λ i. i ≤ length pairs.now) }
    ensures free { IfSome result (λ i. insert pairs.now i pair ≡ insert_pair pair pairs.now) }
{
    for at in 0..pairs.len() {
        let other = pairs[at];
        if is_before(other, pair) {
            continue;
        }
        if are_same(other, pair) {
            return None;
        }
        return Some(at);
    }
    Some(pairs.len())
}

// Puts a pair in its place, if it isn't there.
fn put(pairs: &mut Vec<(u8, u8)>, pair: (u8, u8)) -> Result<(), NoMemory>
    ensures { OnOk result (pairs.new.items ≡ insert_pair pair pairs.old.items) }
{
    if let Some(at) = place(pairs.as_slice(), pair) {
        pairs.insert(at, pair)?;
    }
    Ok(())
}

impl SlotPairs {
    /// No pairs. It takes no memory.
    pub fn new(alloc: Global) -> SlotPairs
        ensures { result ≡ [] }
    {
        SlotPairs {
            held: Vec::new(alloc),
        }
    }

    /// Puts a pair last. After want of memory the list is as before.
    pub fn push(&mut self, item: (u8, u8)) -> Result<(), NoMemory>
        ensures ok { OnOk result (self.new ≡ self.old ++ item ∷ []) }
        ensures err { OnErr result (self.new ≡ self.old) }
    {
        self.held.push(item)?;
        Ok(())
    }

    /// The pairs. It takes no memory.
    pub fn items(&self) -> &[(u8, u8)]
        ensures { result.now ≡ self.now }
    {
        self.held.as_slice()
    }

    /// Is this pair among them? It takes no memory.
    pub fn has(&self, first: u8, second: u8) -> bool
        ensures { result ≡ has_pair (first, second) self.now }
    {
        self.held
            .iter()
            .any(|pair| are_same(*pair, (first, second)))
    }

    // The one pair.
    pub(crate) fn one(alloc: Global, first: u8, second: u8) -> Result<SlotPairs, NoMemory>
        ensures { IfOk result (λ pairs. pairs ≡ (first, second) ∷ []) }
    {
        let mut held = Vec::new(alloc);
        held.push((first, second))?;
        Ok(SlotPairs { held })
    }

    // With the pairs of the other too, each in its place.
    pub(crate) fn union(mut self, other: &SlotPairs) -> Result<SlotPairs, NoMemory>
        ensures { IfOk result (λ pairs. pairs ≡ union_pairs self other.now) }
    {
        for pair in other.held.iter() {
            put(&mut self.held, *pair)?;
        }
        Ok(self)
    }
}
