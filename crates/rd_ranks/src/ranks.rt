//! What each of many has, with counts over them.
ghost use Rattle.std.specs.Prelude.{◌≡◌, ◌<◌, ◌≤◌, ◌+◌, ◌/◌, length, filter_map, take, replicate, slice_get, slice_set, IfOk, IfSome, IfNone, Some, None};
ghost use Rattle.rd_ranks.specs.Ranks.{IsCountTree, IsCountTreeBut};

use rd_base::NoMemory;
use std::alloc::Global;
use std::marker::Model;

/// What each of many has, where it has something. Contracts see it as the list of these, from the first to the last.
#[derive(Drop)]
pub struct Ranks {
    given: Vec<Option<u32>>,
    // A binary tree: the root is at 1, and below the node at a place are those at twice the place and next to it. The leaves are the second
    // half, as many as a power of two, and the first of them stand for what is given. A leaf has 1 where something is given, and another
    // node the sum of the two below it.
    counts: Vec<u32>,
}

impl Model for Ranks {
    ghost use Rattle.std.specs.Prelude.{ℕ, List, Option};
    ghost use Rattle.rd_ranks.specs.Ranks.{IsCountTree};

    ghost Value = { List (Option ℕ) };

    ghost view = { λ r. r.given.items };

    ghost invariant = { λ r. IsCountTree r.given.items r.counts.items };
}

// Counts the leaf of what is given here and then each node above it, up to the root, where the other counts are right.
fn count_above(given: &[Option<u32>], counts: &mut [u32], at: usize)
    requires inside { at < length given.now }
    requires tree { IsCountTreeBut given.now counts.old (length counts.old / 2 + at) }
    ensures { IsCountTree given.now counts.new }
{
    let mut node = counts.len() / 2 + at;
    counts[node] = u32::from(given[at].is_some());
    while node > 1 {
        node /= 2;
        counts[node] = counts[2 * node] + counts[2 * node + 1];
    }
}

// The one that has something at this position among those that do, and what it has.
fn find(given: &[Option<u32>], counts: &[u32], position: usize) -> Option<(usize, u32)>
    requires { IsCountTree given.now counts.now }
    ensures some { IfSome result (λ found. (slice_get given.now found.0 ≡ Some (Some found.1))
        × (slice_get (filter_map (λ value. value) given.now) position ≡ Some found.1)
        × (length (filter_map (λ value. value) (take found.0 given.now)) ≡ position)) }
    ensures none { IfNone result (length (filter_map (λ value. value) given.now) ≤ position) }
{
    if counts[1] as usize <= position {
        return None;
    }
    let leaves = counts.len() / 2;
    let mut node = 1;
    let mut left = position;
    while node < leaves {
        node *= 2;
        let first = counts[node] as usize;
        if first <= left {
            left -= first;
            node += 1;
        }
    }
    let at = node - leaves;
    match given[at] {
        Some(value) => Some((at, value)),
        None => None,
    }
}

impl Ranks {
    /// As many as are told, none of which has anything.
    pub fn new(alloc: Global, count: usize) -> Result<Ranks, NoMemory>
        requires { count < 4294967296 }
        ensures { IfOk result (λ ranks. ranks ≡ replicate count None) }
    {
        let mut given = Vec::new(alloc);
        given.resize(count, None)?;
        let leaves = count.next_power_of_two();
        let mut counts = Vec::new(alloc);
        counts.resize(2 * leaves, 0)?;
        Ok(Ranks { given, counts })
    }

    /// Sets what one has. It takes no memory, and at most time in the logarithm of how many there are.
    pub fn set(&mut self, at: usize, given: Option<u32>)
        requires { at < length self.old }
        ensures { self.new ≡ slice_set self.old at given }
    {
        let had = self.given[at].is_some();
        self.given[at] = given;
        // where it has something as before, the counts stay
        if had != given.is_some() {
            count_above(self.given.as_slice(), self.counts.as_mut_slice(), at);
        }
    }

    /// How many have something. It takes no memory.
    pub fn count(&self) -> usize
        ensures { result ≡ length (filter_map (λ given. given) self.now) }
    {
        self.counts[1] as usize
    }

    /// Of those that have something the one at this position, from 0, and what it has; `None` exactly where there are no more than so
    /// many. It takes no memory, and time in the logarithm of how many there are.
    pub fn nth(&self, position: usize) -> Option<(usize, u32)>
        ensures some { IfSome result (λ found. (slice_get self.now found.0 ≡ Some (Some found.1))
            × (slice_get (filter_map (λ given. given) self.now) position ≡ Some found.1)
            × (length (filter_map (λ given. given) (take found.0 self.now)) ≡ position)) }
        ensures none { IfNone result
            (length (filter_map (λ given. given) self.now) ≤ position) }
    {
        find(self.given.as_slice(), self.counts.as_slice(), position)
    }
}
