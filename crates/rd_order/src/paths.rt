//! Paths from one place to another.
ghost use Rattle.std.specs.Prelude.{◌≡◌, ◌<◌, ◌≤◌, ◌+◌, ◌++◌, [], ◌∷◌, length, IfOk, IfSome, IfNone, OnOk, OnErr};
ghost use Rattle.rd_order.specs.Order.{IsPath, Reaches};
ghost use Rattle.rd_order.specs.Paths.{AreFarthestSteps, IsFarthestPath};

use crate::steps::{FarthestSteps, farthest_steps};
use rd_base::NoMemory;
use rd_event::Event;
use std::alloc::Global;
use std::marker::Model;

/// Places of events, one after another. Contracts see it as the list of the places.
#[derive(Drop)]
pub struct Places {
    held: Vec<u32>,
}

impl Model for Places {
    ghost use Rattle.std.specs.Prelude.{List, ℕ};

    ghost Value = { List ℕ };

    ghost view = { λ p. p.held.items };
}

impl Places {
    /// No places. It takes no memory.
    pub fn new(alloc: Global) -> Places
        ensures { result ≡ [] }
    {
        Places {
            held: Vec::new(alloc),
        }
    }

    /// Puts a place last. After want of memory the list is as before.
    pub fn push(&mut self, item: u32) -> Result<(), NoMemory>
        ensures ok { OnOk result (self.new ≡ self.old ++ item ∷ []) }
        ensures err { OnErr result (self.new ≡ self.old) }
    {
        self.held.push(item)?;
        Ok(())
    }

    /// The places. It takes no memory.
    pub fn items(&self) -> &[u32]
        ensures { result.now ≡ self.now }
    {
        self.held.as_slice()
    }
}

/// The farthest path from i to j along steps to j. There is none exactly where i doesn't reach j.
pub fn path_along(
    alloc: Global,
    events: &[Event],
    steps: &FarthestSteps,
    i: u32,
    j: u32,
) -> Result<Option<Places>, NoMemory>
    requires below { i < j }
    requires inside { j ≤ i + length steps.now }
    requires known { AreFarthestSteps events.now j steps.now }
    ensures farthest { IfOk result (λ found.
        IfSome found (λ places. IsFarthestPath events.now i places j)) }
    ensures none { IfOk result (λ found. IfNone found (¬ (Reaches events.now i j))) }
{
    let mut places = Places::new(alloc);
    places.push(i)?;
    let mut last = i;
    while last < j {
        let Some(next) = steps.step(last, j) else {
            return Ok(None);
        };
        places.push(next)?;
        last = next;
    }
    Ok(Some(places))
}

/// The farthest path from the first place to the second: rising places, at least two, of which there is an edge from each to the
/// next, which is the greatest place to which an edge leads and that is the second place or reaches it. There is none exactly where
/// the first place doesn't reach the second. It looks at each place between the two once. It takes memory only where the first place
/// comes before the second.
pub fn path(alloc: Global, events: &[Event], i: u32, j: u32) -> Result<Option<Places>, NoMemory>
    requires from { i < length events.now }
    requires to { j < length events.now }
    ensures some { IfOk result (λ found. IfSome found (λ places. IsPath events.now i places j)) }
    ensures farthest { IfOk result (λ found.
        IfSome found (λ places. IsFarthestPath events.now i places j)) }
    ensures none { IfOk result (λ found. IfNone found (¬ (Reaches events.now i j))) }
    ensures memory { OnErr result (i < j) }
{
    if j <= i {
        return Ok(None);
    }
    let steps = farthest_steps(alloc, events, i, j)?;
    path_along(alloc, events, &steps, i, j)
}
