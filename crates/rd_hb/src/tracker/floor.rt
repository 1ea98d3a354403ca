//! What all threads know that may still have an event.
ghost use Rattle.std.specs.Prelude.{◌≡◌, ◌<◌, ◌≤◌, ◌++◌, ◌∷◌, ℕ, [], List, Option, IfOk, take};
ghost use Rattle.rd_hb.specs.Tracker.{IsFloor};
ghost use Rattle.rd_hb.specs.TrackerParts.{IsFloorSoFar};
ghost use Rattle.rd_hb.specs.declared.tracker.Tracked.{Tracked as TrackedOf};

use super::{Tracked, Tracker};
use rd_base::NoMemory;
use rd_clock::Clock;
use std::alloc::Global;

impl Tracker {
    /// Of each thread the least number of its events that a thread knows which wasn't joined; of all threads 0 where each was. The clock
    /// counts no steps.
    pub fn floor(&self) -> Result<Clock, NoMemory>
        ensures { IfOk result (λ floor. IsFloor self.now.threads floor) }
    {
        let threads = self.threads.as_slice();
        let mut floor = None;
        for at in 0..threads.len() {
            floor = lowered(self.alloc, floor, &threads[at])?;
        }
        match floor {
            Some(floor) => Ok(floor),
            None => Ok(Clock::new(self.alloc)),
        }
    }
}

// The floor of some threads, where one of them wasn't joined, with one thread more.
fn lowered(
    alloc: Global,
    floor: Option<Clock>,
    tracked: &Tracked,
) -> Result<Option<Clock>, NoMemory>
    ensures { IfOk result (λ now. (threads : List TrackedOf) → IsFloorSoFar threads floor →
        IsFloorSoFar (threads ++ tracked.now ∷ []) now) }
{
    if tracked.joined {
        return Ok(floor);
    }
    match floor {
        None => Ok(Some(tracked.clock.copy(alloc)?)),
        Some(mut floor) => {
            floor.meet(&tracked.clock);
            Ok(Some(floor))
        }
    }
}
