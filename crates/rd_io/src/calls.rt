//! Calls of which some are to fail.
ghost use Rattle.std.specs.Prelude.{◌≡◌, ◌↔◌, ◌≤◌, IfOk, IsTrue};
ghost use Rattle.rd_io.specs.Calls.{FailsNext, no_calls, with_call, with_fault};

use crate::inputs::Failed;
use rd_base::NoMemory;
use std::alloc::Global;
use std::marker::Model;

/// The calls of an input or a sink in memory: which of them are to fail, how many there were, and how many failed.
/// Both counts have 64 bits and stay at their last value.
#[derive(Drop)]
pub struct Calls {
    failing: Vec<u32>,
    made: u64,
    faults: u64,
}

impl Model for Calls {
    ghost use Rattle.rd_io.specs.Calls.{CallCount};

    ghost Value = { CallCount };

    ghost view = { λ c. record { failing = c.failing.items; made = c.made; faults = c.faults } };
}

impl Calls {
    /// No call yet. The list has the numbers of the calls that are to fail, counted from 1.
    pub fn new(alloc: Global, failing: &[u32]) -> Result<Calls, NoMemory>
        ensures { IfOk result (λ calls. calls ≡ no_calls failing.now) }
    {
        Ok(Calls {
            failing: Vec::from_slice(alloc, failing)?,
            made: 0,
            faults: 0,
        })
    }

    /// Counts one more call, and answers whether it is to fail. It takes no memory.
    pub fn is_next_failing(&mut self) -> bool
        ensures answer { IsTrue result ↔ FailsNext self.old }
        ensures counted { self.new ≡ with_call self.old }
    {
        self.made = self.made.saturating_add(1);
        let made = self.made;
        self.failing.iter().any(|call| u64::from(*call) == made)
    }

    /// Counts one more fault. It takes no memory.
    pub fn fail(&mut self) -> Failed
        ensures counted { self.new ≡ with_fault self.old }
        ensures later { self.old.faults ≤ self.new.faults }
    {
        self.faults = self.faults.saturating_add(1);
        Failed
    }

    /// How many calls failed. It takes no memory.
    pub fn faults(&self) -> u64
        ensures { result ≡ self.now.faults }
    {
        self.faults
    }
}
