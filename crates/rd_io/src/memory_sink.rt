//! A sink in memory.
ghost use Rattle.std.specs.Prelude.{◌≡◌, ◌↔◌, ◌≤◌, length, true, false, IfOk, OnOk, OnErr, IsErr, Some};
ghost use Rattle.rd_io.specs.Inputs.{next_count};
ghost use Rattle.rd_io.specs.Sinks.{Writes, is_failed};
ghost use Rattle.rd_io.specs.MemorySink.{RefusesPart, empty_sink, with_part, with_failed_write};

use crate::calls::Calls;
use crate::inputs::Failed;
use crate::sinks::Sink;
use rd_base::NoMemory;
use std::alloc::Global;
use std::marker::Model;

/// A sink that keeps its bytes in memory, which it takes when it is made. Contracts see it as the bytes so far, how
/// many more there is room for, the bytes when a write last failed, and its calls of `write`.
#[derive(Drop)]
pub struct MemorySink {
    bytes: Vec<u8>,
    room: usize,
    // How many bytes there were when a write last failed.
    fault_at: Option<usize>,
    calls: Calls,
}

impl Model for MemorySink {
    ghost use Rattle.std.specs.Prelude.{◌+◌, ◌≤◌, take, option_map, vec_len, vec_capacity};
    ghost use Rattle.std.specs.Option.{ForSome};
    ghost use Rattle.rd_io.specs.MemorySink.{SinkState};

    ghost Value = { SinkState };

    ghost view = { λ s. record {
      written = s.bytes.items;
      room = s.room;
      at_fault = option_map (λ count. take count s.bytes.items) s.fault_at;
      calls = s.calls;
    } };

    ghost invariant = { λ s. (vec_len s.bytes + s.room ≤ vec_capacity s.bytes)
        × ForSome s.fault_at (λ count. count ≤ vec_len s.bytes) };
}

impl MemorySink {
    /// An empty sink with room for so many bytes. `failing` has the numbers of the calls of `write` that are to fail,
    /// counted from 1.
    pub fn new(alloc: Global, room: u32, failing: &[u32]) -> Result<MemorySink, NoMemory>
        ensures { IfOk result (λ sink. sink ≡ empty_sink room failing.now) }
    {
        let room = room as usize;
        Ok(MemorySink {
            bytes: Vec::with_capacity(alloc, room)?,
            room,
            fault_at: None,
            calls: Calls::new(alloc, failing)?,
        })
    }

    /// The bytes so far. It takes no memory.
    pub fn written(&self) -> &[u8]
        ensures { result.now ≡ self.now.written }
    {
        self.bytes.as_slice()
    }

    /// How many writes failed, a count that stays at its last value. It takes no memory.
    pub fn faults(&self) -> u64
        ensures { result ≡ self.now.calls.faults }
    {
        self.calls.faults()
    }
}

impl Sink for MemorySink {
    ghost written = { λ sink. Some sink.written };

    ghost faults = { λ sink. sink.calls.faults };

    ghost at_fault = { λ sink. sink.at_fault };

    /// Writes the whole part. It fails exactly where the call is named among those that are to fail, or the part is
    /// longer than the room that is left. It takes no memory.
    fn write(&mut self, part: &[u8]) -> Result<usize, Failed>
        // as each sink promises
        ensures bound { IfOk result (λ count. count ≤ length part.now) }
        ensures written { Writes (Some self.old.written) (Some self.new.written) part.now result }
        ensures later { self.old.calls.faults ≤ self.new.calls.faults }
        ensures failed { is_failed part.now result ≡ true →
            (self.new.calls.faults ≡ next_count self.old.calls.faults)
            × (self.new.at_fault ≡ Some self.new.written) }
        ensures calm { is_failed part.now result ≡ false →
            (self.new.calls.faults ≡ self.old.calls.faults)
            × (self.new.at_fault ≡ self.old.at_fault) }

        // and exactly what this one does
        ensures refused { IsErr result ↔ RefusesPart self.old part.now }
        ensures whole { IfOk result (λ count. count ≡ length part.now) }
        ensures ok { OnOk result (self.new ≡ with_part self.old part.now) }
        ensures err { OnErr result (self.new ≡ with_failed_write self.old) }
    {
        let failing = self.calls.is_next_failing();
        if failing || part.len() > self.room {
            self.fault_at = Some(self.bytes.len());
            return Err(self.calls.fail());
        }
        let Ok(()) = self.bytes.extend_from_slice(part) else {
            unreachable!();
        };
        self.room -= part.len();
        Ok(part.len())
    }
}
