//! Sinks of bytes.
ghost use Rattle.std.specs.Prelude.{◌≡◌, ℕ, ◌≤◌, List, Option, take, length, true, false, IfOk, IfErr, OnOk, OnErr};
ghost use Rattle.rd_io.specs.Inputs.{Rose};
ghost use Rattle.rd_io.specs.Sinks.{Appends, Writes, is_failed};

use crate::inputs::Failed;
use thiserror::Error;

/// A place that bytes are written to.
pub trait Sink {
    /// The bytes so far. None where this isn't told.
    ghost written: { Self → Option (List ℕ) };

    /// How often a write has failed, or taken nothing of a part that wasn't empty: a count of 64 bits that
    /// stays at its last value.
    ghost faults: { Self → ℕ };

    /// The bytes so far when a write last failed. None where this isn't told, or none has failed.
    ghost at_fault: { Self → Option (List ℕ) };

    /// Writes a front of the part, and answers how many bytes. After an `Err` nothing was written.
    fn write(&mut self, part: &[u8]) -> Result<usize, Failed>
        ensures bound { IfOk result (λ count. count ≤ length part.now) }
        ensures written { Writes (written self.old) (written self.new) part.now result }
        ensures later { faults self.old ≤ faults self.new }
        ensures failed { is_failed part.now result ≡ true → Rose (faults self.old) (faults self.new)
            × (at_fault self.new ≡ written self.new) }
        ensures calm { is_failed part.now result ≡ false →
            (faults self.new ≡ faults self.old) × (at_fault self.new ≡ at_fault self.old) };
}

/// A write failed after this many bytes of the part.
#[derive(Clone, Copy, Debug, PartialEq, Eq, Error)]
#[error("the output failed after {written} bytes")]
pub struct WriteFault {
    pub written: usize,
}

/// Writes the whole part, in as many writes as it takes. A fault comes only where a write failed or took
/// nothing: it is the last one that did, and the bytes before it are written. It takes no memory.
pub fn write_all<S: Sink>(out: &mut S, part: &[u8]) -> Result<(), WriteFault>
    ensures ok { OnOk result (Appends (S.written out.old) (S.written out.new) part.now) }
    ensures front { IfErr result (λ fault. (fault.written ≤ length part.now)
        × Appends (S.written out.old) (S.written out.new) (take fault.written part.now)) }
    ensures later { S.faults out.old ≤ S.faults out.new }
    ensures calm { OnOk result (S.faults out.new ≡ S.faults out.old) }
    ensures kept { OnOk result (S.at_fault out.new ≡ S.at_fault out.old) }
    ensures cause { OnErr result (Rose (S.faults out.old) (S.faults out.new)
        × (S.at_fault out.new ≡ S.written out.new)) }
{
    let mut written = 0;
    while written < part.len() {
        match out.write(&part[written..]) {
            Ok(count) => {
                if count == 0 {
                    return Err(WriteFault { written });
                }
                written += count;
            }
            Err(Failed) => return Err(WriteFault { written }),
        }
    }
    Ok(())
}
