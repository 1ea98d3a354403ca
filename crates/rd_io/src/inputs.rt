//! Sources of bytes.
ghost use Rattle.std.specs.Prelude.{ℕ, ◌≤◌, Option, length, IfOk};
ghost use Rattle.rd_io.specs.Inputs.{Source, Goes, Opens, Reads, HasCause};

use rd_base::Word;
use thiserror::Error;

/// An input or an output failed.
#[derive(Clone, Copy, Debug, PartialEq, Eq, Error)]
#[error("input or output failed")]
pub struct Failed;

/// Files that are read one after another. One that was opened is the current input.
pub trait Inputs {
    /// The files, what is left of the current input, and what was taken of it. None where this isn't told.
    ghost told: { Self → Option Source };

    /// How often opening or reading has failed: a count of 64 bits that stays at its last value.
    ghost faults: { Self → ℕ };

    /// Makes the named file the current input, with nothing taken of it. A missing name is a fault.
    /// After an `Err` the current input is as before.
    fn open(&mut self, name: &Word) -> Result<(), Failed>
        ensures told { Goes (told self.old) (told self.new)
            (λ old new. Opens old new name.now result) }
        ensures cause { HasCause (faults self.old) (faults self.new) result };

    /// Moves the next bytes of the current input to the front of the buffer, and answers how many. 0 at a
    /// buffer with room means the end of the input, for good, and before a file was opened each answer is 0. After an `Err` nothing was taken.
    fn read(&mut self, buffer: &mut [u8]) -> Result<usize, Failed>
        ensures bound { IfOk result (λ count. count ≤ length buffer.new) }
        ensures told { Goes (told self.old) (told self.new)
            (λ old new. Reads old new buffer.new result) }
        ensures cause { HasCause (faults self.old) (faults self.new) result };
}
