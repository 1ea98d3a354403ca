//! The law of lines: what their definition says, proved for all bytes.
ghost use Rattle.std.specs.Prelude.{◌≡◌, ℕ, List, ◌++◌};
ghost use Rattle.rd_io.specs.Lines.{IsFrontOfReading, Reading, Stop, reading};
ghost use Rattle.rd_io.specs.Lines.Stop.{fault};
ghost use Rattle.rd_io.specs.SaidLines.{SaysLines};

/// All bytes say lines and an ending, and only one list of lines with one ending. The lines of bytes behind which a read fails are the
/// first lines of the whole, whatever bytes were still to come: all but that they stop by the fault, unless they stop before it, as
/// those of the whole then do.
pub fn law_of_lines()
    ensures some { (limit room : ℕ) (stop : Stop) (bytes : List ℕ) →
        SaysLines limit room stop bytes (reading limit room stop bytes) }
    ensures one { (limit room : ℕ) (stop : Stop) (bytes : List ℕ) (lines : Reading) →
        SaysLines limit room stop bytes lines → lines ≡ reading limit room stop bytes }
    ensures front { (limit room : ℕ) (stop : Stop) (bytes more : List ℕ) →
        IsFrontOfReading (reading limit room fault bytes) (reading limit room stop (bytes ++ more)) }
{}
