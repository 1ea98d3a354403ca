//! The law of a log's lines.
ghost use Rattle.std.specs.Prelude.{◌≡◌, ◌↔◌, ℕ, List, Some};
ghost use Rattle.rd_base.specs.Names.{IsName};
ghost use Rattle.rd_logs.specs.declared.lines.LogLine.{LogLine};
ghost use Rattle.rd_logs.specs.LogLines.{LogLineInRange, SaysInLog, header_spelling, log_header_of, log_line_of, log_spelling};

/// The law of a log's lines: `log_line_of` gives exactly the lines of the thread's log that the bytes say, each in its range, it gives each line again from
/// the line's spelling, and no bytes say two. `log_header_of` gives exactly the thread whose
/// header they are, and no bytes are the headers of two.
pub fn law_of_log_lines()
    ensures test { (thread bytes : List ℕ) (line : LogLine) → IsName thread → LogLineInRange thread line →
        (SaysInLog bytes line ↔ log_line_of thread bytes ≡ Some line) }
    ensures range { (thread bytes : List ℕ) (line : LogLine) → IsName thread → log_line_of thread bytes ≡ Some line → LogLineInRange thread line }
    ensures again { (thread : List ℕ) (line : LogLine) → IsName thread → LogLineInRange thread line →
        log_line_of thread (log_spelling line) ≡ Some line }
    ensures one_line { (thread bytes : List ℕ) (x y : LogLine) → IsName thread → LogLineInRange thread x → LogLineInRange thread y →
        SaysInLog bytes x → SaysInLog bytes y → x ≡ y }
    ensures header_read { (thread bytes : List ℕ) → IsName thread → (bytes ≡ header_spelling thread ↔ log_header_of bytes ≡ Some thread) }
    ensures header { (thread other : List ℕ) → header_spelling thread ≡ header_spelling other → thread ≡ other }
{}
