//! The laws of lines of reads and writes.
ghost use Rattle.std.specs.Prelude.{◌≡◌, ◌≢◌, ◌↔◌, ℕ, List, [], ◌∷◌, ◌++◌, true, false, Some, None, All, IsTrue, codes};
ghost use Rattle.std.specs.Option.{option_map};
ghost use Rattle.rd_event.specs.declared.items.Line.{Line};
ghost use Rattle.rd_event.specs.declared.items.Line.TheVariants.{Skip as SkippedItem};
ghost use Rattle.rd_event.specs.Items.{HasItem, LineInRange, is_skipped};
ghost use Rattle.rd_event.specs.Reading.{item_of, names_read};
ghost use Rattle.rd_rules.specs.MayFollow.{is_among};
ghost use Rattle.rd_memory.specs.declared.lines.MemLine.{MemLine};
ghost use Rattle.rd_memory.specs.declared.lines.MemLine.TheVariants.{Header};
ghost use Rattle.rd_memory.specs.MemoryLines.{MemLineInRange, SaysMemory, access_of, common_keywords, memory_line_of, memory_spelling};
ghost use Rattle.rd_memory.specs.MemoryTraces.{items_said, memory_says};

/// The law of lines: `memory_line_of` gives exactly the lines that the bytes say, each in its range, it gives each line again from the
/// line's spelling, and no bytes say two.
pub fn law_of_memory_lines()
    ensures test { (bytes : List ℕ) (line : MemLine) → MemLineInRange line →
        (SaysMemory bytes line ↔ memory_line_of bytes ≡ Some line) }
    ensures range { (bytes : List ℕ) (line : MemLine) → memory_line_of bytes ≡ Some line → MemLineInRange line }
    ensures again { (line : MemLine) → MemLineInRange line → memory_line_of (memory_spelling line) ≡ Some line }
    ensures one_line { (bytes : List ℕ) (x y : MemLine) → MemLineInRange x → MemLineInRange y →
        SaysMemory bytes x → SaysMemory bytes y → x ≡ y }
{}

/// The law of traces: what a line stands for are items of a trace of version 1, in their ranges.
pub fn law_of_memory_traces()
    ensures range { (before : List Line) (line : MemLine) → MemLineInRange line → All LineInRange (items_said before line) }
    ensures version { (before : List Line) (line : MemLine) → MemLineInRange line → All (HasItem 1) (items_said before line) }
{}

/// The law of keywords: what a line says by the text that its bytes begin with.
pub fn law_of_keywords()
    // accesses and the header
    ensures read { (names : List ℕ) → memory_line_of (codes "read " ++ names) ≡ option_map (access_of false) (names_read names) }
    ensures write { (names : List ℕ) → memory_line_of (codes "write " ++ names) ≡ option_map (access_of true) (names_read names) }
    ensures header { memory_line_of (codes "rdmem 1") ≡ Some Header }

    // what says the same in a trace of each version
    ensures common { (keyword : List ℕ) → IsTrue (is_among common_keywords keyword) →
        (before : List Line) (version : ℕ) (rest : List ℕ) →
        memory_says before (keyword ++ rest) ≡ option_map (λ item. item ∷ []) (item_of version (keyword ++ rest)) }
    ensures skipped { (before : List Line) (bytes : List ℕ) → is_skipped bytes ≡ true →
        memory_says before bytes ≡ Some (SkippedItem ∷ []) }

    // nothing else says anything
    ensures other { (bytes : List ℕ) →
        ((rest : List ℕ) → bytes ≢ codes "read " ++ rest) → ((rest : List ℕ) → bytes ≢ codes "write " ++ rest) →
        ((rest : List ℕ) → bytes ≢ codes "acquire " ++ rest) → ((rest : List ℕ) → bytes ≢ codes "release " ++ rest) →
        ((rest : List ℕ) → bytes ≢ codes "join " ++ rest) → ((rest : List ℕ) → bytes ≢ codes "fork " ++ rest) →
        ((rest : List ℕ) → bytes ≢ codes "thread " ++ rest) →
        bytes ≢ codes "rdmem 1" → is_skipped bytes ≡ false → memory_line_of bytes ≡ None }
{}
