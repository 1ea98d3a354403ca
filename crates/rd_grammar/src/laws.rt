//! Laws of the grammar.
ghost use Rattle.std.specs.Prelude.{◌≡◌, ◌⊎◌, List, ◌++◌};
ghost use Rattle.rd_grammar.specs.Canonical.{AreCanonical};
ghost use Rattle.rd_grammar.specs.FirstWrong.{WrongAt};
ghost use Rattle.rd_grammar.specs.Grammar.{ParsedTree, MarksSay, disj};
ghost use Rattle.rd_grammar.specs.Numbers.{AreNumbered, NamesMarks, named_by, numbers_of};
ghost use Rattle.rd_grammar.specs.declared.marks.Mark.{Mark};

/// The law of the grammar: marks say one formula, or are wrong at one place, and not both. The canonical marks of a formula,
/// which each formula has, are read again as that formula.
pub fn law_of_grammar()
    ensures one { (ms : List Mark) (f g : ParsedTree) → MarksSay disj ms f → MarksSay disj ms g → f ≡ g }
    ensures judged { (ms : List Mark) → ((f : ParsedTree) × MarksSay disj ms f)
        ⊎ ((front : List Mark) × (rest : List Mark) × (ms ≡ front ++ rest)
        × WrongAt (MarksSay disj) front rest) }
    ensures right { (front rest : List Mark) (f : ParsedTree) → MarksSay disj (front ++ rest) f →
        ¬ (WrongAt (MarksSay disj) front rest) }
    ensures place { (front rest others more : List Mark) → front ++ rest ≡ others ++ more
        → WrongAt (MarksSay disj) front rest → WrongAt (MarksSay disj) others more → front ≡ others }
    ensures canonical { (f : ParsedTree) (ms : List Mark) → AreCanonical f ms → MarksSay disj ms f }
    ensures shown { (f : ParsedTree) → (ms : List Mark) × AreCanonical f ms }
{}

/// The law of the numbers: where each mark's number is its place, each node of a formula names the place of its own mark;
/// and the numbers that a formula names, from left to right, are those of its marks without the parentheses.
pub fn law_of_numbers()
    ensures names { (ms : List Mark) (f : ParsedTree) → AreNumbered ms → MarksSay disj ms f →
        NamesMarks ms f }
    ensures order { (ms : List Mark) (f : ParsedTree) → MarksSay disj ms f → named_by f ≡ numbers_of ms }
{}
