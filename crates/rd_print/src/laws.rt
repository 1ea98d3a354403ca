//! The law of printed texts.
ghost use Rattle.std.specs.Prelude.{◌≡◌, ℕ, List, ◌++◌, All, Some, codes, flat_map};
ghost use Rattle.rd_print.specs.Canonical.{canonical_words};
ghost use Rattle.rd_ecl.specs.Formulas.{Tree};
ghost use Rattle.rd_ecl.specs.Specified.{IsKind, SpecifiedKind, formula_at};
ghost use Rattle.rd_print.specs.Printed.{block_text, commute_words, name_at, pair_text, spec_lines, spec_text, variables_at};
ghost use Rattle.rd_print.specs.Text.{IsRightWord, words_text};

/// The law of printed texts: a specification's text is the header, then the text of each kind. The line of a pair is `commute`
/// and the text of the pair, which is the names of its methods and behind `when` the text of its formula. The words of each
/// line are sound.
pub fn law_of_printed_texts()
    ensures kinds { (kinds : List SpecifiedKind) →
        spec_text kinds ≡ codes "rdspec 1\n" ++ flat_map block_text kinds }
    ensures pair { (kind : SpecifiedKind) (first second : ℕ) →
        words_text (commute_words kind
        (first, second)) ≡ codes "commute " ++ pair_text kind first second }
    ensures formula { (kind : SpecifiedKind) (first second : ℕ) (f : Tree) →
        formula_at kind first second ≡ Some f
        → pair_text kind first second ≡ name_at kind.methods first ++ codes " " ++ name_at kind.methods second ++ codes " when "
        ++ words_text (canonical_words (variables_at kind.methods first)
        (variables_at kind.methods second) f) }
    ensures sound { (kinds : List SpecifiedKind) → All IsKind kinds → All (All IsRightWord) (spec_lines kinds) }
{}
