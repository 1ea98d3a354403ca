//! The law of specifications.
ghost use Rattle.std.specs.Prelude.{◌≡◌, ◌≤◌, ◌⊎◌, ℕ, List, All, length};
ghost use Rattle.rd_ecl.specs.Specified.{IsKind, SpecifiedKind};
ghost use Rattle.rd_print.specs.Printed.{spec_text};
ghost use Rattle.rd_base.specs.declared.limits.TheConstants.{MOST_SPEC_BYTES};
ghost use Rattle.rd_spec.specs.Again.{MayBeRead};
ghost use Rattle.rd_spec.specs.Blocks.{IsOfBlocks};
ghost use Rattle.rd_reading.specs.Texts.{HasNewNames, IsSpecRefused, SpecSays};
ghost use Rattle.rd_reading.specs.declared.parsing.SpecRefused.{SpecRefused};

/// The law of specifications: each text says one specification or has one refusal, and never both. A text that says kinds is a
/// header of one of the two versions and a block for each of them. They are always at most 32, of different names, none of them taken,
/// each with a formula in the fragment for each pair of its methods. A text of such blocks that isn't too long says these kinds, and so
/// does the canonical text of such kinds, which is of version 1.
pub fn law_of_specifications()
    // each text says one specification, or has one refusal
    ensures judged { (text : List ℕ) (taken : List (List ℕ)) →
        ((kinds : List SpecifiedKind) × SpecSays text taken kinds)
        ⊎ ((refused : SpecRefused) × IsSpecRefused text taken refused) }
    ensures one { (text : List ℕ) (taken : List (List ℕ)) (x y : List SpecifiedKind) →
        SpecSays text taken x → SpecSays text taken y → x ≡ y }
    ensures refusal { (text : List ℕ) (taken : List (List ℕ)) (x y : SpecRefused) →
        IsSpecRefused text taken x → IsSpecRefused text taken y → x ≡ y }
    ensures right { (text : List ℕ) (taken : List (List ℕ)) (x : List SpecifiedKind)
        (refused : SpecRefused)
        → SpecSays text taken x → ¬ (IsSpecRefused text taken refused) }

    // a text that says kinds is a header and a block for each of them, which are kinds with names of their own; and such a text,
    // where it isn't too long, says these kinds
    ensures blocks { (text : List ℕ) (taken : List (List ℕ)) (kinds : List SpecifiedKind) →
        SpecSays text taken kinds → IsOfBlocks text kinds }
    ensures kinds { (text : List ℕ) (taken : List (List ℕ)) (kinds : List SpecifiedKind) →
        SpecSays text taken kinds → All IsKind kinds }
    ensures names { (text : List ℕ) (taken : List (List ℕ)) (kinds : List SpecifiedKind) →
        SpecSays text taken kinds → HasNewNames taken kinds }
    ensures read { (text : List ℕ) (taken : List (List ℕ)) (kinds : List SpecifiedKind) →
        IsOfBlocks text kinds → All IsKind kinds → HasNewNames taken kinds →
        length text ≤ MOST_SPEC_BYTES → SpecSays text taken kinds }

    // the canonical text is read again
    ensures again { (kinds : List SpecifiedKind) (taken : List (List ℕ)) → MayBeRead kinds taken
        → SpecSays (spec_text kinds) taken kinds }
{}
