//! The law of definitions.
ghost use Rattle.std.specs.Prelude.{◌≡◌, ◌≢◌, ◌↔◌, ℕ, List, [], ◌∷◌, ◌++◌, None, Some, All, Contains};
ghost use Rattle.rd_ecl.specs.Formulas.{Tree};
ghost use Rattle.rd_definitions.specs.Definitions.{Definition, IsDefined, formula_of, names_defined};

/// A name stands for the formula of a definition of that name, and for none exactly where it isn't among the names that are defined. One
/// definition more changes nothing of what was found, and gives its formula to its own name alone. What is so of each definition is so of
/// what is found.
pub fn law_of_definitions()
    ensures found { (ds : List Definition) (name : List ℕ) (f : Tree) → formula_of ds name ≡ Some f →
        (d : Definition) × Contains ds d × (d.name ≡ name) × (d.formula ≡ f) }
    ensures unknown { (ds : List Definition) (name : List ℕ) →
        ((formula_of ds name ≡ None) ↔ ¬ (Contains (names_defined ds) name)) }
    ensures before { (ds : List Definition) (d : Definition) (name : List ℕ) (f : Tree) → formula_of ds name ≡ Some f →
        formula_of (ds ++ d ∷ []) name ≡ Some f }
    ensures last { (ds : List Definition) (d : Definition) → formula_of ds d.name ≡ None →
        formula_of (ds ++ d ∷ []) d.name ≡ Some d.formula }
    ensures other { (ds : List Definition) (d : Definition) (name : List ℕ) → d.name ≢ name →
        formula_of (ds ++ d ∷ []) name ≡ formula_of ds name }
    ensures defined { (count : ℕ) (ds : List Definition) (name : List ℕ) (f : Tree) → All (IsDefined count) ds →
        formula_of ds name ≡ Some f → IsDefined count (record { name = name; formula = f }) }
{}
