//! The law of the canonical words.
ghost use Rattle.std.specs.Prelude.{◌≡◌, ◌≢◌, ◌≤◌, ◌*◌, List, ℕ, All, AllPairs, length, true};
ghost use Rattle.rd_ecl.specs.Formulas.{Tree, Fits, has_slots, nodes, AreValues};
ghost use Rattle.rd_ecl.specs.Variables.{IsVariable};
ghost use Rattle.rd_formulas.specs.declared.scope.Scope.{Scope};
ghost use Rattle.rd_formulas.specs.Reading.{SaysFormula};
ghost use Rattle.rd_tokens.specs.declared.words.dialects.Dialect.TheVariants.{Sided};
ghost use Rattle.rd_print.specs.Canonical.{AreWords, canonical_words};

/// The law of the canonical words: tokens that are the canonical words of a formula, where variables have their sides and no name is
/// used, say that formula, and tokens say at most
/// one. A formula has at most three canonical words for each of its nodes.
pub fn law_of_canonical_words()
    ensures again { (scope : Scope) (f : Tree) → scope.dialect ≡ Sided → All IsVariable scope.first.now →
        All IsVariable scope.second.now
        → Fits f (length scope.first.now) (length scope.second.now) → has_slots f ≡ true →
        AreValues f
        → AreWords scope.line.now scope.tokens.now (canonical_words scope.first.now scope.second.now f) →
        SaysFormula scope f }
    ensures one { (scope : Scope) (f g : Tree) → AllPairs (λ x y. x ≢ y) scope.first.now →
        AllPairs (λ x y. x ≢ y) scope.second.now
        → SaysFormula scope f → SaysFormula scope g → f ≡ g }
    ensures few { (first second : List (List ℕ)) (f : Tree) →
        length (canonical_words first second f) ≤ 3 * nodes f }
{}
