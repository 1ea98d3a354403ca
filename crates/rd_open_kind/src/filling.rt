//! A default for the pairs of methods without a formula.
ghost use Rattle.std.specs.Prelude.{◌≡◌, ℕ, ◌+◌, ◌*◌, ◌<◌, ◌≤◌, Bool, Option, Some, None, length, set, unwrap_or};
ghost use Rattle.rd_ecl.specs.Formulas.{truth, tree_of};
ghost use Rattle.rd_ecl.specs.Specified.{IsDraft, IsWhole, SpecifiedKind, formula_at, method_predicates};
ghost use Rattle.rd_open_kind.specs.Filled.{filled_with, pair_or};

use rd_base::MOST_METHODS;
use rd_ecl::{Formula, KindDraft};

// The formula of this truth value.
fn truth_of(value: bool) -> Formula
    ensures { tree_of result ≡ truth value }
{
    if value { Formula::True } else { Formula::False }
}

// Gives the pair at this place the default, where it is one of two methods in their order and has no formula.
fn fill_place(draft: &mut KindDraft, place: usize, value: bool)
    requires { place < MOST_METHODS * length draft.old.methods }
    ensures { draft.new ≡ record draft.old { pairs = set draft.old.pairs place (pair_or value draft.old.pairs place) } }
{
    // its clause says what is known of a draft
    let _methods = draft.methods();
    let (first, second) = ((place % MOST_METHODS) as u8, (place / MOST_METHODS) as u8);
    if first <= second && draft.formula(first, second).is_none() {
        // it takes no memory
        let _set = draft.pair(first, second, truth_of(value));
    }
}

// Gives each pair without a formula this truth value.
fn fill(draft: &mut KindDraft, value: bool)
    ensures { draft.new ≡ filled_with (Some value) draft.old }
{
    let count = draft.methods().len();
    for place in 0..MOST_METHODS * count {
        fill_place(draft, place, value);
    }
}

// Gives each pair without a formula the default, where there is one.
#[tactic(auto, unfolding(crate::specs::Filled::filled_with))]
pub fn fill_with(draft: &mut KindDraft, default: Option<bool>)
    ensures { draft.new ≡ filled_with default draft.old }
{
    match default {
        Some(value) => fill(draft, value),
        None => {}
    }
}

/// The law of filling: with a default each pair has a formula, its own where it has one, so the kind is whole; a draft stays a draft
/// of the same name, methods and predicates, and a kind that is whole stays as it is.
#[tactic(auto, using(crate::proofs::FilledLemmas::formula_given, crate::proofs::FilledLemmas::filled_whole, crate::proofs::FilledLemmas::filled_draft, crate::proofs::FilledLemmas::filled_name, crate::proofs::FilledLemmas::filled_methods, crate::proofs::FilledLemmas::filled_alike, crate::proofs::FilledLemmas::predicates_same))]
pub fn law_of_filling()
    ensures formulas { (kind : SpecifiedKind) (value : Bool) (m n : ℕ) → IsDraft kind → m ≤ n → n < length kind.methods →
        formula_at (filled_with (Some value) kind) m n ≡ Some (unwrap_or (formula_at kind m n) (truth value)) }
    ensures whole { (kind : SpecifiedKind) (value : Bool) → IsDraft kind → IsWhole (filled_with (Some value) kind) }
    ensures draft { (kind : SpecifiedKind) (default : Option Bool) → IsDraft kind → IsDraft (filled_with default kind) }
    ensures name { (kind : SpecifiedKind) (default : Option Bool) → (filled_with default kind).name ≡ kind.name }
    ensures methods { (kind : SpecifiedKind) (default : Option Bool) → (filled_with default kind).methods ≡ kind.methods }
    ensures alike { (kind : SpecifiedKind) (default : Option Bool) → IsDraft kind → IsWhole kind → filled_with default kind ≡ kind }
    ensures predicates { (kind : SpecifiedKind) (default : Option Bool) (m : ℕ) →
        method_predicates (filled_with default kind) m ≡ method_predicates kind m }
{}
