//! What may be wrong with a pair whose formula is right and small.
ghost use Rattle.std.specs.Prelude.{◌≡◌, ◌<◌, ◌≤◌, ◌↔◌, length, IsTrue, None, is_some};
ghost use Rattle.rd_ecl.specs.Formulas.{nodes, tree_of};
ghost use Rattle.rd_ecl.specs.Specified.{formula_at};
ghost use Rattle.rd_pairs.specs.PairCauses.{HasManyPredicates};

use rd_base::MOST_TOKENS;
use rd_ecl::{Formula, KindDraft};

// Has a pair its formula already?
pub(crate) fn is_set(kind: &KindDraft, first: u8, second: u8) -> bool
    requires { (first ≤ second) × (second < length kind.now.methods) }
    ensures { result ≡ is_some (formula_at kind.now first second) }
{
    kind.formula(first, second).is_some()
}

// With this formula, has each method of a pair that isn't set few relations?
pub(crate) fn has_room(kind: &KindDraft, first: u8, second: u8, formula: &Formula) -> bool
    requires known { (first ≤ second) × (second < length kind.now.methods) }
    requires unset { formula_at kind.now first second ≡ None }
    requires few { nodes (tree_of formula.now) ≤ MOST_TOKENS }
    ensures { IsTrue result ↔ ¬ (HasManyPredicates kind.now first second (tree_of formula.now)) }
{
    kind.has_room(first, second, formula, first) && kind.has_room(first, second, formula, second)
}
