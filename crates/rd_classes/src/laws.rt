//! The laws of merged tables.
ghost use Rattle.std.specs.Prelude.{◌≡◌, ◌↔◌, ℕ, [], Contains, IsNone, Some};
ghost use Rattle.rd_ecl.specs.Specified.{IsKind, SpecifiedKind};
ghost use Rattle.rd_points.specs.Compiled.{compiled};
ghost use Rattle.rd_points.specs.Tables.{PointTable, Tells, conflicts_at};
ghost use Rattle.rd_classes.specs.Merged.{merged, merged_class};

use rd_points::law_of_tables;

/// The law of merging: the merged table of a kind tells which calls commute. Merged classes conflict
/// exactly where their members do, and a class is left out exactly where it conflicts with none.
pub fn law_of_merging()
    ensures tells { (kind : SpecifiedKind) → IsKind kind → Tells kind (merged (compiled kind)) }
    ensures conflicts { (kind : SpecifiedKind) (c d x y : ℕ)
        → merged_class (compiled kind) c ≡ Some x → merged_class (compiled kind) d ≡ Some y
        → (Contains (conflicts_at (merged (compiled kind)) x) y
        ↔ Contains (conflicts_at (compiled kind) c) d) }
    ensures left_out { (table : PointTable) (c : ℕ)
        → IsNone (merged_class table c) ↔ (conflicts_at table c ≡ []) }
{
    law_of_tables();
}
