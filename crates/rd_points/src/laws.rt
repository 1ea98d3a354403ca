//! The laws of access points.
ghost use Rattle.std.specs.Prelude.{◌≡◌, ◌↔◌, ◌<◌, ◌≤◌, ℕ, List, length, false, IsTrue};
ghost use Rattle.rd_base.specs.declared.values.Value.{Value};
ghost use Rattle.rd_ecl.specs.Specified.{IsKind, SpecifiedKind, commutes, slots_at};
ghost use Rattle.rd_points.specs.Compiled.{compiled};
ghost use Rattle.rd_points.specs.PointLists.{same_point};
ghost use Rattle.rd_points.specs.Points.{Meets};
ghost use Rattle.rd_points.specs.Tables.{IsInRange, HasRisingConflicts, IsSymmetric, Tells, class_count};
ghost use Rattle.rd_points.specs.declared.points.Point.{Point as PointOf};

use rd_base::law_of_order;

/// The law of access points: two calls on one object touch points that conflict exactly where they
/// don't commute.
pub fn law_of_points()
    ensures { (kind : SpecifiedKind) (m n : ℕ) (a b : List Value) → IsKind kind
        → m < length kind.methods → n < length kind.methods
        → length a ≡ slots_at kind.methods m → length b ≡ slots_at kind.methods n
        → (Meets kind m a n b ↔ (commutes kind m a n b ≡ false)) }
{}

/// The law of compiled tables: that of a kind tells which calls commute, and it is sound, with at
/// most 4,096 classes.
pub fn law_of_tables()
    ensures tells { (kind : SpecifiedKind) → IsKind kind → Tells kind (compiled kind) }
    ensures symmetric { (kind : SpecifiedKind) → IsSymmetric (compiled kind) }
    ensures in_range { (kind : SpecifiedKind) → IsInRange (compiled kind) }
    ensures rising { (kind : SpecifiedKind) → HasRisingConflicts (compiled kind) }
    ensures few { (kind : SpecifiedKind) → IsKind kind → class_count (compiled kind) ≤ 4096 }
{}

/// The law of equal points: the code finds two points equal exactly where they are.
pub fn law_of_equal_points()
    ensures { (a b : PointOf) → IsTrue (same_point a b) ↔ (a ≡ b) }
{
    law_of_order();
}
