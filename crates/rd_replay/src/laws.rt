//! The law of replays.
ghost use Rattle.std.specs.Prelude.{◌≡◌, ◌↔◌, ◌<◌, ℕ, false, true, List, [], All, length};
ghost use Rattle.rd_object.specs.declared.shapes.Expected.{Expected as ExpectedOf};
ghost use Rattle.rd_object.specs.declared.shapes.Shape.{Shape};
ghost use Rattle.rd_replay.specs.EndShapes.{AreEndShapes, held_in_the_end, without_lines};
ghost use Rattle.rd_replay.specs.Replays.{FirstDiffers, Recorded, ReplaysAll, all_shipped, held_shape, replay_end};

use rd_object::ReplayEnd;

/// What the end of a replay says, where each call is on an object that was declared. It is `NotShipped` exactly where some kind isn't built
/// in. It is `Exact` exactly where all kinds are built in, and each object's calls alone lead its machine from the first shape to one that it
/// has in the end. It is `Differs` exactly where all kinds are built in, all calls before that line give what was recorded, and that call gives
/// this in its place.
#[tactic(auto, using(crate::proofs::LawLemmas::exact_where, crate::proofs::LawLemmas::differs_where, crate::proofs::LawLemmas::not_shipped_where))]
pub fn law_of_replays()
    ensures exact { (kinds : List ℕ) (calls : List Recorded) →
        All (λ (recorded : Recorded). recorded.1.object < length kinds) calls →
        ((replay_end kinds calls ≡ ReplayEnd.Exact) ↔ ReplaysAll kinds calls) }
    ensures differs { (kinds : List ℕ) (calls : List Recorded) (line : ℕ) (expected : ExpectedOf) →
        All (λ (recorded : Recorded). recorded.1.object < length kinds) calls →
        ((replay_end kinds calls ≡ ReplayEnd.Differs line expected)
        ↔ ((all_shipped kinds ≡ true) × FirstDiffers kinds [] calls line expected)) }
    ensures not_shipped { (kinds : List ℕ) (calls : List Recorded) →
        ((replay_end kinds calls ≡ ReplayEnd.NotShipped) ↔ (all_shipped kinds ≡ false)) }
{}

/// The law of end shapes: what an object holds in the end hangs on the calls on it and not on the numbers of their lines; and where all objects are of
/// kinds that are built in and each one's calls lead its machine to a shape, these are the end shapes, one for each object.
#[tactic(auto, using(crate::proofs::EndLemmas::held_without, crate::proofs::EndLemmas::end_shapes))]
pub fn law_of_end_shapes()
    ensures held { (kinds : List ℕ) (calls : List Recorded) (object : ℕ) →
        held_shape kinds calls object ≡ held_in_the_end kinds (without_lines calls) object }
    ensures all { (kinds : List ℕ) (calls : List Recorded) → ReplaysAll kinds calls →
        (shapes : List Shape) × AreEndShapes kinds (without_lines calls) shapes }
{}
