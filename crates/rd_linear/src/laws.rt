//! The laws of other orders of events.
ghost use Rattle.std.specs.Prelude.{◌≡◌, ◌↔◌, ℕ, ◌+◌, Bool, List, ◌∷◌, ◌++◌, All, length, count_by, slice_get, Some};
ghost use Rattle.rd_ecl.specs.Specified.{SpecifiedKind};
ghost use Rattle.rd_event.specs.declared.events.Event.{Event};
ghost use Rattle.rd_object.specs.Machines.{IsSound, KeepsShapes, Machine};
ghost use Rattle.rd_object.specs.declared.shapes.Shape.{Shape};
ghost use Rattle.rd_order.specs.EventLists.{WellFormed};
ghost use Rattle.rd_order.specs.Order.{Reaches};
ghost use Rattle.rd_linear.specs.Determinism.{AreOnObjects, Ends, IsDeterministic, NoneReported, kinds_from};
ghost use Rattle.rd_linear.specs.Lanes.{HaveThreads, order_by};
ghost use Rattle.rd_linear.specs.Linear.{Placed, Stands};
ghost use Rattle.rd_linear.specs.Orders.{IsLinear, IsReached, exchanged, in_order};
ghost use Rattle.rd_linear.specs.Waits.{AllStand, AreWaits};

/// Two neighbouring events of which the first doesn't reach the second may be exchanged: the list stays well-formed, and the same
/// pairs of events reach each other.
pub fn law_of_exchanges()
    ensures formed { (roots : ℕ → Bool) (before after : List Event) (a b : Event) →
        WellFormed roots (before ++ a ∷ b ∷ after) →
        ¬ (Reaches (before ++ a ∷ b ∷ after) (length before) (length before + 1)) →
        WellFormed roots (before ++ b ∷ a ∷ after) }
    ensures reaches { (roots : ℕ → Bool) (before after : List Event) (a b : Event) →
        WellFormed roots (before ++ a ∷ b ∷ after) →
        ¬ (Reaches (before ++ a ∷ b ∷ after) (length before) (length before + 1)) → (i j : ℕ) →
        (Reaches (before ++ a ∷ b ∷ after) i j
        ↔ Reaches (before ++ b ∷ a ∷ after) (exchanged (length before) i) (exchanged (length before) j)) }
{}

/// The linear orders of a list are those that such exchanges reach from its own. In a linear order of a well-formed list the events are
/// a well-formed list, the same pairs of events reach each other, and there are as many events of each sort as before.
pub fn law_of_linear_orders()
    // which lists of places are linear orders, and which event stands where in one
    ensures reached { (es : List Event) (places : List ℕ) → (IsLinear es places ↔ IsReached es places) }
    ensures events { (es : List Event) (places : List ℕ) (i p : ℕ) → IsLinear es places →
        slice_get places i ≡ Some p → slice_get (in_order es places) i ≡ slice_get es p }

    // what the events are in a linear order
    ensures formed { (roots : ℕ → Bool) (es : List Event) (places : List ℕ) →
        WellFormed roots es → IsLinear es places → WellFormed roots (in_order es places) }
    ensures reaches { (roots : ℕ → Bool) (es : List Event) (places : List ℕ) →
        WellFormed roots es → IsLinear es places → (i j p q : ℕ) →
        slice_get places i ≡ Some p → slice_get places j ≡ Some q →
        (Reaches (in_order es places) i j ↔ Reaches es p q) }
    ensures counts { (roots : ℕ → Bool) (es : List Event) (places : List ℕ) →
        WellFormed roots es → IsLinear es places → (test : Event → Bool) →
        count_by test (in_order es places) ≡ count_by test es }
{}

/// The order that a number picks, of the ready threads one at a time, is linear.
pub fn law_of_orders()
    ensures { (es : List Event) (threads : List ℕ) (number : ℕ) →
        HaveThreads es threads → IsLinear es (order_by es threads number) }
{}

/// An event is ready behind others, which stand behind all that reaches each of them, exactly where its waits stand.
pub fn law_of_waits()
    ensures { (es : List Event) (places waits : List ℕ) (p : ℕ) → Placed es places → AreWaits es p waits →
        (((k : ℕ) → Reaches es k p → Stands places k) ↔ AllStand places waits) }
{}

/// Where no call is reported, the exchange of neighbours of which the first doesn't reach the second keeps that, and what the objects
/// hold in the end, by any machines that are sound and keep shapes, of the first of the kinds. So a well-formed list in which no call is
/// reported, and whose calls lead the objects by such machines to these shapes, is deterministic, and in no linear order of it a call is
/// reported.
pub fn law_of_determinism()
    // one exchange
    ensures quiet { (roots : ℕ → Bool) (kinds : List SpecifiedKind) (objects : List ℕ) (before after : List Event) (a b : Event) →
        WellFormed roots (before ++ a ∷ b ∷ after) →
        ¬ (Reaches (before ++ a ∷ b ∷ after) (length before) (length before + 1)) →
        AreOnObjects objects (before ++ a ∷ b ∷ after) → NoneReported kinds (before ++ a ∷ b ∷ after) →
        NoneReported kinds (before ++ b ∷ a ∷ after) }
    ensures ends { (machines : List Machine) (more : List SpecifiedKind) (objects : List ℕ) (shapes : List Shape) (before after : List Event) (a b : Event) →
        All IsSound machines → All KeepsShapes machines →
        ¬ (Reaches (before ++ a ∷ b ∷ after) (length before) (length before + 1)) →
        AreOnObjects objects (before ++ a ∷ b ∷ after) →
        NoneReported (kinds_from machines more) (before ++ a ∷ b ∷ after) →
        Ends machines objects (before ++ a ∷ b ∷ after) shapes → Ends machines objects (before ++ b ∷ a ∷ after) shapes }

    // every linear order
    ensures always_quiet { (roots : ℕ → Bool) (kinds : List SpecifiedKind) (objects : List ℕ) (es : List Event) (places : List ℕ) →
        WellFormed roots es → AreOnObjects objects es → NoneReported kinds es → IsLinear es places →
        NoneReported kinds (in_order es places) }
    ensures deterministic { (machines : List Machine) (roots : ℕ → Bool) (more : List SpecifiedKind) (objects : List ℕ) (shapes : List Shape) (es : List Event) →
        All IsSound machines → All KeepsShapes machines →
        WellFormed roots es → AreOnObjects objects es → NoneReported (kinds_from machines more) es →
        Ends machines objects es shapes → IsDeterministic machines roots objects es shapes }
{}
