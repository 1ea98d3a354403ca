//! The laws of vector clocks: what their definition says, proved for every list of events.
ghost use Rattle.std.specs.Prelude.{◌↔◌, ◌≡◌, ℕ, ◌<◌, ◌≤◌, List, [], ◌∷◌, ◌++◌, length};
ghost use Rattle.rd_event.specs.declared.events.Event.{Event};
ghost use Rattle.rd_event.specs.declared.events.Event.TheVariants.{Fork, Join};
ghost use Rattle.rd_hb.specs.ClockTests.{clock_at};
ghost use Rattle.rd_hb.specs.EventClocks.{OwnNumber, IsClock};
ghost use Rattle.rd_order.specs.Order.{IsOf, Reaches};

/// Each place has one clock, which a test computes. The clock of a later place covers the own number of an event exactly where
/// the event reaches that place, and the clock at an event's own thread is its own number. Events that
/// are appended leave clocks and own numbers as they are.
pub fn law_of_clocks()
    // there is exactly one value, and `clock_at` finds it
    ensures exists { (es : List Event) (j t : ℕ) → (c : ℕ) × IsClock es j t c }
    ensures one { (es : List Event) (j t c d : ℕ) →
        IsClock es j t c → IsClock es j t d → c ≡ d }
    ensures test { (es : List Event) (j t : ℕ) → IsClock es j t (clock_at es j t) }

    // it tells the order, and at its own thread it is the own number
    ensures tells { (es : List Event) (i j t o c : ℕ) → i < j → j < length es →
        IsOf es t i → OwnNumber es t i o → IsClock es j t c → ((o ≤ c) ↔ Reaches es i j) }
    ensures own { (es : List Event) (t j c : ℕ) → IsOf es t j →
        (IsClock es j t c ↔ OwnNumber es t j c) }

    // later events change nothing
    ensures growth { (es fs : List Event) (j t c : ℕ) → j < length es →
        (IsClock (es ++ fs) j t c ↔ IsClock es j t c) }
    ensures own_growth { (es fs : List Event) (t i o : ℕ) → i < length es →
        (OwnNumber (es ++ fs) t i o ↔ OwnNumber es t i o) }
{}

/// Short lists in which clocks are known.
pub fn examples_of_clocks()
    // Thread 0 forks 1, which forks 2, and joins it: at the join it has two events of its own and one of 1.
    ensures clock_of_a_join_at_its_thread { IsClock (Fork 0 1 ∷ Fork 1 2 ∷ Join 0 1 ∷ []) 2 0 2 }
    ensures clock_of_a_join_at_the_joined { IsClock (Fork 0 1 ∷ Fork 1 2 ∷ Join 0 1 ∷ []) 2 1 1 }
    ensures clock_of_a_child { IsClock (Fork 0 1 ∷ Fork 1 2 ∷ Join 0 1 ∷ []) 1 0 1 }
{}
