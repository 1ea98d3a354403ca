//! The law of two places side by side.
ghost use Rattle.std.specs.Prelude.{◌<◌, ℕ, List, length};
ghost use Rattle.rd_event.specs.declared.events.Event.{Event};
ghost use Rattle.rd_linear.specs.Orders.{IsLinear};
ghost use Rattle.rd_order.specs.Order.{Reaches};
ghost use Rattle.rd_adjacent.specs.Beside.{beside};

/// Two places of which the first doesn't reach the second may stand side by side: the order is linear.
pub fn law_of_neighbours()
    ensures { (es : List Event) (i j : ℕ) → i < j → j < length es → ¬ (Reaches es i j) →
        IsLinear es (beside es i j) }
{}
