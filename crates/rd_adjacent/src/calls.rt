//! Two calls side by side.
ghost use Rattle.std.specs.Prelude.{◌≡◌, ◌<◌, ◌↔◌, length, IfOk, IfErr, OnOk, IsTrue};
ghost use Rattle.rd_linear.specs.Orders.{IsLinear};
ghost use Rattle.rd_order.specs.Order.{Reaches};
ghost use Rattle.rd_adjacent.specs.Adjacent.{IsCallAt, IsNotAdjacent};
ghost use Rattle.rd_adjacent.specs.Beside.{beside};
ghost use Rattle.rd_adjacent.specs.declared.calls.NotAdjacent.TheVariants.{NoMemory as MemoryRefused};

use crate::order::beside;
use rd_base::NoMemory;
use rd_event::Event;
use rd_order::{Places, farthest_steps, path_along};
use std::alloc::Global;

/// Why two places aren't set side by side.
#[derive(Drop)]
pub enum NotAdjacent {
    /// the first is ordered before the second: the farthest path between them
    Ordered(Places),
    /// the event at this place is no call
    NotACall(u32),
    /// memory ran out
    NoMemory,
}

impl From<NoMemory> for NotAdjacent {
    ghost from_gives = { λ _ e. e ≡ MemoryRefused };

    fn from(_error: NoMemory) -> NotAdjacent {
        NotAdjacent::NoMemory
    }
}

fn is_call(events: &[Event], place: u32) -> bool
    requires { place < length events.now }
    ensures { IsTrue result ↔ IsCallAt events.now place }
{
    match &events[place as usize] {
        Event::Call(_) => true,
        _ => false,
    }
}

/// The order of all places in which two calls stand side by side, where the first doesn't reach the second: all places that reach one of
/// them, then these two, then all others. `NotACall` comes exactly where one of them is no call, and names the first such; else `Ordered`
/// exactly where the first reaches the second. It looks at each event a few times.
pub fn adjacent(alloc: Global, events: &[Event], i: u32, j: u32) -> Result<Places, NotAdjacent>
    requires below { i < j }
    requires inside { j < length events.now }
    requires few { length events.now < 4294967296 }
    // the order
    ensures beside { IfOk result (λ places. places ≡ beside events.now i j) }
    ensures linear { IfOk result (λ places. IsLinear events.now places) }
    ensures calls { OnOk result (IsCallAt events.now i × IsCallAt events.now j × ¬ (Reaches events.now i j)) }
    // why there is none
    ensures refused { IfErr result (λ refused. IsNotAdjacent events.now i j refused) }
{
    if !is_call(events, i) {
        return Err(NotAdjacent::NotACall(i));
    }
    if !is_call(events, j) {
        return Err(NotAdjacent::NotACall(j));
    }
    let to_j = farthest_steps(alloc, events, 0, j)?;
    if let Some(path) = path_along(alloc, events, &to_j, i, j)? {
        return Err(NotAdjacent::Ordered(path));
    }
    let to_i = farthest_steps(alloc, events, 0, i)?;
    let places = beside(alloc, events, &to_i, &to_j, i, j)?;
    Ok(places)
}
