//! What is kept of calls: witnesses, the races between them, and the store of cells of access points.
#![tactic(auto)]

mod laws;
mod lent;
mod store;

pub use laws::law_of_stores;
pub use lent::{PointRef, WitnessRef};
use rd_clock::Stamp;
use rd_event::Call;
use std::rc::Rc;
pub use store::{Store, renewed_witness};

/// A call that was seen: the number of its line, from 1, its place among the events, from 0, and where it stands by clocks.
#[derive(Drop)]
pub struct Witness {
    pub line: u64,
    pub place: u32,
    pub call: Call,
    pub stamp: Stamp,
}

/// Where a thread's cell of a point stands in a store, or will stand: the index at which the point was entered, and the place among
/// the cells of the point, behind all where the thread has none.
#[derive(Clone, Copy, Default)]
pub struct Seat {
    pub index: usize,
    pub place: usize,
}

/// Two calls on one object that no order ties and that don't commute (Dimitrov, Raychev, Vechev and Koskinen 2014), and the
/// pair of methods whose formula fails: the number of their kind, and those of the methods in the order in which the kind has
/// them.
#[derive(Drop)]
pub struct Race {
    pub later: Rc<Witness>,
    pub earlier: Rc<Witness>,
    pub kind: u32,
    pub first: u8,
    pub second: u8,
}
