//! Where an event stands.

/// An event by where it stands: the number of its log, and its place in it, both from 0.
#[derive(Clone, Copy, PartialEq, Eq, Debug)]
pub struct Spot {
    pub log: u32,
    pub place: u32,
}
