//! Classes of access points.

/// A class: a method, the truth values of its predicates, and a slot, or none where the class is plain.
#[derive(Clone, Copy, PartialEq, Eq)]
pub struct Class {
    pub method: u8,
    pub bits: u8,
    pub slot: Option<u8>,
}
