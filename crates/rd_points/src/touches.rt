//! What a call touches.

/// A class that a call touches, and the slot whose value it touches it with, or none where the class is plain.
#[derive(Clone, Copy, Default, PartialEq, Eq)]
pub struct Touch {
    pub class: u32,
    pub slot: Option<u8>,
}
