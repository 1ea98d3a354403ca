//! The detector: it names for each call the latest earlier one that races with it.
#![tactic(auto)]

mod asking;
mod covers;
mod detector;
mod laws;
mod touching;

pub use covers::{Covers, Epoch};
pub use detector::Detector;
pub use laws::{law_of_covers, law_of_detectors};
