//! The lines of a trace: what each may say, and how it is spelled.
#![tactic(auto)]

mod events;
mod front;
mod items;
mod reading;
mod slots;
mod spelling;

pub use events::{Call, Event};
pub use items::{Line, LineEvent};
pub use reading::{
    LineRefused, behind, is_skipped, law_of_calls, law_of_spelling, read_into, read_line,
};
pub use slots::{read_slots, read_slots_in};
pub use spelling::{append_call, append_line, spell, spell_line};
