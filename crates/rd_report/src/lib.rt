//! The texts of a report.
#![tactic(auto)]

mod cause_texts;
mod clocks;
mod endings;
mod laws;
mod numbers;
mod races;
mod replays;
mod states;
mod statuses;
mod verdicts;

pub use cause_texts::{ending_text, refused_text, refused_words};
pub use clocks::{append_clock, clock_text};
pub use endings::Ending;
pub use laws::law_of_shipped_texts;
pub use races::{
    RaceEnds, append_named_call, append_race, call_text, formula_line, race_text, tell_lines,
};
pub use rd_wf::TraceCause;
pub use replays::{append_replay, replay_text, replay_words};
pub use states::append_state;
pub use statuses::{check_status, ending_of_report};
pub use verdicts::verdict_words;
