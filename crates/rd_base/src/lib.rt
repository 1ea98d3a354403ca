//! What every crate of rd2 stands on: names, words, values, limits and their texts, and the counter of steps.
#![tactic(auto)]

mod byte_lists;
mod byte_order;
mod counter;
mod hashing;
mod limits;
mod memory;
mod names;
mod numbers;
mod slots;
mod spelling;
mod values;

pub use byte_lists::{Bytes, Word};
pub use counter::Steps;
pub use limits::{
    LimitName, Limits, MOST_ARGUMENTS, MOST_KINDS, MOST_LEVELS, MOST_METHODS, MOST_NAME_BYTES,
    MOST_NODES, MOST_PREDICATES, MOST_SPEC_BYTES, MOST_TOKENS, append_limit,
};
pub use memory::NoMemory;
pub use names::{BadName, Name, name_length};
pub use numbers::append_number;
pub use slots::{Slots, SpareList, ValueList};
pub use spelling::{ValueRefused, append_value, is_value, law_of_values, read_value, spell_value};
pub use values::{Text, TextRefused, Value, law_of_order};
