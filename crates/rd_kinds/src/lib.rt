//! The kinds of objects that are built in: `register`, `counter`, `set` and `dictionary`, and the four of rd_more.
#![tactic(auto)]

// What is said of each kind that is built in, by the names of the kinds in the order of their numbers.
macro_rules! dispatch {
    // the first object of the kind with this number
    (start $alloc:expr, $number:expr; $last:ident) => { Object::$last($last::start($alloc)) };
    (start $alloc:expr, $number:expr; $first:ident, $($more:ident),+) => {
        if $number == 0 {
            Object::$first($first::start($alloc))
        } else {
            dispatch!(start $alloc, $number - 1; $($more),+)
        }
    };
    // what the body says of the object
    (match $object:expr, $one:ident => $body:expr; $($kind:ident),+) => {
        match $object {
            $(Object::$kind($one) => $body,)+
        }
    };
    // each kind put last
    (push $spec:ident, $alloc:expr; $($kind:ident),+) => {
        $(push($spec, $kind($alloc)?)?;)+
    };
}

mod counter;
mod dictionary;
mod laws;
mod names;
mod objects;
mod register;
mod set;
mod shipping;
mod tables;

pub use laws::{law_of_machines, law_of_shipped_kinds};
pub use names::reserved;
pub use objects::{Counter, Dictionary, Object, Register, Set};
pub use shipping::{shipped, shipped_count};
pub use tables::{
    KindTable, bag_table, counter_table, dictionary_table, peak_table, queue_table, register_table,
    set_table, tally_table,
};
