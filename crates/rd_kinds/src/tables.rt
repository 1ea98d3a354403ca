//! The names of the methods of the kinds that are built in, and how many arguments each has.
ghost use Rattle.std.specs.Prelude.{◌≡◌};
ghost use Rattle.rd_kinds.specs.Shipped.{counter_methods, dictionary_methods, register_methods, set_methods};
ghost use Rattle.rd_kinds.specs.Tables.{table_of};
ghost use Rattle.rd_more.specs.MoreKinds.{bag_methods, peak_methods, queue_methods, tally_methods};

use rd_base::Name;
use rd_parts::name;
use std::marker::Model;

/// The methods of a kind, by their numbers.
#[derive(Drop)]
pub struct KindTable<const M: usize> {
    names: [Name; M],
    args: [u8; M],
}

impl<const M: usize> Model for KindTable<M> {
    ghost use Rattle.std.specs.Prelude.{◌≤◌};
    ghost use Rattle.rd_kinds.specs.Tables.{Table};

    ghost Value = { Table };

    ghost view = { λ t. record { names = t.names; args = t.args } };

    ghost invariant = { λ _. M ≤ 255 };
}

impl<const M: usize> KindTable<M> {
    ghost use Rattle.std.specs.Prelude.{◌≡◌, Contains, IfNone, IfSome, Some, slice_get};

    /// The number of the method with this name.
    pub fn find(&self, name: &Name) -> Option<u8>
        ensures none { IfNone result (¬ (Contains self.now.names name.now)) }
        ensures some { IfSome result (λ method. slice_get self.now.names method ≡ Some name.now) }
    {
        for i in 0..M {
            if self.names[i] == *name {
                return Some(i as u8);
            }
        }
        None
    }

    /// How many arguments the method with this number has.
    pub fn args(&self, method: u8) -> Option<u8>
        ensures { result ≡ slice_get self.now.args method }
    {
        self.args.get(method as usize).copied()
    }
}

/// The methods of a register. It takes no memory, as those below.
#[tactic(auto, unfolding(rd_base::specs::Names::is_name))]
pub fn register_table() -> KindTable<3>
    ensures { result ≡ table_of register_methods }
{
    KindTable {
        names: [name(b"read"), name(b"write"), name(b"swap")],
        args: [0, 1, 1],
    }
}

/// The methods of a counter.
#[tactic(auto, unfolding(rd_base::specs::Names::is_name))]
pub fn counter_table() -> KindTable<2>
    ensures { result ≡ table_of counter_methods }
{
    KindTable {
        names: [name(b"add"), name(b"get")],
        args: [1, 0],
    }
}

/// The methods of a set.
#[tactic(auto, unfolding(rd_base::specs::Names::is_name))]
pub fn set_table() -> KindTable<4>
    ensures { result ≡ table_of set_methods }
{
    KindTable {
        names: [
            name(b"add"),
            name(b"remove"),
            name(b"contains"),
            name(b"size"),
        ],
        args: [1, 1, 1, 0],
    }
}

/// The methods of a dictionary.
#[tactic(auto, unfolding(rd_base::specs::Names::is_name))]
pub fn dictionary_table() -> KindTable<3>
    ensures { result ≡ table_of dictionary_methods }
{
    KindTable {
        names: [name(b"put"), name(b"get"), name(b"size")],
        args: [2, 1, 0],
    }
}

/// The methods of a bag.
#[tactic(auto, unfolding(rd_base::specs::Names::is_name))]
pub fn bag_table() -> KindTable<3>
    ensures { result ≡ table_of bag_methods }
{
    KindTable {
        names: [name(b"add"), name(b"remove"), name(b"count")],
        args: [1, 1, 1],
    }
}

/// The methods of a peak.
#[tactic(auto, unfolding(rd_base::specs::Names::is_name))]
pub fn peak_table() -> KindTable<2>
    ensures { result ≡ table_of peak_methods }
{
    KindTable {
        names: [name(b"raise"), name(b"get")],
        args: [1, 0],
    }
}

/// The methods of a queue.
#[tactic(auto, unfolding(rd_base::specs::Names::is_name))]
pub fn queue_table() -> KindTable<3>
    ensures { result ≡ table_of queue_methods }
{
    KindTable {
        names: [name(b"enqueue"), name(b"dequeue"), name(b"size")],
        args: [1, 0, 0],
    }
}

/// The methods of a tally.
#[tactic(auto, unfolding(rd_base::specs::Names::is_name))]
pub fn tally_table() -> KindTable<3>
    ensures { result ≡ table_of tally_methods }
{
    KindTable {
        names: [name(b"hit"), name(b"count"), name(b"total")],
        args: [1, 1, 0],
    }
}
