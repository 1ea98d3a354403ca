//! What is held of locks.
ghost use Rattle.std.specs.Prelude.{◌≡◌};

use indexmap::IndexMap;
use rd_base::{Name, NoMemory};

/// What is held of a lock: the number of the thread that acquired it last, and how often that thread acquired it and hasn't
/// released it.
#[derive(Clone, Copy)]
pub struct Lock {
    pub holder: u32,
    pub depth: u32,
}

/// A lock that no thread has.
pub const FREE: Lock = Lock {
    holder: 0,
    depth: 0,
};

impl Lock {
    ghost use Rattle.std.specs.Prelude.{◌≡◌, ◌≤◌, ◌+◌, OnOk, OnErr};
    ghost use Rattle.indexmap.specs.IndexMap.{index_map_len, insert_entry, IsUnchanged};
    ghost use Rattle.rd_base.specs.Names.{IsName};
    ghost use Rattle.rd_rules.specs.MayFollow.{same_name};
    ghost use Rattle.rd_tables.specs.Tables.{depth_of, other_holder};

    /// Keeps the lock under this name, which comes last if it is new.
    #[inline(never)]
    pub fn put_last(self, name: &[u8], locks: &mut IndexMap<Name, Lock>) -> Result<(), NoMemory>
        requires { IsName name.now }
        ensures entries { OnOk result
            (locks.new.entries ≡ insert_entry same_name locks.old.entries name.now self) }
        ensures len { OnOk result (index_map_len locks.new ≤ index_map_len locks.old + 1) }
        ensures err { OnErr result (IsUnchanged locks.old locks.new) }
    {
        let Ok(name) = Name::from_bytes(name) else {
            unreachable!();
        };
        locks.insert(name, self)?;
        Ok(())
    }

    /// How often the thread has acquired the lock and not released it.
    pub fn depth_of(self, thread: u32) -> u32
        ensures { result ≡ depth_of self thread }
    {
        if thread == self.holder { self.depth } else { 0 }
    }

    /// The thread that has the lock, if it is another one.
    pub fn held_by_other(self, thread: u32) -> Option<u32>
        ensures { result ≡ other_holder self thread }
    {
        if self.depth > 0 && thread != self.holder {
            Some(self.holder)
        } else {
            None
        }
    }
}
