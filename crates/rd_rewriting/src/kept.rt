//! What is kept of the accepted lines of a trace that is to be written again.
ghost use Rattle.std.specs.Prelude.{◌≡◌, OnOk};
ghost use Rattle.rd_rewriting.specs.Keeping.{KeepsMore, KeepsNothing};

use crate::texts::Texts;
use rd_base::NoMemory;
use rd_wf::Accepted;
use std::alloc::Global;

/// Keeps what a trace in another order is written of: the lines of its roots, of its objects and of its events.
#[derive(Drop)]
pub struct Kept {
    /// the lines of the threads that no event begins
    pub(crate) roots: Texts,
    /// those of the objects
    pub(crate) objects: Texts,
    /// those of the events
    pub(crate) lines: Texts,
}

impl Kept {
    /// Nothing is kept. It takes no memory.
    pub fn new(alloc: Global) -> Kept
        ensures { KeepsNothing result }
    {
        Kept {
            roots: Texts::new(alloc),
            objects: Texts::new(alloc),
            lines: Texts::new(alloc),
        }
    }

    /// Keeps the next accepted line, which is this in numbers.
    // kept out of line, so that a walk for another command doesn't pay for its locals
    #[inline(never)]
    pub fn keep(&mut self, bytes: &[u8], accepted: &Accepted) -> Result<(), NoMemory>
        ensures { OnOk result (KeepsMore self.old self.new bytes.now accepted.now) }
    {
        match accepted {
            Accepted::Nothing => Ok(()),
            Accepted::Root(_) => self.roots.push(bytes),
            Accepted::Object { .. } => self.objects.push(bytes),
            Accepted::Event(_) => self.lines.push(bytes),
        }
    }
}
