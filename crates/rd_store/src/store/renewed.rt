//! What is kept of a call, in the memory of a call that isn't kept any longer.
ghost use Rattle.std.specs.Prelude.{◌≡◌, IfOk};
ghost use Rattle.rd_store.specs.Lent.{lent_witness};

use super::renew_held;
use crate::{Witness, WitnessRef};
use rd_base::NoMemory;
use std::alloc::Global;
use std::rc::Rc;

// In memory of its own.
// kept out of line, so that where a spare one is written over nothing is paid for a witness that is moved
#[inline(never)]
fn new_witness(alloc: Global, seen: WitnessRef) -> Result<Rc<Witness>, NoMemory>
    ensures { IfOk result (λ held. held.value ≡ lent_witness seen.entry) }
{
    Ok(Rc::new(alloc, seen.copy(alloc)?)?)
}

/// What is kept of a call. It is written over the spare one where nothing else has that and the clocks have the same room; else the spare one
/// is dropped, and new memory is taken.
pub fn renewed_witness(
    alloc: Global,
    spare: Option<Rc<Witness>>,
    seen: WitnessRef,
) -> Result<Rc<Witness>, NoMemory>
    ensures { IfOk result (λ held. held.value ≡ lent_witness seen.entry) }
{
    if let Some(mut spare) = spare {
        if renew_held(alloc, &mut spare, seen)? {
            return Ok(spare);
        }
    }
    new_witness(alloc, seen)
}
