//! The specification of the kinds that are built in.
ghost use Rattle.std.specs.Prelude.{◌≡◌, [], ◌∷◌, ◌++◌, length, IfOk, OnOk};
ghost use Rattle.rd_kinds.specs.Shipped.{shipped_kinds};

use crate::counter::counter;
use crate::dictionary::dictionary;
use crate::register::register;
use crate::set::set;
use rd_base::NoMemory;
use rd_ecl::{KindSpec, Spec};
use rd_more::{make_bag, make_peak, make_queue, make_tally};
use std::alloc::Global;

// Puts a kind last.
fn push(spec: &mut Spec, kind: KindSpec) -> Result<(), NoMemory>
    ensures { OnOk result (spec.new ≡ spec.old ++ kind ∷ []) }
{
    match spec.push(kind) {
        Ok(()) => Ok(()),
        Err((_, NoMemory)) => Err(NoMemory),
    }
}

// Puts the kinds that are built in into a list of none.
fn push_all(alloc: Global, spec: &mut Spec) -> Result<(), NoMemory>
    requires { spec.old ≡ [] }
    ensures { OnOk result (spec.new ≡ shipped_kinds) }
{
    dispatch!(push spec, alloc; register, counter, set, dictionary, make_bag, make_peak, make_queue, make_tally);
    Ok(())
}

/// The kinds that are built in, by their numbers: `register` is 0, `counter` 1, `set` 2, `dictionary` 3, `bag` 4, `peak` 5, `queue` 6 and
/// `tally` 7.
pub fn shipped(alloc: Global) -> Result<Spec, NoMemory>
    ensures { IfOk result (λ spec. spec ≡ shipped_kinds) }
{
    let mut spec = Spec::empty(alloc);
    push_all(alloc, &mut spec)?;
    Ok(spec)
}

/// How many kinds are built in. It takes no memory.
pub fn shipped_count() -> u32
    ensures { result ≡ length shipped_kinds }
{
    8
}
