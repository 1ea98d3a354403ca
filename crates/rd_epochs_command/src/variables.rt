//! The one kind of a trace of reads and writes.
ghost use Rattle.std.specs.Prelude.{◌≡◌, [], ◌∷◌, codes, IfOk, OnOk};
ghost use Rattle.rd_epoch.specs.Accesses.{plain_method, variable_kind, variable_kinds};
ghost use Rattle.rd_parts.specs.Parts.{no_pairs};

use rd_base::NoMemory;
use rd_ecl::{Formula, KindDraft, KindSpec, Spec};
use rd_parts::{name, put_of_one, put_pair};
use std::alloc::Global;

// Its methods.
#[tactic(auto, unfolding(rd_base::specs::Names::is_name))]
fn set_methods(alloc: Global, kind: &mut KindDraft) -> Result<(), NoMemory>
    requires { kind.old ≡ no_pairs (codes "variable") [] }
    ensures { OnOk result (kind.new ≡ no_pairs (codes "variable") (plain_method (codes "read") ∷ plain_method (codes "write") ∷ [])) }
{
    put_of_one(alloc, kind, b"read", b"r")?;
    put_of_one(alloc, kind, b"write", b"r")?;
    Ok(())
}

// Its pairs, behind its methods: two reads commute, and no other two accesses.
fn set_pairs(kind: &mut KindDraft)
    requires { kind.old ≡ no_pairs (codes "variable") (plain_method (codes "read") ∷ plain_method (codes "write") ∷ []) }
    ensures { kind.new ≡ variable_kind }
{
    put_pair(kind, 0, 0, Formula::True);
    put_pair(kind, 0, 1, Formula::False);
    put_pair(kind, 1, 1, Formula::False);
}

#[tactic(auto, unfolding(rd_base::specs::Names::is_name))]
fn variable(alloc: Global) -> Result<KindSpec, NoMemory>
    ensures { IfOk result (λ kind. kind ≡ variable_kind) }
{
    let mut kind = KindDraft::new(alloc, name(b"variable"))?;
    set_methods(alloc, &mut kind)?;
    set_pairs(&mut kind);
    Ok(kind.finish())
}

/// The specification of variables, which are read and written.
pub(crate) fn variables(alloc: Global) -> Result<Spec, NoMemory>
    ensures { IfOk result (λ spec. spec ≡ variable_kinds) }
{
    let mut spec = Spec::empty(alloc);
    match spec.push(variable(alloc)?) {
        Ok(()) => Ok(spec),
        Err((_, NoMemory)) => Err(NoMemory),
    }
}
