//! The kind `tally`, which holds how often each item was hit.
ghost use Rattle.std.specs.Prelude.{◌≡◌, [], codes, IfOk, OnOk};
ghost use Rattle.rd_parts.specs.Parts.{no_pairs};
ghost use Rattle.rd_more.specs.MoreKinds.{tally_kind, tally_methods};

use rd_base::NoMemory;
use rd_ecl::{Formula, KindDraft, KindSpec};
use rd_parts::{firsts_differ, name, put_of_one, put_of_two, put_pair};
use std::alloc::Global;

// Its methods.
#[tactic(auto, unfolding(rd_base::specs::Names::is_name))]
fn set_methods(alloc: Global, kind: &mut KindDraft) -> Result<(), NoMemory>
    requires { kind.old ≡ no_pairs (codes "tally") [] }
    ensures { OnOk result (kind.new ≡ no_pairs (codes "tally") tally_methods) }
{
    put_of_two(alloc, kind, b"hit", b"item", b"done")?;
    put_of_two(alloc, kind, b"count", b"item", b"n")?;
    put_of_one(alloc, kind, b"total", b"n")?;
    Ok(())
}

// Its pairs, behind its methods.
fn set_pairs(kind: &mut KindDraft)
    requires { kind.old ≡ no_pairs (codes "tally") tally_methods }
    ensures { kind.new ≡ tally_kind }
{
    put_pair(kind, 0, 0, Formula::True);
    put_pair(kind, 0, 1, firsts_differ());
    put_pair(kind, 0, 2, Formula::False);
    put_pair(kind, 1, 1, Formula::True);
    put_pair(kind, 1, 2, Formula::True);
    put_pair(kind, 2, 2, Formula::True);
}

/// The kind.
#[tactic(auto, unfolding(rd_base::specs::Names::is_name))]
pub fn make_tally(alloc: Global) -> Result<KindSpec, NoMemory>
    ensures { IfOk result (λ kind. kind ≡ tally_kind) }
{
    let mut kind = KindDraft::new(alloc, name(b"tally"))?;
    set_methods(alloc, &mut kind)?;
    set_pairs(&mut kind);
    Ok(kind.finish())
}
