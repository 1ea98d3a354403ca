//! The kinds of objects that a run knows.
ghost use Rattle.std.specs.Prelude.{◌≡◌, [], ◌∷◌, ◌++◌, All, OnOk, OnErr, IfOk, IfErr};
ghost use Rattle.rd_ecl.specs.Specified.{IsKind};

use crate::kinds::KindSpec;
use rd_base::NoMemory;
use std::alloc::Global;
use std::fmt::{self, Debug, Formatter, Write};
use std::marker::Model;
use thiserror::Error;

/// A specification: kinds, which are numbered in their order. Contracts see it as the list of the kinds.
#[derive(Drop)]
pub struct Spec {
    kinds: Vec<KindSpec>,
}

impl Model for Spec {
    ghost use Rattle.std.specs.Prelude.{List, All};
    ghost use Rattle.rd_ecl.specs.Specified.{SpecifiedKind, IsKind};
    ghost use Rattle.std.specs.Coded.{codes};
    ghost use Rattle.rd_ecl.specs.Codes.{coded_tree};

    ghost Value = { List SpecifiedKind };

    ghost coded = { Prim.hlevel (codes, coded_tree) };

    ghost view = { λ s. s.kinds.items };

    ghost invariant = { λ s. All IsKind s.kinds.items };
}

/// Why two specifications weren't put together: memory ran out. It hands both back.
#[derive(Drop, Error)]
#[error("out of memory")]
pub struct AppendRefused {
    pub left: Spec,
    pub right: Spec,
}

impl Debug for AppendRefused {
    fn fmt<W: Write>(&self, f: &mut Formatter<W>) -> fmt::Result {
        f.debug_struct("AppendRefused").finish_non_exhaustive()
    }
}

impl Spec {
    /// No kinds. It takes no memory.
    pub fn empty(alloc: Global) -> Spec
        ensures { result ≡ [] }
    {
        Spec {
            kinds: Vec::new(alloc),
        }
    }

    /// The kinds. It takes no memory.
    pub fn kinds(&self) -> &[KindSpec]
        ensures value { result.now ≡ self.now }
        ensures valid { All IsKind self.now }
    {
        self.kinds.as_slice()
    }

    /// Puts a kind last. After want of memory the specification is as before, and the kind comes back.
    pub fn push(&mut self, kind: KindSpec) -> Result<(), (KindSpec, NoMemory)>
        ensures ok { OnOk result (self.new ≡ self.old ++ kind ∷ []) }
        ensures err { OnErr result (self.new ≡ self.old) }
        ensures back { IfErr result (λ refused. refused.0 ≡ kind) }
    {
        // its clause says what the specification promises of each kind
        let _methods = kind.methods();
        if self.kinds.reserve(1).is_err() {
            return Err((kind, NoMemory));
        }
        self.kinds.push_reserved(kind);
        Ok(())
    }

    /// The kinds of this one, then those of the other. After want of memory both come back.
    pub fn append(self, other: Spec) -> Result<Spec, AppendRefused>
        ensures ok { IfOk result (λ spec. spec ≡ self ++ other) }
        ensures back { IfErr result (λ refused. (refused.left ≡ self) × (refused.right ≡ other)) }
    {
        let mut left = self;
        let mut right = other;
        // what the specifications promise of each kind
        let (_these, _those) = (left.kinds(), right.kinds());
        match left.kinds.append(&mut right.kinds) {
            Ok(()) => Ok(left),
            Err(_) => Err(AppendRefused { left, right }),
        }
    }
}
