//! How a name is looked up by its bytes.
ghost use Rattle.std.specs.Cmp.Lexicographic.{bytes_decides};
ghost use Rattle.std.proofs.Common.{ap};
ghost use Rattle.rd_rules.specs.MayFollow.{same_name};

use indexmap::Equivalent;
use rd_base::Name;
use std::hash::{Hash, Hasher};

/// Bytes by which a name is looked up in a table, so that no name is made of them. Where they are no name's, no table has them.
#[derive(Clone, Copy, PartialEq, Eq)]
pub struct NameBytes<'a> {
    pub bytes: &'a [u8],
}

impl Hash for NameBytes<'_> {
    ghost use Rattle.std.specs.Prelude.{[], ◌∷◌};
    ghost use Rattle.std.specs.Cmp.Rules.{hashing};
    ghost use Rattle.std.proofs.Common.{rules};

    ghost hash_input = { λ name. name.bytes.now ∷ [] };

    ghost respects_eq = { Prim.search (hashing, rules) };

    fn hash<H: Hasher>(&self, state: &mut H) {
        state.write(self.bytes)
    }
}

impl Equivalent<Name> for NameBytes<'_> {
    ghost use Rattle.std.specs.Prelude.{[], ◌∷◌};

    ghost equivalent = { λ bytes name. same_name bytes.bytes.now name };

    ghost respects_hash = { λ bytes name same. ap (λ x. x ∷ []) ((bytes_decides bytes.bytes.now name).0 same) };

    ghost respects_eq = { λ bytes x y same. ap (λ z. same_name z y) ((bytes_decides bytes.bytes.now x).0 same) };

    fn equivalent(&self, key: &Name) -> bool {
        self.bytes == key.items()
    }
}
