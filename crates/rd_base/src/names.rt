//! The names of threads, locks, objects, kinds and methods.
ghost use Rattle.std.specs.Prelude.{◌≡◌, ◌↔◌, ◌≤◌, length, IsOk, IfOk};
ghost use Rattle.std.specs.List.{AllPass, prefix_len};
ghost use Rattle.rd_base.specs.Names.{IsName, is_name_byte};

use crate::limits::MOST_NAME_BYTES;
use arrayvec::ArrayVec;
use std::hash::{Hash, Hasher};
use std::marker::Model;
use thiserror::Error;

/// The bytes are no name.
#[derive(Clone, Copy, Debug, PartialEq, Eq, Error)]
#[error("not a name")]
pub struct BadName;

/// A name: 1 to 64 bytes, each a letter, a digit or one of `_ . : $ # @ -`. Contracts see it as the
/// list of its bytes, by which it is compared and hashed.
#[derive(Debug, Drop, PartialEq, Eq, PartialOrd, Ord)]
pub struct Name {
    bytes: ArrayVec<u8, MOST_NAME_BYTES>,
}

impl Model for Name {
    ghost use Rattle.std.specs.Prelude.{List, ℕ};
    ghost use Rattle.rd_base.specs.Names.{IsName};

    ghost Value = { List ℕ };

    ghost view = { λ n. n.bytes.items };

    ghost invariant = { λ n. IsName n.bytes.items };

    ghost inverse = { λ bytes. record { bytes = record { items = bytes } } };
}

// Which bytes are a letter, a digit or one of `_ . : $ # @ -`.
const NAME_BYTES: [bool; 256] = [
    false, false, false, false, false, false, false, false, false, false, false, false, false,
    false, false, false, false, false, false, false, false, false, false, false, false, false,
    false, false, false, false, false, false, false, false, false, true, true, false, false, false,
    false, false, false, false, false, true, true, false, true, true, true, true, true, true, true,
    true, true, true, true, false, false, false, false, false, true, true, true, true, true, true,
    true, true, true, true, true, true, true, true, true, true, true, true, true, true, true, true,
    true, true, true, true, true, false, false, false, false, true, false, true, true, true, true,
    true, true, true, true, true, true, true, true, true, true, true, true, true, true, true, true,
    true, true, true, true, true, true, false, false, false, false, false, false, false, false,
    false, false, false, false, false, false, false, false, false, false, false, false, false,
    false, false, false, false, false, false, false, false, false, false, false, false, false,
    false, false, false, false, false, false, false, false, false, false, false, false, false,
    false, false, false, false, false, false, false, false, false, false, false, false, false,
    false, false, false, false, false, false, false, false, false, false, false, false, false,
    false, false, false, false, false, false, false, false, false, false, false, false, false,
    false, false, false, false, false, false, false, false, false, false, false, false, false,
    false, false, false, false, false, false, false, false, false, false, false, false, false,
    false, false, false, false, false, false, false, false, false, false, false, false, false,
    false, false, false, false, false, false, false, false,
];

fn is_name_byte(byte: u8) -> bool
    ensures { result ≡ is_name_byte byte }
{
    NAME_BYTES[byte as usize]
}

// How many bytes in front may stand in a name, counted in fours: with no way out between four, they are looked up at once.
#[inline]
#[tactic(auto, using(crate::proofs::NameLemmas::one_more, crate::proofs::NameLemmas::no_longer))]
fn fours(bytes: &[u8]) -> usize
    ensures names { result ≤ prefix_len is_name_byte bytes.now }
    ensures bound { result ≤ length bytes.now }
{
    let mut length = 0;
    while bytes.len() - length >= 4 {
        let all = is_name_byte(bytes[length])
            & is_name_byte(bytes[length + 1])
            & is_name_byte(bytes[length + 2])
            & is_name_byte(bytes[length + 3]);
        if !all {
            return length;
        }
        length += 4;
    }
    length
}

/// How many bytes stand in front of the first byte that no name has.
#[tactic(auto, using(crate::proofs::NameLemmas::one_more, crate::proofs::NameLemmas::no_more, crate::proofs::NameLemmas::no_longer))]
pub fn name_length(bytes: &[u8]) -> usize
    ensures value { result ≡ prefix_len is_name_byte bytes.now }
    ensures bound { result ≤ length bytes.now }
{
    let mut length = fours(bytes);
    while length < bytes.len() {
        if !is_name_byte(bytes[length]) {
            return length;
        }
        length += 1;
    }
    length
}

// The bytes of a name.
fn name_bytes(bytes: &[u8]) -> ArrayVec<u8, MOST_NAME_BYTES>
    requires { IsName bytes.now }
    ensures { result.items ≡ bytes.now }
{
    let mut held = ArrayVec::new();
    let Ok(()) = held.try_extend_from_slice(bytes) else {
        unreachable!();
    };
    held
}

impl Name {
    /// The name with these bytes. It comes exactly if they are the bytes of a name, and takes no memory.
    #[tactic(auto, using(crate::proofs::NameLemmas::each_of_name, crate::proofs::NameLemmas::other_no_name))]
    pub fn from_bytes(bytes: &[u8]) -> Result<Name, BadName>
        ensures variant { IsOk result ↔ IsName bytes.now }
        ensures value { IfOk result (λ name. name ≡ bytes.now) }
    {
        if name_length(bytes) < bytes.len() {
            return Err(BadName);
        }
        Name::from_name_bytes(bytes)
    }

    /// The name with these bytes, each of which is known to be one of a name. It comes exactly if they are 1 to 64, and takes
    /// no memory.
    pub fn from_name_bytes(bytes: &[u8]) -> Result<Name, BadName>
        requires { AllPass is_name_byte bytes.now }
        ensures variant { IsOk result ↔ IsName bytes.now }
        ensures value { IfOk result (λ name. name ≡ bytes.now) }
    {
        if bytes.is_empty() || bytes.len() > MOST_NAME_BYTES {
            return Err(BadName);
        }
        Ok(Name {
            bytes: name_bytes(bytes),
        })
    }

    /// An equal name. It takes no memory.
    pub fn copy(&self) -> Name
        ensures { result ≡ self.now }
    {
        Name {
            bytes: name_bytes(self.bytes.as_slice()),
        }
    }

    /// Its bytes.
    pub fn items(&self) -> &[u8]
        ensures value { result.now ≡ self.now }
        ensures name { IsName self.now }
    {
        self.bytes.as_slice()
    }
}

impl Hash for Name {
    ghost use Rattle.std.specs.Prelude.{[], ◌∷◌};
    ghost use Rattle.std.specs.Cmp.Rules.{hashing};
    ghost use Rattle.std.proofs.Common.{rules};

    ghost hash_input = { λ name. name ∷ [] };

    ghost respects_eq = { Prim.search (hashing, rules) };

    fn hash<H: Hasher>(&self, state: &mut H) {
        state.write(self.bytes.as_slice())
    }
}
