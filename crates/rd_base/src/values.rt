//! Values: the arguments and results of calls.
ghost use Rattle.std.specs.Prelude.{◌≡◌, ◌≢◌, ◌<◌, ◌≤◌, ◌↔◌, ℕ, List, [], All, IfOk, IfErr, OnErr, IsErrOf, IsTrue, length};
ghost use Rattle.std.specs.declared.cmp.Ordering.TheVariants.{Equal};
ghost use Rattle.rd_base.specs.declared.values.Value.{Value};
ghost use Rattle.rd_base.specs.Order.{bytes_cmp, value_cmp};
ghost use Rattle.rd_base.specs.Spelling.{IsText};
ghost use Rattle.rd_base.specs.Texts.{block_bytes};

use crate::byte_order::order;
use crate::hashing::hash_text;
use crate::memory::NoMemory;
use crate::names::Name;
use arrayvec::ArrayVec;
use std::alloc::{AllocError, Global};
use std::cmp::Ordering;
use std::hash::{Hash, Hasher};
use std::marker::Model;
use std::rc::Rc;
use thiserror::Error;

/// Why a text can't be made.
#[derive(Clone, Copy, Debug, PartialEq, Eq, Error)]
pub enum TextRefused {
    /// it has more than 255 bytes
    #[error("a text has at most 255 bytes")]
    TooLong,
    /// memory ran out
    #[error("out of memory")]
    NoMemory,
}

impl From<AllocError> for TextRefused {
    ghost use Rattle.std.specs.Prelude.{◌≡◌};
    ghost use Rattle.rd_base.specs.declared.values.TextRefused.TheVariants.{NoMemory as MemoryRefused};

    ghost from_gives = { λ _ e. e ≡ MemoryRefused };

    fn from(_error: AllocError) -> TextRefused {
        TextRefused::NoMemory
    }
}

// What copies of a text share: few bytes lie in it.
#[derive(Drop)]
enum Block {
    Few(ArrayVec<u8, FEW_BYTES>),
    Many(Vec<u8>),
}

const FEW_BYTES: usize = 24;

/// A text of at most 255 bytes, any bytes. Copies share one block of memory. Contracts see it as the list of its bytes, by which it is
/// compared and hashed.
#[derive(Drop)]
pub struct Text {
    // None where there is no byte
    held: Option<Rc<Block>>,
}

impl Model for Text {
    ghost use Rattle.std.specs.Prelude.{List, ℕ, ◌≤◌, length, [], unwrap_or};
    ghost use Rattle.std.specs.Option.{option_map};
    ghost use Rattle.rd_base.specs.Texts.{block_bytes};

    ghost Value = { List ℕ };

    ghost view = { λ t. unwrap_or (option_map (λ held. block_bytes held.value) t.held) [] };

    ghost invariant = { λ t. length (unwrap_or (option_map (λ held. block_bytes held.value) t.held) []) ≤ 255 };
}

// A block with these bytes, which copies will share.
#[tactic(auto, unfolding(crate::specs::Texts::block_bytes))]
fn shared(alloc: Global, bytes: &[u8]) -> Result<Rc<Block>, NoMemory>
    ensures { IfOk result (λ held. block_bytes held.value ≡ bytes.now) }
{
    let mut few = ArrayVec::new();
    if let Ok(()) = few.try_extend_from_slice(bytes) {
        return Ok(Rc::new(alloc, Block::Few(few))?);
    }
    let many = Vec::from_slice(alloc, bytes)?;
    Ok(Rc::new(alloc, Block::Many(many))?)
}

// The bytes in a block.
#[tactic(auto, unfolding(crate::specs::Texts::block_bytes))]
fn block_bytes(block: &Block) -> &[u8]
    ensures { result.now ≡ block_bytes block.now }
{
    match block {
        Block::Few(few) => few.as_slice(),
        Block::Many(many) => many.as_slice(),
    }
}

// The same bytes, of which each is below 256.
fn ranged(bytes: &[u8]) -> &[u8]
    ensures value { result.now ≡ bytes.now }
    ensures range { All (λ b. b < 256) bytes.now }
{
    bytes
}

impl Text {
    /// The text of these bytes. `TooLong` comes exactly above 255 bytes. The empty text takes no memory.
    pub fn from_bytes(alloc: Global, bytes: &[u8]) -> Result<Text, TextRefused>
        ensures value { IfOk result (λ text. text ≡ bytes.now) }
        ensures too_long { IsErrOf result TextRefused.TooLong ↔ (255 < length bytes.now) }
        ensures memory { IfErr result (λ e. e ≡ TextRefused.NoMemory → bytes.now ≢ []) }
    {
        if bytes.len() > 255 {
            return Err(TextRefused::TooLong);
        }
        if bytes.is_empty() {
            return Ok(Text { held: None });
        }
        match shared(alloc, bytes) {
            Ok(held) => Ok(Text { held: Some(held) }),
            Err(_) => Err(TextRefused::NoMemory),
        }
    }

    // The same.
    fn bytes(&self) -> &[u8]
        ensures value { result.now ≡ self.now }
        ensures few { length self.now ≤ 255 }
    {
        match &self.held {
            Some(held) => block_bytes(held),
            None => &[],
        }
    }

    /// Its bytes, at most 255.
    pub fn items(&self) -> &[u8]
        ensures value { result.now ≡ self.now }
        ensures few { length self.now ≤ 255 }
        ensures text { IsText self.now }
    {
        ranged(self.bytes())
    }

    /// An equal text, which shares this one's memory. `NoMemory` comes only where too many share it, and for the empty text it never
    /// comes.
    pub fn copy(&self, alloc: Global) -> Result<Text, NoMemory>
        ensures value { IfOk result (λ text. text ≡ self.now) }
        ensures memory { OnErr result (self.now ≢ []) }
    {
        let _alloc = alloc;
        match &self.held {
            Some(held) if !block_bytes(held).is_empty() => Ok(Text {
                held: Some(held.clone()?),
            }),
            _ => Ok(Text { held: None }),
        }
    }
}

impl PartialEq for Text {
    ghost use Rattle.std.specs.Prelude.{nat_eq};
    ghost use Rattle.std.specs.Cmp.{partial_equiv_from_equiv};
    ghost use Rattle.std.specs.Cmp.Lexicographic.{pointwise, nat_list_eq_equiv};

    ghost eq = { pointwise nat_eq };

    ghost laws = { partial_equiv_from_equiv nat_list_eq_equiv };

    fn eq(&self, other: &Text) -> bool {
        self.bytes() == other.bytes()
    }
}

impl Eq for Text {
    ghost use Rattle.std.specs.Cmp.Lexicographic.{nat_list_eq_equiv};

    ghost laws = { nat_list_eq_equiv };
}

impl PartialOrd for Text {
    ghost use Rattle.std.specs.Prelude.{Some};
    ghost use Rattle.std.specs.Ordering.{nat_cmp};
    ghost use Rattle.std.specs.Cmp.Lexicographic.{slice_cmp, texts_po};

    ghost partial_cmp = { λ a b. Some (slice_cmp nat_cmp a b) };

    ghost laws = { texts_po };

    fn partial_cmp(&self, other: &Text) -> Option<Ordering> {
        Some(self.cmp(other))
    }
}

impl Ord for Text {
    ghost use Rattle.std.proofs.Common.{refl};
    ghost use Rattle.std.specs.Ordering.{nat_cmp};
    ghost use Rattle.std.specs.Cmp.Lexicographic.{slice_cmp, nat_list_cmp_total, texts_ties};

    ghost cmp = { slice_cmp nat_cmp };

    ghost total = { nat_list_cmp_total };

    ghost matches_partial_cmp = { λ a b. refl };

    ghost matches_eq = { texts_ties };

    fn cmp(&self, other: &Text) -> Ordering {
        order(self.bytes(), other.bytes())
    }
}

impl Hash for Text {
    ghost use Rattle.std.specs.Cmp.Rules.{hashing};
    ghost use Rattle.std.proofs.Common.{rules};
    ghost use Rattle.rd_base.specs.Hashing.{text_input};

    ghost hash_input = { text_input };

    ghost respects_eq = { Prim.search (hashing, rules) };

    fn hash<H: Hasher>(&self, state: &mut H) {
        hash_text(self.bytes(), state)
    }
}

/// An argument or a result of a call. The order is `Nil`, `false`, `true`, integers by size, texts by bytes.
#[derive(Drop, PartialEq, Eq, PartialOrd, Ord, Hash)]
pub enum Value {
    Nil,
    Bool(bool),
    Int(i64),
    Text(Text),
}

impl Default for Value {
    fn default() -> Value {
        Value::Nil
    }
}

impl Value {
    /// An equal value. Only a text that isn't empty takes memory.
    pub fn copy(&self, alloc: Global) -> Result<Value, NoMemory>
        ensures value { IfOk result (λ value. value ≡ self.now) }
        ensures memory { OnErr result
            ((text : List ℕ) × (self.now ≡ Value.Text text) × (text ≢ [])) }
    {
        Ok(match self {
            Value::Nil => Value::Nil,
            Value::Bool(value) => Value::Bool(*value),
            Value::Int(value) => Value::Int(*value),
            Value::Text(text) => Value::Text(text.copy(alloc)?),
        })
    }
}

/// The law of the order of values and names: values are ordered as `value_cmp` says and names by their bytes; `==` tells exactly
/// the equal ones alike, and so does the order; equal ones are hashed alike.
#[tactic(auto, using(crate::proofs::OrderLemmas::tied_values, crate::proofs::OrderLemmas::tied_bytes))]
pub fn law_of_order()
    // values
    ensures values { (a b : Value) → ⟦<Value as Ord>⟧.cmp a b ≡ value_cmp a b }
    ensures tied_values { (a b : Value) → (value_cmp a b ≡ Equal) ↔ (a ≡ b) }
    ensures equal_values { (a b : Value) → IsTrue (⟦<Value as PartialEq>⟧.eq a b) ↔ (a ≡ b) }
    ensures hashed_values { (a b : Value) → IsTrue (⟦<Value as PartialEq>⟧.eq a b) →
        ⟦<Value as Hash>⟧.hash_input a ≡ ⟦<Value as Hash>⟧.hash_input b }

    // names
    ensures names { (a b : List ℕ) → ⟦<Name as Ord>⟧.cmp a b ≡ bytes_cmp a b }
    ensures tied_names { (a b : List ℕ) → (bytes_cmp a b ≡ Equal) ↔ (a ≡ b) }
    ensures equal_names { (a b : List ℕ) → IsTrue (⟦<Name as PartialEq>⟧.eq a b) ↔ (a ≡ b) }
    ensures hashed_names { (a b : List ℕ) → IsTrue (⟦<Name as PartialEq>⟧.eq a b) →
        ⟦<Name as Hash>⟧.hash_input a ≡ ⟦<Name as Hash>⟧.hash_input b }
{}
