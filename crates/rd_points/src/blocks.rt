//! Blocks of classes: those of a method with a valuation stand together.
ghost use Rattle.std.specs.Prelude.{◌≡◌, ◌+◌, ◌^◌, ◌<◌, ◌≤◌, ◌++◌, IfOk, OnOk, length, map};
ghost use Rattle.std.specs.List.{range_with_len};
ghost use Rattle.rd_base.specs.declared.limits.TheConstants.{MOST_PREDICATES};
ghost use Rattle.rd_ecl.specs.Specified.{slots_at};
ghost use Rattle.rd_points.specs.Blocks.{ArePredicates, blocks_of};

use rd_base::NoMemory;
use rd_ecl::{KindSpec, Predicates};
use std::alloc::Global;

// A method with the truth values of its predicates, and how many slots it has.
#[derive(Clone, Copy)]
pub(crate) struct Block {
    pub(crate) method: u8,
    pub(crate) bits: u8,
    pub(crate) slots: u8,
}

// How many slots a method has: 1 to 7.
pub(crate) fn slot_count(kind: &KindSpec, method: usize) -> u8
    requires { method < length kind.now.methods }
    ensures value { result ≡ slots_at kind.now.methods method }
    ensures few { result ≤ 7 }
{
    kind.methods()[method].variables.items().len() as u8
}

// How many valuations there are of these predicates.
pub(crate) fn valuation_count(predicates: &Predicates) -> u8
    requires { length predicates.now ≤ MOST_PREDICATES }
    ensures { result ≡ 2 ^ length predicates.now }
{
    1 << predicates.items().len()
}

// Puts the blocks of a method last, for this many valuations.
fn add_blocks(blocks: &mut Vec<Block>, method: u8, slots: u8, count: u8) -> Result<(), NoMemory>
    ensures { OnOk result (blocks.new.items ≡ blocks.old.items
        ++ map (λ bits. record { method = method; bits = bits; slots = slots })
        (range_with_len 0 count)) }
{
    for bits in 0..count {
        blocks.push(Block {
            method,
            bits,
            slots,
        })?;
    }
    Ok(())
}

// The blocks of a kind, whose methods have these predicates.
pub(crate) fn blocks_of(
    alloc: Global,
    kind: &KindSpec,
    predicates: &[Predicates],
) -> Result<Vec<Block>, NoMemory>
    requires { ArePredicates kind.now predicates.now }
    ensures { IfOk result (λ blocks. blocks.items ≡ blocks_of kind.now) }
{
    let mut blocks = Vec::new(alloc);
    let count = kind.methods().len();
    for method in 0..count {
        let slots = slot_count(kind, method);
        let valuations = valuation_count(&predicates[method]);
        add_blocks(&mut blocks, method as u8, slots, valuations)?;
    }
    Ok(blocks)
}
