//! The table of a kind.
ghost use Rattle.std.specs.Prelude.{◌≡◌, ◌+◌, ◌*◌, ◌<◌, ◌≤◌, ◌++◌, All, IfOk, OnOk, flat_map, is_none, length, map};
ghost use Rattle.std.specs.List.{range_with_len};
ghost use Rattle.rd_base.specs.declared.limits.TheConstants.{MOST_PREDICATES};
ghost use Rattle.rd_points.specs.Blocks.{ArePredicates, block_classes, touches_from};
ghost use Rattle.rd_points.specs.Classes.{slot_at};
ghost use Rattle.rd_points.specs.Compiled.{compiled};
ghost use Rattle.rd_points.specs.Tables.{Tells};

use crate::blocks::{Block, blocks_of, slot_count, valuation_count};
use crate::rows::{rows_of, slot_at};
use crate::tables::Table;
use crate::touches::Touch;
use arrayvec::ArrayVec;
use rd_base::NoMemory;
use rd_ecl::{KindSpec, Predicates};
use std::alloc::Global;

// The predicates of each method.
fn predicates_of(alloc: Global, kind: &KindSpec) -> Result<Vec<Predicates>, NoMemory>
    ensures value { IfOk result (λ predicates. ArePredicates kind.now predicates.items) }
    ensures few { IfOk result
        (λ predicates. All (λ ps. length ps ≤ MOST_PREDICATES) predicates.items) }
{
    let mut predicates = Vec::new(alloc);
    let count = kind.methods().len() as u8;
    for method in 0..count {
        predicates.push(kind.predicates(alloc, method)?)?;
    }
    Ok(predicates)
}

// The touches of a block whose plain class has this number.
fn block_touches(first: u32, slots: u8) -> ArrayVec<Touch, 8>
    requires few { slots ≤ 7 }
    requires bound { first ≤ 4096 }
    ensures { result.items ≡ touches_from first slots }
{
    let mut touches = ArrayVec::new();
    for i in 0..slots + 1 {
        touches.push(Touch {
            class: first + u32::from(i),
            slot: slot_at(i),
        });
    }
    touches
}

// The touches of a method for this many valuations, where its first class has this number.
fn method_touches(
    alloc: Global,
    first: u32,
    slots: u8,
    count: u8,
) -> Result<Vec<ArrayVec<Touch, 8>>, NoMemory>
    requires few { slots ≤ 7 }
    requires bound { first + 8 * count ≤ 4096 }
    ensures { IfOk result (λ rows. map (λ row. row.items) rows.items
        ≡ map (λ bits. touches_from (first + bits * (slots + 1)) slots) (range_with_len 0 count)) }
{
    let mut rows = Vec::new(alloc);
    let mut next = first;
    for bits in 0..count {
        rows.push(block_touches(next, slots))?;
        next += u32::from(slots) + 1;
    }
    Ok(rows)
}

// The touches of each method with each valuation.
fn touches_of(
    alloc: Global,
    kind: &KindSpec,
    predicates: &[Predicates],
) -> Result<Vec<Vec<ArrayVec<Touch, 8>>>, NoMemory>
    requires { ArePredicates kind.now predicates.now }
    ensures { IfOk result (λ touches. map (λ rows. map (λ row. row.items) rows.items) touches.items
        ≡ (compiled kind.now).touches) }
{
    let mut touches = Vec::new(alloc);
    let mut next = 0;
    let count = kind.methods().len();
    for method in 0..count {
        let slots = slot_count(kind, method);
        let valuations = valuation_count(&predicates[method]);
        touches.push(method_touches(alloc, next, slots, valuations)?)?;
        next += u32::from(valuations) * (u32::from(slots) + 1);
    }
    Ok(touches)
}

// Puts last whether the classes of a block are plain.
fn add_plain(plain: &mut Vec<bool>, slots: u8) -> Result<(), NoMemory>
    requires { slots ≤ 7 }
    ensures { OnOk result (plain.new.items
        ≡ plain.old.items ++ map (λ i. is_none (slot_at i)) (range_with_len 0 (slots + 1))) }
{
    for i in 0..slots + 1 {
        plain.push(slot_at(i).is_none())?;
    }
    Ok(())
}

// Are the classes of these blocks plain?
fn plain_of(alloc: Global, blocks: &[Block]) -> Result<Vec<bool>, NoMemory>
    requires { All (λ block. block.slots ≤ 7) blocks.now }
    ensures { IfOk result (λ plain. plain.items
        ≡ map (λ class. is_none class.slot) (flat_map block_classes blocks.now)) }
{
    let mut plain = Vec::new(alloc);
    for block in blocks {
        add_plain(&mut plain, block.slots)?;
    }
    Ok(plain)
}

impl Table {
    /// The table of all classes of a kind: at most 4,096, each of which conflicts with as many at
    /// most.
    pub fn compile(alloc: Global, kind: &KindSpec) -> Result<Table, NoMemory>
        ensures compiled { IfOk result (λ table. table ≡ compiled kind.now) }
        ensures tells { IfOk result (λ table. Tells kind.now table) }
    {
        // its clause says what is known of a kind
        let _methods = kind.methods();
        let predicates = predicates_of(alloc, kind)?;
        let blocks = blocks_of(alloc, kind, predicates.as_slice())?;
        let touches = touches_of(alloc, kind, predicates.as_slice())?;
        let plain = plain_of(alloc, blocks.as_slice())?;
        let conflicts = rows_of(alloc, kind, predicates.as_slice(), blocks.as_slice())?;
        Ok(Table::from_parts(predicates, touches, plain, conflicts))
    }
}
