//! The rows of the classes that conflict with each.
ghost use Rattle.std.specs.Prelude.{◌≡◌, ◌+◌, ◌<◌, ◌≤◌, ◌^◌, ◌++◌, ℕ, [], ◌∷◌, All, IfOk, OnOk, length, map, if◌then◌else◌};
ghost use Rattle.std.specs.List.{range_with_len};
ghost use Rattle.rd_points.specs.Blocks.{ArePredicates, IsSquare, blocks_of, columns_at, conflict_row, numbers_in, row_from, slots_in};
ghost use Rattle.rd_points.specs.Classes.{classes_of, slot_at};

use crate::blocks::Block;
use crate::columns::{formula_at, grid_of, has_slot, meet};
use rd_base::NoMemory;
use rd_ecl::{KindSpec, Predicates, Reduced};
use std::alloc::Global;

// None, then the slots.
pub(crate) fn slot_at(number: u8) -> Option<u8>
    ensures { result ≡ slot_at number }
{
    match number {
        0 => None,
        _ => Some(number - 1),
    }
}

// Puts a number last where the condition holds.
fn push_if(row: &mut Vec<u32>, condition: bool, number: u32) -> Result<(), NoMemory>
    ensures { OnOk result
        (row.new.items ≡ row.old.items ++ (if condition then number ∷ [] else [])) }
{
    if condition {
        row.push(number)?;
    }
    Ok(())
}

// Puts the numbers of those classes of a block last that conflict with the one that has this slot,
// by what the formula says with either method on side 1. Each class is asked.
fn add_each(
    row: &mut Vec<u32>,
    forward: &Reduced,
    backward: &Reduced,
    slot: Option<u8>,
    slots: u8,
    first: u32,
) -> Result<(), NoMemory>
    requires few { slots ≤ 7 }
    requires bound { first ≤ 4096 }
    ensures { OnOk result (row.new.items ≡ row.old.items ++ numbers_in first slot
        (record { forward = forward.now; backward = backward.now; slots = slots })) }
{
    for i in 0..slots + 1 {
        push_if(
            row,
            meet(forward, backward, slot, slot_at(i)),
            first + u32::from(i),
        )?;
    }
    Ok(())
}

// The same. Only the plain class is asked of a plain one, and none where no pair has the slot.
fn add_numbers(
    row: &mut Vec<u32>,
    forward: &Reduced,
    backward: &Reduced,
    slot: Option<u8>,
    slots: u8,
    first: u32,
) -> Result<(), NoMemory>
    requires few { slots ≤ 7 }
    requires bound { first ≤ 4096 }
    ensures { OnOk result (row.new.items ≡ row.old.items ++ numbers_in first slot
        (record { forward = forward.now; backward = backward.now; slots = slots })) }
{
    match slot {
        None => push_if(row, meet(forward, backward, None, None), first),
        Some(number) => {
            if has_slot(forward, backward, number) {
                return add_each(row, forward, backward, slot, slots, first);
            }
            Ok(())
        }
    }
}

// The classes that conflict with that of a block which has this slot.
fn row_of(
    alloc: Global,
    blocks: &[Block],
    grid: &[Vec<Reduced>],
    at: usize,
    slot: Option<u8>,
) -> Result<Vec<u32>, NoMemory>
    requires small { All (λ block. block.slots ≤ 7) blocks.now }
    requires few { length blocks.now ≤ 512 }
    requires at { at < length blocks.now }
    requires square { IsSquare (length blocks.now) (map (λ row. row.items) grid.now) }
    ensures { IfOk result (λ row. row.items
        ≡ row_from 0 slot (columns_at (map (λ row. row.items) grid.now) blocks.now at)) }
{
    let mut row = Vec::new(alloc);
    let mut next = 0;
    for other in 0..blocks.len() {
        let slots = blocks[other].slots;
        let forward = formula_at(grid, at, other);
        let backward = formula_at(grid, other, at);
        add_numbers(&mut row, forward, backward, slot, slots, next)?;
        next += u32::from(slots) + 1;
    }
    Ok(row)
}

// Puts the rows of the classes of a block last.
fn add_rows(
    alloc: Global,
    rows: &mut Vec<Vec<u32>>,
    blocks: &[Block],
    grid: &[Vec<Reduced>],
    at: usize,
) -> Result<(), NoMemory>
    requires small { All (λ block. block.slots ≤ 7) blocks.now }
    requires few { length blocks.now ≤ 512 }
    requires at { at < length blocks.now }
    requires square { IsSquare (length blocks.now) (map (λ row. row.items) grid.now) }
    ensures { OnOk result (map (λ row. row.items) rows.new.items
        ≡ map (λ row. row.items) rows.old.items ++ map
        (λ i. row_from 0 (slot_at i) (columns_at (map (λ row. row.items) grid.now) blocks.now at))
        (range_with_len 0 (slots_in blocks.now at + 1))) }
{
    for i in 0..blocks[at].slots + 1 {
        rows.push(row_of(alloc, blocks, grid, at, slot_at(i))?)?;
    }
    Ok(())
}

// The rows of the classes of a kind, whose methods have these predicates, by these blocks.
pub(crate) fn rows_of(
    alloc: Global,
    kind: &KindSpec,
    predicates: &[Predicates],
    blocks: &[Block],
) -> Result<Vec<Vec<u32>>, NoMemory>
    requires predicates { ArePredicates kind.now predicates.now }
    requires blocks { blocks.now ≡ blocks_of kind.now }
    ensures { IfOk result (λ rows. map (λ row. row.items) rows.items
        ≡ map (conflict_row kind.now) (classes_of kind.now)) }
{
    // its clause says what is known of a kind
    let _methods = kind.methods();
    let grid = grid_of(alloc, kind, predicates, blocks)?;
    let mut rows = Vec::new(alloc);
    for at in 0..blocks.len() {
        add_rows(alloc, &mut rows, blocks, grid.as_slice(), at)?;
    }
    Ok(rows)
}
