//! What the formula of two blocks of classes says.
ghost use Rattle.std.specs.Prelude.{◌≡◌, ◌<◌, ◌==◌, ◌||◌, [], All, IfOk, length, map, slice_index_or};
ghost use Rattle.std.specs.List.{list_any};
ghost use Rattle.rd_ecl.specs.Specified.{IsKind};
ghost use Rattle.rd_points.specs.Blocks.{ArePredicates, formula_of_blocks, grid_of, one_way};
ghost use Rattle.rd_points.specs.Classes.{clash};
ghost use Rattle.rd_points.specs.Parts.{AreRows};
ghost use Rattle.rd_points.specs.SlotsInPairs.{has_first, has_second};

use crate::blocks::Block;
use crate::parts::{Part, copied, found, part_rows};
use rd_base::NoMemory;
use rd_ecl::{KindSpec, Predicates, Reduced, SlotPairs, Valuation, reduce};
use std::alloc::Global;

// The formula with the first block's method on side 1; it says nothing where that is declared
// behind the other's. It is looked up, and reduced where it isn't known.
fn one_way(
    alloc: Global,
    kind: &KindSpec,
    predicates: &[Predicates],
    rows: &[Vec<Part>],
    x: Block,
    y: Block,
) -> Result<Reduced, NoMemory>
    requires valid { IsKind kind.now }
    requires known { (x.method < length kind.now.methods) × (y.method < length kind.now.methods) }
    requires predicates { ArePredicates kind.now predicates.now }
    requires rows { AreRows kind.now (map (λ row. row.items) rows.now) }
    ensures { IfOk result (λ reduced. reduced ≡ one_way kind.now x y) }
{
    if y.method < x.method {
        return Ok(Reduced::True);
    }
    let v = Valuation { bits: x.bits };
    let w = Valuation { bits: y.bits };
    if let Some(reduced) = found(rows, x.method, v, y.method, w) {
        return copied(alloc, reduced);
    }
    let formula = kind.formula(x.method, y.method);
    let first = &predicates[usize::from(x.method)];
    let second = &predicates[usize::from(y.method)];
    reduce(alloc, formula, first, v, second, w)
}

// What the formula of a block and of each of these says, with the method of the first on side 1.
fn formulas_of(
    alloc: Global,
    kind: &KindSpec,
    predicates: &[Predicates],
    rows: &[Vec<Part>],
    blocks: &[Block],
    x: Block,
) -> Result<Vec<Reduced>, NoMemory>
    requires valid { IsKind kind.now }
    requires known { x.method < length kind.now.methods }
    requires all_known { All (λ block. block.method < length kind.now.methods) blocks.now }
    requires predicates { ArePredicates kind.now predicates.now }
    requires rows { AreRows kind.now (map (λ row. row.items) rows.now) }
    ensures { IfOk result (λ formulas. formulas.items ≡ map (one_way kind.now x) blocks.now) }
{
    let mut formulas = Vec::with_capacity(alloc, blocks.len())?;
    for y in blocks {
        formulas.push(one_way(alloc, kind, predicates, rows, x, *y)?)?;
    }
    Ok(formulas)
}

// What the formula of each two of these blocks says, with the method of the first on side 1.
pub(crate) fn grid_of(
    alloc: Global,
    kind: &KindSpec,
    predicates: &[Predicates],
    blocks: &[Block],
) -> Result<Vec<Vec<Reduced>>, NoMemory>
    requires valid { IsKind kind.now }
    requires all_known { All (λ block. block.method < length kind.now.methods) blocks.now }
    requires predicates { ArePredicates kind.now predicates.now }
    ensures { IfOk result
        (λ grid. map (λ row. row.items) grid.items ≡ grid_of kind.now blocks.now) }
{
    let parts = part_rows(alloc, kind, predicates)?;
    let rows = parts.as_slice();
    let mut grid = Vec::with_capacity(alloc, blocks.len())?;
    for x in blocks {
        grid.push(formulas_of(alloc, kind, predicates, rows, blocks, *x)?)?;
    }
    Ok(grid)
}

// What the formula of the blocks with these numbers says, with the method of the first on side 1.
pub(crate) fn formula_at(grid: &[Vec<Reduced>], x: usize, y: usize) -> &Reduced
    requires { y < length (slice_index_or (map (λ row. row.items) grid.now) x []) }
    ensures { result.now ≡ formula_of_blocks (map (λ row. row.items) grid.now) x y }
{
    &grid[x][y]
}

// Do two classes with these slots clash, the first on side 1?
fn clash(reduced: &Reduced, s: Option<u8>, t: Option<u8>) -> bool
    ensures { result ≡ clash reduced.now s t }
{
    match reduced {
        Reduced::True => false,
        Reduced::False => s.is_none() && t.is_none(),
        Reduced::Pairs(pairs) => match (s, t) {
            (Some(s), Some(t)) => pairs.has(s, t),
            _ => false,
        },
    }
}

// Do two classes with these slots conflict, by the formula with either method on side 1?
pub(crate) fn meet(forward: &Reduced, backward: &Reduced, s: Option<u8>, t: Option<u8>) -> bool
    ensures { result ≡ (clash forward.now s t || clash backward.now t s) }
{
    clash(forward, s, t) || clash(backward, t, s)
}

// Has the pair this slot on side 1?
fn is_first(pair: (u8, u8), slot: u8) -> bool
    ensures { result ≡ (pair.0 == slot) }
{
    pair.0 == slot
}

// Has the pair this slot on side 2?
fn is_second(pair: (u8, u8), slot: u8) -> bool
    ensures { result ≡ (pair.1 == slot) }
{
    pair.1 == slot
}

// Has one of these pairs this slot on side 1?
fn any_first(pairs: &SlotPairs, slot: u8) -> bool
    ensures { result ≡ list_any (λ pair. pair.0 == slot) pairs.now }
{
    pairs.items().iter().any(|pair| is_first(*pair, slot))
}

// Has one of these pairs this slot on side 2?
fn any_second(pairs: &SlotPairs, slot: u8) -> bool
    ensures { result ≡ list_any (λ pair. pair.1 == slot) pairs.now }
{
    pairs.items().iter().any(|pair| is_second(*pair, slot))
}

// Has a pair this slot on side 1?
fn has_first(reduced: &Reduced, slot: u8) -> bool
    ensures { result ≡ has_first reduced.now slot }
{
    match reduced {
        Reduced::True | Reduced::False => false,
        Reduced::Pairs(pairs) => any_first(pairs, slot),
    }
}

// Has a pair this slot on side 2?
fn has_second(reduced: &Reduced, slot: u8) -> bool
    ensures { result ≡ has_second reduced.now slot }
{
    match reduced {
        Reduced::True | Reduced::False => false,
        Reduced::Pairs(pairs) => any_second(pairs, slot),
    }
}

// Has a pair this slot of the first block, by the formula with either method on side 1?
pub(crate) fn has_slot(forward: &Reduced, backward: &Reduced, slot: u8) -> bool
    ensures { result ≡ (has_first forward.now slot || has_second backward.now slot) }
{
    has_first(forward, slot) || has_second(backward, slot)
}
