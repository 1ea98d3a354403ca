//! Formulas of two methods by what they reduce to, which is looked up for each two valuations.
ghost use Rattle.std.specs.Prelude.{◌≡◌, ◌<◌, ◌≤◌, ◌^◌, [], IfOk, OnOk, length, map, option_map};
ghost use Rattle.std.specs.List.{range_with_len};
ghost use Rattle.std.specs.Option.{option_map_or};
ghost use Rattle.rd_base.specs.declared.limits.TheConstants.{MOST_PREDICATES};
ghost use Rattle.rd_ecl.specs.Formulas.{InFragment, tree_of};
ghost use Rattle.rd_ecl.specs.Reduction.{AreListed, reduce_of};
ghost use Rattle.rd_ecl.specs.Specified.{IsKind};
ghost use Rattle.rd_points.specs.Blocks.{ArePredicates};
ghost use Rattle.rd_points.specs.Parts.{IsRow, AreRows, IsPartOf, both_known, either_known, known, part_in, reads, same_side};
ghost use Rattle.rd_points.specs.declared.parts.Part.TheVariants.{Unknown};

use crate::blocks::valuation_count;
use rd_base::NoMemory;
use rd_ecl::{Formula, KindSpec, Predicates, Reduced, Side, SlotPairs, Valuation, reduce};
use std::alloc::Global;

// A formula: where it reads the predicates of one side alone, what it reduces to for each valuation of that side.
#[derive(Drop)]
pub(crate) enum Part {
    First(Vec<Reduced>),
    Second(Vec<Reduced>),
    Both(Box<Part>, Box<Part>),
    Either(Box<Part>, Box<Part>),
    // nothing is kept of it
    Unknown,
}

fn is_same_side(x: Side, y: Side) -> bool
    ensures { result ≡ same_side x y }
{
    match (x, y) {
        (Side::First, Side::First) => true,
        (Side::Second, Side::Second) => true,
        _ => false,
    }
}

// Does the formula read a predicate of this side?
fn reads(formula: &Formula, side: Side) -> bool
    ensures { result ≡ reads side (tree_of formula.now) }
{
    match formula {
        Formula::True => false,
        Formula::False => false,
        Formula::Atom { side: other, .. } => is_same_side(side, *other),
        Formula::Cross { .. } => false,
        Formula::Mixed { .. } => false,
        Formula::Not(part) => reads(part, side),
        Formula::And(left, right) => reads(left, side) || reads(right, side),
        Formula::Or(left, right) => reads(left, side) || reads(right, side),
    }
}

// What the formula reduces to for each valuation of side 1.
fn first_table(
    alloc: Global,
    formula: &Formula,
    first: &Predicates,
    second: &Predicates,
) -> Result<Vec<Reduced>, NoMemory>
    requires few { (length first.now ≤ MOST_PREDICATES) × (length second.now ≤ MOST_PREDICATES) }
    requires inside { InFragment (tree_of formula.now) }
    requires listed { AreListed (tree_of formula.now) first.now second.now }
    ensures { IfOk result (λ table. table.items
        ≡ map (λ v. reduce_of (tree_of formula.now) first.now v second.now 0)
        (range_with_len 0 (2 ^ length first.now))) }
{
    let mut table = Vec::new(alloc);
    let w = Valuation { bits: 0 };
    let count = valuation_count(first);
    for bits in 0..count {
        let v = Valuation { bits };
        table.push(reduce(alloc, formula, first, v, second, w)?)?;
    }
    Ok(table)
}

// What the formula reduces to for each valuation of side 2.
fn second_table(
    alloc: Global,
    formula: &Formula,
    first: &Predicates,
    second: &Predicates,
) -> Result<Vec<Reduced>, NoMemory>
    requires few { (length first.now ≤ MOST_PREDICATES) × (length second.now ≤ MOST_PREDICATES) }
    requires inside { InFragment (tree_of formula.now) }
    requires listed { AreListed (tree_of formula.now) first.now second.now }
    ensures { IfOk result (λ table. table.items
        ≡ map (λ w. reduce_of (tree_of formula.now) first.now 0 second.now w)
        (range_with_len 0 (2 ^ length second.now))) }
{
    let mut table = Vec::new(alloc);
    let v = Valuation { bits: 0 };
    let count = valuation_count(second);
    for bits in 0..count {
        let w = Valuation { bits };
        table.push(reduce(alloc, formula, first, v, second, w)?)?;
    }
    Ok(table)
}

// The formula, whose relations on one side are among the predicates of that side.
fn part_of(
    alloc: Global,
    formula: &Formula,
    first: &Predicates,
    second: &Predicates,
) -> Result<Part, NoMemory>
    requires few { (length first.now ≤ MOST_PREDICATES) × (length second.now ≤ MOST_PREDICATES) }
    requires inside { InFragment (tree_of formula.now) }
    requires listed { AreListed (tree_of formula.now) first.now second.now }
    ensures { IfOk result (λ part. IsPartOf part (tree_of formula.now) first.now second.now) }
{
    if !reads(formula, Side::Second) {
        return Ok(Part::First(first_table(alloc, formula, first, second)?));
    }
    if !reads(formula, Side::First) {
        return Ok(Part::Second(second_table(alloc, formula, first, second)?));
    }
    match formula {
        Formula::And(left, right) => {
            let left = part_of(alloc, left, first, second)?;
            let right = part_of(alloc, right, first, second)?;
            Ok(Part::Both(Box::new(alloc, left)?, Box::new(alloc, right)?))
        }
        Formula::Or(left, right) => {
            let left = part_of(alloc, left, first, second)?;
            let right = part_of(alloc, right, first, second)?;
            Ok(Part::Either(Box::new(alloc, left)?, Box::new(alloc, right)?))
        }
        _ => Ok(Part::Unknown),
    }
}

// What both reduce to, unless it has the pairs of both.
fn both_of<'a>(x: Option<&'a Reduced>, y: Option<&'a Reduced>) -> Option<&'a Reduced>
    ensures { option_map (λ r. r.now) result
        ≡ both_known (option_map (λ r. r.now) x.entry) (option_map (λ r. r.now) y.entry) }
{
    match (x, y) {
        (Some(Reduced::False), _) => x,
        (Some(Reduced::True), _) => y,
        (Some(Reduced::Pairs(_)), Some(Reduced::False)) => y,
        (Some(Reduced::Pairs(_)), Some(Reduced::True)) => x,
        _ => None,
    }
}

// What either reduces to, unless it has the pairs of both.
fn either_of<'a>(x: Option<&'a Reduced>, y: Option<&'a Reduced>) -> Option<&'a Reduced>
    ensures { option_map (λ r. r.now) result
        ≡ either_known (option_map (λ r. r.now) x.entry) (option_map (λ r. r.now) y.entry) }
{
    match (x, y) {
        (Some(Reduced::True), _) => x,
        (Some(Reduced::False), _) => y,
        (Some(Reduced::Pairs(_)), Some(Reduced::True)) => y,
        (Some(Reduced::Pairs(_)), Some(Reduced::False)) => x,
        _ => None,
    }
}

// What the formula reduces to for these valuations, if it is known.
fn find<'a>(part: &'a Part, v: Valuation, w: Valuation) -> Option<&'a Reduced>
    ensures { option_map (λ r. r.now) result ≡ known part.now v.bits w.bits }
{
    match part {
        Part::First(table) => table.get(usize::from(v.bits)),
        Part::Second(table) => table.get(usize::from(w.bits)),
        Part::Both(left, right) => both_of(find(left, v, w), find(right, v, w)),
        Part::Either(left, right) => either_of(find(left, v, w), find(right, v, w)),
        Part::Unknown => None,
    }
}

// The formulas with this method on side 2, by the method on side 1.
fn part_row(
    alloc: Global,
    kind: &KindSpec,
    predicates: &[Predicates],
    second: u8,
) -> Result<Vec<Part>, NoMemory>
    requires valid { IsKind kind.now }
    requires known { second < length kind.now.methods }
    requires predicates { ArePredicates kind.now predicates.now }
    ensures { IfOk result (λ parts. IsRow kind.now second parts.items) }
{
    let mut parts = Vec::new(alloc);
    for first in 0..second + 1 {
        let formula = kind.formula(first, second);
        let p = &predicates[usize::from(first)];
        let q = &predicates[usize::from(second)];
        parts.push(part_of(alloc, formula, p, q)?)?;
    }
    Ok(parts)
}

// The formulas of a kind, by the method on side 2, then by that on side 1.
pub(crate) fn part_rows(
    alloc: Global,
    kind: &KindSpec,
    predicates: &[Predicates],
) -> Result<Vec<Vec<Part>>, NoMemory>
    requires valid { IsKind kind.now }
    requires predicates { ArePredicates kind.now predicates.now }
    ensures { IfOk result (λ rows. AreRows kind.now (map (λ row. row.items) rows.items)) }
{
    let mut rows = Vec::new(alloc);
    let count = kind.methods().len() as u8;
    for second in 0..count {
        rows.push(part_row(alloc, kind, predicates, second)?)?;
    }
    Ok(rows)
}

// The formula of these methods.
fn part_in(rows: &[Vec<Part>], first: u8, second: u8) -> Option<&Part>
    ensures { option_map_or (λ part. part.now) result Unknown
        ≡ part_in (map (λ row. row.items) rows.now) first second }
{
    match rows.get(usize::from(second)) {
        Some(row) => row.get(usize::from(first)),
        None => None,
    }
}

// What the formula of these methods reduces to for these valuations, if it is known.
pub(crate) fn found(
    rows: &[Vec<Part>],
    first: u8,
    v: Valuation,
    second: u8,
    w: Valuation,
) -> Option<&Reduced>
    ensures { option_map (λ r. r.now) result
        ≡ known (part_in (map (λ row. row.items) rows.now) first second) v.bits w.bits }
{
    match part_in(rows, first, second) {
        Some(part) => find(part, v, w),
        None => None,
    }
}

// The same pairs.
fn copied_pairs(alloc: Global, pairs: &[(u8, u8)]) -> Result<SlotPairs, NoMemory>
    ensures { IfOk result (λ copy. copy ≡ pairs.now) }
{
    let mut copy = SlotPairs::new(alloc);
    for pair in pairs {
        copy.push(*pair)?;
    }
    Ok(copy)
}

// The same.
pub(crate) fn copied(alloc: Global, reduced: &Reduced) -> Result<Reduced, NoMemory>
    ensures { IfOk result (λ copy. copy ≡ reduced.now) }
{
    match reduced {
        Reduced::True => Ok(Reduced::True),
        Reduced::False => Ok(Reduced::False),
        Reduced::Pairs(pairs) => Ok(Reduced::Pairs(copied_pairs(alloc, pairs.items())?)),
    }
}
