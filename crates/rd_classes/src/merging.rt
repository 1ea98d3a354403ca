//! Merging the classes of a table that are alike.
ghost use Rattle.std.specs.Prelude.{◌≡◌, ◌+◌, ◌<◌, ◌^◌, ◌++◌, [], ◌∷◌, length, map, position, slice_set, vec_len, true, IfOk, IfErr, OnOk, if◌then◌else◌};
ghost use Rattle.std.specs.List.{range_with_len};
ghost use Rattle.rd_ecl.specs.Specified.{IsKind, SpecifiedKind};
ghost use Rattle.rd_points.specs.Compiled.{compiled};
ghost use Rattle.rd_points.specs.Tables.{Tells, class_count, is_plain_class};
ghost use Rattle.rd_classes.specs.Leaders.{AreLeaders, AreClassMarks, AreParts, is_like, signature_of};
ghost use Rattle.rd_classes.specs.Merged.{merged, merged_class, merged_conflicts};

use crate::laws::law_of_merging;
use rd_base::NoMemory;
use rd_ecl::KindSpec;
use rd_points::Table;
use std::alloc::Global;

// What a signature is multiplied by for each number of the row.
const FACTOR: u64 = 1_099_511_628_211;

// The least of classes that are alike, and the signature of its row.
#[derive(Clone, Copy)]
struct Leader {
    class: u32,
    signature: u64,
}

// What the merged table needs besides the old one: the merged class of each class, and what is
// said of the merged classes.
#[derive(Drop)]
struct Parts {
    names: Vec<Option<u32>>,
    plain: Vec<bool>,
    conflicts: Vec<Vec<u32>>,
}

// A number of a row: equal rows have the same.
fn signature(row: &[u32]) -> u64
    ensures { result ≡ signature_of row.now }
{
    let mut signature = 0u64;
    for class in row {
        signature = signature
            .wrapping_mul(FACTOR)
            .wrapping_add(u64::from(*class));
    }
    signature
}

// Has the class this signature, and is it like the leader?
fn is_like(table: &Table, leader: Leader, class: u32, signature: u64) -> bool
    ensures { result ≡ is_like table.now class signature leader }
{
    leader.signature == signature
        && table.plain(leader.class) == table.plain(class)
        && table.conflicts(leader.class) == table.conflicts(class)
}

// Where the leader stands that the class is like.
fn place(table: &Table, leaders: &[Leader], class: u32, signature: u64) -> Option<usize>
    ensures { result ≡ position (is_like table.now class signature) leaders.now }
{
    leaders
        .iter()
        .position(|leader| is_like(table, *leader, class, signature))
}

// The merged class of the next class, which is put behind the leaders if it is like none of them.
fn name(table: &Table, leaders: &mut Vec<Leader>, class: u32) -> Result<Option<u32>, NoMemory>
    requires known { class < class_count table.now }
    requires leaders { AreLeaders table.now leaders.old.items class }
    ensures name { IfOk result (λ name. name ≡ merged_class table.now class) }
    ensures leaders { OnOk result (AreLeaders table.now leaders.new.items (class + 1)) }
{
    let row = table.conflicts(class);
    if row.is_empty() {
        return Ok(None);
    }
    let signature = signature(row);
    if let Some(number) = place(table, leaders.as_slice(), class, signature) {
        return Ok(Some(number as u32));
    }
    let number = leaders.len() as u32;
    leaders.push(Leader { class, signature })?;
    Ok(Some(number))
}

// The merged class of each class, and the leaders.
fn names(alloc: Global, table: &Table) -> Result<(Vec<Option<u32>>, Vec<Leader>), NoMemory>
    ensures names { IfOk result (λ found. found.0.items
        ≡ map (merged_class table.now) (range_with_len 0 (class_count table.now))) }
    ensures leaders { IfOk result
        (λ found. AreLeaders table.now found.1.items (class_count table.now)) }
    ensures few { IfOk result (λ found. length found.1.items < 2 ^ 32) }
{
    let mut names = Vec::new(alloc);
    let mut leaders = Vec::new(alloc);
    for class in 0..table.classes() {
        names.push(name(table, &mut leaders, class)?)?;
    }
    Ok((names, leaders))
}

// Marks a class, if there is such a one.
fn mark(marks: &mut Vec<bool>, class: u32)
    ensures { marks.new.items ≡ slice_set marks.old.items class true }
{
    if let Some(mark) = marks.get_mut(class as usize) {
        *mark = true;
    }
}

// The classes in a row, marked among all of them.
fn marks(alloc: Global, row: &[u32], count: u32) -> Result<Vec<bool>, NoMemory>
    ensures { IfOk result (λ marks. AreClassMarks row.now count marks.items) }
{
    let mut marks = vec![in alloc; false; count as usize]?;
    for class in row {
        mark(&mut marks, *class);
    }
    Ok(marks)
}

// Puts a number last, on this condition.
fn push_if(numbers: &mut Vec<u32>, condition: bool, number: u32) -> Result<(), NoMemory>
    ensures { OnOk result (numbers.new.items
        ≡ numbers.old.items ++ (if condition then number ∷ [] else [])) }
{
    if condition {
        numbers.push(number)?;
    }
    Ok(())
}

// The merged classes that conflict with that of a leader: those whose leader stands in its row.
fn merged_row(
    alloc: Global,
    table: &Table,
    least: &[Leader],
    class: u32,
) -> Result<Vec<u32>, NoMemory>
    requires { AreLeaders table.now least.now (class_count table.now) }
    ensures { IfOk result (λ row. row.items ≡ merged_conflicts table.now class) }
{
    let marks = marks(alloc, table.conflicts(class), table.classes())?;
    let mut row = Vec::new(alloc);
    for number in 0..least.len() {
        let marked = marks[least[number].class as usize];
        push_if(&mut row, marked, number as u32)?;
    }
    Ok(row)
}

// The rows of all merged classes.
fn merged_rows(alloc: Global, table: &Table, least: &[Leader]) -> Result<Vec<Vec<u32>>, NoMemory>
    requires { AreLeaders table.now least.now (class_count table.now) }
    ensures { IfOk result (λ rows. map (λ row. row.items) rows.items
        ≡ map (λ l. merged_conflicts table.now l.class) least.now) }
{
    let mut rows = Vec::new(alloc);
    for leader in least {
        rows.push(merged_row(alloc, table, least, leader.class)?)?;
    }
    Ok(rows)
}

// Whether the merged classes are plain.
fn plain(alloc: Global, table: &Table, least: &[Leader]) -> Result<Vec<bool>, NoMemory>
    ensures { IfOk result (λ plain. plain.items ≡ map (λ l. is_plain_class table.now l.class) least.now) }
{
    let mut plain = Vec::new(alloc);
    for leader in least {
        plain.push(table.plain(leader.class))?;
    }
    Ok(plain)
}

// What the merged table needs.
fn collect(alloc: Global, table: &Table) -> Result<Parts, NoMemory>
    ensures parts { IfOk result (λ parts. AreParts table.now parts.names.items parts.plain.items
        (map (λ row. row.items) parts.conflicts.items)) }
    ensures few { IfOk result (λ parts. vec_len parts.conflicts < 2 ^ 32) }
{
    let (names, least) = names(alloc, table)?;
    let plain = plain(alloc, table, least.as_slice())?;
    let conflicts = merged_rows(alloc, table, least.as_slice())?;
    Ok(Parts {
        names,
        plain,
        conflicts,
    })
}

/// The table in which classes that are alike are one: both plain or both with a value, and in conflict
/// with the same classes. A class that conflicts with none is left out. After want of memory the table
/// is handed back as it was.
pub fn merge(alloc: Global, table: Table) -> Result<Table, (Table, NoMemory)>
    ensures merged { IfOk result (λ new. new ≡ merged table) }
    ensures back { IfErr result (λ refused. refused.0 ≡ table) }
    ensures tells { (kind : SpecifiedKind) → IsKind kind → table ≡ compiled kind
        → IfOk result (Tells kind) }
{
    law_of_merging();
    match collect(alloc, &table) {
        Ok(parts) => {
            let Parts {
                names,
                plain,
                conflicts,
            } = parts;
            Ok(table.rename(names.as_slice(), plain, conflicts))
        }
        Err(error) => Err((table, error)),
    }
}

/// The merged table of a kind.
pub fn merged_table(alloc: Global, kind: &KindSpec) -> Result<Table, NoMemory>
    ensures { IfOk result (λ table. table ≡ merged (compiled kind.now)) }
{
    match merge(alloc, Table::compile(alloc, kind)?) {
        Ok(table) => Ok(table),
        Err((_, error)) => Err(error),
    }
}
