//! What the command `points` writes.
ghost use Rattle.std.specs.Prelude.{ℕ, [], OnErr, OnOk};
ghost use Rattle.rd_classes.specs.Merged.{merged};
ghost use Rattle.rd_io.specs.Sinks.{Appends};
ghost use Rattle.rd_points.specs.Compiled.{compiled};
ghost use Rattle.rd_points_command.specs.PointTexts.{class_line, kind_line, kind_text, points_text, predicate_lines, touch_lines};
ghost use Rattle.rd_base.specs.declared.limits.Limits.{Limits};
ghost use Rattle.rd_spec_command.specs.Meanings.{said_meaning};
ghost use Rattle.rd_walk.specs.Analysis.{TellsFault, WritesFront};
ghost use Rattle.rd_walk.specs.Meanings.{Ran, seen};
ghost use Rattle.rd_walk.specs.Output.{ended_status};

use crate::numbered::{Numbered, write_numbered};
use crate::texts::{append_class, append_kind, append_method_touches, append_predicates};
use rd_base::{Bytes, NoMemory, Word};
use rd_classes::merged_table;
use rd_ecl::{KindSpec, Spec};
use rd_io::{Inputs, Sink};
use rd_points::Table;
use rd_spec_command::{SpecReport, report_spec};
use rd_walk::{Ended, Halt, write_line};
use std::alloc::Global;

// The predicates of a kind, by method.
#[derive(Clone, Copy)]
struct PredicateLines<'a> {
    kind: &'a KindSpec,
    table: &'a Table,
}

impl Numbered for PredicateLines<'_> {
    ghost use Rattle.std.specs.Prelude.{length};

    ghost text_of = { λ lines method. predicate_lines lines.kind.now lines.table.now method };

    ghost count = { λ lines. length lines.kind.now.methods };

    fn append(&self, text: &mut Bytes, number: u32) -> Result<(), NoMemory> {
        // its clause says what is known of a kind
        let _methods = self.kind.methods();
        append_predicates(text, self.kind, self.table, number as u8)
    }
}

// The classes of a table.
#[derive(Clone, Copy)]
struct ClassLines<'a> {
    table: &'a Table,
}

impl Numbered for ClassLines<'_> {
    ghost use Rattle.rd_points.specs.Tables.{class_count};

    ghost text_of = { λ lines class. class_line lines.table.now class };

    ghost count = { λ lines. class_count lines.table.now };

    fn append(&self, text: &mut Bytes, number: u32) -> Result<(), NoMemory> {
        append_class(text, self.table, number)
    }
}

// What the calls of a kind touch, by method.
#[derive(Clone, Copy)]
struct TouchLines<'a> {
    kind: &'a KindSpec,
    table: &'a Table,
}

impl Numbered for TouchLines<'_> {
    ghost use Rattle.std.specs.Prelude.{length};

    ghost text_of = { λ lines method. touch_lines lines.kind.now lines.table.now method };

    ghost count = { λ lines. length lines.kind.now.methods };

    fn append(&self, text: &mut Bytes, number: u32) -> Result<(), NoMemory> {
        // its clause says what is known of a kind
        let _methods = self.kind.methods();
        append_method_touches(text, self.kind, self.table, number as u8)
    }
}

// Writes the line of a kind.
fn write_head<S: Sink>(
    text: &mut Bytes,
    kind: &KindSpec,
    table: &Table,
    out: &mut S,
) -> Result<(), Halt>
    ensures ok { OnOk result (Appends (S.written out.old) (S.written out.new)
        (kind_line kind.now table.now)) }
    ensures front { OnErr result (WritesFront (S.written out.old) (S.written out.new) []
        (kind_line kind.now table.now)) }
    ensures fault { TellsFault (S.faults out.old) (S.faults out.new) (S.at_fault out.new)
        (S.written out.new) result }
{
    text.clear();
    append_kind(text, kind, table)?;
    write_line(out, text.items())
}

// Writes the text of a kind by a table.
fn write_kind<S: Sink>(
    text: &mut Bytes,
    kind: &KindSpec,
    table: &Table,
    out: &mut S,
) -> Result<(), Halt>
    ensures ok { OnOk result (Appends (S.written out.old) (S.written out.new)
        (kind_text kind.now table.now)) }
    ensures front { OnErr result (WritesFront (S.written out.old) (S.written out.new) []
        (kind_text kind.now table.now)) }
    ensures fault { TellsFault (S.faults out.old) (S.faults out.new) (S.at_fault out.new)
        (S.written out.new) result }
{
    let methods = kind.methods().len() as u32;
    write_head(text, kind, table, out)?;
    write_numbered(text, &PredicateLines { kind, table }, methods, out)?;
    write_numbered(text, &ClassLines { table }, table.classes(), out)?;
    write_numbered(text, &TouchLines { kind, table }, methods, out)
}

// Writes the access points of a kind.
fn write_points<S: Sink>(alloc: Global, kind: &KindSpec, out: &mut S) -> Result<(), Halt>
    ensures ok { OnOk result (Appends (S.written out.old) (S.written out.new)
        (kind_text kind.now (merged (compiled kind.now)))) }
    ensures front { OnErr result (WritesFront (S.written out.old) (S.written out.new) []
        (kind_text kind.now (merged (compiled kind.now)))) }
    ensures fault { TellsFault (S.faults out.old) (S.faults out.new) (S.at_fault out.new)
        (S.written out.new) result }
{
    let table = merged_table(alloc, kind)?;
    let mut text = Bytes::new(alloc);
    write_kind(&mut text, kind, &table, out)
}

/// What `points` writes of a specification's kinds: for each its classes of access points, once those that are alike are one, its predicates,
/// which classes conflict, and what a call touches.
#[derive(Clone, Copy, PartialEq, Eq)]
struct PointTables;

impl SpecReport for PointTables {
    ghost text = { λ _ kinds. points_text kinds };

    fn write<S: Sink>(&self, alloc: Global, said: &Spec, out: &mut S) -> Result<(), Halt> {
        for kind in said.kinds() {
            write_points(alloc, kind, out)?;
        }
        Ok(())
    }
}

/// `points SPEC`: writes the access points of a specification's kinds, or where and why it is refused.
pub fn points<I: Inputs, S: Sink>(
    alloc: Global,
    file: &Word,
    inputs: &mut I,
    out: &mut S,
) -> Result<Ended, Halt>
    ensures { (limits : Limits) (steps : ℕ) → Ran (said_meaning points_text file.now) limits
        (seen I.told I.faults inputs.old S.written S.faults S.at_fault out.old steps)
        (seen I.told I.faults inputs.new S.written S.faults S.at_fault out.new steps)
        (ended_status result) }
{
    report_spec(alloc, &PointTables, file, inputs, out)
}
