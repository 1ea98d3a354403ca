//! Lines of the text of a kind's access points.
ghost use Rattle.std.specs.Prelude.{◌≡◌, ◌++◌, [], ◌<◌, ◌≤◌, OnOk};
ghost use Rattle.rd_points_command.specs.PointTexts.{bit_text, bits_text, class_line, kind_line, number_text, numbers_text, predicate_line, predicate_line_at, predicate_lines, predicate_text, slot_text, sort_text, term_text, touch_line, touch_lines, touch_text, touches_text, variable_at};
ghost use Rattle.rd_print.specs.Canonical.{relation_sign};
ghost use Rattle.rd_print.specs.Printed.{name_at, variables_at};
ghost use Rattle.rd_tokens.specs.Words.{sign_word};

use rd_base::{Bytes, Name, NoMemory, append_number, append_value};
use rd_ecl::{KindSpec, Method, Predicate, Term, Valuation};
use rd_points::{Table, Touch};
use rd_print::{relation_sign, sign_word};

// The name of the method with this number.
fn append_name(text: &mut Bytes, methods: &[Method], method: u8) -> Result<(), NoMemory>
    ensures { OnOk result (text.new ≡ text.old ++ name_at methods.now method) }
{
    match methods.get(usize::from(method)) {
        Some(method) => text.append(method.name.items()),
        None => Ok(()),
    }
}

// The variables of the method with this number.
fn variables(methods: &[Method], method: u8) -> &[Name]
    ensures { result.now ≡ variables_at methods.now method }
{
    match methods.get(usize::from(method)) {
        Some(method) => method.variables.items(),
        None => &[],
    }
}

// The variable of a slot.
fn append_variable(text: &mut Bytes, variables: &[Name], slot: u8) -> Result<(), NoMemory>
    ensures { OnOk result (text.new ≡ text.old ++ variable_at variables.now slot) }
{
    match variables.get(usize::from(slot)) {
        Some(name) => text.append(name.items()),
        None => Ok(()),
    }
}

// ---- predicates

fn append_term(text: &mut Bytes, variables: &[Name], term: &Term) -> Result<(), NoMemory>
    ensures { OnOk result (text.new ≡ text.old ++ term_text variables.now term.now) }
{
    match term {
        Term::Slot(slot) => append_variable(text, variables, *slot),
        Term::Const(value) => append_value(text, value),
    }
}

fn append_predicate(
    text: &mut Bytes,
    variables: &[Name],
    predicate: &Predicate,
) -> Result<(), NoMemory>
    ensures { OnOk result (text.new ≡ text.old ++ predicate_text variables.now predicate.now) }
{
    append_term(text, variables, &predicate.left)?;
    text.append(b" ")?;
    text.append(sign_word(relation_sign(predicate.rel)))?;
    text.append(b" ")?;
    append_term(text, variables, &predicate.right)
}

// The line of a predicate, which has this number.
fn append_numbered_predicate(
    text: &mut Bytes,
    kind: &KindSpec,
    method: u8,
    number: u64,
    predicate: &Predicate,
) -> Result<(), NoMemory>
    ensures { OnOk result
        (text.new ≡ text.old ++ predicate_line kind.now method number predicate.now) }
{
    text.append(b"predicate ")?;
    append_name(text, kind.methods(), method)?;
    text.append(b" ")?;
    append_number(text, number)?;
    text.append(b" ")?;
    append_predicate(text, variables(kind.methods(), method), predicate)?;
    text.append(b"\n")
}

// The line of the predicate with this number.
fn append_predicate_line(
    text: &mut Bytes,
    kind: &KindSpec,
    table: &Table,
    method: u8,
    number: usize,
) -> Result<(), NoMemory>
    ensures { OnOk result
        (text.new ≡ text.old ++ predicate_line_at kind.now table.now method number) }
{
    match table.predicates(method).get(number) {
        Some(predicate) => {
            append_numbered_predicate(text, kind, method, number as u64, predicate)
        }
        None => Ok(()),
    }
}

// The lines of a method's predicates.
pub(crate) fn append_predicates(
    text: &mut Bytes,
    kind: &KindSpec,
    table: &Table,
    method: u8,
) -> Result<(), NoMemory>
    ensures { OnOk result (text.new ≡ text.old ++ predicate_lines kind.now table.now method) }
{
    for number in 0..table.predicates(method).len() {
        append_predicate_line(text, kind, table, method, number)?;
    }
    Ok(())
}

// ---- classes

// A number behind a blank.
fn append_listed(text: &mut Bytes, number: u32) -> Result<(), NoMemory>
    ensures { OnOk result (text.new ≡ text.old ++ number_text number) }
{
    text.append(b" ")?;
    append_number(text, u64::from(number))
}

// Numbers, each behind a blank.
fn append_numbers(text: &mut Bytes, numbers: &[u32]) -> Result<(), NoMemory>
    ensures { OnOk result (text.new ≡ text.old ++ numbers_text numbers.now) }
{
    for number in numbers {
        append_listed(text, *number)?;
    }
    Ok(())
}

// Whether a class is plain.
fn sort(plain: bool) -> &'static [u8]
    ensures { result.now ≡ sort_text plain }
{
    if plain { b" plain" } else { b" value" }
}

// The line of a class.
pub(crate) fn append_class(text: &mut Bytes, table: &Table, class: u32) -> Result<(), NoMemory>
    ensures { OnOk result (text.new ≡ text.old ++ class_line table.now class) }
{
    text.append(b"class ")?;
    append_number(text, u64::from(class))?;
    text.append(sort(table.plain(class)))?;
    text.append(b" conflicts")?;
    append_numbers(text, table.conflicts(class))?;
    text.append(b"\n")
}

// ---- touches

// The truth value of a predicate.
fn bit(bits: u8, number: u8) -> &'static [u8]
    requires { number < 8 }
    ensures { result.now ≡ bit_text bits number }
{
    if (bits >> number) & 1 == 1 {
        b"1"
    } else {
        b"0"
    }
}

// The truth values of so many predicates, the first in front; `-` for none.
fn append_bits(text: &mut Bytes, count: u8, bits: u8) -> Result<(), NoMemory>
    requires { count ≤ 8 }
    ensures { OnOk result (text.new ≡ text.old ++ bits_text count bits) }
{
    if count == 0 {
        return text.append(b"-");
    }
    for number in 0..count {
        text.append(bit(bits, number))?;
    }
    Ok(())
}

// The variable whose value a class is touched with.
fn append_slot(text: &mut Bytes, variables: &[Name], slot: Option<u8>) -> Result<(), NoMemory>
    ensures { OnOk result (text.new ≡ text.old ++ slot_text variables.now slot) }
{
    match slot {
        None => Ok(()),
        Some(slot) => {
            text.append(b":")?;
            append_variable(text, variables, slot)
        }
    }
}

fn append_touch(text: &mut Bytes, variables: &[Name], touch: &Touch) -> Result<(), NoMemory>
    ensures { OnOk result (text.new ≡ text.old ++ touch_text variables.now touch.now) }
{
    text.append(b" ")?;
    append_number(text, u64::from(touch.class))?;
    append_slot(text, variables, touch.slot)
}

fn append_touches(text: &mut Bytes, variables: &[Name], touches: &[Touch]) -> Result<(), NoMemory>
    ensures { OnOk result (text.new ≡ text.old ++ touches_text variables.now touches.now) }
{
    for touch in touches {
        append_touch(text, variables, touch)?;
    }
    Ok(())
}

// The line of what a call of a method with this valuation touches.
fn append_touch_line(
    text: &mut Bytes,
    kind: &KindSpec,
    table: &Table,
    method: u8,
    v: Valuation,
) -> Result<(), NoMemory>
    ensures { OnOk result
        (text.new ≡ text.old ++ touch_line kind.now table.now method v.bits) }
{
    text.append(b"touch ")?;
    append_name(text, kind.methods(), method)?;
    text.append(b" ")?;
    append_bits(text, table.predicates(method).len() as u8, v.bits)?;
    text.append(b" points")?;
    let touches = table.touches(method, v);
    append_touches(text, variables(kind.methods(), method), touches.as_slice())?;
    text.append(b"\n")
}

// The lines of what the calls of a method touch, by valuation.
pub(crate) fn append_method_touches(
    text: &mut Bytes,
    kind: &KindSpec,
    table: &Table,
    method: u8,
) -> Result<(), NoMemory>
    ensures { OnOk result (text.new ≡ text.old ++ touch_lines kind.now table.now method) }
{
    for bits in 0..1u32 << table.predicates(method).len() {
        append_touch_line(text, kind, table, method, Valuation { bits: bits as u8 })?;
    }
    Ok(())
}

// ---- a kind

// The line of a kind.
pub(crate) fn append_kind(text: &mut Bytes, kind: &KindSpec, table: &Table) -> Result<(), NoMemory>
    ensures { OnOk result (text.new ≡ text.old ++ kind_line kind.now table.now) }
{
    text.append(b"kind ")?;
    text.append(kind.name().items())?;
    text.append(b" classes ")?;
    append_number(text, u64::from(table.classes()))?;
    text.append(b"\n")
}
