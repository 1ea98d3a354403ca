//! Values, formulas, kinds and lines that are made from texts.
ghost use Rattle.std.specs.Prelude.{◌≡◌, ◌<◌, IsTrue, Some, length, slice_get};
ghost use Rattle.rd_ecl.specs.Specified.{slots_at};
ghost use Rattle.rd_kinds.specs.Shipped.{shipped_kinds};

use rd_base::{Bytes, Name, Slots, Value, read_value};
use rd_ecl::{KindSpec, Method, Spec};
use rd_kinds::shipped;
use rd_object::Shape;
use rd_open_kind::OpenKind;
use rd_reading::Known;
use rd_report::append_state;
use rd_spec::parse;
use std::alloc::Global;
use std::process::Abort;

/// The value with this spelling.
pub fn value(rt: &impl Abort, alloc: Global, spelling: &str) -> Value {
    read_value(alloc, spelling.as_bytes()).expect(rt, "a value")
}

/// The values with these spellings, with blanks between them.
pub fn slots(rt: &impl Abort, alloc: Global, spellings: &str) -> Slots {
    let mut slots = Slots::new(alloc);
    for spelling in spellings.split_whitespace() {
        slots.push(value(rt, alloc, spelling)).expect(rt, "memory");
    }
    slots
}

/// The name with these letters.
pub fn name(rt: &impl Abort, text: &str) -> Name {
    Name::from_bytes(text.as_bytes()).expect(rt, "a name")
}

/// This holds, at this row.
pub fn is_so(rt: &impl Abort, holds: bool, row: &str) {
    assert!(rt; holds, "{row}");
}

/// The same at a row with a number.
pub fn is_so_at(rt: &impl Abort, holds: bool, row: usize) {
    assert!(rt; holds, "row {row}");
}

/// The bytes are this text.
pub fn is_text(rt: &impl Abort, found: &[u8], wanted: &str) {
    is_so(rt, found == wanted.as_bytes(), wanted);
}

/// The kinds that a text says.
pub fn spec_of(rt: &impl Abort, alloc: Global, text: &str) -> Spec {
    parse(alloc, text.as_bytes(), &[]).expect(rt, "a specification")
}

/// The kinds that are built in.
pub fn built_in(rt: &impl Abort, alloc: Global) -> Spec
    ensures { result ≡ shipped_kinds }
{
    shipped(alloc).expect(rt, "memory")
}

// Takes a line of a specification.
fn takes_line(rt: &impl Abort, alloc: Global, known: &mut Known, line: &str) {
    assert!(rt; line.len() <= 1_048_576);
    let read = rd_reading::read_line(alloc, &[], known, line.as_bytes());
    is_so(rt, read.is_ok(), line);
}

/// The kind that these lines of a specification begin.
pub fn opened_by(rt: &impl Abort, alloc: Global, lines: &str) -> OpenKind {
    let mut known = Known::new(alloc);
    for line in lines.split('\n') {
        takes_line(rt, alloc, &mut known, line);
    }
    known.block.expect(rt, "a kind").opened
}

/// The kind with this number.
pub fn kind_at<'a>(rt: &impl Abort, kinds: &'a Spec, number: u32) -> &'a KindSpec
    ensures { slice_get kinds.now number ≡ Some result.now }
{
    kinds.kinds().get(number as usize).expect(rt, "a kind")
}

/// Does the kind have this method, with so many slots?
pub fn has_slots(kind: &KindSpec, method: u8, count: usize) -> bool
    ensures { IsTrue result → (method < length kind.now.methods) × (slots_at kind.now.methods method ≡ count) }
{
    match kind.methods().get(usize::from(method)) {
        Some(method) => method.variables.items().len() == count,
        None => false,
    }
}

/// Do the two calls commute, each a method and its slots?
pub fn commute(
    rt: &impl Abort,
    alloc: Global,
    kind: &KindSpec,
    first: (u8, &str),
    second: (u8, &str),
) -> bool {
    let a = slots(rt, alloc, first.1);
    let b = slots(rt, alloc, second.1);
    assert!(rt;
        has_slots(kind, first.0, a.items().len()) && has_slots(kind, second.0, b.items().len())
    );
    kind.commute(first.0, a.items(), second.0, b.items())
}

/// Puts the line of a state under the name `o` behind the text.
pub fn append_held(rt: &impl Abort, text: &mut Bytes, shape: Shape) {
    append_state(text, &name(rt, "o"), &shape).expect(rt, "memory");
}

/// Puts a name behind the text, behind this separator.
pub fn append_name(rt: &impl Abort, text: &mut Bytes, separator: &[u8], name: &Name) {
    text.append(separator).expect(rt, "memory");
    text.append(name.items()).expect(rt, "memory");
}

/// Puts a line behind the text: a name, and each method with its variables.
pub fn append_outline(rt: &impl Abort, text: &mut Bytes, name: &Name, methods: &[Method]) {
    append_name(rt, text, b"", name);
    for method in methods {
        append_name(rt, text, b"; ", &method.name);
        for variable in method.variables.items() {
            append_name(rt, text, b" ", variable);
        }
    }
    text.append(b"\n").expect(rt, "memory");
}
