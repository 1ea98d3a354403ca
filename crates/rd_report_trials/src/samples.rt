//! Values, formulas, kinds and lines that are made from texts.
ghost use Rattle.std.specs.Prelude.{◌≡◌, ◌≢◌, ◌<◌, ◌^◌, AllPairs, IsTrue, length};
ghost use Rattle.rd_base.specs.Limits.{AreUsable};
ghost use Rattle.rd_ecl.specs.Kinds.{kind_names, kinds_of};
ghost use Rattle.rd_ecl.specs.Specified.{slots_at};
ghost use Rattle.rd_kinds.specs.Shipped.{shipped_kinds};

use rd_base::{Bytes, Limits, Name, Slots, Value, read_value};
use rd_ecl::{KindSpec, Spec};
use rd_event::{Line, read_line};
use rd_kinds::shipped;
use rd_object::Shape;
use rd_report::append_state;
use rd_spec::parse;
use rd_wf::Roster;
use std::alloc::Global;
use std::process::Abort;

/// The value with this spelling.
pub fn value(rt: &impl Abort, alloc: Global, spelling: &str) -> Value {
    read_value(alloc, spelling.as_bytes()).expect(rt, "a value")
}

/// The values with these spellings, with a blank between two.
pub fn slots(rt: &impl Abort, alloc: Global, spellings: &str) -> Slots {
    let mut slots = Slots::new(alloc);
    if spellings.is_empty() {
        return slots;
    }
    for spelling in spellings.split(' ') {
        slots.push(value(rt, alloc, spelling)).expect(rt, "memory");
    }
    slots
}

/// The name with these letters.
pub fn name(rt: &impl Abort, text: &str) -> Name {
    Name::from_bytes(text.as_bytes()).expect(rt, "a name")
}

/// This holds, at this row.
pub fn is_so(rt: &impl Abort, holds: bool, row: &str) {
    assert!(rt; holds, "{row}");
}

/// The bytes are this text.
pub fn is_text(rt: &impl Abort, found: &[u8], wanted: &str) {
    is_so(rt, found == wanted.as_bytes(), wanted);
}

/// The kinds that a text says.
#[tactic(auto, using(crate::proofs::NameLemmas::few_kinds, crate::proofs::NameLemmas::names_differ))]
pub fn spec_of(rt: &impl Abort, alloc: Global, text: &str) -> Spec
    ensures few { length result < 2 ^ 32 }
    ensures different { AllPairs (λ x y. x ≢ y) (kind_names (kinds_of result)) }
{
    parse(alloc, text.as_bytes(), &[]).expect(rt, "a specification")
}

/// The kinds that are built in.
pub fn built_in(rt: &impl Abort, alloc: Global) -> Spec
    ensures { result ≡ shipped_kinds }
{
    shipped(alloc).expect(rt, "memory")
}

/// Does the kind have this method, with so many slots?
pub fn has_slots(kind: &KindSpec, method: u8, count: usize) -> bool
    ensures { IsTrue result → (method < length kind.now.methods) × (slots_at kind.now.methods method ≡ count) }
{
    match kind.methods().get(usize::from(method)) {
        Some(method) => method.variables.items().len() == count,
        None => false,
    }
}

/// The line of a trace of version 2.
pub fn line(rt: &impl Abort, alloc: Global, text: &str) -> Line {
    read_line(alloc, text.as_bytes(), 2).expect(rt, "a line")
}

/// The roster of no lines, over the kinds that a text says.
pub fn roster_over(rt: &impl Abort, alloc: Global, text: &str) -> Box<Roster> {
    let spec = spec_of(rt, alloc, text);
    let roster = Roster::new(alloc, &spec).expect(rt, "memory");
    Box::new(alloc, roster).expect(rt, "memory")
}

/// Does the roster accept a line?
pub fn accepts(
    rt: &impl Abort,
    alloc: Global,
    roster: &mut Roster,
    text: &str,
    limits: &Limits,
) -> bool
    requires { AreUsable limits.now }
{
    roster.accept(&line(rt, alloc, text), limits).is_ok()
}

/// The roster accepts these lines, with a semicolon between two. An empty text has none.
pub fn opens(rt: &impl Abort, alloc: Global, roster: &mut Roster, lines: &str, limits: &Limits)
    requires { AreUsable limits.now }
{
    if lines.is_empty() {
        return;
    }
    for text in lines.split(';') {
        is_so(rt, accepts(rt, alloc, roster, text, limits), text);
    }
}

/// The line of a state under the name `o` is this.
pub fn is_state(rt: &impl Abort, alloc: Global, shape: &Shape, wanted: &str) {
    let mut text = Bytes::new(alloc);
    append_state(&mut text, &name(rt, "o"), shape).expect(rt, "memory");
    is_text(rt, text.items(), wanted);
}
