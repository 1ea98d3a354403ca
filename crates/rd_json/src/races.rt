//! A race as JSON: as a value, or straight behind a text.
ghost use Rattle.std.specs.Prelude.{◌≡◌, ◌≤◌, ◌<◌, ◌++◌, length, IfOk, IsTrue, OnOk};
ghost use Rattle.serde_json.specs.View.{view};
ghost use Rattle.rd_clock.specs.Clock.{component};
ghost use Rattle.rd_json.specs.Json.{race_object, race_words, string_json, told_json};
ghost use Rattle.rd_json.specs.Values.{IsPlainCall, told_value};
ghost use Rattle.rd_report.specs.Races.{IsKnownRace, IsNamed, clock_text, formula_line, formula_line_words, named_call, race_formula, told_by};
ghost use Rattle.rd_report.specs.Texts.{Naming, naming_in};
ghost use Rattle.rd_report.specs.Writing.{ArePlain};
ghost use Rattle.rd_wf.specs.Roster.{names_in};

use crate::objects::{append_object, inside};
use crate::strings::append_string;
use crate::values::{call_value, race_value};
use rd_base::{Bytes, NoMemory, append_number};
use rd_clock::Clock;
use rd_ecl::{KindSpec, Spec};
use rd_event::Call;
use rd_report::{append_clock, append_named_call, call_text, clock_text, formula_line};
use rd_store::{Race, Witness};
use rd_wf::Roster;
use serde_json::Value;
use std::alloc::Global;

// What is told of a call, as a value.
fn told_value(alloc: Global, told: &Witness, spec: &Spec, names: &Roster) -> Result<Value, NoMemory>
    requires { IsNamed spec.now (naming_in names.now) told.now.call }
    ensures value { IfOk result
        (λ value. view value ≡ told_value spec.now (naming_in names.now) (told_by told.now)) }
    ensures plain { OnOk result (IsPlainCall spec.now (naming_in names.now) (told_by told.now)) }
{
    let call = call_text(alloc, &told.call, spec, names)?;
    let clock = clock_text(alloc, &told.stamp.clock, names)?;
    Ok(call_value(alloc, call.items(), clock.items(), told.line)?)
}

// Puts a call as a string behind the text. What stood in the memory for it is lost.
fn append_call_string(
    text: &mut Bytes,
    memory: &mut Bytes,
    call: &Call,
    spec: &Spec,
    names: &Roster,
) -> Result<(), NoMemory>
    requires { IsNamed spec.now (naming_in names.now) call.now }
    ensures { OnOk result
        (text.new ≡ text.old ++ string_json (named_call spec.now (naming_in names.now) call.now)) }
{
    memory.clear();
    append_named_call(memory, call, spec, names)?;
    append_string(text, memory.items())
}

// Puts a clock as a string behind the text. What stood in the memory for it is lost.
fn append_clock_string(
    text: &mut Bytes,
    memory: &mut Bytes,
    clock: &Clock,
    names: &Roster,
) -> Result<(), NoMemory>
    ensures { OnOk result
        (text.new ≡ text.old ++ string_json (clock_text (names_in names.now) (component clock.now))) }
{
    memory.clear();
    append_clock(memory, clock, names)?;
    append_string(text, memory.items())
}

// Puts what is told of a call behind the text. What stood in the memory for its strings is lost.
#[tactic(auto, unfolding(crate::specs::Json::told_json))]
fn append_told(
    text: &mut Bytes,
    memory: &mut Bytes,
    told: &Witness,
    spec: &Spec,
    names: &Roster,
) -> Result<(), NoMemory>
    requires { IsNamed spec.now (naming_in names.now) told.now.call }
    ensures { OnOk result (text.new ≡ text.old ++ told_json spec.now (naming_in names.now)
        (told_by told.now)) }
{
    text.append(b"{\"call\":")?;
    append_call_string(text, memory, &told.call, spec, names)?;
    text.append(b",\"clock\":")?;
    append_clock_string(text, memory, &told.stamp.clock, names)?;
    text.append(b",\"line\":")?;
    append_number(text, told.line)?;
    text.push(b'}')
}

// The line of a formula, without its first word and its line feed.
fn formula_inside<'a>(kind: &KindSpec, first: u8, second: u8, line: &'a [u8]) -> &'a [u8]
    requires methods { (first ≤ second) × (second < length kind.now.methods) }
    requires line { line.now ≡ formula_line kind.now first second }
    ensures words { result.now ≡ formula_line_words kind.now first second }
    ensures plain { ArePlain (formula_line_words kind.now first second) }
{
    // its clause says what is known of a kind
    let _methods = kind.methods();
    inside(line, b"formula ".len())
}

// The formula of a race, by its line.
fn formula_of<'a>(race: &Race, line: &'a [u8], spec: &Spec) -> &'a [u8]
    requires known { (naming : Naming) × IsKnownRace spec.now naming race.now }
    requires line { line.now ≡ race_formula spec.now race.now }
    ensures words { result.now ≡ race_words spec.now race.now }
    ensures plain { ArePlain (race_words spec.now race.now) }
{
    let kind = &spec.kinds()[race.kind as usize];
    formula_inside(kind, race.first, race.second, line)
}

// Puts the formula of two methods of a kind as a string behind the text, by its line.
pub(crate) fn append_formula_string(
    text: &mut Bytes,
    kind: &KindSpec,
    first: u8,
    second: u8,
    line: &[u8],
) -> Result<(), NoMemory>
    requires methods { (first ≤ second) × (second < length kind.now.methods) }
    requires line { line.now ≡ formula_line kind.now first second }
    ensures { OnOk result
        (text.new ≡ text.old ++ string_json (formula_line_words kind.now first second)) }
{
    append_string(text, formula_inside(kind, first, second, line))
}

/// Puts a race behind the text as a line with one JSON object: `{"earlier":{"call":CALL,"clock":CLOCK,"line":N},"formula":FORMULA,
/// "later":..}`. The line of the formula of its two methods is handed in. The numbers in the race are known to the specification and the
/// roster, and its first method is not declared behind its second. After want of memory the text may have a front of it.
pub fn append_race_json(
    text: &mut Bytes,
    alloc: Global,
    race: &Race,
    formula: &[u8],
    spec: &Spec,
    names: &Roster,
) -> Result<(), NoMemory>
    requires known { IsKnownRace spec.now (naming_in names.now) race.now }
    requires formula { formula.now ≡ race_formula spec.now race.now }
    ensures { OnOk result
        (text.new ≡ text.old ++ race_object spec.now (naming_in names.now) race.now) }
{
    let words = formula_of(race, formula, spec);
    let mut memory = Bytes::new(alloc);
    text.append(b"{\"earlier\":")?;
    append_told(text, &mut memory, &race.earlier, spec, names)?;
    text.append(b",\"formula\":")?;
    append_string(text, words)?;
    text.append(b",\"later\":")?;
    append_told(text, &mut memory, &race.later, spec, names)?;
    text.append(b"}\n")
}

// Makes a text what an object of a race tells of a call. What stood in the memory for its strings is lost.
fn tell(
    told: &mut Bytes,
    memory: &mut Bytes,
    witness: &Witness,
    spec: &Spec,
    names: &Roster,
) -> Result<(), NoMemory>
    requires { IsNamed spec.now (naming_in names.now) witness.now.call }
    ensures { OnOk result
        (told.new ≡ told_json spec.now (naming_in names.now) (told_by witness.now)) }
{
    told.clear();
    append_told(told, memory, witness, spec, names)
}

// The same, where the text isn't known to be that.
fn tell_unknown(
    told: &mut Bytes,
    memory: &mut Bytes,
    witness: &Witness,
    known: bool,
    spec: &Spec,
    names: &Roster,
) -> Result<(), NoMemory>
    requires named { IsNamed spec.now (naming_in names.now) witness.now.call }
    requires known { IsTrue known →
        told.old ≡ told_json spec.now (naming_in names.now) (told_by witness.now) }
    ensures { OnOk result
        (told.new ≡ told_json spec.now (naming_in names.now) (told_by witness.now)) }
{
    if known {
        return Ok(());
    }
    tell(told, memory, witness, spec, names)
}

/// Makes a text the line of a race with one JSON object, and another what it tells of the later call. Where this one is known to be what another
/// race told of the earlier call as its later one, it is copied first. The string of the formula of the race's two methods is handed in.
/// The numbers in the calls are known to the specification and the roster. What stood in the memory for strings is lost, and after want of
/// memory the texts may have fronts of what they should be.
#[tactic(auto, unfolding(crate::specs::Json::race_object))]
pub fn tell_object(
    text: &mut Bytes,
    told: &mut Bytes,
    memory: &mut Bytes,
    race: &Race,
    known: bool,
    formula: &[u8],
    spec: &Spec,
    names: &Roster,
) -> Result<(), NoMemory>
    requires named { IsNamed spec.now (naming_in names.now) race.now.later.value.call
        × IsNamed spec.now (naming_in names.now) race.now.earlier.value.call }
    requires known { IsTrue known →
        told.old ≡ told_json spec.now (naming_in names.now) (told_by race.now.earlier.value) }
    requires formula { formula.now ≡ string_json (race_words spec.now race.now) }
    ensures text { OnOk result
        (text.new ≡ race_object spec.now (naming_in names.now) race.now) }
    ensures told { OnOk result
        (told.new ≡ told_json spec.now (naming_in names.now) (told_by race.now.later.value)) }
{
    tell_unknown(told, memory, &race.earlier, known, spec, names)?;
    text.clear();
    text.append(b"{\"earlier\":")?;
    text.append(told.items())?;
    text.append(b",\"formula\":")?;
    text.append(formula)?;
    text.append(b",\"later\":")?;
    tell(told, memory, &race.later, spec, names)?;
    text.append(told.items())?;
    text.append(b"}\n")
}

/// A race as a line with one JSON object. The formula is that of the race's kind and its two methods. The numbers in the race are known to
/// the specification and the roster, and its first method is not declared behind its second.
pub fn race_json(alloc: Global, race: &Race, spec: &Spec, names: &Roster) -> Result<Bytes, NoMemory>
    requires { IsKnownRace spec.now (naming_in names.now) race.now }
    ensures { IfOk result (λ text. text ≡ race_object spec.now (naming_in names.now) race.now) }
{
    let kind = &spec.kinds()[race.kind as usize];
    let line = formula_line(alloc, kind, race.first, race.second)?;
    let formula = formula_of(race, line.items(), spec);
    let earlier = told_value(alloc, &race.earlier, spec, names)?;
    let later = told_value(alloc, &race.later, spec, names)?;
    let object = race_value(alloc, earlier, formula, later)?;
    let mut text = Bytes::new(alloc);
    append_object(&mut text, alloc, &object)?;
    Ok(text)
}
