//! The text of a race.
ghost use Rattle.std.specs.Prelude.{◌≡◌, ◌≤◌, ◌<◌, ◌++◌, length, IfOk, IsTrue, OnOk};
ghost use Rattle.rd_ecl.specs.Specified.{kind_at};
ghost use Rattle.rd_print.specs.Printed.{name_at};
ghost use Rattle.rd_report.specs.Races.{EndLines, IsKnownRace, IsNamed, earlier_line, formula_line, later_line, named_call, race_formula, race_lines, told_by, told_text};
ghost use Rattle.rd_report.specs.Texts.{naming_in};
ghost use Rattle.rd_report.specs.Writing.{ArePlain};

use crate::clocks::append_clock;
use rd_base::{Bytes, MOST_NAME_BYTES, Name, NoMemory, append_number};
use rd_ecl::{KindSpec, Spec};
use rd_event::{Call, append_call};
use rd_print::formula_text;
use rd_store::{Race, Witness};
use rd_wf::Roster;
use std::alloc::Global;

/// `formula KIND FIRST SECOND when FORMULA`, with its line feed, for two methods of a kind or for one with itself, by their numbers:
/// `first` is at most `second`.
#[tactic(auto, unfolding(crate::specs::Races::formula_line))]
pub fn formula_line(
    alloc: Global,
    kind: &KindSpec,
    first: u8,
    second: u8,
) -> Result<Bytes, NoMemory>
    requires { (first ≤ second) × (second < length kind.now.methods) }
    ensures { IfOk result (λ text. text ≡ formula_line kind.now first second) }
{
    let pair = formula_text(alloc, kind, first, second)?;
    let mut text = Bytes::new(alloc);
    text.append(b"formula ")?;
    text.append(kind.name().items())?;
    text.push(b' ')?;
    text.append(pair.items())?;
    text.push(b'\n')?;
    Ok(text)
}

// The name of a method.
fn method_name(spec: &Spec, kind: u32, method: u8) -> &Name
    requires kind { kind < length spec.now }
    requires method { method < length (kind_at spec.now kind).methods }
    ensures { result.now ≡ name_at (kind_at spec.now kind).methods method }
{
    &spec.kinds()[kind as usize].methods()[usize::from(method)].name
}

/// Puts a call behind the text, as it stands in its line. The numbers in it are known to the specification and the roster. Its bytes are
/// plain. After want of memory the text may have a front of it.
pub fn append_named_call(
    text: &mut Bytes,
    call: &Call,
    spec: &Spec,
    names: &Roster,
) -> Result<(), NoMemory>
    requires { IsNamed spec.now (naming_in names.now) call.now }
    ensures text { OnOk result
        (text.new ≡ text.old ++ named_call spec.now (naming_in names.now) call.now) }
    ensures plain { OnOk result (ArePlain (named_call spec.now (naming_in names.now) call.now)) }
{
    let thread = names.thread_name(call.thread);
    let object = names.object_name(call.object);
    let method = method_name(spec, call.kind, call.method);
    append_call(text, thread, object, method, call.slots.items())
}

/// A call, as it stands in its line: `THREAD OBJECT METHOD ARGUMENT .. -> RESULT`. The numbers in it are known to the specification and
/// the roster. Its bytes are plain.
pub fn call_text(alloc: Global, call: &Call, spec: &Spec, names: &Roster) -> Result<Bytes, NoMemory>
    requires { IsNamed spec.now (naming_in names.now) call.now }
    ensures text { IfOk result (λ text. text ≡ named_call spec.now (naming_in names.now) call.now) }
    ensures plain { IfOk result ArePlain }
{
    let mut text = Bytes::new(alloc);
    append_named_call(&mut text, call, spec, names)?;
    Ok(text)
}

// Puts behind the text what is told of a call: the number of its line, the call and its clock.
#[tactic(auto, unfolding(crate::specs::Races::told_text))]
fn append_told(
    text: &mut Bytes,
    told: &Witness,
    spec: &Spec,
    names: &Roster,
) -> Result<(), NoMemory>
    requires { IsNamed spec.now (naming_in names.now) told.now.call }
    ensures { OnOk result
        (text.new ≡ text.old ++ told_text spec.now (naming_in names.now) (told_by told.now)) }
{
    append_number(text, told.line)?;
    text.push(b' ')?;
    append_named_call(text, &told.call, spec, names)?;
    text.append(b" clock ")?;
    append_clock(text, &told.stamp.clock, names)?;
    text.push(b'\n')
}

// Puts the line of the later call of a race behind the text.
fn append_later(
    text: &mut Bytes,
    later: &Witness,
    spec: &Spec,
    names: &Roster,
) -> Result<(), NoMemory>
    requires { IsNamed spec.now (naming_in names.now) later.now.call }
    ensures { OnOk result
        (text.new ≡ text.old ++ later_line spec.now (naming_in names.now) (told_by later.now)) }
{
    text.append(b"race line ")?;
    append_told(text, later, spec, names)
}

// Puts the line of the earlier call of a race behind the text.
fn append_earlier(
    text: &mut Bytes,
    earlier: &Witness,
    spec: &Spec,
    names: &Roster,
) -> Result<(), NoMemory>
    requires { IsNamed spec.now (naming_in names.now) earlier.now.call }
    ensures { OnOk result
        (text.new ≡ text.old ++ earlier_line spec.now (naming_in names.now) (told_by earlier.now)) }
{
    text.append(b"with line ")?;
    append_told(text, earlier, spec, names)
}

// Puts the line of the earlier call of a race behind the text. Where this is known to be its line as the later call of another race, what
// stands there is copied.
fn append_known(
    text: &mut Bytes,
    earlier: &Witness,
    known: bool,
    line: &[u8],
    spec: &Spec,
    names: &Roster,
) -> Result<(), NoMemory>
    requires named { IsNamed spec.now (naming_in names.now) earlier.now.call }
    requires known { IsTrue known →
        line.now ≡ later_line spec.now (naming_in names.now) (told_by earlier.now) }
    ensures { OnOk result
        (text.new ≡ text.old ++ earlier_line spec.now (naming_in names.now) (told_by earlier.now)) }
{
    if !known {
        return append_earlier(text, earlier, spec, names);
    }
    text.append(b"with line ")?;
    text.append(&line[b"race line ".len()..])
}

/// Makes two texts the first two lines of a race, the later call's and the earlier one's. Where the first is known to be the line that another
/// race told of the earlier call as its later one, what it tells is copied. The numbers in the calls are known to the specification and the
/// roster. After want of memory the texts may have fronts of their lines.
pub fn tell_lines(
    later: &mut Bytes,
    earlier: &mut Bytes,
    race: &Race,
    known: bool,
    spec: &Spec,
    names: &Roster,
) -> Result<(), NoMemory>
    requires named { IsNamed spec.now (naming_in names.now) race.now.later.value.call
        × IsNamed spec.now (naming_in names.now) race.now.earlier.value.call }
    requires known { IsTrue known →
        later.old ≡ later_line spec.now (naming_in names.now) (told_by race.now.earlier.value) }
    ensures later { OnOk result
        (later.new ≡ later_line spec.now (naming_in names.now) (told_by race.now.later.value)) }
    ensures earlier { OnOk result
        (earlier.new ≡ earlier_line spec.now (naming_in names.now) (told_by race.now.earlier.value)) }
{
    earlier.clear();
    append_known(earlier, &race.earlier, known, later.items(), spec, names)?;
    later.clear();
    append_later(later, &race.later, spec, names)
}

/// The most bytes of a part of a clock: a comma, a name, a colon and a number of 32 bits.
const MOST_PART_BYTES: usize = MOST_NAME_BYTES + 12;

/// The most bytes of a value in a call: a space, and a text of 255 bytes between quotes, each spelled by four.
const MOST_VALUE_BYTES: usize = 1023;

/// The most bytes of the rest of a call's line: two words in front, a number of 64 bits, three names, an arrow, the word in front of the
/// clock, and what stands between them.
const MOST_OTHER_BYTES: usize = 3 * MOST_NAME_BYTES + 44;

// A bound on the bytes of the line of a call in a race, by how many names, numbers and values stand in it.
fn told_room(told: &Witness, names: &Roster) -> usize {
    let parts = (names.threads() as usize).min(told.stamp.clock.room());
    let values = told.call.slots.items().len();
    (parts.saturating_mul(MOST_PART_BYTES))
        .saturating_add(values.saturating_mul(MOST_VALUE_BYTES))
        .saturating_add(MOST_OTHER_BYTES)
}

/// Where the first two of the three lines of a race end in a text.
#[derive(Clone, Copy, PartialEq, Eq)]
pub struct RaceEnds {
    /// behind the line of the later call
    pub later: usize,
    /// behind that of the earlier one
    pub earlier: usize,
}

/// Puts the text of a race behind the text: the later call, the earlier one, and the line of the formula of its two methods, which is
/// handed in. The answer says where the first two lines end in the whole text. The numbers in the race are known to the specification and
/// the roster, and its first method is not declared behind its second. After want of memory the text may have a front of it.
#[tactic(auto, unfolding(crate::specs::Races::race_lines))]
pub fn append_race(
    text: &mut Bytes,
    race: &Race,
    formula: &[u8],
    spec: &Spec,
    names: &Roster,
) -> Result<RaceEnds, NoMemory>
    requires known { IsKnownRace spec.now (naming_in names.now) race.now }
    requires formula { formula.now ≡ race_formula spec.now race.now }
    ensures text { OnOk result (text.new ≡ text.old ++ race_lines spec.now (naming_in names.now) race.now) }
    ensures ends { IfOk result (λ ends. (ends.later ≤ ends.earlier) × (ends.earlier ≤ length text.new)) }
    ensures lines { IfOk result (EndLines text.old spec.now (naming_in names.now)
        (told_by race.now.later.value) (told_by race.now.earlier.value)) }
{
    // room for all three lines at once
    let room = told_room(&race.later, names).saturating_add(told_room(&race.earlier, names));
    text.reserve(room.saturating_add(formula.len()))?;
    append_later(text, &race.later, spec, names)?;
    let later = text.items().len();
    append_earlier(text, &race.earlier, spec, names)?;
    let earlier = text.items().len();
    text.append(formula)?;
    Ok(RaceEnds { later, earlier })
}

/// The text of a race, three lines: `race line N CALL clock CLOCK`, `with line N CALL clock CLOCK` and `formula KIND FIRST SECOND when
/// FORMULA`. Calls stand as in their lines, and a clock has `THREAD:N` for each thread of which it counts events, in the order of their
/// numbers. The formula is that of the race's kind and its two methods. The numbers in the race are known to the specification and the
/// roster, and its first method is not declared behind its second.
pub fn race_text(alloc: Global, race: &Race, spec: &Spec, names: &Roster) -> Result<Bytes, NoMemory>
    requires { IsKnownRace spec.now (naming_in names.now) race.now }
    ensures { IfOk result (λ text. text ≡ race_lines spec.now (naming_in names.now) race.now) }
{
    let kind = &spec.kinds()[race.kind as usize];
    let formula = formula_line(alloc, kind, race.first, race.second)?;
    let mut text = Bytes::new(alloc);
    append_race(&mut text, race, formula.items(), spec, names)?;
    Ok(text)
}
