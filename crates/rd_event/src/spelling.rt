//! Spelling a line.
ghost use Rattle.std.specs.Prelude.{◌≡◌, ℕ, [], ◌∷◌, ◌++◌, All, Some, OnOk, IfOk};
ghost use Rattle.rd_base.specs.Names.{IsName};
ghost use Rattle.rd_base.specs.Spelling.{IsValue};
ghost use Rattle.rd_event.specs.Items.{HasItem, LineInRange, IsEvent, IsSpellable, HasFewSlots, Says, call_text, words_apart, slots_spelling, event_spelling, line_spelling, line_text};
ghost use Rattle.rd_event.specs.Reading.{item_of};

use crate::items::{Line, LineEvent};
use rd_base::{Bytes, Name, NoMemory, Slots, Value, append_number, append_value};
use std::alloc::Global;

// Puts the keyword and two names, a space apart, behind the text.
fn append_names(
    text: &mut Bytes,
    keyword: &[u8],
    first: &Name,
    second: &Name,
) -> Result<(), NoMemory>
    ensures ok { OnOk result
        (text.new ≡ text.old ++ (keyword.now ++ words_apart first.now second.now)) }
    ensures names { OnOk result (IsName first.now × IsName second.now) }
{
    text.append(keyword)?;
    append_word(text, first)?;
    text.append(second.items())
}

// Puts the name and a space behind the text.
fn append_word(text: &mut Bytes, name: &Name) -> Result<(), NoMemory>
    ensures ok { OnOk result (text.new ≡ text.old ++ (name.now ++ 32 ∷ [])) }
    ensures name { IsName name.now }
{
    text.append(name.items())?;
    text.push(b' ')
}

// Puts each argument and a space, and then the arrow and the result, behind the text.
fn append_slots(text: &mut Bytes, slots: &[Value]) -> Result<(), NoMemory>
    ensures ok { OnOk result (text.new ≡ text.old ++ slots_spelling slots.now) }
    ensures values { OnOk result (All IsValue slots.now) }
{
    let [arguments @ .., last] = slots else {
        return Ok(());
    };
    for argument in arguments {
        append_value(text, argument)?;
        text.push(b' ')?;
    }
    text.append(b"-> ")?;
    append_value(text, last)
}

/// Puts a call behind the text, as its line has it behind `call`. After want of memory the text may have a front of it.
pub fn append_call(
    text: &mut Bytes,
    thread: &Name,
    object: &Name,
    method: &Name,
    slots: &[Value],
) -> Result<(), NoMemory>
    ensures ok { OnOk result
        (text.new ≡ text.old ++ call_text thread.now object.now method.now slots.now) }
    ensures names { OnOk result (IsName thread.now × IsName object.now × IsName method.now) }
    ensures values { OnOk result (All IsValue slots.now) }
{
    append_word(text, thread)?;
    append_word(text, object)?;
    append_word(text, method)?;
    append_slots(text, slots)
}

// Puts the spelling of an event behind the text.
fn append_event(text: &mut Bytes, event: &LineEvent) -> Result<(), NoMemory>
    requires { HasFewSlots event.now }
    ensures ok { OnOk result (text.new ≡ text.old ++ event_spelling event.now) }
    ensures range { OnOk result (IsEvent event.now) }
{
    match event {
        LineEvent::Fork { thread, child } => append_names(text, b"fork ", thread, child),
        LineEvent::Join { thread, child } => append_names(text, b"join ", thread, child),
        LineEvent::Acquire { thread, lock } => append_names(text, b"acquire ", thread, lock),
        LineEvent::Release { thread, lock } => append_names(text, b"release ", thread, lock),
        LineEvent::Share { thread, lock } => append_names(text, b"share ", thread, lock),
        LineEvent::Unshare { thread, lock } => append_names(text, b"unshare ", thread, lock),
        LineEvent::Call {
            thread,
            object,
            method,
            slots,
        } => {
            text.append(b"call ")?;
            append_call(text, thread, object, method, slots.items())
        }
    }
}

/// Puts the spelling of a line behind the text, without a line feed. A skipped line is spelled as the empty line. What is asked is version 1
/// or 2 in a header and 1 to 7 slots in a call. After want of memory the text may have a front of it.
pub fn append_line(text: &mut Bytes, line: &Line) -> Result<(), NoMemory>
    requires { IsSpellable line.now }
    ensures ok { OnOk result (text.new ≡ text.old ++ line_spelling line.now) }
    ensures range { OnOk result (LineInRange line.now) }
{
    match line {
        Line::Skip => Ok(()),
        Line::Header { version } => {
            text.append(b"rdtrace ")?;
            append_number(text, u64::from(*version))
        }
        Line::Thread(name) => {
            text.append(b"thread ")?;
            text.append(name.items())
        }
        Line::Object { name, kind } => append_names(text, b"object ", name, kind),
        Line::Event(event) => append_event(text, event),
    }
}

/// Makes the text the spelling of a line, with its line feed. After want of memory it may have a front of that.
pub fn spell_line(text: &mut Bytes, line: &Line) -> Result<(), NoMemory>
    requires { IsSpellable line.now }
    ensures { OnOk result (text.new ≡ line_text line.now) }
{
    text.clear();
    append_line(text, line)?;
    text.push(b'\n')
}

/// The spelling of a line, without a line feed. A skipped line is spelled as the empty line. What is spelled is read as the
/// line again, in each version that has it. The types keep names and values in their ranges; what is asked is version 1 or 2 in a
/// header and 1 to 7 slots in a call.
pub fn spell(alloc: Global, line: &Line) -> Result<Bytes, NoMemory>
    requires { IsSpellable line.now }
    ensures value { IfOk result (λ text. text ≡ line_spelling line.now) }
    ensures says { IfOk result (λ text. (version : ℕ) → HasItem version line.now → Says version text line.now) }
    ensures again { IfOk result (λ text. (version : ℕ) → HasItem version line.now →
        item_of version text ≡ Some line.now) }
{
    let mut text = Bytes::new(alloc);
    append_line(&mut text, line)?;
    Ok(text)
}
