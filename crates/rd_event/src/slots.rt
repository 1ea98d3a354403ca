//! Reading the arguments and the result of a call.
ghost use Rattle.std.specs.Prelude.{◌≡◌, ◌≢◌, ◌≤◌, ◌++◌, ◌∷◌, [], ℕ, length, List, Some, None, is_some, IfOk, IfErr, IfSome, IfNone, IsTrue, OnOk, false};
ghost use Rattle.rd_base.specs.declared.values.Value.{Value};
ghost use Rattle.rd_event.specs.declared.slots.Place.TheVariants.{Outside, Quoted};
ghost use Rattle.rd_base.specs.ReadingValues.{value_of};
ghost use Rattle.rd_event.specs.ReadingSlots.{ends_value, next_place, value_length, first_value, other_values, slots_read, front_value};

use crate::front::{Front, front_of};
use crate::reading::{LineRefused, bytes_are};
use rd_base::{Slots, SpareList, Text, Value, ValueList, ValueRefused, is_value, read_value};
use std::alloc::Global;
use std::rc::Rc;

// Where a reader of values stands: outside quotes, between quotes, or behind a `\` between quotes.
#[derive(Clone, Copy)]
enum Place {
    Outside,
    Quoted,
    Escaped,
}

// Does a value end before this byte?
fn ends_value(place: Place, byte: u8) -> bool
    ensures { result ≡ ends_value place byte }
{
    match place {
        Place::Outside => byte == b' ',
        Place::Quoted | Place::Escaped => false,
    }
}

// The place behind this byte.
fn next_place(place: Place, byte: u8) -> Place
    ensures { result ≡ next_place place byte }
{
    match place {
        Place::Outside => {
            if byte == b'"' {
                Place::Quoted
            } else {
                Place::Outside
            }
        }
        Place::Quoted => {
            if byte == b'"' {
                Place::Outside
            } else if byte == b'\\' {
                Place::Escaped
            } else {
                Place::Quoted
            }
        }
        Place::Escaped => Place::Quoted,
    }
}

// How many bytes stand before the first space outside quotes, from a place on.
fn length_from(start: Place, bytes: &[u8]) -> usize
    ensures value { result ≡ value_length start bytes.now }
    ensures within { result ≤ length bytes.now }
{
    let mut place = start;
    for (index, byte) in bytes.iter().enumerate() {
        if ends_value(place, *byte) {
            return index;
        }
        place = next_place(place, *byte);
    }
    bytes.len()
}

// The same between quotes, where no byte is escaped and the value ends behind the closing quote, as it mostly does.
fn plain_length(bytes: &[u8]) -> Option<usize>
    ensures value { IfSome result (λ found. found ≡ value_length Quoted bytes.now) }
    ensures within { IfSome result (λ found. found ≤ length bytes.now) }
{
    for (index, byte) in bytes.iter().enumerate() {
        if *byte == b'\\' {
            return None;
        }
        if *byte == b'"' {
            let end = index + 1;
            if end == bytes.len() {
                return Some(end);
            }
            if bytes[end] == b' ' {
                return Some(end);
            }
            return None;
        }
    }
    None
}

// The same between quotes.
fn quoted_length(bytes: &[u8]) -> usize
    ensures value { result ≡ value_length Quoted bytes.now }
    ensures within { result ≤ length bytes.now }
{
    match plain_length(bytes) {
        Some(found) => found,
        None => length_from(Place::Quoted, bytes),
    }
}

// The same from the front of a value on. Most have no quotes.
fn value_length(bytes: &[u8]) -> usize
    ensures { result ≡ value_length Outside bytes.now }
{
    for (index, byte) in bytes.iter().enumerate() {
        if *byte == b' ' {
            return index;
        }
        if *byte == b'"' {
            return index + 1 + quoted_length(&bytes[index + 1..]);
        }
    }
    bytes.len()
}

// What stands before the first space outside quotes, and what stands behind it.
fn cut_value(bytes: &[u8]) -> (&[u8], &[u8])
    ensures before { result.0.now ≡ first_value bytes.now }
    ensures after { result.1.now ≡ other_values bytes.now }
{
    let length = value_length(bytes);
    if length >= bytes.len() {
        return (bytes, &[]);
    }
    (&bytes[..length], &bytes[length + 1..])
}

// Do the bytes spell at most so many values: arguments, then a result behind an arrow? It takes no memory.
#[tactic(auto, using(crate::proofs::SlotLemmas::tested_without_room, crate::proofs::SlotLemmas::tested_at_arrow, crate::proofs::SlotLemmas::tested_at_argument, crate::proofs::SlotLemmas::tested_at_no_value))]
fn are_slots(room: u8, bytes: &[u8]) -> bool
    ensures { result ≡ is_some (slots_read room bytes.now) }
{
    if room == 0 {
        return false;
    }
    let (word, after) = cut_value(bytes);
    if bytes_are(word, "->") {
        return is_value(after);
    }
    if !is_value(word) {
        return false;
    }
    are_slots(room - 1, after)
}

// Why a call with these bytes behind its names is refused where memory is: `NoMemory` only if they spell slots.
#[cold]
fn want_of_memory(bytes: &[u8]) -> LineRefused
    ensures none { result ≡ LineRefused.BadLine → slots_read 7 bytes.now ≡ None }
    ensures memory { result ≡ LineRefused.NoMemory → (slots : List Value)
        × (slots_read 7 bytes.now ≡ Some slots) }
{
    if are_slots(7, bytes) {
        LineRefused::NoMemory
    } else {
        LineRefused::BadLine
    }
}

// The value that a front tells, if memory is there. Only a text takes some.
#[inline]
fn value_with(alloc: Global, front: Front<'_>) -> Option<Value>
    ensures { IfSome result (λ value. value ≡ front_value front.entry) }
{
    Some(match front {
        Front::Nil => Value::Nil,
        Front::Bool(value) => Value::Bool(value),
        Front::Int(value) => Value::Int(value),
        Front::Text(bytes) => Value::Text(Text::from_bytes(alloc, bytes).ok()?),
    })
}

// Puts the first of the values that the bytes spell behind the others, and tells how long its spelling is, where a front tells
// it and memory is there. Else the values are as before.
#[inline]
fn push_front(alloc: Global, bytes: &[u8], values: &mut ValueList) -> Option<usize>
    ensures length { IfSome result (λ length. length ≡ value_length Outside bytes.now) }
    ensures found { IfSome result (λ _. (value : Value)
        × (value_of (first_value bytes.now) ≡ Some value) × (values.new ≡ values.old ++ value ∷ [])) }
    ensures none { IfNone result (values.new ≡ values.old) }
{
    let (front, length) = front_of(bytes)?;
    let value = value_with(alloc, front)?;
    let Ok(()) = values.push(alloc, value) else {
        return None;
    };
    Some(length)
}

// Puts the value that the bytes spell behind the others.
#[inline(never)]
fn push_value(alloc: Global, bytes: &[u8], values: &mut ValueList) -> Result<(), ValueRefused>
    ensures found { OnOk result ((value : Value)
        × (value_of bytes.now ≡ Some value) × (values.new ≡ values.old ++ value ∷ [])) }
    ensures none { IfErr result (λ e. e ≡ ValueRefused.NotAValue → value_of bytes.now ≡ None) }
{
    let value = read_value(alloc, bytes)?;
    let Ok(()) = values.push(alloc, value) else {
        return Err(ValueRefused::NoMemory);
    };
    Ok(())
}

// Puts the first of the values that the bytes spell behind the others, and tells what stands behind its space.
#[inline(never)]
fn push_first_value<'a>(
    alloc: Global,
    bytes: &'a [u8],
    values: &mut ValueList,
) -> Result<&'a [u8], ValueRefused>
    ensures found { OnOk result ((value : Value)
        × (value_of (first_value bytes.now) ≡ Some value) × (values.new ≡ values.old ++ value ∷ [])) }
    ensures rest { IfOk result (λ rest. rest.now ≡ other_values bytes.now) }
    ensures none { IfErr result (λ e. e ≡ ValueRefused.NotAValue → value_of (first_value bytes.now) ≡ None) }
{
    let (word, rest) = cut_value(bytes);
    push_value(alloc, word, values)?;
    Ok(rest)
}

// Is the first value, of this length, all that the bytes spell? If it isn't, they spell no value.
#[inline]
fn whole(bytes: &[u8], length: usize) -> Result<(), ValueRefused>
    requires { length ≡ value_length Outside bytes.now }
    ensures ok { OnOk result (first_value bytes.now ≡ bytes.now) }
    ensures none { IfErr result (λ e. value_of bytes.now ≡ None) }
{
    if length < bytes.len() {
        return Err(ValueRefused::NotAValue);
    }
    Ok(())
}

// Do the bytes begin with an arrow and a space? And what stands behind these, or else all of them. Most are told apart by their
// first byte.
#[inline]
fn cut_arrow(bytes: &[u8]) -> (bool, &[u8])
    ensures arrow { IsTrue result.0 → bytes.now ≡ 45 ∷ 62 ∷ 32 ∷ result.1.now }
    ensures all { result.0 ≡ false → result.1.now ≡ bytes.now }
    ensures none { result.0 ≡ false → (rest : List ℕ) → bytes.now ≢ 45 ∷ 62 ∷ 32 ∷ rest }
{
    if bytes.first() != Some(&b'-') {
        return (false, bytes);
    }
    match bytes.strip_prefix(b"-> ") {
        Some(rest) => (true, rest),
        None => (false, bytes),
    }
}

// Puts the arguments and the result, at most 7 values, that the bytes spell into an empty list: each by its front, or, where
// that tells nothing, by way of its word.
fn push_slots(alloc: Global, bytes: &[u8], values: &mut ValueList) -> Result<(), ValueRefused>
    requires { values.old ≡ [] }
    ensures slots { OnOk result (slots_read 7 bytes.now ≡ Some values.new) }
    ensures none { IfErr result (λ e. e ≡ ValueRefused.NotAValue → slots_read 7 bytes.now ≡ None) }
{
    let mut rest = bytes;
    while values.items().len() < 7 {
        let (is_last, from) = cut_arrow(rest);
        match push_front(alloc, from, values) {
            Some(length) => {
                if is_last {
                    return whole(from, length);
                }
                if length >= from.len() {
                    return Err(ValueRefused::NotAValue);
                }
                rest = &from[length + 1..];
            }
            None => {
                if is_last {
                    return push_value(alloc, from, values);
                }
                match push_first_value(alloc, from, values) {
                    Ok(after) => rest = after,
                    Err(refused) => return Err(refused),
                }
            }
        }
    }
    Err(ValueRefused::NotAValue)
}

// Why a call with these bytes behind its names is refused where reading its values gave this.
#[cold]
fn why_refused(refused: ValueRefused, bytes: &[u8]) -> LineRefused
    requires { refused ≡ ValueRefused.NotAValue → slots_read 7 bytes.now ≡ None }
    ensures none { result ≡ LineRefused.BadLine → slots_read 7 bytes.now ≡ None }
    ensures memory { result ≡ LineRefused.NoMemory → (slots : List Value)
        × (slots_read 7 bytes.now ≡ Some slots) }
{
    match refused {
        ValueRefused::NotAValue => LineRefused::BadLine,
        ValueRefused::NoMemory => want_of_memory(bytes),
    }
}

/// The arguments and the result of a call, at most 7 values, that the bytes behind its names spell. The answer is `BadLine` exactly if
/// they spell none, and `NoMemory` only if they spell some.
pub fn read_slots(alloc: Global, bytes: &[u8]) -> Result<Slots, LineRefused>
    ensures slots { IfOk result (λ slots. slots_read 7 bytes.now ≡ Some slots) }
    ensures none { IfErr result (λ e. e ≡ LineRefused.BadLine → slots_read 7 bytes.now ≡ None) }
    ensures memory { IfErr result
        (λ e. e ≡ LineRefused.NoMemory → (slots : List Value)
        × (slots_read 7 bytes.now ≡ Some slots)) }
{
    read_slots_in(alloc, bytes, &mut SpareList::new(alloc))
}

/// The same, in the memory of the values that were read last with this list, where nothing else has that.
pub fn read_slots_in(
    alloc: Global,
    bytes: &[u8],
    spare: &mut SpareList,
) -> Result<Slots, LineRefused>
    ensures slots { IfOk result (λ slots. slots_read 7 bytes.now ≡ Some slots) }
    ensures none { IfErr result (λ e. e ≡ LineRefused.BadLine → slots_read 7 bytes.now ≡ None) }
    ensures memory { IfErr result
        (λ e. e ≡ LineRefused.NoMemory → (slots : List Value)
        × (slots_read 7 bytes.now ≡ Some slots)) }
{
    let Ok(mut shared) = spare.take(alloc) else {
        return Err(want_of_memory(bytes));
    };
    // nothing else has it
    let Some(values) = Rc::get_mut(&mut shared) else {
        return Err(want_of_memory(bytes));
    };
    if let Err(refused) = push_slots(alloc, bytes, values) {
        return Err(why_refused(refused, bytes));
    }
    spare.keep(&shared);
    Ok(Slots::from_shared(alloc, shared))
}
