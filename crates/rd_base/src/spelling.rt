//! The spelling of values.
ghost use Rattle.std.specs.Prelude.{◌≡◌, ◌≢◌, ◌<◌, ◌≤◌, ◌^◌, ◌++◌, ◌↔◌, [], ◌∷◌, ℕ, List, true, false, Option, Some, None, OnOk, OnErr, IfOk, IfErr, IfSome, IfNone, IsTrue, is_some, length, slice_index, nat_eq};
ghost use Rattle.std.specs.List.{starts_with, list_all};
ghost use Rattle.std.specs.Str.{bytes_eq};
ghost use Rattle.std.specs.Fmt.{digit_glyph, decimal, signed_decimal};
ghost use Rattle.std.specs.Option.{option_map};
ghost use Rattle.rd_base.specs.declared.values.Value.{Value};
ghost use Rattle.rd_base.specs.Spelling.{is_plain, byte_spelling, bytes_spelling, value_spelling, IsValue};
ghost use Rattle.rd_base.specs.ReadingValues.{hex_value, first_byte, stands, next_of, inside_of, integer_of, is_quoted, text_of, value_of};

use crate::byte_lists::Bytes;
use crate::memory::NoMemory;
use crate::values::{Text, Value};
use arrayvec::ArrayVec;
use itoa::Buffer;
use std::alloc::Global;
use std::str;
use thiserror::Error;

/// Why bytes give no value.
#[derive(Clone, Copy, Debug, PartialEq, Eq, Error)]
pub enum ValueRefused {
    /// the bytes spell no value
    #[error("not a value")]
    NotAValue,
    /// memory ran out
    #[error("out of memory")]
    NoMemory,
}

// How many bytes a text has at most.
const LONGEST: usize = 255;

// Are the bytes those of the word?
fn bytes_are(bytes: &[u8], word: &str) -> bool
    ensures { result ≡ bytes_eq bytes.now word.now }
{
    bytes == word.as_bytes()
}

// The byte at the place, or 0 behind the end.
fn at(bytes: &[u8], place: usize) -> u8
    ensures { result ≡ slice_index bytes.now place }
{
    bytes.get(place).copied().unwrap_or(0)
}

// Are the bytes the decimal of the number?
fn is_decimal(bytes: &[u8], number: i64) -> bool
    ensures { result ≡ bytes_eq (signed_decimal number) bytes.now }
{
    let mut buffer = Buffer::new();
    buffer.format(number).as_bytes() == bytes
}

// The integer that the bytes spell: what is parsed has to be spelled like the bytes.
#[inline(never)]
#[tactic(auto, unfolding(crate::specs::ReadingValues::integer_of))]
fn integer(bytes: &[u8]) -> Option<i64>
    ensures { result ≡ integer_of bytes.now }
{
    let Ok(text) = str::from_utf8(bytes) else {
        return None;
    };
    let Ok(number) = text.parse::<i64>() else {
        return None;
    };
    if is_decimal(bytes, number) {
        Some(number)
    } else {
        None
    }
}

// Are the bytes 1 to 18, with no `0` in front of others?
fn is_short(bytes: &[u8]) -> bool
    ensures some { IsTrue result → 0 < length bytes.now }
    ensures few { IsTrue result → length bytes.now ≤ 18 }
    ensures first { IsTrue result → slice_index bytes.now 0 ≡ 48 → length bytes.now ≡ 1 }
{
    if bytes.is_empty() || bytes.len() > 18 {
        return false;
    }
    bytes[0] != b'0' || bytes.len() == 1
}

// The number of the bytes, if they are its decimal and at most 18: the most common integers.
fn short_number(bytes: &[u8]) -> Option<u64>
    ensures { IfSome result (λ number. (number < 10 ^ 18) × (bytes.now ≡ decimal number)) }
{
    if !is_short(bytes) {
        return None;
    }
    let mut number = 0u64;
    for byte in bytes {
        if !byte.is_ascii_digit() {
            return None;
        }
        number = number * 10 + u64::from(*byte - b'0');
    }
    Some(number)
}

// The digit of a value below 16.
fn hex_digit(value: u8) -> u8
    requires { value < 16 }
    ensures { result ≡ digit_glyph false value }
{
    if value < 10 {
        b'0' + value
    } else {
        b'a' + (value - 10)
    }
}

// The spelling of a byte of a text.
#[tactic(auto, unfolding(crate::specs::Spelling::byte_spelling))]
fn escape(byte: u8) -> ArrayVec<u8, 4>
    ensures { result.items ≡ byte_spelling byte }
{
    let mut spelled = ArrayVec::new();
    if byte == b'"' {
        spelled.push(b'\\');
        spelled.push(b'"');
        return spelled;
    }
    if byte == b'\\' {
        spelled.push(b'\\');
        spelled.push(b'\\');
        return spelled;
    }
    if is_plain(byte) {
        spelled.push(byte);
        return spelled;
    }
    spelled.push(b'\\');
    spelled.push(b'x');
    spelled.push(hex_digit(byte / 16));
    spelled.push(hex_digit(byte % 16));
    spelled
}

fn is_plain(byte: u8) -> bool
    ensures { result ≡ is_plain byte }
{
    (b' '..=b'~').contains(&byte)
}

// The value of a hexadecimal digit in lower case, and 0 for every other byte.
fn hex_value(byte: u8) -> u8
    ensures value { result ≡ hex_value byte }
    ensures range { result < 16 }
{
    match byte {
        b'0'..=b'9' => byte - b'0',
        b'a'..=b'f' => byte - b'a' + 10,
        _ => 0,
    }
}

// If the bytes begin with the spelling of a byte, that byte.
#[tactic(auto, unfolding(crate::specs::ReadingValues::first_byte))]
fn first_byte(bytes: &[u8]) -> u8
    ensures { result ≡ first_byte bytes.now }
{
    if at(bytes, 0) != b'\\' {
        return at(bytes, 0);
    }
    if at(bytes, 1) != b'x' {
        return at(bytes, 1);
    }
    hex_value(at(bytes, 2)) * 16 + hex_value(at(bytes, 3))
}

// Which bytes stand in a text as they are.
const STANDING: [bool; 256] = [
    false, false, false, false, false, false, false, false, false, false, false, false, false,
    false, false, false, false, false, false, false, false, false, false, false, false, false,
    false, false, false, false, false, false, true, true, false, true, true, true, true, true,
    true, true, true, true, true, true, true, true, true, true, true, true, true, true, true, true,
    true, true, true, true, true, true, true, true, true, true, true, true, true, true, true, true,
    true, true, true, true, true, true, true, true, true, true, true, true, true, true, true, true,
    true, true, true, true, false, true, true, true, true, true, true, true, true, true, true,
    true, true, true, true, true, true, true, true, true, true, true, true, true, true, true, true,
    true, true, true, true, true, true, true, true, false, false, false, false, false, false,
    false, false, false, false, false, false, false, false, false, false, false, false, false,
    false, false, false, false, false, false, false, false, false, false, false, false, false,
    false, false, false, false, false, false, false, false, false, false, false, false, false,
    false, false, false, false, false, false, false, false, false, false, false, false, false,
    false, false, false, false, false, false, false, false, false, false, false, false, false,
    false, false, false, false, false, false, false, false, false, false, false, false, false,
    false, false, false, false, false, false, false, false, false, false, false, false, false,
    false, false, false, false, false, false, false, false, false, false, false, false, false,
    false, false, false, false, false, false, false, false, false, false, false, false, false,
    false, false, false, false, false, false,
];

// Does the byte stand in a text as it is?
fn stands(byte: u8) -> bool
    ensures { result ≡ stands byte }
{
    STANDING[byte as usize]
}

// Does each of the bytes? With no way out before the end, several are looked up at a time.
#[tactic(auto, using(std::proofs::lemmas::List::Folds::list_all_more, std::proofs::Common::take_all))]
fn all_stand(bytes: &[u8]) -> bool
    ensures { result ≡ list_all stands bytes.now }
{
    let mut all = true;
    for byte in bytes {
        all &= stands(*byte);
    }
    all
}

// Are the bytes, 255 at most, a text that is spelled as it is? Most texts are.
#[tactic(auto, using(crate::proofs::TextLemmas::inside_standing))]
fn are_own_spelling(bytes: &[u8]) -> bool
    ensures text { IsTrue result → inside_of 255 bytes.now ≡ Some bytes.now }
    ensures few { IsTrue result → length bytes.now ≤ 255 }
{
    bytes.len() <= LONGEST && all_stand(bytes)
}

// The byte whose spelling the bytes begin with, and the bytes behind it.
fn next_byte(bytes: &[u8]) -> Option<(u8, &[u8])>
    ensures some { IfSome result (λ step. next_of bytes.now ≡ Some (step.0, step.1.now)) }
    ensures none { IfNone result (next_of bytes.now ≡ None) }
    ensures less { IfSome result (λ step. length step.1.now < length bytes.now) }
{
    let [first, others @ ..] = bytes else {
        return spelled_byte(bytes);
    };
    if stands(*first) {
        return Some((*first, others));
    }
    spelled_byte(bytes)
}

// The same, by the spelling of the byte.
#[tactic(auto, using(crate::proofs::TextLemmas::byte_spelling_length), unfolding(crate::specs::ReadingValues::next_of))]
fn spelled_byte(bytes: &[u8]) -> Option<(u8, &[u8])>
    ensures some { IfSome result (λ step. next_of bytes.now ≡ Some (step.0, step.1.now)) }
    ensures none { IfNone result (next_of bytes.now ≡ None) }
    ensures less { IfSome result (λ step. length step.1.now < length bytes.now) }
{
    let byte = first_byte(bytes);
    let rest = bytes.strip_prefix(escape(byte).as_slice())?;
    Some((byte, rest))
}

// The bytes that stand spelled between the quotes of a text.
fn read_inside(bytes: &[u8]) -> Option<ArrayVec<u8, LONGEST>>
    ensures { option_map (λ text. text.items) result ≡ inside_of 255 bytes.now }
{
    let mut text = ArrayVec::new();
    let mut rest = bytes;
    while !rest.is_empty() {
        if text.len() == LONGEST {
            return None;
        }
        let Some((byte, after)) = next_byte(rest) else {
            return None;
        };
        text.push(byte);
        rest = after;
    }
    Some(text)
}

fn is_quoted(bytes: &[u8]) -> bool
    ensures test { result ≡ is_quoted bytes.now }
    ensures long { IsTrue result → 2 ≤ length bytes.now }
{
    bytes.len() >= 2 && bytes[0] == b'"' && bytes[bytes.len() - 1] == b'"'
}

// The text of these bytes.
fn text_with(alloc: Global, bytes: &[u8]) -> Result<Value, ValueRefused>
    requires { length bytes.now ≤ 255 }
    ensures ok { IfOk result (λ value. value ≡ Value.Text bytes.now) }
    ensures err { IfErr result (λ e. e ≡ ValueRefused.NoMemory) }
{
    let Ok(text) = Text::from_bytes(alloc, bytes) else {
        return Err(ValueRefused::NoMemory);
    };
    Ok(Value::Text(text))
}

// The text that the bytes between the quotes spell, byte by byte. It is apart since its list of 255 bytes is cleared at entry.
#[inline(never)]
fn escaped_text(alloc: Global, bytes: &[u8]) -> Result<Value, ValueRefused>
    ensures found { IfOk result
        (λ value. option_map (λ text. Value.Text text) (inside_of 255 bytes.now) ≡ Some value) }
    ensures none { IfErr result (λ e. e ≡ ValueRefused.NotAValue → inside_of 255 bytes.now ≡ None) }
    ensures memory { IfErr result
        (λ e. e ≡ ValueRefused.NoMemory → (text : List ℕ) × (inside_of 255 bytes.now ≡ Some text)) }
{
    let Some(inside) = read_inside(bytes) else {
        return Err(ValueRefused::NotAValue);
    };
    text_with(alloc, inside.as_slice())
}

// The text that the bytes spell, which begin and end with `"`.
#[inline(never)]
#[tactic(auto, unfolding(crate::specs::ReadingValues::value_of))]
fn text_value(alloc: Global, bytes: &[u8]) -> Result<Value, ValueRefused>
    requires long { 2 ≤ length bytes.now }
    ensures found { IfOk result (λ value. text_of bytes.now ≡ Some value) }
    ensures none { IfErr result (λ e. e ≡ ValueRefused.NotAValue → text_of bytes.now ≡ None) }
    ensures memory { IfErr result
        (λ e. e ≡ ValueRefused.NoMemory → (text : List ℕ)
        × (text_of bytes.now ≡ Some (Value.Text text))) }
{
    let inside = &bytes[1..bytes.len() - 1];
    if are_own_spelling(inside) {
        return text_with(alloc, inside);
    }
    escaped_text(alloc, inside)
}

// Do the bytes between the quotes spell one? It is apart for the same reason.
#[inline(never)]
fn spell_inside(bytes: &[u8]) -> bool
    ensures { result ≡ is_some (inside_of 255 bytes.now) }
{
    read_inside(bytes).is_some()
}

// Do the bytes, which begin and end with `"`, spell a text?
#[inline(never)]
fn is_text(bytes: &[u8]) -> bool
    requires long { 2 ≤ length bytes.now }
    ensures { result ≡ is_some (text_of bytes.now) }
{
    let inside = &bytes[1..bytes.len() - 1];
    are_own_spelling(inside) || spell_inside(inside)
}

/// Do the bytes spell a value? It takes no memory.
#[tactic(auto, unfolding(crate::specs::ReadingValues::value_of))]
pub fn is_value(bytes: &[u8]) -> bool
    ensures { result ≡ is_some (value_of bytes.now) }
{
    if bytes_are(bytes, "nil") {
        return true;
    }
    if bytes_are(bytes, "true") {
        return true;
    }
    if bytes_are(bytes, "false") {
        return true;
    }
    if is_quoted(bytes) {
        return is_text(bytes);
    }
    integer(bytes).is_some()
}

// The value that the bytes spell.
#[tactic(auto, unfolding(crate::specs::ReadingValues::value_of))]
fn value(alloc: Global, bytes: &[u8]) -> Result<Value, ValueRefused>
    ensures found { IfOk result (λ value. value_of bytes.now ≡ Some value) }
    ensures none { IfErr result (λ e. e ≡ ValueRefused.NotAValue → value_of bytes.now ≡ None) }
    ensures memory { IfErr result
        (λ e. e ≡ ValueRefused.NoMemory → (text : List ℕ)
        × (value_of bytes.now ≡ Some (Value.Text text))) }
{
    if let Some(number) = short_number(bytes) {
        return Ok(Value::Int(number as i64));
    }
    if bytes_are(bytes, "nil") {
        return Ok(Value::Nil);
    }
    if bytes_are(bytes, "true") {
        return Ok(Value::Bool(true));
    }
    if bytes_are(bytes, "false") {
        return Ok(Value::Bool(false));
    }
    if is_quoted(bytes) {
        return text_value(alloc, bytes);
    }
    let Some(number) = integer(bytes) else {
        return Err(ValueRefused::NotAValue);
    };
    Ok(Value::Int(number))
}

/// Reads a value from its spelling. The answer is `NotAValue` exactly if the bytes spell none. Only a
/// text takes memory, so `NoMemory` comes only for bytes that spell a text.
pub fn read_value(alloc: Global, bytes: &[u8]) -> Result<Value, ValueRefused>
    ensures value { IfOk result (λ value. bytes.now ≡ value_spelling value) }
    ensures range { IfOk result IsValue }
    ensures only { IfErr result
        (λ e. e ≡ ValueRefused.NotAValue → (value : Value) → IsValue value →
        ¬ (bytes.now ≡ value_spelling value)) }
    ensures found { IfOk result (λ value. value_of bytes.now ≡ Some value) }
    ensures none { IfErr result (λ e. e ≡ ValueRefused.NotAValue → value_of bytes.now ≡ None) }
    ensures memory { IfErr result
        (λ e. e ≡ ValueRefused.NoMemory → (text : List ℕ)
        × (value_of bytes.now ≡ Some (Value.Text text))) }
{
    value(alloc, bytes)
}

// The spelling of a text with these bytes.
fn quoted(text: &[u8]) -> ArrayVec<u8, 1022>
    requires { length text.now ≤ 255 }
    ensures { result.items ≡ 34 ∷ bytes_spelling text.now ++ 34 ∷ [] }
{
    let mut spelled = ArrayVec::new();
    spelled.push(b'"');
    for byte in text {
        let Ok(()) = spelled.try_extend_from_slice(escape(*byte).as_slice()) else {
            unreachable!();
        };
    }
    spelled.push(b'"');
    spelled
}

// Puts the spelling of a text with these bytes behind a text.
#[tactic(auto, using(crate::proofs::TextLemmas::own_spelling))]
fn append_text(text: &mut Bytes, content: &[u8]) -> Result<(), NoMemory>
    requires { length content.now ≤ 255 }
    ensures ok { OnOk result (text.new ≡ text.old ++ (34 ∷ bytes_spelling content.now ++ 34 ∷ [])) }
    ensures err { OnErr result (text.new ≡ text.old) }
{
    if all_stand(content) {
        return text.append_between(b'"', content);
    }
    append_escaped(text, content)
}

// The same, byte by byte. It is apart since its list of 1022 bytes is cleared at entry.
#[inline(never)]
fn append_escaped(text: &mut Bytes, content: &[u8]) -> Result<(), NoMemory>
    requires { length content.now ≤ 255 }
    ensures ok { OnOk result (text.new ≡ text.old ++ (34 ∷ bytes_spelling content.now ++ 34 ∷ [])) }
    ensures err { OnErr result (text.new ≡ text.old) }
{
    text.append(quoted(content).as_slice())
}

/// Puts the spelling of a value behind a text. After want of memory the text is as before. Each value that code holds is in its range.
pub fn append_value(text: &mut Bytes, value: &Value) -> Result<(), NoMemory>
    ensures ok { OnOk result (text.new ≡ text.old ++ value_spelling value.now) }
    ensures err { OnErr result (text.new ≡ text.old) }
    ensures range { IsValue value.now }
{
    match value {
        Value::Nil => text.append(b"nil"),
        Value::Bool(true) => text.append(b"true"),
        Value::Bool(false) => text.append(b"false"),
        Value::Int(number) => text.append(Buffer::new().format(*number).as_bytes()),
        Value::Text(content) => append_text(text, content.items()),
    }
}

/// The spelling of a value.
pub fn spell_value(alloc: Global, value: &Value) -> Result<Bytes, NoMemory>
    ensures { IfOk result (λ text. text ≡ value_spelling value.now) }
{
    let mut text = Bytes::new(alloc);
    append_value(&mut text, value)?;
    Ok(text)
}

/// The law of the spelling of values: each value has one spelling of its own, `value_of` finds exactly the values that the
/// bytes spell, and what it finds is in its range.
pub fn law_of_values()
    ensures one_spelling { (v w : Value) → IsValue v → IsValue w → value_spelling v ≡ value_spelling w → v ≡ w }
    ensures test { (bytes : List ℕ) (value : Value) → IsValue value →
        (value_of bytes ≡ Some value ↔ (bytes ≡ value_spelling value)) }
    ensures range { (bytes : List ℕ) (value : Value) → value_of bytes ≡ Some value → IsValue value }
{}
