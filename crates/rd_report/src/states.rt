//! What objects hold, in words.
ghost use Rattle.std.specs.Prelude.{◌≡◌, ◌++◌, OnOk};
ghost use Rattle.rd_report.specs.States.{count_text, counts_text, entry_text, entries_text, shape_text, state_line, value_text, values_text};

use rd_base::{Bytes, Name, NoMemory, Value, append_number, append_value};
use rd_object::Shape;

// Puts a value behind the text, behind a blank.
fn append_held(text: &mut Bytes, value: &Value) -> Result<(), NoMemory>
    ensures { OnOk result (text.new ≡ text.old ++ value_text value.now) }
{
    text.append(b" ")?;
    append_value(text, value)
}

// Puts a key and its value behind the text, each behind a blank.
fn append_pair(text: &mut Bytes, pair: &(Value, Value)) -> Result<(), NoMemory>
    ensures { OnOk result (text.new ≡ text.old ++ entry_text pair.now) }
{
    append_held(text, &pair.0)?;
    append_held(text, &pair.1)
}

// Puts a value and its count behind the text, each behind a blank.
fn append_count(text: &mut Bytes, counted: &(Value, u64)) -> Result<(), NoMemory>
    ensures { OnOk result (text.new ≡ text.old ++ count_text counted.now) }
{
    append_held(text, &counted.0)?;
    text.append(b" ")?;
    append_number(text, counted.1)
}

// Puts values behind the text, each behind a blank.
fn append_values(text: &mut Bytes, values: &[Value]) -> Result<(), NoMemory>
    ensures { OnOk result (text.new ≡ text.old ++ values_text values.now) }
{
    for value in values {
        append_held(text, value)?;
    }
    Ok(())
}

// Puts values by their keys behind the text.
fn append_pairs(text: &mut Bytes, pairs: &[(Value, Value)]) -> Result<(), NoMemory>
    ensures { OnOk result (text.new ≡ text.old ++ entries_text pairs.now) }
{
    for pair in pairs {
        append_pair(text, pair)?;
    }
    Ok(())
}

// Puts values with their counts behind the text.
fn append_counts(text: &mut Bytes, counts: &[(Value, u64)]) -> Result<(), NoMemory>
    ensures { OnOk result (text.new ≡ text.old ++ counts_text counts.now) }
{
    for counted in counts {
        append_count(text, counted)?;
    }
    Ok(())
}

// Puts behind the text what an object holds.
#[tactic(auto, unfolding(crate::specs::States::shape_text))]
fn append_shape(text: &mut Bytes, shape: &Shape) -> Result<(), NoMemory>
    ensures { OnOk result (text.new ≡ text.old ++ shape_text shape.now) }
{
    match shape {
        Shape::One(value) => {
            text.append(b"one")?;
            append_held(text, value)
        }
        Shape::Number(number) => {
            text.append(b"number")?;
            append_held(text, &Value::Int(*number))
        }
        Shape::Items(items) => {
            text.append(b"items")?;
            append_values(text, items.items())
        }
        Shape::Map(pairs) => {
            text.append(b"map")?;
            append_pairs(text, pairs.items())
        }
        Shape::Counts(counts) => {
            text.append(b"counts")?;
            append_counts(text, counts.items())
        }
        Shape::Row(items) => {
            text.append(b"row")?;
            append_values(text, items.items())
        }
    }
}

/// Puts the line behind the text that tells what an object holds: `state O one V`, `state O number N`, `state O items V V`, `state O map
/// K V K V`, `state O counts V N V N` or `state O row V V`. After want of memory the text may have a front of it.
pub fn append_state(text: &mut Bytes, name: &Name, shape: &Shape) -> Result<(), NoMemory>
    ensures { OnOk result (text.new ≡ text.old ++ state_line name.now shape.now) }
{
    text.append(b"state ")?;
    text.append(name.items())?;
    text.append(b" ")?;
    append_shape(text, shape)?;
    text.append(b"\n")
}
