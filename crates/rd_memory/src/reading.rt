//! Reading a line of reads and writes.
ghost use Rattle.std.specs.Prelude.{◌≡◌, false, true, Bool, Some, None, IfOk, OnErr, IfErr, ◌++◌, codes};
ghost use Rattle.std.specs.Option.{option_map, option_and_then};
ghost use Rattle.std.specs.List.{before_first, after_first, position};
ghost use Rattle.std.specs.Str.{bytes_eq};
ghost use Rattle.rd_base.specs.Bytes.{is_space};
ghost use Rattle.rd_event.specs.Reading.{names_read, item_of};
ghost use Rattle.rd_memory.specs.declared.lines.MemLine.{MemLine};
ghost use Rattle.rd_memory.specs.MemoryLines.{MemLineInRange, SaysMemory, access_of, memory_line_of, common_line};

use crate::lines::MemLine;
use rd_base::Name;
use rd_event::{Line, LineEvent, LineRefused, read_line};
use std::alloc::Global;

// Are the bytes those of the text?
fn bytes_are(bytes: &[u8], text: &str) -> bool
    ensures { result ≡ bytes_eq bytes.now text.now }
{
    bytes == text.as_bytes()
}

fn first_space(bytes: &[u8]) -> Option<usize>
    ensures { result ≡ position is_space bytes.now }
{
    bytes.iter().position(|byte| *byte == b' ')
}

// What stands before the first space, and what stands after it.
fn cut(bytes: &[u8]) -> (&[u8], &[u8])
    ensures before { result.0.now ≡ before_first is_space bytes.now }
    ensures after { result.1.now ≡ after_first is_space bytes.now }
{
    let Some(space) = first_space(bytes) else {
        return (bytes, &[]);
    };
    (&bytes[..space], &bytes[space + 1..])
}

// Reads an access with these bytes after the space behind its keyword.
#[tactic(auto, using(rd_base::proofs::NameLemmas::is_name_decides), unfolding(rd_event::specs::Reading::name_read, rd_event::specs::Reading::names_read))]
fn read_access(write: bool, names: &[u8]) -> Result<MemLine, LineRefused>
    ensures line { IfOk result (λ line. option_map (access_of write) (names_read names.now) ≡ Some line) }
    ensures none { OnErr result (option_map (access_of write) (names_read names.now) ≡ None) }
    ensures refused { IfErr result (λ e. e ≡ LineRefused.BadLine) }
{
    let (thread, variable) = cut(names);
    let Ok(thread) = Name::from_bytes(thread) else {
        return Err(LineRefused::BadLine);
    };
    let Ok(variable) = Name::from_bytes(variable) else {
        return Err(LineRefused::BadLine);
    };
    Ok(MemLine::Access {
        thread,
        variable,
        write,
    })
}

// The line that says the same as this item of a trace, if there is one.
fn common_line(item: Line) -> Option<MemLine>
    ensures { result ≡ common_line item }
{
    match item {
        Line::Skip => Some(MemLine::Skip),
        Line::Thread(thread) => Some(MemLine::Thread(thread)),
        Line::Event(event) => match &event {
            LineEvent::Fork { .. }
            | LineEvent::Join { .. }
            | LineEvent::Acquire { .. }
            | LineEvent::Release { .. } => Some(MemLine::Event(event)),
            LineEvent::Share { .. } | LineEvent::Unshare { .. } | LineEvent::Call { .. } => None,
        },
        Line::Header { .. } | Line::Object { .. } => None,
    }
}

// Reads a line that says the same in a trace of version 1. What takes memory in a trace is a call, which is no such line.
fn read_common(alloc: Global, bytes: &[u8]) -> Result<MemLine, LineRefused>
    ensures line { IfOk result (λ line. option_and_then common_line (item_of 1 bytes.now) ≡ Some line) }
    ensures none { OnErr result (option_and_then common_line (item_of 1 bytes.now) ≡ None) }
    ensures refused { IfErr result (λ e. e ≡ LineRefused.BadLine) }
{
    let Ok(item) = read_line(alloc, bytes, 1) else {
        return Err(LineRefused::BadLine);
    };
    let Some(line) = common_line(item) else {
        return Err(LineRefused::BadLine);
    };
    Ok(line)
}

// Reads a line, as `memory_line_of` tells it.
#[tactic(auto, unfolding(crate::specs::MemoryLines::memory_line_of))]
fn read_spelled(alloc: Global, bytes: &[u8]) -> Result<MemLine, LineRefused>
    ensures line { IfOk result (λ line. memory_line_of bytes.now ≡ Some line) }
    ensures none { OnErr result (memory_line_of bytes.now ≡ None) }
    ensures refused { IfErr result (λ e. e ≡ LineRefused.BadLine) }
{
    let (keyword, names) = cut(bytes);
    if bytes_are(keyword, "read") {
        return read_access(false, names);
    }
    if bytes_are(keyword, "write") {
        return read_access(true, names);
    }
    if bytes_are(bytes, "rdmem 1") {
        return Ok(MemLine::Header);
    }
    read_common(alloc, bytes)
}

/// Reads a line, given without its line feed, of a trace of reads and writes. The answer is `BadLine` exactly if the bytes say no such
/// line. `NoMemory` never comes.
pub fn read_memory_line(alloc: Global, bytes: &[u8]) -> Result<MemLine, LineRefused>
    // the line is what the bytes say
    ensures says { IfOk result (λ line. SaysMemory bytes.now line) }
    ensures range { IfOk result MemLineInRange }
    ensures only { OnErr result ((line : MemLine) → MemLineInRange line → ¬ (SaysMemory bytes.now line)) }

    // as `memory_line_of` tells too
    ensures line { IfOk result (λ line. memory_line_of bytes.now ≡ Some line) }
    ensures none { OnErr result (memory_line_of bytes.now ≡ None) }

    // a line is refused for what it says, and never for want of memory
    ensures refused { IfErr result (λ e. e ≡ LineRefused.BadLine) }
{
    read_spelled(alloc, bytes)
}
