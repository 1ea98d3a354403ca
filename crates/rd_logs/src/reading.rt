//! Reading a line of a log.
ghost use Rattle.std.specs.Prelude.{◌≡◌, ◌≢◌, ℕ, List, Some, None, IfNone, IfOk, IfErr, IfSome, OnErr};
ghost use Rattle.std.specs.Option.{option_and_then, option_map};
ghost use Rattle.std.specs.Str.{bytes_eq};
ghost use Rattle.rd_base.specs.Names.{IsName};
ghost use Rattle.rd_decimals.specs.Decimals.{number_read};
ghost use Rattle.rd_event.specs.Reading.{call_read, name_read, names_read};
ghost use Rattle.rd_event.specs.Items.{words_apart};
ghost use Rattle.rd_event.specs.declared.items.LineEvent.{LineEvent as EventOf};
ghost use Rattle.rd_logs.specs.declared.lines.LogLine.{LogLine as LineOf};
ghost use Rattle.rd_logs.specs.LogLines.{LogLineInRange, SaysInLog, acquire_read, header_spelling, log_header_of, log_line_of, log_line_with, most_acquires, some_number};

use crate::lines::LogLine;
use rd_base::Name;
use rd_decimals::read_number;
use rd_event::{LineEvent, LineRefused, is_skipped, read_slots};
use rd_tables::cut_at_space;
use std::alloc::Global;

// Are the bytes those of the text?
fn bytes_are(bytes: &[u8], text: &str) -> bool
    ensures { result ≡ bytes_eq bytes.now text.now }
{
    bytes == text.as_bytes()
}

// The number of an acquire that the bytes spell.
fn read_place(bytes: &[u8]) -> Option<u32>
    ensures { result ≡ option_and_then some_number (number_read most_acquires bytes.now) }
{
    let number = read_number(bytes, u64::from(u32::MAX))?;
    if number == 0 {
        return None;
    }
    Some(number as u32)
}

// The name that the bytes are.
#[tactic(auto, using(rd_base::proofs::NameLemmas::is_name_decides), unfolding(rd_event::specs::Reading::name_read))]
fn read_name(bytes: &[u8]) -> Result<Name, LineRefused>
    ensures name { IfOk result (λ name. name_read bytes.now ≡ Some name) }
    ensures none { OnErr result (name_read bytes.now ≡ None) }
    ensures refused { IfErr result (λ e. e ≡ LineRefused.BadLine) }
{
    let Ok(name) = Name::from_bytes(bytes) else {
        return Err(LineRefused::BadLine);
    };
    Ok(name)
}

// The object with these bytes behind its keyword.
#[tactic(auto, using(crate::proofs::LogLemmas::no_names), unfolding(rd_event::specs::Reading::names_read))]
fn read_object(rest: &[u8]) -> Result<LogLine, LineRefused>
    ensures line { IfOk result (λ line. option_map (λ names. LineOf.Object names.0 names.1) (names_read rest.now) ≡ Some line) }
    ensures none { OnErr result (option_map (λ names. LineOf.Object names.0 names.1) (names_read rest.now) ≡ None) }
    ensures refused { IfErr result (λ e. e ≡ LineRefused.BadLine) }
{
    let Some((name, kind)) = cut_at_space(rest) else {
        return Err(LineRefused::BadLine);
    };
    let Ok(name) = read_name(name) else {
        return Err(LineRefused::BadLine);
    };
    let Ok(kind) = read_name(kind) else {
        return Err(LineRefused::BadLine);
    };
    Ok(LogLine::Object { name, kind })
}

// The acquire with these bytes behind its keyword.
#[tactic(auto, using(crate::proofs::LogLemmas::no_acquire), unfolding(crate::specs::LogLines::acquire_read))]
fn read_acquire(rest: &[u8]) -> Result<LogLine, LineRefused>
    ensures line { IfOk result (λ line. acquire_read rest.now ≡ Some line) }
    ensures none { OnErr result (acquire_read rest.now ≡ None) }
    ensures refused { IfErr result (λ e. e ≡ LineRefused.BadLine) }
{
    let Some((lock, number)) = cut_at_space(rest) else {
        return Err(LineRefused::BadLine);
    };
    let Ok(lock) = read_name(lock) else {
        return Err(LineRefused::BadLine);
    };
    let Some(number) = read_place(number) else {
        return Err(LineRefused::BadLine);
    };
    Ok(LogLine::Acquire { lock, number })
}

// The call of the thread with these bytes behind its keyword. Its values are read last, which takes memory.
fn read_call(alloc: Global, thread: &Name, rest: &[u8]) -> Result<LogLine, LineRefused>
    ensures line { IfOk result (λ line. option_map (λ event. LineOf.Event event) (call_read (words_apart thread.now rest.now)) ≡ Some line) }
    ensures none { IfErr result (λ e. e ≡ LineRefused.BadLine →
        option_map (λ event. LineOf.Event event) (call_read (words_apart thread.now rest.now)) ≡ None) }
    ensures memory { IfErr result (λ e. e ≡ LineRefused.NoMemory →
        (line : LineOf) × (option_map (λ event. LineOf.Event event) (call_read (words_apart thread.now rest.now)) ≡ Some line)) }
{
    // `items` is called for its clause that it is a name
    let _name = thread.items();
    let Some((object, words)) = cut_at_space(rest) else {
        return Err(LineRefused::BadLine);
    };
    let Some((method, values)) = cut_at_space(words) else {
        return Err(LineRefused::BadLine);
    };
    let Ok(object) = read_name(object) else {
        return Err(LineRefused::BadLine);
    };
    let Ok(method) = read_name(method) else {
        return Err(LineRefused::BadLine);
    };
    match read_slots(alloc, values) {
        Ok(slots) => Ok(LogLine::Event(LineEvent::Call {
            thread: thread.copy(),
            object,
            method,
            slots,
        })),
        Err(refused) => Err(refused),
    }
}

// The event of the thread that is spelled by a keyword and one name.
fn read_fork(thread: &Name, rest: &[u8]) -> Result<LogLine, LineRefused>
    ensures line { IfOk result (λ line. option_map (λ child. LineOf.Event (EventOf.Fork thread.now child)) (name_read rest.now) ≡ Some line) }
    ensures none { OnErr result (option_map (λ child. LineOf.Event (EventOf.Fork thread.now child)) (name_read rest.now) ≡ None) }
    ensures refused { IfErr result (λ e. e ≡ LineRefused.BadLine) }
{
    let Ok(child) = read_name(rest) else {
        return Err(LineRefused::BadLine);
    };
    let thread = thread.copy();
    Ok(LogLine::Event(LineEvent::Fork { thread, child }))
}

fn read_join(thread: &Name, rest: &[u8]) -> Result<LogLine, LineRefused>
    ensures line { IfOk result (λ line. option_map (λ child. LineOf.Event (EventOf.Join thread.now child)) (name_read rest.now) ≡ Some line) }
    ensures none { OnErr result (option_map (λ child. LineOf.Event (EventOf.Join thread.now child)) (name_read rest.now) ≡ None) }
    ensures refused { IfErr result (λ e. e ≡ LineRefused.BadLine) }
{
    let Ok(child) = read_name(rest) else {
        return Err(LineRefused::BadLine);
    };
    let thread = thread.copy();
    Ok(LogLine::Event(LineEvent::Join { thread, child }))
}

fn read_release(thread: &Name, rest: &[u8]) -> Result<LogLine, LineRefused>
    ensures line { IfOk result (λ line. option_map (λ lock. LineOf.Event (EventOf.Release thread.now lock)) (name_read rest.now) ≡ Some line) }
    ensures none { OnErr result (option_map (λ lock. LineOf.Event (EventOf.Release thread.now lock)) (name_read rest.now) ≡ None) }
    ensures refused { IfErr result (λ e. e ≡ LineRefused.BadLine) }
{
    let Ok(lock) = read_name(rest) else {
        return Err(LineRefused::BadLine);
    };
    let thread = thread.copy();
    Ok(LogLine::Event(LineEvent::Release { thread, lock }))
}

// The line with this keyword and these bytes behind its space.
#[tactic(auto, unfolding(crate::specs::LogLines::log_line_with))]
fn read_with(
    alloc: Global,
    thread: &Name,
    keyword: &[u8],
    rest: &[u8],
) -> Result<LogLine, LineRefused>
    ensures line { IfOk result (λ line. log_line_with thread.now keyword.now rest.now ≡ Some line) }
    ensures none { IfErr result (λ e. e ≡ LineRefused.BadLine → log_line_with thread.now keyword.now rest.now ≡ None) }
    ensures memory { IfErr result (λ e. e ≡ LineRefused.NoMemory → (line : LineOf) × (log_line_with thread.now keyword.now rest.now ≡ Some line)) }
{
    if bytes_are(keyword, "object") {
        return read_object(rest);
    }
    if bytes_are(keyword, "fork") {
        return read_fork(thread, rest);
    }
    if bytes_are(keyword, "join") {
        return read_join(thread, rest);
    }
    if bytes_are(keyword, "release") {
        return read_release(thread, rest);
    }
    if bytes_are(keyword, "acquire") {
        return read_acquire(rest);
    }
    if bytes_are(keyword, "call") {
        return read_call(alloc, thread, rest);
    }
    Err(LineRefused::BadLine)
}

/// Reads a line, given without its line feed, of the log of a thread, behind the log's header. The answer is `BadLine` exactly if the bytes say no such line, and
/// `NoMemory` only if they say one, which is a call.
pub fn read_log_line(alloc: Global, thread: &Name, bytes: &[u8]) -> Result<LogLine, LineRefused>
    // the line is what the bytes say
    ensures says { IfOk result (SaysInLog bytes.now) }
    ensures range { IfOk result (LogLineInRange thread.now) }
    ensures only { IfErr result (λ e. e ≡ LineRefused.BadLine → (line : LineOf) → LogLineInRange thread.now line → ¬ (SaysInLog bytes.now line)) }

    // as `log_line_of` tells too
    ensures line { IfOk result (λ line. log_line_of thread.now bytes.now ≡ Some line) }
    ensures none { IfErr result (λ e. e ≡ LineRefused.BadLine → log_line_of thread.now bytes.now ≡ None) }
    ensures memory { IfErr result (λ e. e ≡ LineRefused.NoMemory → (line : LineOf) × (log_line_of thread.now bytes.now ≡ Some line)) }
{
    // `items` is called for its clause that it is a name
    let _name = thread.items();
    if is_skipped(bytes) {
        return Ok(LogLine::Skip);
    }
    let Some((keyword, rest)) = cut_at_space(bytes) else {
        return Err(LineRefused::BadLine);
    };
    read_with(alloc, thread, keyword, rest)
}

/// The thread of the log whose header the bytes are, given without their line feed: `rdlog 1`, a space and its name.
pub fn read_log_header(bytes: &[u8]) -> Option<Name>
    ensures thread { IfSome result (λ thread. IsName thread × (bytes.now ≡ header_spelling thread)) }
    ensures none { IfNone result ((thread : List ℕ) → IsName thread → bytes.now ≢ header_spelling thread) }

    // as `log_header_of` tells too
    ensures read { result ≡ log_header_of bytes.now }
{
    let name = bytes.strip_prefix(b"rdlog 1 ".as_slice())?;
    let Ok(name) = Name::from_bytes(name) else {
        return None;
    };
    Some(name)
}
