//! Reading a line.
ghost use Rattle.std.specs.Prelude.{◌≡◌, ◌↔◌, ℕ, List, Option, Some, None, false, OnOk, OnErr, IfOk, IfErr, IfSome, IsTrue, ◌++◌, codes};
ghost use Rattle.std.specs.Option.{option_map};
ghost use Rattle.std.specs.List.{AllPass, before_first, after_first, position};
ghost use Rattle.rd_base.specs.Bytes.{is_space};
ghost use Rattle.rd_base.specs.Names.{IsName, is_name_byte};
ghost use Rattle.rd_base.specs.declared.values.Value.{Value};
ghost use Rattle.rd_event.specs.declared.items.Line.{Line};
ghost use Rattle.std.specs.Str.{bytes_eq};
ghost use Rattle.rd_event.specs.Items.{HasItem, is_skipped, LineInRange, Says, line_spelling, words_apart};
ghost use Rattle.rd_event.specs.Reading.{name_read, names_read, header_read, is_call_keyword, call_read, pair_item, shared_event, shared_item, share_with, event_with, item_with, item_of};
ghost use Rattle.rd_event.specs.ReadingSlots.{slots_read};

use crate::items::{Line, LineEvent};
use crate::slots::read_slots;
use rd_base::{Name, name_length};
use std::alloc::Global;
use std::mem;
use thiserror::Error;

/// Why a line is refused.
#[derive(Clone, Copy, Debug, PartialEq, Eq, Error)]
pub enum LineRefused {
    /// the bytes spell no item
    #[error("not a line of a trace")]
    BadLine,
    /// memory ran out
    #[error("out of memory")]
    NoMemory,
}

/// Whether a line with these bytes, without its line feed, is skipped: it is empty, or its first byte is `#`.
pub fn is_skipped(bytes: &[u8]) -> bool
    ensures { result ≡ is_skipped bytes.now }
{
    bytes.first().is_none_or(|byte| *byte == b'#')
}

// Are the bytes those of the text?
pub(crate) fn bytes_are(bytes: &[u8], text: &str) -> bool
    ensures { result ≡ bytes_eq bytes.now text.now }
{
    bytes == text.as_bytes()
}

/// What stands behind the text, if the bytes begin with it. Most texts are told apart by their first byte.
#[inline(always)]
pub fn behind<'a>(bytes: &'a [u8], text: &[u8]) -> Option<&'a [u8]>
    ensures { IfSome result (λ rest. bytes.now ≡ text.now ++ rest.now) }
{
    if bytes.first() != text.first() {
        return None;
    }
    bytes.strip_prefix(text)
}

fn first_space(bytes: &[u8]) -> Option<usize>
    ensures { result ≡ position is_space bytes.now }
{
    bytes.iter().position(|byte| *byte == b' ')
}

// What stands before the first space, and what stands after it.
fn cut(bytes: &[u8]) -> (&[u8], &[u8])
    ensures before { result.0.now ≡ before_first is_space bytes.now }
    ensures after { result.1.now ≡ after_first is_space bytes.now }
{
    let Some(space) = first_space(bytes) else {
        return (bytes, &[]);
    };
    (&bytes[..space], &bytes[space + 1..])
}

// What stands before the first space, if its bytes are those of names, else nothing, and what stands after that space.
#[tactic(auto, using(crate::proofs::WordLemmas::before_end, crate::proofs::WordLemmas::after_end, crate::proofs::WordLemmas::each_in_front, rd_base::proofs::NameLemmas::each_of_name))]
fn cut_name(bytes: &[u8]) -> (&[u8], &[u8])
    ensures each { AllPass is_name_byte result.0.now }
    ensures before { name_read result.0.now ≡ name_read (before_first is_space bytes.now) }
    ensures after { IsName result.0.now → result.1.now ≡ after_first is_space bytes.now }
{
    let length = name_length(bytes);
    if length == bytes.len() {
        return (bytes, &[]);
    }
    if bytes[length] != b' ' {
        return (&[], &[]);
    }
    (&bytes[..length], &bytes[length + 1..])
}

// The lines that are a keyword and two names.
#[derive(Clone, Copy)]
enum Pair {
    Object,
    Fork,
    Join,
    Acquire,
    Release,
}

// Puts what such a line says of its names into `line`.
fn put_pair(pair: Pair, first: Name, second: Name, line: &mut Line)
    ensures { line.new ≡ pair_item pair (first, second) }
{
    match pair {
        Pair::Object => {
            *line = Line::Object {
                name: first,
                kind: second,
            };
        }
        Pair::Fork => {
            *line = Line::Event(LineEvent::Fork {
                thread: first,
                child: second,
            });
        }
        Pair::Join => {
            *line = Line::Event(LineEvent::Join {
                thread: first,
                child: second,
            });
        }
        Pair::Acquire => {
            *line = Line::Event(LineEvent::Acquire {
                thread: first,
                lock: second,
            });
        }
        Pair::Release => {
            *line = Line::Event(LineEvent::Release {
                thread: first,
                lock: second,
            });
        }
    }
}

// Reads such a line with these bytes after the space behind its keyword.
#[tactic(auto, using(rd_base::proofs::NameLemmas::is_name_decides, rd_base::proofs::NameLemmas::each_of_name, rd_base::proofs::NameLemmas::other_no_name), unfolding(crate::specs::Reading::name_read, crate::specs::Reading::names_read))]
fn read_pair(pair: Pair, rest: &[u8], line: &mut Line) -> Result<(), LineRefused>
    ensures item { OnOk result (option_map (pair_item pair) (names_read rest.now) ≡ Some line.new) }
    ensures none { OnErr result (option_map (pair_item pair) (names_read rest.now) ≡ None) }
    ensures refused { IfErr result (λ e. e ≡ LineRefused.BadLine) }
{
    let (first, second) = cut_name(rest);
    if name_length(second) < second.len() {
        return Err(LineRefused::BadLine);
    }
    let Ok(first) = Name::from_name_bytes(first) else {
        return Err(LineRefused::BadLine);
    };
    let Ok(second) = Name::from_name_bytes(second) else {
        return Err(LineRefused::BadLine);
    };
    put_pair(pair, first, second, line);
    Ok(())
}

// Reads the line of a root thread with these bytes after the space behind its keyword.
#[tactic(auto, using(rd_base::proofs::NameLemmas::is_name_decides), unfolding(crate::specs::Reading::name_read))]
fn read_thread(rest: &[u8], line: &mut Line) -> Result<(), LineRefused>
    ensures item { OnOk result
        (option_map (λ name. Line.Thread name) (name_read rest.now) ≡ Some line.new) }
    ensures none { OnErr result (option_map (λ name. Line.Thread name) (name_read rest.now) ≡ None) }
    ensures refused { IfErr result (λ e. e ≡ LineRefused.BadLine) }
{
    let Ok(thread) = Name::from_bytes(rest) else {
        return Err(LineRefused::BadLine);
    };
    *line = Line::Thread(thread);
    Ok(())
}

// Reads a call with these bytes after the space behind its keyword.
#[tactic(auto, using(rd_base::proofs::NameLemmas::is_name_decides), unfolding(crate::specs::Reading::name_read, crate::specs::Reading::call_read))]
fn read_call(alloc: Global, rest: &[u8], line: &mut Line) -> Result<(), LineRefused>
    ensures item { OnOk result
        (option_map (λ event. Line.Event event) (call_read rest.now) ≡ Some line.new) }
    ensures none { IfErr result
        (λ e. e ≡ LineRefused.BadLine →
        option_map (λ event. Line.Event event) (call_read rest.now) ≡ None) }
    ensures memory { IfErr result
        (λ e. e ≡ LineRefused.NoMemory → (item : Line)
        × (option_map (λ event. Line.Event event) (call_read rest.now) ≡ Some item)) }
{
    let (thread, names) = cut_name(rest);
    let Ok(thread) = Name::from_name_bytes(thread) else {
        return Err(LineRefused::BadLine);
    };
    let (object, words) = cut_name(names);
    let Ok(object) = Name::from_name_bytes(object) else {
        return Err(LineRefused::BadLine);
    };
    let (method, values) = cut_name(words);
    let Ok(method) = Name::from_name_bytes(method) else {
        return Err(LineRefused::BadLine);
    };
    let slots = match read_slots(alloc, values) {
        Ok(slots) => slots,
        Err(refused) => return Err(refused),
    };
    *line = Line::Event(LineEvent::Call {
        thread,
        object,
        method,
        slots,
    });
    Ok(())
}

// Reads a header with these bytes after the space behind its keyword.
fn read_header(rest: &[u8], line: &mut Line) -> Result<(), LineRefused>
    ensures item { OnOk result (header_read rest.now ≡ Some line.new) }
    ensures none { OnErr result (header_read rest.now ≡ None) }
    ensures refused { IfErr result (λ e. e ≡ LineRefused.BadLine) }
{
    if bytes_are(rest, "1") {
        *line = Line::Header { version: 1 };
        return Ok(());
    }
    if bytes_are(rest, "2") {
        *line = Line::Header { version: 2 };
        return Ok(());
    }
    Err(LineRefused::BadLine)
}

// The share that is spelled like an acquire, and the unshare that is spelled like a release. So the lines of version 1 pay for no
// further pair.
fn shared_event(event: LineEvent) -> LineEvent
    ensures { result ≡ shared_event event }
{
    match event {
        LineEvent::Acquire { thread, lock } => LineEvent::Share { thread, lock },
        LineEvent::Release { thread, lock } => LineEvent::Unshare { thread, lock },
        other => other,
    }
}

// Makes an acquire a share, and a release an unshare, with the same names.
fn share(line: &mut Line)
    ensures { line.new ≡ shared_item line.old }
{
    let read = mem::replace(line, Line::Skip);
    *line = match read {
        Line::Event(event) => Line::Event(shared_event(event)),
        other => other,
    };
}

// Reads what version 2 has besides, with this keyword and these bytes after the space behind it.
#[tactic(auto, unfolding(crate::specs::Reading::share_with))]
fn read_share(keyword: &[u8], rest: &[u8], line: &mut Line) -> Result<(), LineRefused>
    ensures item { OnOk result
        (option_map (λ event. Line.Event event) (share_with keyword.now rest.now) ≡ Some line.new) }
    ensures none { OnErr result
        (option_map (λ event. Line.Event event) (share_with keyword.now rest.now) ≡ None) }
    ensures refused { IfErr result (λ e. e ≡ LineRefused.BadLine) }
{
    if bytes_are(keyword, "share") {
        read_pair(Pair::Acquire, rest, line)?;
        share(line);
        return Ok(());
    }
    if bytes_are(keyword, "unshare") {
        read_pair(Pair::Release, rest, line)?;
        share(line);
        return Ok(());
    }
    Err(LineRefused::BadLine)
}

// Reads a line of this version that is no call, with this keyword and these bytes after the space behind it. The frequent keywords come
// first.
#[tactic(auto, unfolding(crate::specs::Reading::event_with, crate::specs::Reading::item_with))]
fn read_other(version: u8, keyword: &[u8], rest: &[u8], line: &mut Line) -> Result<(), LineRefused>
    requires { is_call_keyword keyword.now ≡ false }
    ensures item { OnOk result (item_with version keyword.now rest.now ≡ Some line.new) }
    ensures none { OnErr result (item_with version keyword.now rest.now ≡ None) }
    ensures refused { IfErr result (λ e. e ≡ LineRefused.BadLine) }
{
    if bytes_are(keyword, "acquire") {
        return read_pair(Pair::Acquire, rest, line);
    }
    if bytes_are(keyword, "release") {
        return read_pair(Pair::Release, rest, line);
    }
    if bytes_are(keyword, "fork") {
        return read_pair(Pair::Fork, rest, line);
    }
    if bytes_are(keyword, "join") {
        return read_pair(Pair::Join, rest, line);
    }
    if bytes_are(keyword, "object") {
        return read_pair(Pair::Object, rest, line);
    }
    if bytes_are(keyword, "thread") {
        return read_thread(rest, line);
    }
    if bytes_are(keyword, "rdtrace") {
        return read_header(rest, line);
    }
    if version == 2 {
        return read_share(keyword, rest, line);
    }
    Err(LineRefused::BadLine)
}

// Makes the line a skipped one. One that is stays as it is, so that a comment behind a comment writes nothing.
fn skip(line: &mut Line)
    ensures { line.new ≡ Line.Skip }
{
    match line {
        Line::Skip => {}
        _ => *line = Line::Skip,
    }
}

// Reads a line of this version. The most frequent keywords are asked for with their space, before the space is looked for.
#[tactic(auto, using(crate::proofs::ReadingLemmas::call_item), unfolding(crate::specs::Reading::item_of))]
fn read_item(alloc: Global, bytes: &[u8], version: u8, line: &mut Line) -> Result<(), LineRefused>
    ensures item { OnOk result (item_of version bytes.now ≡ Some line.new) }
    ensures none { IfErr result (λ e. e ≡ LineRefused.BadLine → item_of version bytes.now ≡ None) }
    ensures memory { IfErr result
        (λ e. e ≡ LineRefused.NoMemory → (item : Line) × (item_of version bytes.now ≡ Some item)) }
    ensures call { IfErr result
        (λ e. e ≡ LineRefused.NoMemory →
        IsTrue (is_call_keyword (before_first is_space bytes.now))) }
{
    if let Some(rest) = behind(bytes, b"call ") {
        return read_call(alloc, rest, line);
    }
    if let Some(rest) = behind(bytes, b"join ") {
        return read_pair(Pair::Join, rest, line);
    }
    if let Some(rest) = behind(bytes, b"object ") {
        return read_pair(Pair::Object, rest, line);
    }
    if let Some(rest) = behind(bytes, b"acquire ") {
        return read_pair(Pair::Acquire, rest, line);
    }
    if let Some(rest) = behind(bytes, b"release ") {
        return read_pair(Pair::Release, rest, line);
    }
    if is_skipped(bytes) {
        skip(line);
        return Ok(());
    }
    let (keyword, rest) = cut(bytes);
    if bytes_are(keyword, "call") {
        return read_call(alloc, rest, line);
    }
    read_other(version, keyword, rest, line)
}

/// Reads a line of this version, given without its line feed, into `line`, which may be anything after an error. The answers are those of
/// `read_line`.
pub fn read_into(
    alloc: Global,
    bytes: &[u8],
    version: u8,
    line: &mut Line,
) -> Result<(), LineRefused>
    // the line is what the bytes say
    ensures says { OnOk result (Says version bytes.now line.new) }
    ensures range { OnOk result (LineInRange line.new) }
    ensures only { IfErr result
        (λ e. e ≡ LineRefused.BadLine → (item : Line) → LineInRange item →
        ¬ (Says version bytes.now item)) }

    // as `item_of` tells too
    ensures item { OnOk result (item_of version bytes.now ≡ Some line.new) }
    ensures none { IfErr result (λ e. e ≡ LineRefused.BadLine → item_of version bytes.now ≡ None) }

    // memory runs out only at bytes that say an item and begin as a call
    ensures memory { IfErr result
        (λ e. e ≡ LineRefused.NoMemory → (item : Line) × (item_of version bytes.now ≡ Some item)) }
    ensures call { IfErr result
        (λ e. e ≡ LineRefused.NoMemory →
        IsTrue (is_call_keyword (before_first is_space bytes.now))) }
{
    read_item(alloc, bytes, version, line)
}

/// Reads a line, given without its line feed, of a trace whose header has this version, or 0 where none was read. The answer is
/// `BadLine` exactly if the bytes spell no item of the version. Only the values of a call take memory, so `NoMemory` comes only for
/// bytes that spell a call.
pub fn read_line(alloc: Global, bytes: &[u8], version: u8) -> Result<Line, LineRefused>
    // the line is what the bytes say
    ensures says { IfOk result (λ item. Says version bytes.now item) }
    ensures range { IfOk result LineInRange }
    ensures only { IfErr result
        (λ e. e ≡ LineRefused.BadLine → (item : Line) → LineInRange item →
        ¬ (Says version bytes.now item)) }

    // as `item_of` tells too
    ensures item { IfOk result (λ item. item_of version bytes.now ≡ Some item) }
    ensures none { IfErr result (λ e. e ≡ LineRefused.BadLine → item_of version bytes.now ≡ None) }

    // memory runs out only at bytes that say an item and begin as a call
    ensures memory { IfErr result
        (λ e. e ≡ LineRefused.NoMemory → (item : Line) × (item_of version bytes.now ≡ Some item)) }
    ensures call { IfErr result
        (λ e. e ≡ LineRefused.NoMemory →
        IsTrue (is_call_keyword (before_first is_space bytes.now))) }
{
    let mut line = Line::Skip;
    match read_into(alloc, bytes, version, &mut line) {
        Ok(()) => Ok(line),
        Err(refused) => Err(refused),
    }
}

/// The law of spelling: in each version `item_of` gives exactly the items that the bytes say, each in its range, it gives each item that
/// the version has again from the item's spelling, and no bytes say two.
pub fn law_of_spelling()
    ensures test { (version : ℕ) (bytes : List ℕ) (item : Line) → LineInRange item →
        (item_of version bytes ≡ Some item ↔ Says version bytes item) }
    ensures range { (version : ℕ) (bytes : List ℕ) (item : Line) →
        item_of version bytes ≡ Some item → LineInRange item }
    ensures again { (version : ℕ) (item : Line) → LineInRange item → HasItem version item →
        item_of version (line_spelling item) ≡ Some item }
    ensures one_item { (version : ℕ) (bytes : List ℕ) (x y : Line) → LineInRange x → LineInRange y →
        Says version bytes x → Says version bytes y → x ≡ y }
{}

/// The law of calls: in each version, the bytes of a call with these names are that call, with the slots that the bytes behind the names
/// spell.
pub fn law_of_calls()
    ensures { (version : ℕ) (thread object method values : List ℕ) (slots : List Value) →
        IsName thread → IsName object → IsName method → slots_read 7 values ≡ Some slots →
        item_of version (codes "call " ++ words_apart thread (words_apart object (words_apart method values)))
        ≡ Some (Line.Event (LineEvent.Call thread object method slots)) }
{}
