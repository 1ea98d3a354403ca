//! The lines of a weaving.
ghost use Rattle.std.specs.Prelude.{◌≡◌, if◌then◌else◌, ◌+◌, ◌<◌, ◌≤◌, ◌++◌, ◌∷◌, [], ℕ, List, IfOk, OnOk, Some, false, length, map, reverse, slice_get, slice_index_or, slice_set, take};
ghost use Rattle.rd_event.specs.declared.items.Line.TheVariants as line;
ghost use Rattle.rd_logs.specs.declared.lines.LogEvent.{LogEvent as EventOf};
ghost use Rattle.rd_logs.specs.WholeLogs.{LogRecord, record_of};
ghost use Rattle.rd_weave.specs.Answers.{placed_lines, events_of_log, object_lines, rest_events, root_lines};
ghost use Rattle.rd_weavings.specs.declared.spots.Spot.{Spot as SpotOf};
ghost use Rattle.rd_weavings.specs.Logs.{given};

use rd_base::NoMemory;
use rd_event::Line;
use rd_logs::{LogObject, ReadLog};
use rd_weavings::Spot;
use std::alloc::Global;
use std::marker::Model;

/// The lines of a trace. Contracts see it as their list.
#[derive(Drop)]
pub struct TraceLines {
    lines: Vec<Line>,
}

impl Model for TraceLines {
    ghost use Rattle.std.specs.Prelude.{List};
    ghost use Rattle.rd_event.specs.declared.items.Line.{Line};

    ghost Value = { List Line };

    ghost view = { λ t. t.lines.items };
}

impl TraceLines {
    /// The lines. It takes no memory.
    pub fn items(&self) -> &[Line]
        ensures { result.now ≡ self.now }
    {
        self.lines.as_slice()
    }
}

// Puts the thread of a log last, if it is a root.
fn append_root(lines: &mut Vec<Line>, log: &ReadLog, is_root: bool) -> Result<(), NoMemory>
    ensures { OnOk result (lines.new.items ≡ lines.old.items ++ (if is_root then line.Thread log.now.thread ∷ [] else [])) }
{
    if is_root {
        lines.push(Line::Thread(log.thread.copy()))?;
    }
    Ok(())
}

// Whether the thread with this number is a root.
fn is_marked(roots: &[bool], thread: usize) -> bool
    ensures { result ≡ slice_index_or roots.now thread false }
{
    thread < roots.len() && roots[thread]
}

// Puts the threads of the logs last that are roots.
fn append_roots(lines: &mut Vec<Line>, logs: &[ReadLog], roots: &[bool]) -> Result<(), NoMemory>
    ensures { OnOk result (lines.new.items ≡ lines.old.items ++ root_lines (λ thread. slice_index_or roots.now thread false) 0 (map record_of logs.now)) }
{
    for place in 0..logs.len() {
        append_root(lines, &logs[place], is_marked(roots, place))?;
    }
    Ok(())
}

// Puts these objects last.
fn append_declared(lines: &mut Vec<Line>, objects: &[LogObject]) -> Result<(), NoMemory>
    ensures { OnOk result (lines.new.items ≡ lines.old.items ++ map (λ declared. line.Object declared.name declared.kind) objects.now) }
{
    for object in objects {
        lines.push(Line::Object {
            name: object.name.copy(),
            kind: object.kind.copy(),
        })?;
    }
    Ok(())
}

// Puts the objects last that the logs declare.
fn append_objects(lines: &mut Vec<Line>, logs: &[ReadLog]) -> Result<(), NoMemory>
    ensures { OnOk result (lines.new.items ≡ lines.old.items ++ object_lines (map record_of logs.now)) }
{
    for log in logs {
        append_declared(lines, log.objects.as_slice())?;
    }
    Ok(())
}

// Turns the events of a log around, so that the next one stands last.
fn turn_one(log: &mut ReadLog)
    ensures { log.new.events.items ≡ reverse log.old.events.items }
{
    log.events.reverse();
}

// And those of each log.
fn turn_around(logs: &mut [ReadLog])
    ensures turned { (l : ℕ) → slice_index_or (rest_events logs.new) l [] ≡ reverse (slice_index_or (rest_events logs.old) l []) }
    ensures count { length logs.new ≡ length logs.old }
{
    for place in 0..logs.len() {
        turn_one(&mut logs[place]);
    }
}

// Takes the next event of a log, which stands last, as a line.
fn next_line(logs: &mut [ReadLog], log: u32) -> Option<Line>
    ensures { (front : List EventOf) (noted : EventOf) → slice_index_or (rest_events logs.old) log [] ≡ front ++ noted ∷ [] →
        (result ≡ Some (line.Event noted.event)) × (rest_events logs.new ≡ slice_set (rest_events logs.old) log front) }
{
    let place = log as usize;
    if place < logs.len() {
        let noted = logs[place].events.pop()?;
        return Some(Line::Event(noted.event));
    }
    None
}

// Puts the next event of a log last.
fn append_event(lines: &mut Vec<Line>, logs: &mut [ReadLog], log: u32) -> Result<(), NoMemory>
    ensures { OnOk result ((front : List EventOf) (noted : EventOf) → slice_index_or (rest_events logs.old) log [] ≡ front ++ noted ∷ [] →
        (lines.new.items ≡ lines.old.items ++ line.Event noted.event ∷ []) × (rest_events logs.new ≡ slice_set (rest_events logs.old) log front)) }
{
    match next_line(logs, log) {
        Some(line) => {
            lines.push(line)?;
            Ok(())
        }
        None => Ok(()),
    }
}

// Puts the events at the spots last, of which each is the next one of its log.
fn append_events(
    lines: &mut Vec<Line>,
    logs: &mut [ReadLog],
    spots: &[Spot],
) -> Result<(), NoMemory>
    ensures { OnOk result ((records : List LogRecord) → ((l : ℕ) → slice_index_or (rest_events logs.old) l [] ≡ reverse (events_of_log records l)) →
        ((j : ℕ) (s : SpotOf) → slice_get spots.now j ≡ Some s → (s.place ≡ given (take j spots.now) s.log) × (s.place < length (events_of_log records s.log))) →
        lines.new.items ≡ lines.old.items ++ placed_lines records spots.now) }
{
    for spot in spots {
        append_event(lines, logs, spot.log)?;
    }
    Ok(())
}

// Puts the events of the logs last that stand at the spots, and takes them from the logs.
fn append_all(lines: &mut Vec<Line>, logs: &mut [ReadLog], spots: &[Spot]) -> Result<(), NoMemory>
    requires { (j : ℕ) (s : SpotOf) → slice_get spots.now j ≡ Some s → (s.place ≡ given (take j spots.now) s.log) × (s.place < length (events_of_log (map record_of logs.old) s.log)) }
    ensures { OnOk result (lines.new.items ≡ lines.old.items ++ placed_lines (map record_of logs.old) spots.now) }
{
    turn_around(logs);
    append_events(lines, logs, spots)?;
    Ok(())
}

/// The lines of the weaving in which the events stand in this order.
pub(crate) fn woven_lines(
    alloc: Global,
    logs: Vec<ReadLog>,
    roots: &[bool],
    spots: &[Spot],
) -> Result<TraceLines, NoMemory>
    requires { (j : ℕ) (s : SpotOf) → slice_get spots.now j ≡ Some s → (s.place ≡ given (take j spots.now) s.log) × (s.place < length (events_of_log (map record_of logs.items) s.log)) }
    ensures { IfOk result (λ lines. lines ≡ line.Header 1 ∷ root_lines (λ thread. slice_index_or roots.now thread false) 0 (map record_of logs.items)
        ++ object_lines (map record_of logs.items) ++ placed_lines (map record_of logs.items) spots.now) }
{
    let mut lines = Vec::with_capacity(alloc, spots.len())?;
    lines.push(Line::Header { version: 1 })?;
    append_roots(&mut lines, &logs, roots)?;
    append_objects(&mut lines, &logs)?;
    let mut logs = logs;
    append_all(&mut lines, &mut logs, spots)?;
    Ok(TraceLines { lines })
}
