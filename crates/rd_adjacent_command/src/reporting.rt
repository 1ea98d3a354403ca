//! What `adjacent` writes behind the last line of a trace.
ghost use Rattle.std.specs.Prelude.{◌≡◌, ◌<◌, ◌++◌, ◌==◌, ℕ, true, List, [], codes, decimal, flat_map, if◌then◌else◌, length, position, Some, None, IfOk, IfSome, OnOk, OnErr};
ghost use Rattle.rd_adjacent_command.specs.Adjoining.{AdjoinsNamed};
ghost use Rattle.rd_adjacent_command.specs.Outcomes.{adjacent_end, call_on, event_lines, is_call_at, not_a_call, path_line, place_text, two_text};
ghost use Rattle.rd_ecl.specs.Kinds.{Kind};
ghost use Rattle.rd_event.specs.declared.items.Line.{Line as LineOf};
ghost use Rattle.rd_io.specs.Sinks.{Appends};
ghost use Rattle.rd_walk.specs.Analysis.{TellsFault, WritesFront};
ghost use Rattle.rd_walk.specs.Output.{IsOutput, IsTraceEnd, ended_status};
ghost use Rattle.rd_walk.specs.Walk.{Entry, items};

use crate::adjoining::Adjoining;
use rd_adjacent::{NotAdjacent, adjacent};
use rd_base::{Bytes, NoMemory, append_number};
use rd_event::Event;
use rd_io::Sink;
use rd_rewriting::write_refused;
use rd_walk::{Ended, Halt, Report, WalkEnd, write_line};
use rd_wf::Roster;
use std::alloc::Global;

// That a line isn't the line of a call.
fn no_call_text(alloc: Global, line: u64) -> Result<Bytes, NoMemory>
    ensures { IfOk result (λ text. text ≡ codes "refused line " ++ decimal line ++ codes " not-a-call\n") }
{
    let mut text = Bytes::new(alloc);
    text.append(b"refused line ")?;
    append_number(&mut text, line)?;
    text.append(b" not-a-call\n")?;
    Ok(text)
}

// Writes that a line isn't the line of a call.
fn write_no_call<S: Sink>(alloc: Global, line: u64, out: &mut S) -> Result<Ended, Halt>
    ensures output { (part : List ℕ) × Appends (S.written out.old) (S.written out.new) part
        × IsOutput (ended_status result) part (not_a_call line) }
    ensures ends { IfOk result IsTraceEnd }
    ensures input { IfOk result (λ end. ¬ (end ≡ Ended.InputFault)) }
    ensures fault { TellsFault (S.faults out.old) (S.faults out.new) (S.at_fault out.new)
        (S.written out.new) result }
{
    let text = no_call_text(alloc, line)?;
    write_line(out, text.items())?;
    Ok(Ended::NotACall)
}

// The place of the first of these lines that has this number.
fn place_of(lines: &[u64], line: u64) -> Option<usize>
    ensures place { result ≡ position (λ number. number == line) lines.now }
    ensures within { IfSome result (λ place. place < length lines.now) }
{
    lines.iter().position(|number| *number == line)
}

// The place, if the event there is a call.
fn call_at(events: &[Event], place: usize) -> Option<u32>
    requires few { length events.now < 4294967296 }
    requires inside { place < length events.now }
    ensures { result ≡ (if is_call_at events.now place then Some place else None) }
{
    match &events[place] {
        Event::Call(_) => Some(place as u32),
        _ => None,
    }
}

// Puts the line of the event at a place, of which these are the lines, behind the text, behind a blank.
fn append_place(text: &mut Bytes, lines: &[u64], place: u32) -> Result<(), NoMemory>
    ensures { OnOk result (text.new ≡ text.old ++ place_text lines.now place) }
{
    let line = lines.get(place as usize).copied();
    text.append(b" ")?;
    append_number(text, line.unwrap_or(0))
}

// The same for places one behind another.
fn append_places(text: &mut Bytes, lines: &[u64], places: &[u32]) -> Result<(), NoMemory>
    ensures { OnOk result (text.new ≡ text.old ++ flat_map (place_text lines.now) places.now) }
{
    for place in places {
        append_place(text, lines, *place)?;
    }
    Ok(())
}

impl Adjoining {
    // The place of the call on a line.
    fn call_on(&self, line: u64) -> Option<u32>
        requires few { length self.now.events.items < 4294967296 }
        requires same { length self.now.lines.items ≡ length self.now.events.items }
        ensures { result ≡ call_on self.now.events.items self.now.lines.items line }
    {
        match place_of(self.lines.as_slice(), line) {
            Some(place) => call_at(self.events.as_slice(), place),
            None => None,
        }
    }

    // The lines of the events at these places.
    fn path_text(&self, alloc: Global, places: &[u32]) -> Result<Bytes, NoMemory>
        ensures { IfOk result (λ text. text ≡ path_line self.now.lines.items places.now) }
    {
        let mut text = Bytes::new(alloc);
        text.append(b"ordered")?;
        append_places(&mut text, self.lines.as_slice(), places)?;
        text.push(b'\n')?;
        Ok(text)
    }

    // Writes them.
    fn write_path<S: Sink>(&self, alloc: Global, places: &[u32], out: &mut S) -> Result<(), Halt>
        ensures ok { OnOk result (Appends (S.written out.old) (S.written out.new)
            (path_line self.now.lines.items places.now)) }
        ensures front { OnErr result (WritesFront (S.written out.old) (S.written out.new) []
            (path_line self.now.lines.items places.now)) }
        ensures fault { TellsFault (S.faults out.old) (S.faults out.new) (S.at_fault out.new)
            (S.written out.new) result }
    {
        let text = self.path_text(alloc, places)?;
        write_line(out, text.items())
    }

    // Writes of the two calls at these places the path that orders them, or the trace with them side by side.
    fn write_two<S: Sink>(
        &self,
        alloc: Global,
        names: &Roster,
        i: u32,
        j: u32,
        out: &mut S,
    ) -> Result<(), Halt>
        requires kept { (kinds : List Kind) × (lines : List LineOf) × AdjoinsNamed kinds self.now names.now lines }
        requires same { length self.now.lines.items ≡ length self.now.events.items }
        requires order { i < j }
        requires calls { (is_call_at self.now.events.items i ≡ true) × (is_call_at self.now.events.items j ≡ true) }
        ensures ok { OnOk result ((kinds : List Kind) (lines : List LineOf) →
            AdjoinsNamed kinds self.now names.now lines →
            Appends (S.written out.old) (S.written out.new)
            (two_text self.now.events.items lines self.now.lines.items i j)) }
        ensures front { OnErr result ((kinds : List Kind) (lines : List LineOf) →
            AdjoinsNamed kinds self.now names.now lines →
            WritesFront (S.written out.old) (S.written out.new) []
            (two_text self.now.events.items lines self.now.lines.items i j)) }
        ensures fault { TellsFault (S.faults out.old) (S.faults out.new) (S.at_fault out.new)
            (S.written out.new) result }
    {
        match adjacent(alloc, self.events.as_slice(), i, j) {
            Ok(places) => self.kept.write_lines(alloc, names, places.items(), out),
            Err(NotAdjacent::Ordered(path)) => self.write_path(alloc, path.items(), out),
            Err(NotAdjacent::NotACall(_)) => unreachable!(),
            Err(NotAdjacent::NoMemory) => Err(Halt::NoMemory),
        }
    }

    // Writes what is told of the two calls at the end of a trace.
    fn write_told<S: Sink>(&self, alloc: Global, names: &Roster, out: &mut S) -> Result<Ended, Halt>
        requires { (kinds : List Kind) × (entries : List Entry)
            × AdjoinsNamed kinds self.now names.now (items entries) × (self.now.lines.items ≡ event_lines entries)
            × (self.now.first < self.now.second) }
        ensures output { (kinds : List Kind) (entries : List Entry) →
            AdjoinsNamed kinds self.now names.now (items entries) → self.now.lines.items ≡ event_lines entries →
            (part : List ℕ) × Appends (S.written out.old) (S.written out.new) part
            × IsOutput (ended_status result) part (adjacent_end kinds entries self.now.first self.now.second) }
        ensures ends { IfOk result IsTraceEnd }
        ensures input { IfOk result (λ end. ¬ (end ≡ Ended.InputFault)) }
        ensures fault { TellsFault (S.faults out.old) (S.faults out.new) (S.at_fault out.new)
            (S.written out.new) result }
    {
        let Some(i) = self.call_on(self.first) else {
            return write_no_call(alloc, self.first, out);
        };
        let Some(j) = self.call_on(self.second) else {
            return write_no_call(alloc, self.second, out);
        };
        self.write_two(alloc, names, i.min(j), i.max(j), out)?;
        Ok(Ended::Clean)
    }
}

impl Report for Adjoining {
    ghost use Rattle.rd_io.specs.Inputs.{fault_line};
    ghost use Rattle.rd_adjacent_command.specs.Outcomes.{adjacent_outcome};

    ghost outcome = { λ kinds start. adjacent_outcome start.first start.second kinds };

    ghost unopened = { λ _. fault_line };

    fn unopened_text(&self) -> &'static [u8] {
        b"fault input\n"
    }

    fn conclude<S: Sink>(
        &self,
        alloc: Global,
        names: &Roster,
        ending: WalkEnd,
        out: &mut S,
    ) -> Result<Ended, Halt> {
        match ending {
            WalkEnd::End => self.write_told(alloc, names, out),
            WalkEnd::Refused { line, cause } => write_refused(alloc, names, line, cause, out),
            WalkEnd::Fault => {
                write_line(out, self.unopened_text())?;
                Ok(Ended::InputFault)
            }
        }
    }

    fn law_of_outcomes(&self) {}
}
