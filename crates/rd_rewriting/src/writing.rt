//! Writing the lines that are kept, with their events in any order.
ghost use Rattle.std.specs.Prelude.{◌≡◌, ◌<◌, ℕ, List, [], Some, length, slice_get, IfOk, OnOk, OnErr};
ghost use Rattle.rd_ecl.specs.Kinds.{Kind};
ghost use Rattle.rd_event.specs.Items.{line_text, lines_text};
ghost use Rattle.rd_event.specs.declared.items.Line.{Line as LineOf};
ghost use Rattle.rd_io.specs.Sinks.{Appends};
ghost use Rattle.rd_rewriting.specs.Keeping.{ArePlaces, KeepsLines, KeepsNamed};
ghost use Rattle.rd_rewriting.specs.Reordered.{reordered};
ghost use Rattle.rd_rules.specs.MayFollow.{version_of};
ghost use Rattle.rd_walk.specs.Analysis.{TellsFault, WritesFront};
ghost use Rattle.rd_wf.specs.Roster.{RosterStandsFor};

use crate::kept::Kept;
use rd_base::{Bytes, NoMemory, append_number};
use rd_io::Sink;
use rd_walk::{Halt, write_line};
use rd_wf::Roster;
use std::alloc::Global;

// The header with its line feed, in the version of the lines for which the roster stands.
fn header(alloc: Global, names: &Roster) -> Result<Bytes, NoMemory>
    ensures { IfOk result (λ text. (kinds : List Kind) (lines : List LineOf) → RosterStandsFor kinds names.now lines →
        text ≡ line_text (LineOf.Header (version_of lines))) }
{
    let mut text = Bytes::new(alloc);
    text.append(b"rdtrace ")?;
    append_number(&mut text, u64::from(names.version()))?;
    text.push(b'\n')?;
    Ok(text)
}

impl Kept {
    // How many lines are written.
    fn line_count(&self, names: &Roster) -> usize
        ensures { (kinds : List Kind) (lines : List LineOf) → KeepsNamed kinds self.now names.now lines →
            (places : List ℕ) → ArePlaces self.now places → length places ≡ length self.now.lines →
            result ≡ length (reordered lines places) }
    {
        1 + self.roots.len() + names.objects() as usize + names.events() as usize
    }

    // Of the lines that are written behind this header the one with this number, from 0, with its line feed.
    fn line<'b>(&'b self, header: &'b [u8], places: &[u32], index: usize) -> &'b [u8]
        requires kept { (kinds : List Kind) × (lines : List LineOf) × KeepsLines kinds self.now lines
            × (index < length (reordered lines places.now)) }
        requires places { ArePlaces self.now places.now }
        ensures { (kinds : List Kind) (lines : List LineOf) (line : LineOf) → KeepsLines kinds self.now lines →
            header.now ≡ line_text (LineOf.Header (version_of lines)) →
            slice_get (reordered lines places.now) index ≡ Some line → result.now ≡ line_text line }
    {
        if index == 0 {
            return header;
        }
        let behind_header = index - 1;
        let roots = self.roots.len();
        if behind_header < roots {
            return self.roots.get(behind_header);
        }
        let behind_roots = behind_header - roots;
        let objects = self.objects.len();
        if behind_roots < objects {
            return self.objects.get(behind_roots);
        }
        let place = places[behind_roots - objects];
        self.lines.get(place as usize)
    }

    /// Writes the lines, each by itself, with the events at these places, which are so many as there are events.
    pub fn write_lines<S: Sink>(
        &self,
        alloc: Global,
        names: &Roster,
        places: &[u32],
        out: &mut S,
    ) -> Result<(), Halt>
        requires kept { (kinds : List Kind) × (lines : List LineOf) × KeepsNamed kinds self.now names.now lines }
        requires places { ArePlaces self.now places.now }
        requires all { length places.now ≡ length self.now.lines }
        ensures ok { OnOk result ((kinds : List Kind) (lines : List LineOf) →
            KeepsNamed kinds self.now names.now lines →
            Appends (S.written out.old) (S.written out.new) (lines_text (reordered lines places.now))) }
        ensures front { OnErr result ((kinds : List Kind) (lines : List LineOf) →
            KeepsNamed kinds self.now names.now lines →
            WritesFront (S.written out.old) (S.written out.new) []
            (lines_text (reordered lines places.now))) }
        ensures fault { TellsFault (S.faults out.old) (S.faults out.new) (S.at_fault out.new)
            (S.written out.new) result }
    {
        let header = header(alloc, names)?;
        for index in 0..self.line_count(names) {
            write_line(out, self.line(header.items(), places, index))?;
        }
        Ok(())
    }
}
