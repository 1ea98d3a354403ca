//! The text of `replay`: how the replay ended, and what the objects hold.
ghost use Rattle.std.specs.Prelude.{◌≡◌, ◌↔◌, ◌<◌, ℕ, IsTrue, List, [], length, IfOk, OnOk, OnErr};
ghost use Rattle.rd_io.specs.Sinks.{Appends};
ghost use Rattle.rd_object.specs.declared.shapes.ReplayEnd.TheVariants.{Exact};
ghost use Rattle.rd_replay.specs.Replays.{Recorded, held_shape, replay_end};
ghost use Rattle.rd_replay.specs.Replayer.{ReplayerStandsFor};
ghost use Rattle.rd_report.specs.Texts.{name_of};
ghost use Rattle.rd_walk.specs.Analysis.{TellsFault, WritesFront};
ghost use Rattle.rd_walk.specs.Output.{IsOutput, IsTraceEnd, ended_status};
ghost use Rattle.rd_report.specs.Endings.{check_status};
ghost use Rattle.rd_replay_command.specs.States.{held_text, is_exact, replayed_text, states_before};
ghost use Rattle.rd_wf.specs.Roster.{names_in, object_names_in};

use rd_base::{Bytes, NoMemory};
use rd_io::Sink;
use rd_object::ReplayEnd;
use rd_replay::Replayer;
use rd_report::{Ending, append_state, check_status, refused_text, replay_text};
use rd_walk::{Ended, Halt, write_line};
use rd_wf::Roster;
use std::alloc::Global;

/// Makes the text the line that tells what an object holds, by its number.
fn set_state(
    text: &mut Bytes,
    names: &Roster,
    replayer: &Replayer,
    object: u32,
) -> Result<(), NoMemory>
    requires known { object < length (object_names_in names.now) }
    requires stands { (kinds : List ℕ) × (calls : List Recorded)
        × ReplayerStandsFor replayer.now kinds calls × (object < length kinds)
        × (replay_end kinds calls ≡ Exact) }
    ensures { OnOk result
        ((kinds : List ℕ) (calls : List Recorded) → ReplayerStandsFor replayer.now kinds calls →
        object < length kinds →
        text.new ≡ held_text (name_of (object_names_in names.now) object)
        (held_shape kinds calls object)) }
{
    let shape = replayer.state(object)?;
    text.clear();
    append_state(text, names.object_name(object), &shape)
}

/// Writes what an object holds, by its number. The text is kept for its memory.
fn write_state<S: Sink>(
    text: &mut Bytes,
    names: &Roster,
    replayer: &Replayer,
    object: u32,
    out: &mut S,
) -> Result<(), Halt>
    requires known { object < length (object_names_in names.now) }
    requires stands { (kinds : List ℕ) × (calls : List Recorded)
        × ReplayerStandsFor replayer.now kinds calls × (object < length kinds)
        × (replay_end kinds calls ≡ Exact) }
    ensures ok { OnOk result
        ((kinds : List ℕ) (calls : List Recorded) → ReplayerStandsFor replayer.now kinds calls →
        object < length kinds →
        Appends (S.written out.old) (S.written out.new)
        (held_text (name_of (object_names_in names.now) object) (held_shape kinds calls object))) }
    ensures front { OnErr result
        ((kinds : List ℕ) (calls : List Recorded) → ReplayerStandsFor replayer.now kinds calls →
        object < length kinds →
        WritesFront (S.written out.old) (S.written out.new) []
        (held_text (name_of (object_names_in names.now) object) (held_shape kinds calls object))) }
    ensures fault { TellsFault (S.faults out.old) (S.faults out.new) (S.at_fault out.new)
        (S.written out.new) result }
{
    set_state(text, names, replayer, object)?;
    write_line(out, text.items())
}

/// Writes what the objects hold, in order of their numbers, each in a line.
fn write_states<S: Sink>(
    alloc: Global,
    names: &Roster,
    replayer: &Replayer,
    out: &mut S,
) -> Result<(), Halt>
    requires { (kinds : List ℕ) × (calls : List Recorded) × ReplayerStandsFor replayer.now kinds calls
        × (length kinds ≡ length (object_names_in names.now))
        × (replay_end kinds calls ≡ Exact) }
    ensures ok { OnOk result
        ((kinds : List ℕ) (calls : List Recorded) → ReplayerStandsFor replayer.now kinds calls →
        length kinds ≡ length (object_names_in names.now) →
        Appends (S.written out.old) (S.written out.new)
        (states_before (object_names_in names.now) kinds calls
        (length (object_names_in names.now)))) }
    ensures front { OnErr result
        ((kinds : List ℕ) (calls : List Recorded) → ReplayerStandsFor replayer.now kinds calls →
        length kinds ≡ length (object_names_in names.now) →
        WritesFront (S.written out.old) (S.written out.new) []
        (states_before (object_names_in names.now) kinds calls
        (length (object_names_in names.now)))) }
    ensures fault { TellsFault (S.faults out.old) (S.faults out.new) (S.at_fault out.new)
        (S.written out.new) result }
{
    let mut text = Bytes::new(alloc);
    for object in 0..names.objects() {
        write_state(&mut text, names, replayer, object, out)?;
    }
    Ok(())
}

/// The line that tells how a report of `replay` ends. The roster has the names of the threads.
fn end_line(alloc: Global, names: &Roster, ending: &Ending) -> Result<Bytes, NoMemory>
    ensures { IfOk result (λ line. line ≡ replayed_text (names_in names.now) [] ending.now) }
{
    match ending {
        Ending::End { replay, .. } => replay_text(alloc, replay),
        Ending::Refused { line, cause } => refused_text(alloc, *line, *cause, names),
        Ending::Fault => {
            let mut text = Bytes::new(alloc);
            text.append(b"fault input\n")?;
            Ok(text)
        }
    }
}

/// Writes the line that tells how a report of `replay` ends. The roster has the names of the threads.
fn write_end<S: Sink>(
    alloc: Global,
    names: &Roster,
    ending: &Ending,
    out: &mut S,
) -> Result<(), Halt>
    ensures ok { OnOk result
        (Appends (S.written out.old) (S.written out.new)
        (replayed_text (names_in names.now) [] ending.now)) }
    ensures front { OnErr result
        (WritesFront (S.written out.old) (S.written out.new) []
        (replayed_text (names_in names.now) [] ending.now)) }
    ensures fault { TellsFault (S.faults out.old) (S.faults out.new) (S.at_fault out.new)
        (S.written out.new) result }
{
    let line = end_line(alloc, names, ending)?;
    write_line(out, line.items())
}

/// Did the replay of all calls give what was recorded?
fn is_exact(ending: &Ending) -> bool
    ensures { result ≡ is_exact ending.now }
{
    matches!(
        ending,
        Ending::End {
            replay: ReplayEnd::Exact,
            ..
        }
    )
}

/// Writes how a report of `replay` ends, and where the replay is exact what the objects hold. The roster has the names.
fn write_replayed<S: Sink>(
    alloc: Global,
    names: &Roster,
    replayer: &Replayer,
    ending: &Ending,
    out: &mut S,
) -> Result<(), Halt>
    requires { IsTrue (is_exact ending.now) → (kinds : List ℕ) × (calls : List Recorded)
        × ReplayerStandsFor replayer.now kinds calls
        × (length kinds ≡ length (object_names_in names.now)) × (replay_end kinds calls ≡ Exact) }
    ensures ok { OnOk result
        ((kinds : List ℕ) (calls : List Recorded) → ReplayerStandsFor replayer.now kinds calls →
        length kinds ≡ length (object_names_in names.now) →
        Appends (S.written out.old) (S.written out.new)
        (replayed_text (names_in names.now)
        (states_before (object_names_in names.now) kinds calls
        (length (object_names_in names.now))) ending.now)) }
    ensures front { OnErr result
        ((kinds : List ℕ) (calls : List Recorded) → ReplayerStandsFor replayer.now kinds calls →
        length kinds ≡ length (object_names_in names.now) →
        WritesFront (S.written out.old) (S.written out.new) []
        (replayed_text (names_in names.now)
        (states_before (object_names_in names.now) kinds calls
        (length (object_names_in names.now))) ending.now)) }
    ensures fault { TellsFault (S.faults out.old) (S.faults out.new) (S.at_fault out.new)
        (S.written out.new) result }
{
    write_end(alloc, names, ending, out)?;
    if is_exact(ending) {
        return write_states(alloc, names, replayer, out);
    }
    Ok(())
}

/// Writes how a report of `replay` ends, and says how it did.
pub fn write_replay<S: Sink>(
    alloc: Global,
    names: &Roster,
    replayer: &Replayer,
    ending: &Ending,
    out: &mut S,
) -> Result<Ended, Halt>
    requires { IsTrue (is_exact ending.now) → (kinds : List ℕ) × (calls : List Recorded)
        × ReplayerStandsFor replayer.now kinds calls
        × (length kinds ≡ length (object_names_in names.now)) × (replay_end kinds calls ≡ Exact) }
    ensures output { (kinds : List ℕ) (calls : List Recorded) → ReplayerStandsFor replayer.now kinds calls →
        length kinds ≡ length (object_names_in names.now) →
        (part : List ℕ) × Appends (S.written out.old) (S.written out.new) part
        × IsOutput (ended_status result) part (record {
          text = replayed_text (names_in names.now)
              (states_before (object_names_in names.now) kinds calls
              (length (object_names_in names.now))) ending.now;
          status = check_status 0 ending.now;
        }) }
    ensures ends { IfOk result IsTraceEnd }
    ensures input { IfOk result
        (λ end. (end ≡ Ended.InputFault) ↔ (ending.now ≡ Ending.Fault)) }
    ensures fault { TellsFault (S.faults out.old) (S.faults out.new) (S.at_fault out.new)
        (S.written out.new) result }
{
    write_replayed(alloc, names, replayer, ending, out)?;
    Ok(check_status(0, ending))
}
