//! The replay of the calls of accepted lines, one line after another.
ghost use Rattle.std.specs.Prelude.{◌≡◌, ℕ, List, [], ◌∷◌, ◌++◌, length, IfErr, OnOk};
ghost use Rattle.rd_event.specs.declared.items.Line.{Line as LineOf};
ghost use Rattle.rd_ecl.specs.Kinds.{Kind};
ghost use Rattle.rd_wf.specs.declared.roster.Roster.{Roster as RosterOf};
ghost use Rattle.rd_replay.specs.Replays.{Recorded};
ghost use Rattle.rd_replay.specs.Replayer.{IsRecordable, ReplayerStandsFor};
ghost use Rattle.rd_walk.specs.Analysis.{IsNextEntry};
ghost use Rattle.rd_replay_command.specs.Replaying.{Replayed};
ghost use Rattle.rd_walk.specs.Walk.{Entry};

use rd_event::{Call, Event};
use rd_replay::Replayer;
use rd_walk::Halt;
use rd_wf::Accepted;

/// Hands the next object to the replayer.
#[inline(never)]
fn follow_object(replayer: &mut Replayer, object: u32, kind: u32) -> Result<(), Halt>
    ensures follows { OnOk result
        ((those : List ℕ) (calls : List Recorded) → ReplayerStandsFor replayer.old those calls →
        object ≡ length those →
        ReplayerStandsFor replayer.new (those ++ kind ∷ []) calls) }
    ensures memory { IfErr result (λ halt. halt ≡ Halt.NoMemory) }
{
    match replayer.declare(object, kind) {
        Ok(()) => Ok(()),
        Err(_) => Err(Halt::NoMemory),
    }
}

/// Hands the next call to the replayer.
#[inline(never)]
fn follow_call(replayer: &mut Replayer, number: u64, call: &Call) -> Result<(), Halt>
    requires { (those : List ℕ) × (calls : List Recorded) × ReplayerStandsFor replayer.old those calls
        × IsRecordable those call.now }
    ensures follows { OnOk result
        ((those : List ℕ) (calls : List Recorded) → ReplayerStandsFor replayer.old those calls →
        IsRecordable those call.now →
        ReplayerStandsFor replayer.new those (calls ++ (number, call.now) ∷ [])) }
    ensures memory { IfErr result (λ halt. halt ≡ Halt.NoMemory) }
{
    match replayer.call(number, call) {
        Ok(_) => Ok(()),
        Err(_) => Err(Halt::NoMemory),
    }
}

/// Hands the next event to the replayer, where it is a call.
fn follow_event(replayer: &mut Replayer, number: u64, event: &Event) -> Result<(), Halt>
    requires { (kinds : List Kind) × (before : List Entry) × (item : LineOf) × (roster : RosterOf)
        × Replayed kinds before replayer.old
        × IsNextEntry kinds roster before number item (Accepted.Event event.now) }
    ensures follows { OnOk result
        ((kinds : List Kind) (before : List Entry) (item : LineOf) (roster : RosterOf) →
        Replayed kinds before replayer.old →
        IsNextEntry kinds roster before number item (Accepted.Event event.now) →
        Replayed kinds (before ++ record { number = number; item = item } ∷ []) replayer.new) }
    ensures memory { IfErr result (λ halt. halt ≡ Halt.NoMemory) }
{
    let Event::Call(call) = event else {
        return Ok(());
    };
    follow_call(replayer, number, call)
}

/// Hands the next accepted line to the replayer: an object to declare, or a call.
pub fn follow(replayer: &mut Replayer, number: u64, accepted: &Accepted) -> Result<(), Halt>
    requires { (kinds : List Kind) × (before : List Entry) × (item : LineOf) × (roster : RosterOf)
        × Replayed kinds before replayer.old
        × IsNextEntry kinds roster before number item accepted.now }
    ensures follows { OnOk result
        ((kinds : List Kind) (before : List Entry) (item : LineOf) (roster : RosterOf) →
        Replayed kinds before replayer.old →
        IsNextEntry kinds roster before number item accepted.now →
        Replayed kinds (before ++ record { number = number; item = item } ∷ []) replayer.new) }
    ensures memory { IfErr result (λ halt. halt ≡ Halt.NoMemory) }
{
    match accepted {
        Accepted::Object { object, kind } => follow_object(replayer, *object, *kind),
        Accepted::Event(event) => follow_event(replayer, number, event),
        Accepted::Nothing => Ok(()),
        Accepted::Root(_) => Ok(()),
    }
}
