//! What replays recorded calls.
ghost use Rattle.std.specs.Prelude.{◌≡◌, ◌≢◌, ◌<◌, ℕ, List, [], ◌∷◌, ◌++◌, length, None, Some, IfOk, OnOk, OnErr};
ghost use Rattle.rd_ecl.specs.Formulas.{same_value};
ghost use Rattle.rd_kinds.specs.Objects.{object_kind, machine_for, shape_of};
ghost use Rattle.rd_object.specs.Machines.{IsTaken};
ghost use Rattle.rd_replay.specs.Replays.{Recorded, arguments_of, held_shape, replay_end, result_of, shape_after, step_at, step_difference};
ghost use Rattle.rd_replay.specs.Replayer.{IsRecordable, ReplayerStandsFor, match_of};

use rd_base::{NoMemory, Value};
use rd_event::Call;
use rd_kinds::{Object, shipped_count};
use rd_object::{ApplyRefused, Expected, ReplayEnd, Shape};
use std::alloc::Global;

/// How a call compares with its record.
#[derive(Clone, Copy, PartialEq, Eq)]
pub enum Match {
    /// the object gave what was recorded, and holds what it then holds
    Same,
    /// it gave something else
    Differs,
    /// an earlier call differed
    Stopped,
    /// some object that was declared so far isn't of a kind that is built in
    NotShipped,
}

/// Replays recorded calls one after another, each by its object. Objects are of the kinds that are built in; where one isn't, nothing is
/// replayed. After the first call that gives something else than was recorded nothing is replayed either.
#[derive(Drop)]
pub struct Replayer {
    alloc: Global,
    // by their numbers, while each call gave what was recorded
    objects: Vec<Object>,
    end: ReplayEnd,
}

/// Do the values equal?
fn is_same(given: &Value, recorded: &Value) -> bool
    ensures { result ≡ same_value given.now recorded.now }
{
    given == recorded
}

/// Runs a call, and tells what the object gives in place of what was recorded, where that is something else. After want of memory the
/// object is as before.
fn compare(object: &mut Object, call: &Call) -> Result<Option<Expected>, NoMemory>
    requires some { 0 < length call.now.slots }
    requires taken { IsTaken (machine_for object.old) call.now.method
        (arguments_of call.now.slots) }
    ensures kind { object_kind object.new ≡ object_kind object.old }
    ensures answer { IfOk result
        (λ expected. expected ≡ step_difference
        (step_at (machine_for object.old) (shape_of object.old) call.now)
        (result_of call.now.slots)) }
    ensures same { IfOk result (λ expected. expected ≡ None →
        shape_after (step_at (machine_for object.old) (shape_of object.old) call.now)
        (result_of call.now.slots) ≡ Some (shape_of object.new)) }
    ensures err { OnErr result (shape_of object.new ≡ shape_of object.old) }
{
    let (recorded, arguments) = call.slots.items().split_last().unwrap();
    match object.apply(call.method, arguments) {
        Ok(given) => {
            if is_same(&given, recorded) {
                return Ok(None);
            }
            Ok(Some(Expected::Value(given)))
        }
        Err(ApplyRefused::BadArgument(slot)) => Ok(Some(Expected::BadArgument(slot))),
        Err(ApplyRefused::NoMemory) => Err(NoMemory),
    }
}

impl Replayer {
    /// A replayer of no objects and no calls. It takes no memory.
    pub fn new(alloc: Global) -> Replayer
        ensures { ReplayerStandsFor result [] [] }
    {
        Replayer {
            alloc,
            objects: Vec::new(alloc),
            end: ReplayEnd::Exact,
        }
    }

    /// Takes the next object, by its number, which is that of the objects so far, and the number of its kind. After want of memory the
    /// replayer stands for what it stood for before.
    pub fn declare(&mut self, object: u32, kind: u32) -> Result<(), NoMemory>
        ensures ok { OnOk result
            ((kinds : List ℕ) (calls : List Recorded) → ReplayerStandsFor self.old kinds calls →
            object ≡ length kinds →
            ReplayerStandsFor self.new (kinds ++ kind ∷ []) calls) }
        ensures err { OnErr result
            ((kinds : List ℕ) (calls : List Recorded) → ReplayerStandsFor self.old kinds calls →
            ReplayerStandsFor self.new kinds calls) }
    {
        let _next = object;
        if kind >= shipped_count() {
            self.end = ReplayEnd::NotShipped;
            return Ok(());
        }
        let ReplayEnd::Exact = self.end else {
            return Ok(());
        };
        self.objects.push(Object::start(self.alloc, kind))?;
        Ok(())
    }

    /// Runs the next call, which stands on the line with this number, from 1, and tells how it compares with its record. Its object is
    /// declared with its kind, and where that is built in, its method is the kind's and it has as many slots as the method. After want
    /// of memory the replayer stands for what it stood for before.
    pub fn call(&mut self, line: u64, call: &Call) -> Result<Match, NoMemory>
        requires { (kinds : List ℕ) × (calls : List Recorded) × ReplayerStandsFor self.old kinds calls
            × IsRecordable kinds call.now }
        ensures answer { IfOk result
            (λ answer. (kinds : List ℕ) (calls : List Recorded) → ReplayerStandsFor self.old kinds calls →
            IsRecordable kinds call.now →
            answer ≡ match_of (replay_end kinds calls)
            (replay_end kinds (calls ++ (line, call.now) ∷ []))) }
        ensures stands { OnOk result
            ((kinds : List ℕ) (calls : List Recorded) → ReplayerStandsFor self.old kinds calls →
            IsRecordable kinds call.now →
            ReplayerStandsFor self.new kinds (calls ++ (line, call.now) ∷ [])) }
        ensures err { OnErr result
            ((kinds : List ℕ) (calls : List Recorded) → ReplayerStandsFor self.old kinds calls →
            ReplayerStandsFor self.new kinds calls) }
    {
        match self.end {
            ReplayEnd::NotShipped => return Ok(Match::NotShipped),
            ReplayEnd::Differs { .. } => return Ok(Match::Stopped),
            ReplayEnd::Exact => {}
        }
        let object = &mut self.objects[call.object as usize];
        match compare(object, call)? {
            None => Ok(Match::Same),
            Some(expected) => {
                self.end = ReplayEnd::Differs { line, expected };
                Ok(Match::Differs)
            }
        }
    }

    /// How the replay of the calls ends: `NotShipped` exactly where some object that was declared isn't of a kind that is built in, else
    /// `Differs` exactly where a call gave something else than was recorded, with the line of the first and what it gave.
    pub fn end(&self) -> Result<ReplayEnd, NoMemory>
        ensures { IfOk result
            (λ end. (kinds : List ℕ) (calls : List Recorded) → ReplayerStandsFor self.now kinds calls →
            end ≡ replay_end kinds calls) }
    {
        self.end.copy(self.alloc)
    }

    /// What an object holds, by its number. It was declared, all objects are of kinds that are built in, and each call gave what was
    /// recorded.
    pub fn state(&self, object: u32) -> Result<Shape, NoMemory>
        requires { (kinds : List ℕ) × (calls : List Recorded) × ReplayerStandsFor self.now kinds calls
            × (object < length kinds) × (replay_end kinds calls ≡ ReplayEnd.Exact) }
        ensures { IfOk result
            (λ shape. (kinds : List ℕ) (calls : List Recorded) → ReplayerStandsFor self.now kinds calls →
            object < length kinds →
            held_shape kinds calls object ≡ Some shape) }
    {
        self.objects[object as usize].shape()
    }
}
