//! What `epochs` does with each accepted line.
ghost use Rattle.std.specs.Prelude.{◌≡◌, ◌+◌, ◌<◌, ◌≤◌, ◌^◌, ℕ, List, ◌∷◌, [], ◌++◌, length, OnOk, OnErr, IfOk, IfErr};
ghost use Rattle.rd_epoch.specs.Taking.{TakesAccess};
ghost use Rattle.rd_epochs_command.specs.Firsts.{epochs_bound, first_line, first_texts};
ghost use Rattle.rd_epochs_command.specs.Watching.{access_by, MayAccess, WatchesNone, IsNextWatchedEvent, IsNextWatched, WatchBegins, WatchLeads, Watches};
ghost use Rattle.rd_base.specs.declared.values.Value.{Value};
ghost use Rattle.rd_event.specs.declared.events.Event.{Event as EventOf};
ghost use Rattle.rd_event.specs.declared.items.Line.{Line as LineOf};
ghost use Rattle.rd_hb.specs.Tracker.{last_stamp};
ghost use Rattle.rd_io.specs.Sinks.{Appends};
ghost use Rattle.rd_report.specs.Texts.{name_of};
ghost use Rattle.rd_walk.specs.Analysis.{TellsFault, WritesBetween, WritesFront};
ghost use Rattle.rd_walk.specs.Walk.{Entry, items};
ghost use Rattle.rd_wf.specs.Roster.{call_with, object_count, object_names_in};

use rd_base::{Bytes, NoMemory, Steps, append_number};
use rd_epoch::{Access, Epochs, First, Lessons};
use rd_event::Event;
use rd_hb::Tracker;
use rd_io::Sink;
use rd_walk::{Analysis, Halt, write_line};
use rd_wf::{Accepted, CallNumbers, Roster};
use std::alloc::Global;
use std::sync::ledger::Ledger;

/// Keeps the clocks of the threads, when each learnt last, and the last accesses to each variable, counts the variables that raced, and writes the first race of each.
#[derive(Drop)]
pub(crate) struct FirstRaces {
    alloc: Global,
    pub(crate) tracker: Tracker,
    pub(crate) lessons: Lessons,
    pub(crate) epochs: Epochs,
    pub(crate) firsts: u64,
}

// The line of a first race.
fn first_text(alloc: Global, name: &[u8], first: First) -> Result<Bytes, NoMemory>
    ensures { IfOk result (λ text. text ≡ first_line name.now first.later first.earlier) }
{
    let mut text = Bytes::new(alloc);
    text.append(b"first ")?;
    text.append(name)?;
    text.append(b" line ")?;
    append_number(&mut text, first.later)?;
    text.append(b" with line ")?;
    append_number(&mut text, first.earlier)?;
    text.push(b'\n')?;
    Ok(text)
}

impl FirstRaces {
    /// Nothing is kept. It takes no memory.
    pub(crate) fn new(alloc: Global) -> FirstRaces
        ensures { WatchesNone result }
    {
        FirstRaces {
            alloc,
            tracker: Tracker::new(alloc),
            lessons: Lessons::new(alloc),
            epochs: Epochs::new(alloc),
            firsts: 0,
        }
    }

    // Hands the next root to the tracker. It begins by the line with this number.
    fn root(&mut self, number: u64, thread: u32) -> Result<(), Halt>
        requires { (before : List Entry) × (item : LineOf) × IsNextWatched before self.old number item (Accepted.Root thread) }
        ensures watches { OnOk result ((before : List Entry) (item : LineOf) →
            IsNextWatched before self.old number item (Accepted.Root thread) → Watches (before ++ record { number = number; item = item } ∷ []) self.new) }
        ensures memory { IfErr result (λ halt. halt ≡ Halt.NoMemory) }
    {
        let Ok(()) = self.tracker.root(thread) else {
            return Err(Halt::NoMemory);
        };
        match self.lessons.begin(number) {
            Ok(()) => Ok(()),
            Err(_) => Err(Halt::NoMemory),
        }
    }

    // Makes room for one variable more.
    fn declare(&mut self) -> Result<(), Halt>
        ensures watches { OnOk result ((before : List Entry) (entry : Entry) (object kind : ℕ) →
            IsNextWatched before self.old entry.number entry.item (Accepted.Object object kind) → Watches (before ++ entry ∷ []) self.new) }
        ensures memory { IfErr result (λ halt. halt ≡ Halt.NoMemory) }
    {
        match self.epochs.declare() {
            Ok(()) => Ok(()),
            Err(_) => Err(Halt::NoMemory),
        }
    }

    // Hands the access at this place, which is the next event and which the tracker passed, on.
    #[inline(always)]
    fn access<L: Ledger>(
        &mut self,
        line: u64,
        place: u32,
        call: CallNumbers,
        steps: &mut Steps<L>,
    ) -> Result<Option<First>, NoMemory>
        requires known { call.thread < length self.old.tracker.threads }
        requires each { length self.old.lessons ≡ length self.old.tracker.threads }
        requires next { MayAccess self.old.epochs self.old.lessons (access_by line place (call_with call [])) (last_stamp self.old.tracker.threads call.thread) }
        ensures taken { TakesAccess self.old.epochs self.new.epochs (access_by line place (call_with call []))
            (last_stamp self.old.tracker.threads call.thread) result steps.old steps.new }
        ensures same { (self.new.tracker ≡ self.old.tracker) × (self.new.firsts ≡ self.old.firsts) × (self.new.lessons ≡ self.old.lessons) }
    {
        let access = Access {
            place,
            line,
            variable: call.object,
            write: call.method == 1,
        };
        let learnt = self.lessons.of(call.thread);
        self.epochs
            .follow(&access, call.thread, &self.tracker, learnt, steps)
    }

    // Counts and writes the first race of a variable.
    #[inline(never)]
    fn report<S: Sink>(
        &mut self,
        variable: u32,
        first: First,
        names: &Roster,
        out: &mut S,
    ) -> Result<(), Halt>
        requires named { variable < object_count names.now }
        requires few { self.old.firsts + 1 < 2 ^ 64 }
        ensures same { (self.new.tracker ≡ self.old.tracker) × (self.new.epochs ≡ self.old.epochs)
            × (self.new.firsts ≡ self.old.firsts + 1) × (self.new.lessons ≡ self.old.lessons) }
        ensures ok { OnOk result (Appends (S.written out.old) (S.written out.new)
            (first_line (name_of (object_names_in names.now) variable) first.later first.earlier)) }
        ensures front { OnErr result (WritesFront (S.written out.old) (S.written out.new) []
            (first_line (name_of (object_names_in names.now) variable) first.later first.earlier)) }
        ensures fault { TellsFault (S.faults out.old) (S.faults out.new) (S.at_fault out.new)
            (S.written out.new) result }
    {
        self.firsts += 1;
        let text = first_text(self.alloc, names.object_name(variable).items(), first)?;
        write_line(out, text.items())
    }

    // Hands the access at this place, which is the next event, to the tracker and on, and writes the race that is told.
    #[inline(always)]
    pub(crate) fn call<S: Sink, L: Ledger>(
        &mut self,
        number: u64,
        place: u32,
        call: CallNumbers,
        names: &Roster,
        out: &mut S,
        steps: &mut Steps<L>,
    ) -> Result<(), Halt>
        requires { (before : List Entry) × (item : LineOf) × (slots : List Value)
            × IsNextWatchedEvent before self.old number item (EventOf.Call (call_with call slots)) (object_names_in names.now) place }
        ensures watches { OnOk result ((before : List Entry) (item : LineOf) (slots : List Value) →
            IsNextWatchedEvent before self.old number item (EventOf.Call (call_with call slots)) (object_names_in names.now) place →
            Watches (before ++ record { number = number; item = item } ∷ []) self.new) }
        ensures written { OnOk result ((before : List Entry) (item : LineOf) (slots : List Value) →
            IsNextWatchedEvent before self.old number item (EventOf.Call (call_with call slots)) (object_names_in names.now) place →
            WritesBetween (S.written out.old) (S.written out.new) (first_texts before)
            (first_texts (before ++ record { number = number; item = item } ∷ []))) }
        ensures halted { OnErr result ((before : List Entry) (item : LineOf) (slots : List Value) →
            IsNextWatchedEvent before self.old number item (EventOf.Call (call_with call slots)) (object_names_in names.now) place →
            WritesFront (S.written out.old) (S.written out.new) (first_texts before)
            (first_texts (before ++ record { number = number; item = item } ∷ []))) }
        ensures cost { (before : List Entry) (item : LineOf) (slots : List Value) →
            IsNextWatchedEvent before self.old number item (EventOf.Call (call_with call slots)) (object_names_in names.now) place →
            steps.new ≤ steps.old + epochs_bound (items before) item }
        ensures fault { TellsFault (S.faults out.old) (S.faults out.new) (S.at_fault out.new)
            (S.written out.new) result }
    {
        self.tracker.pass_call(call.thread, steps);
        match self.access(number, place, call, steps) {
            Ok(None) => Ok(()),
            Ok(Some(first)) => self.report(call.object, first, names, out),
            Err(_) => Err(Halt::NoMemory),
        }
    }

    // Takes the event at this place, which is the next one: hands it to the tracker, and an access on.
    #[inline(always)]
    fn event<S: Sink, L: Ledger>(
        &mut self,
        number: u64,
        place: u32,
        event: &Event,
        names: &Roster,
        out: &mut S,
        steps: &mut Steps<L>,
    ) -> Result<(), Halt>
        requires { (before : List Entry) × (item : LineOf)
            × IsNextWatchedEvent before self.old number item event.now (object_names_in names.now) place }
        ensures watches { OnOk result ((before : List Entry) (item : LineOf) →
            IsNextWatchedEvent before self.old number item event.now (object_names_in names.now) place →
            Watches (before ++ record { number = number; item = item } ∷ []) self.new) }
        ensures written { OnOk result ((before : List Entry) (item : LineOf) →
            IsNextWatchedEvent before self.old number item event.now (object_names_in names.now) place →
            WritesBetween (S.written out.old) (S.written out.new) (first_texts before)
            (first_texts (before ++ record { number = number; item = item } ∷ []))) }
        ensures halted { OnErr result ((before : List Entry) (item : LineOf) →
            IsNextWatchedEvent before self.old number item event.now (object_names_in names.now) place →
            WritesFront (S.written out.old) (S.written out.new) (first_texts before)
            (first_texts (before ++ record { number = number; item = item } ∷ []))) }
        ensures cost { (before : List Entry) (item : LineOf) →
            IsNextWatchedEvent before self.old number item event.now (object_names_in names.now) place →
            steps.new ≤ steps.old + epochs_bound (items before) item }
        ensures fault { TellsFault (S.faults out.old) (S.faults out.new) (S.at_fault out.new)
            (S.written out.new) result }
    {
        if let Event::Call(call) = event {
            let numbers = CallNumbers {
                thread: call.thread,
                object: call.object,
                kind: call.kind,
                method: call.method,
            };
            return self.call(number, place, numbers, names, out, steps);
        }
        let Ok(()) = self.tracker.pass(event, steps) else {
            return Err(Halt::NoMemory);
        };
        match self.lessons.learn(number, event) {
            Ok(()) => Ok(()),
            Err(_) => Err(Halt::NoMemory),
        }
    }
}

impl Analysis for FirstRaces {
    ghost use Rattle.rd_epochs_command.specs.laws.NoLines.{watches_none, nothing_told};

    ghost begins = { WatchBegins };

    ghost leads = { WatchLeads };

    ghost text = { λ _ _. first_texts };

    ghost asks = { λ _ _. Unit {0} };

    ghost bound = { λ _ _. epochs_bound };

    ghost starts = { watches_none };

    ghost silent = { λ _ _. nothing_told };

    ghost said = { λ _ _ _ _. tt };

    #[inline(always)]
    fn accept<S: Sink, L: Ledger>(
        &mut self,
        number: u64,
        _bytes: &[u8],
        accepted: &Accepted,
        roster: &Roster,
        out: &mut S,
        steps: &mut Steps<L>,
    ) -> Result<(), Halt> {
        match accepted {
            Accepted::Nothing => Ok(()),
            Accepted::Object { .. } => self.declare(),
            Accepted::Root(thread) => self.root(number, *thread),
            Accepted::Event(event) => {
                self.event(number, roster.events() - 1, event, roster, out, steps)
            }
        }
    }

    fn law_of_skipped_lines(&self, _number: u64, _roster: &Roster) {}
}
