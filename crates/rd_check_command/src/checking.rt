//! Reporting races: what `check` does with each accepted line beside the replay.
ghost use Rattle.std.specs.Prelude.{◌≡◌, ◌+◌, ◌≤◌, List, ◌∷◌, [], ◌++◌, OnOk, OnErr};
ghost use Rattle.rd_io.specs.Sinks.{Appends};
ghost use Rattle.rd_walk.specs.Analysis.{TellsFault, WritesFront};

use rd_base::{Bytes, NoMemory, Steps};
use rd_detect::{Covers, Detector, law_of_covers};
use rd_ecl::Spec;
use rd_event::{Call, Event};
use rd_hb::Tracker;
use rd_io::Sink;
use rd_json::{Form, Formulas, tell_object};
use rd_report::tell_lines;
use rd_store::{Race, Witness};
use rd_walk::{Analysis, Halt, write_line};
use rd_wf::{Accepted, Roster};
use std::alloc::Global;
use std::sync::ledger::Ledger;

/// Keeps the clocks of the threads and the cells of the calls, counts the calls that are reported, and writes each race.
#[derive(Drop)]
pub struct Check<'a> {
    alloc: Global,
    /// the form of the report
    pub(crate) form: Form,
    /// the kinds of the objects
    spec: &'a Spec,
    /// the formulas that races failed
    formulas: Formulas<'a>,
    /// what the last race told of its later call: as text its first line, as JSON what stands in the object
    told: Bytes,
    /// the place of that call, where a race was told
    told_place: Option<u32>,
    /// another text of the last race, kept for its memory: as text the second line, as JSON the line
    text: Bytes,
    /// memory for strings
    memory: Bytes,
    tracker: Tracker,
    detector: Detector,
    /// what is known of the points of the detector
    covers: Covers,
    pub(crate) races: u64,
}

// Writes the three lines of a race, each by itself. Nothing is written behind one that could not be.
fn write_race<S: Sink>(
    out: &mut S,
    later: &[u8],
    earlier: &[u8],
    formula: &[u8],
) -> Result<(), Halt>
    ensures ok { OnOk result (Appends (S.written out.old) (S.written out.new)
        (later.now ++ earlier.now ++ formula.now)) }
    ensures front { OnErr result (WritesFront (S.written out.old) (S.written out.new) []
        (later.now ++ earlier.now ++ formula.now)) }
    ensures fault { TellsFault (S.faults out.old) (S.faults out.new) (S.at_fault out.new)
        (S.written out.new) result }
{
    write_line(out, later)?;
    write_line(out, earlier)?;
    write_line(out, formula)
}

impl<'a> Check<'a> {
    ghost use Rattle.std.specs.Prelude.{◌≡◌, ◌+◌, ◌<◌, ◌≤◌, ◌^◌, ℕ, Bool, List, ◌∷◌, [], ◌++◌, Option, is_some, if◌then◌else◌, length, IfOk, IfErr, IsTrue, OnOk, OnErr};
    ghost use Rattle.rd_io.specs.Sinks.{Appends};
    ghost use Rattle.rd_event.specs.declared.events.Event.{Event as EventOf};
    ghost use Rattle.rd_event.specs.declared.events.Event.TheVariants as event;
    ghost use Rattle.rd_event.specs.declared.items.Line.{Line as LineOf};
    ghost use Rattle.rd_detect.specs.Detect.{IsAnswer, IsNextCall, DetectorStandsFor, detection_bound};
    ghost use Rattle.rd_detect.specs.Covers.{CoversStandFor};
    ghost use Rattle.rd_hb.specs.Tracker.{IsStamp, last_stamp};
    ghost use Rattle.rd_report.specs.Races.{IsFailedRace, earlier_line, later_line, race_text, told_by};
    ghost use Rattle.rd_json.specs.Forms.{race_in};
    ghost use Rattle.rd_json.specs.Json.{race_json, race_object, told_json};
    ghost use Rattle.rd_report.specs.Texts.{naming_in};
    ghost use Rattle.rd_walk.specs.Analysis.{TellsFault, WritesBetween, WritesFront};
    ghost use Rattle.rd_check_command.specs.Checking.{Checks, IsKnownOf, IsNew, IsNextEventLine, IsNextLine, IsToldOf};
    ghost use Rattle.rd_check_command.specs.Checked.{check_bound, race_texts};
    ghost use Rattle.rd_walk.specs.Walk.{Entry, items};
    ghost use Rattle.rd_ecl.specs.Kinds.{kinds_of};
    ghost use Rattle.rd_ecl.specs.Specified.{SpecifiedKind};

    /// A check of no lines, whose report has this form.
    pub fn new(alloc: Global, form: Form, spec: &'a Spec) -> Result<Check<'a>, NoMemory>
        ensures new { IfOk result IsNew }
        ensures form { IfOk result (λ check. check.form ≡ form) }
        ensures spec { IfOk result (λ check. check.spec.now ≡ spec.now) }
    {
        law_of_covers();
        let detector = Detector::new(alloc, spec)?;
        Ok(Check {
            alloc,
            form,
            spec,
            formulas: Formulas::new(alloc, form, spec),
            told: Bytes::new(alloc),
            told_place: None,
            text: Bytes::new(alloc),
            memory: Bytes::new(alloc),
            tracker: Tracker::new(alloc),
            detector,
            covers: Covers::new(alloc),
            races: 0,
        })
    }

    /// Hands the call at this place, which is the next event and which the tracker passed, to the detector, and counts the race that it tells
    /// of.
    // kept out of line, so that a walk over other lines doesn't pay for its locals
    #[inline(never)]
    fn detect<L: Ledger>(
        &mut self,
        line: u64,
        place: u32,
        call: &Call,
        steps: &mut Steps<L>,
    ) -> Result<Option<Race>, Halt>
        requires next { (kinds : List SpecifiedKind) × (roots : ℕ → Bool) × (numbers : List ℕ) × (es : List EventOf)
            × IsNextCall kinds self.old.detector self.old.tracker roots numbers es place call.now (last_stamp self.old.tracker.threads call.now.thread) }
        requires known { (es : List EventOf) × IsStamp (es ++ event.Call call.now ∷ []) (length es) (last_stamp self.old.tracker.threads call.now.thread)
            × CoversStandFor es self.old.detector.store self.old.covers }
        requires few { self.old.races + 1 < 2 ^ 64 }

        // the call is judged and kept, and other parts stay
        ensures same { (self.new.form ≡ self.old.form) × (self.new.spec.now ≡ self.old.spec.now)
            × (self.new.tracker ≡ self.old.tracker)
            × (self.new.formulas ≡ self.old.formulas) }
        ensures told { (self.new.told ≡ self.old.told)
            × (self.new.told_place ≡ self.old.told_place) }
        ensures answer { IfOk result (λ answer. (kinds : List SpecifiedKind) (roots : ℕ → Bool) (numbers : List ℕ) (es : List EventOf)
            → IsNextCall kinds self.old.detector self.old.tracker roots numbers es place call.now (last_stamp self.old.tracker.threads call.now.thread)
            → IsAnswer kinds (numbers ++ line ∷ []) (es ++ event.Call call.now ∷ []) place answer) }
        ensures stands { OnOk result ((kinds : List SpecifiedKind) (roots : ℕ → Bool) (numbers : List ℕ) (es : List EventOf)
            → IsNextCall kinds self.old.detector self.old.tracker roots numbers es place call.now (last_stamp self.old.tracker.threads call.now.thread)
            → DetectorStandsFor kinds self.new.detector roots (numbers ++ line ∷ [])
            (es ++ event.Call call.now ∷ [])) }
        ensures covers { OnOk result ((es : List EventOf) → IsStamp (es ++ event.Call call.now ∷ []) (length es) (last_stamp self.old.tracker.threads call.now.thread)
            → CoversStandFor es self.old.detector.store self.old.covers
            → CoversStandFor (es ++ event.Call call.now ∷ []) self.new.detector.store self.new.covers) }

        // races are counted, only memory can stop it, and the steps are bounded
        ensures races { IfOk result
            (λ answer. self.new.races ≡ self.old.races + (if is_some answer then 1 else 0)) }
        ensures memory { IfErr result (λ halt. halt ≡ Halt.NoMemory) }
        ensures cost { steps.new ≤ steps.old
            + detection_bound self.old.detector.tables (length self.old.tracker.threads) call.now }
    {
        let Ok(answer) = self
            .detector
            .take(line, place, call, &self.tracker, &mut self.covers, steps)
        else {
            return Err(Halt::NoMemory);
        };
        self.races += u64::from(answer.is_some());
        Ok(answer)
    }

    /// Did the last race tell of this call as its later one?
    fn is_told(&self, call: &Witness) -> bool
        ensures { IsTrue result → self.now.told_place ≡ Some call.now.place }
    {
        matches!(self.told_place, Some(place) if place == call.place)
    }

    /// Makes the two texts the first two lines of a race.
    fn tell_lines(&mut self, race: &Race, names: &Roster) -> Result<(), NoMemory>
        requires failed { IsFailedRace self.old.spec.now (naming_in names.now) race.now }
        requires told { IsKnownOf Form.Text self.old.spec.now (naming_in names.now)
            race.now.earlier.value self.old.told self.old.told_place }
        ensures same { (self.new.form ≡ self.old.form) × (self.new.spec.now ≡ self.old.spec.now)
            × (self.new.tracker ≡ self.old.tracker) × (self.new.detector ≡ self.old.detector)
            × (self.new.races ≡ self.old.races) × (self.new.formulas ≡ self.old.formulas)
            × (self.new.covers ≡ self.old.covers) }
        ensures told { OnOk result (IsToldOf Form.Text self.old.spec.now (naming_in names.now)
            race.now.later.value self.new.told self.new.told_place) }
        ensures later { OnOk result (self.new.told
            ≡ later_line self.old.spec.now (naming_in names.now) (told_by race.now.later.value)) }
        ensures earlier { OnOk result (self.new.text
            ≡ earlier_line self.old.spec.now (naming_in names.now) (told_by race.now.earlier.value)) }
    {
        let known = self.is_told(&race.earlier);
        tell_lines(
            &mut self.told,
            &mut self.text,
            race,
            known,
            self.spec,
            names,
        )?;
        self.told_place = Some(race.later.place);
        Ok(())
    }

    /// Writes a race as text. The numbers in it are known to the specification and the roster, and its kind and its methods are those of its
    /// calls.
    fn report_lines<S: Sink>(
        &mut self,
        race: &Race,
        names: &Roster,
        out: &mut S,
    ) -> Result<(), Halt>
        requires failed { IsFailedRace self.old.spec.now (naming_in names.now) race.now }
        requires formulas { self.old.formulas
            ≡ record { form = Form.Text; kinds = self.old.spec.now } }
        requires told { IsKnownOf Form.Text self.old.spec.now (naming_in names.now)
            race.now.earlier.value self.old.told self.old.told_place }
        ensures same { (self.new.form ≡ self.old.form) × (self.new.spec.now ≡ self.old.spec.now)
            × (self.new.tracker ≡ self.old.tracker) × (self.new.detector ≡ self.old.detector)
            × (self.new.races ≡ self.old.races) × (self.new.formulas ≡ self.old.formulas)
            × (self.new.covers ≡ self.old.covers) }
        ensures told { OnOk result (IsToldOf Form.Text self.old.spec.now (naming_in names.now)
            race.now.later.value self.new.told self.new.told_place) }
        ensures ok { OnOk result (Appends (S.written out.old) (S.written out.new)
            (race_text self.old.spec.now (naming_in names.now) (told_by race.now.later.value)
            (told_by race.now.earlier.value))) }
        ensures front { OnErr result (WritesFront (S.written out.old) (S.written out.new) []
            (race_text self.old.spec.now (naming_in names.now) (told_by race.now.later.value)
            (told_by race.now.earlier.value))) }
        ensures fault { TellsFault (S.faults out.old) (S.faults out.new) (S.at_fault out.new)
            (S.written out.new) result }
    {
        self.tell_lines(race, names)?;
        if let Some(line) = self.formulas.find(race.kind, race.first, race.second) {
            return write_race(out, self.told.items(), self.text.items(), line);
        }
        let line = self
            .formulas
            .make(self.alloc, race.kind, race.first, race.second)?;
        write_race(out, self.told.items(), self.text.items(), line.items())
    }

    /// Makes the text the line of a race as JSON.
    fn tell_object(&mut self, race: &Race, names: &Roster) -> Result<(), NoMemory>
        requires failed { IsFailedRace self.old.spec.now (naming_in names.now) race.now }
        requires formulas { self.old.formulas
            ≡ record { form = Form.Json; kinds = self.old.spec.now } }
        requires told { IsKnownOf Form.Json self.old.spec.now (naming_in names.now)
            race.now.earlier.value self.old.told self.old.told_place }
        ensures same { (self.new.form ≡ self.old.form) × (self.new.spec.now ≡ self.old.spec.now)
            × (self.new.tracker ≡ self.old.tracker) × (self.new.detector ≡ self.old.detector)
            × (self.new.races ≡ self.old.races) × (self.new.formulas ≡ self.old.formulas)
            × (self.new.covers ≡ self.old.covers) }
        ensures told { OnOk result (self.new.told
            ≡ told_json self.old.spec.now (naming_in names.now) (told_by race.now.later.value)) }
        ensures text { OnOk result (self.new.text
            ≡ race_object self.old.spec.now (naming_in names.now) race.now) }
    {
        let known = self.is_told(&race.earlier);
        if let Some(formula) = self.formulas.find(race.kind, race.first, race.second) {
            return tell_object(
                &mut self.text,
                &mut self.told,
                &mut self.memory,
                race,
                known,
                formula,
                self.spec,
                names,
            );
        }
        let formula = self
            .formulas
            .make(self.alloc, race.kind, race.first, race.second)?;
        tell_object(
            &mut self.text,
            &mut self.told,
            &mut self.memory,
            race,
            known,
            formula.items(),
            self.spec,
            names,
        )
    }

    /// Writes a race as JSON. The numbers in it are known to the specification and the roster, and its kind and its methods are those of its
    /// calls.
    fn report_object<S: Sink>(
        &mut self,
        race: &Race,
        names: &Roster,
        out: &mut S,
    ) -> Result<(), Halt>
        requires failed { IsFailedRace self.old.spec.now (naming_in names.now) race.now }
        requires formulas { self.old.formulas
            ≡ record { form = Form.Json; kinds = self.old.spec.now } }
        requires told { IsKnownOf Form.Json self.old.spec.now (naming_in names.now)
            race.now.earlier.value self.old.told self.old.told_place }
        ensures same { (self.new.form ≡ self.old.form) × (self.new.spec.now ≡ self.old.spec.now)
            × (self.new.tracker ≡ self.old.tracker) × (self.new.detector ≡ self.old.detector)
            × (self.new.races ≡ self.old.races) × (self.new.formulas ≡ self.old.formulas)
            × (self.new.covers ≡ self.old.covers) }
        ensures told { OnOk result (IsToldOf Form.Json self.old.spec.now (naming_in names.now)
            race.now.later.value self.new.told self.new.told_place) }
        ensures ok { OnOk result (Appends (S.written out.old) (S.written out.new)
            (race_json self.old.spec.now (naming_in names.now) (told_by race.now.later.value)
            (told_by race.now.earlier.value))) }
        ensures front { OnErr result (WritesFront (S.written out.old) (S.written out.new) []
            (race_json self.old.spec.now (naming_in names.now) (told_by race.now.later.value)
            (told_by race.now.earlier.value))) }
        ensures fault { TellsFault (S.faults out.old) (S.faults out.new) (S.at_fault out.new)
            (S.written out.new) result }
    {
        self.tell_object(race, names)?;
        self.told_place = Some(race.later.place);
        write_line(out, self.text.items())
    }

    /// Writes the text of a race, where the form has one. The numbers in it are known to the specification and the roster, and its kind and
    /// its methods are those of its calls.
    fn report<S: Sink>(&mut self, race: &Race, names: &Roster, out: &mut S) -> Result<(), Halt>
        requires failed { IsFailedRace self.old.spec.now (naming_in names.now) race.now }
        requires formulas { self.old.formulas
            ≡ record { form = self.old.form; kinds = self.old.spec.now } }
        requires told { IsKnownOf self.old.form self.old.spec.now (naming_in names.now)
            race.now.earlier.value self.old.told self.old.told_place }
        ensures same { (self.new.form ≡ self.old.form) × (self.new.spec.now ≡ self.old.spec.now)
            × (self.new.tracker ≡ self.old.tracker) × (self.new.detector ≡ self.old.detector)
            × (self.new.races ≡ self.old.races) × (self.new.formulas ≡ self.old.formulas)
            × (self.new.covers ≡ self.old.covers) }
        ensures told { OnOk result (IsToldOf self.old.form self.old.spec.now (naming_in names.now)
            race.now.later.value self.new.told self.new.told_place) }
        ensures ok { OnOk result (Appends (S.written out.old) (S.written out.new)
            (race_in self.old.form self.old.spec.now (naming_in names.now) (told_by race.now.later.value)
            (told_by race.now.earlier.value))) }
        ensures front { OnErr result (WritesFront (S.written out.old) (S.written out.new) []
            (race_in self.old.form self.old.spec.now (naming_in names.now) (told_by race.now.later.value)
            (told_by race.now.earlier.value))) }
        ensures fault { TellsFault (S.faults out.old) (S.faults out.new) (S.at_fault out.new)
            (S.written out.new) result }
    {
        match self.form {
            Form::Text => self.report_lines(race, names, out),
            Form::Json => self.report_object(race, names, out),
            Form::EndingOnly => {
                self.told_place = None;
                Ok(())
            }
        }
    }

    /// Hands the next root to the tracker.
    fn root(&mut self, thread: u32) -> Result<(), Halt>
        requires { (start : Check) × (before : List Entry) × (item : LineOf)
            × Checks start before self.old
            × IsNextLine (kinds_of start.spec.now) self.old.tracker (items before) item
            (Accepted.Root thread) }
        ensures checks { OnOk result
            ((start : Check) (before : List Entry) (entry : Entry) → Checks start before self.old →
            IsNextLine (kinds_of start.spec.now) self.old.tracker (items before) entry.item
            (Accepted.Root thread) → Checks start (before ++ entry ∷ []) self.new) }
        ensures memory { IfErr result (λ halt. halt ≡ Halt.NoMemory) }
    {
        match self.tracker.root(thread) {
            Ok(()) => Ok(()),
            Err(_) => Err(Halt::NoMemory),
        }
    }

    /// Hands the event at this place, which is the next one, to the tracker, and a call to the detector, and writes the race that it tells
    /// of.
    #[inline(always)]
    fn event<S: Sink, L: Ledger>(
        &mut self,
        number: u64,
        place: u32,
        event: &Event,
        names: &Roster,
        out: &mut S,
        steps: &mut Steps<L>,
    ) -> Result<(), Halt>
        requires { (start : Check) × (before : List Entry) × (item : LineOf)
            × IsNextEventLine start self.old before item event.now (naming_in names.now) place }
        ensures checks { OnOk result ((start : Check) (before : List Entry) (item : LineOf) →
            IsNextEventLine start self.old before item event.now (naming_in names.now) place →
            Checks start (before ++ record { number = number; item = item } ∷ []) self.new) }
        ensures written { OnOk result ((start : Check) (before : List Entry) (item : LineOf) →
            IsNextEventLine start self.old before item event.now (naming_in names.now) place →
            WritesBetween (S.written out.old) (S.written out.new) (race_texts start.form start.spec.now before)
            (race_texts start.form start.spec.now (before ++ record { number = number; item = item } ∷ []))) }
        ensures halted { OnErr result ((start : Check) (before : List Entry) (item : LineOf) →
            IsNextEventLine start self.old before item event.now (naming_in names.now) place →
            WritesFront (S.written out.old) (S.written out.new) (race_texts start.form start.spec.now before)
            (race_texts start.form start.spec.now (before ++ record { number = number; item = item } ∷ []))) }
        ensures cost { (start : Check) (before : List Entry) (item : LineOf) →
            IsNextEventLine start self.old before item event.now (naming_in names.now) place →
            steps.new ≤ steps.old + check_bound start.spec.now (items before) item }
        ensures fault { TellsFault (S.faults out.old) (S.faults out.new) (S.at_fault out.new)
            (S.written out.new) result }
    {
        let Ok(()) = self.tracker.pass(event, steps) else {
            return Err(Halt::NoMemory);
        };
        let Event::Call(call) = event else {
            return Ok(());
        };
        match self.detect(number, place, call, steps) {
            Ok(None) => Ok(()),
            Ok(Some(race)) => self.report(&race, names, out),
            Err(halt) => Err(halt),
        }
    }
}

impl<'a> Analysis for Check<'a> {
    ghost use Rattle.rd_check_command.specs.laws.CheckLaws.{checks_none, no_text};
    ghost use Rattle.rd_check_command.specs.Checking.{CheckBegins, CheckLeads};
    ghost use Rattle.rd_check_command.specs.Checked.{check_bound, race_texts};

    ghost begins = { CheckBegins };

    ghost leads = { CheckLeads };

    ghost text = { λ _ start. race_texts start.form start.spec.now };

    ghost asks = { λ _ _. Unit {0} };

    ghost bound = { λ _ start. check_bound start.spec.now };

    ghost starts = { checks_none };

    ghost silent = { λ _ start. no_text start };

    ghost said = { λ _ _ _ _. tt };

    #[inline(always)]
    fn accept<S: Sink, L: Ledger>(
        &mut self,
        number: u64,
        _bytes: &[u8],
        accepted: &Accepted,
        roster: &Roster,
        out: &mut S,
        steps: &mut Steps<L>,
    ) -> Result<(), Halt> {
        match accepted {
            Accepted::Nothing | Accepted::Object { .. } => Ok(()),
            Accepted::Root(thread) => self.root(*thread),
            Accepted::Event(event) => {
                self.event(number, roster.events() - 1, event, roster, out, steps)
            }
        }
    }

    fn law_of_skipped_lines(&self, _number: u64, _roster: &Roster) {}
}
