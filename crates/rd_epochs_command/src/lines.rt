//! The lines of a trace of reads and writes.
ghost use Rattle.std.specs.Prelude.{◌≡◌, ◌≢◌, ◌∷◌, [], ◌++◌, List, ℕ, Ok, Err, Some, IfErr, IfNone, IfSome, Option, codes, false, true, option_map};
ghost use Rattle.rd_base.specs.Limits.{AreUsable};
ghost use Rattle.rd_base.specs.Names.{IsName};
ghost use Rattle.rd_base.specs.declared.values.Value.TheVariants.{Nil};
ghost use Rattle.rd_ecl.specs.Kinds.{Kind, methods_at};
ghost use Rattle.rd_epochs_command.specs.Lines.{SayAccess, TakesItem, TakesMemoryItem, TakesMemoryLine, WasJudged};
ghost use Rattle.rd_epochs_command.specs.Watching.{WatchLeads, memory_kinds};
ghost use Rattle.rd_event.specs.Reading.{names_read};
ghost use Rattle.rd_event.specs.declared.items.Line.{Line as Item};
ghost use Rattle.rd_memory.specs.MemoryLines.{access_keyword, access_of, memory_line_of};
ghost use Rattle.rd_memory.specs.MemoryTraces.{access_call, memory_says};
ghost use Rattle.rd_rules.specs.MayFollow.{is_among, objects_of};
ghost use Rattle.rd_tables.specs.Tables.{found_method};
ghost use Rattle.rd_walk.specs.Analysis.{AreBefore, TellsFault};
ghost use Rattle.rd_walk.specs.Taking.{TakesGrammarLine};
ghost use Rattle.rd_walk.specs.Walk.{Entry, items};
ghost use Rattle.rd_wf.specs.Roster.{IsFoundObject, RosterStandsFor, TakesNames, kinds_in, with_values};

use crate::watching::FirstRaces;
use rd_base::{Limits, Name, Steps};
use rd_event::is_skipped;
use rd_io::Sink;
use rd_memory::law_of_keywords;
use rd_tables::{FoundMethod, FoundObject, cut_at_space};
use rd_walk::{Analysis, Grammar, Halt, Taken, Walker, take_anywhere, take_keyword};
use rd_wf::{
    Accepted, AcquireLine, Anywhere, BytesRefused, CallNumbers, JoinLine, Judged, KnownMethod,
    ReleaseLine, Roster, TraceCause,
};
use std::sync::ledger::Ledger;

/// The lines of a trace of reads and writes. An access is a call without arguments, whose result is nil; the first one to a variable declares it.
#[derive(Drop)]
pub struct MemoryLines {
    /// the kind of a variable
    kind: Name,
    ghost is_variable: { kind ≡ codes "variable" },
}

/// The words of an access.
#[derive(Clone, Copy)]
pub(crate) struct Words<'a> {
    pub(crate) thread: &'a [u8],
    pub(crate) variable: &'a [u8],
    pub(crate) write: bool,
}

// The method of an access.
#[inline(always)]
fn keyword_of(write: bool) -> &'static [u8]
    ensures { result.now ≡ access_keyword write }
{
    if write { b"write" } else { b"read" }
}

// The line is refused.
fn refuse<A: Analysis>(walker: &mut Walker<A>, cause: TraceCause) -> Result<Taken, Halt>
    ensures refused { result ≡ Ok Taken.Refused }
    ensures cause { walker.new.refused ≡ Some cause }
    ensures same { (walker.new.roster ≡ walker.old.roster) × (walker.new.analysis ≡ walker.old.analysis)
        × (walker.new.limits ≡ walker.old.limits) }
{
    walker.refused = Some(cause);
    Ok(Taken::Refused)
}

// An item that the roster accepted is handed on.
#[inline(always)]
fn hand_on<A: Analysis, S: Sink, L: Ledger>(
    walker: &mut Walker<A>,
    number: u64,
    accepted: &Accepted,
    out: &mut S,
    steps: &mut Steps<L>,
) -> Result<Taken, Halt>
    requires usable { AreUsable walker.old.limits }
    requires asks { (item : Item) → A.asks [] item }
    requires next { (old : Walker A) × (item : Item) × WasJudged old walker.old item (Ok accepted.now)
        × (kinds : List Kind) × (start : A) × (before : List Entry)
        × RosterStandsFor kinds old.roster (items before)
        × A.leads kinds start before old.analysis × AreBefore number before }
    ensures item { (old : Walker A) (item : Item) → WasJudged old walker.old item (Ok accepted.now) →
        TakesItem A.leads A.text A.bound number item old walker.new
        (S.written out.old) (S.written out.new) steps.old steps.new result }
    ensures accepted { result ≢ Ok Taken.Refused }
    ensures limits { walker.new.limits ≡ walker.old.limits }
    ensures fault { TellsFault (S.faults out.old) (S.faults out.new) (S.at_fault out.new)
        (S.written out.new) result }
{
    match walker
        .analysis
        .accept(number, b"", accepted, &walker.roster, out, steps)
    {
        Ok(()) => Ok(Taken::Accepted),
        Err(halt) => Err(halt),
    }
}

// What the roster judged of an item is done.
fn finish<A: Analysis, S: Sink, L: Ledger>(
    walker: &mut Walker<A>,
    number: u64,
    judged: Judged,
    out: &mut S,
    steps: &mut Steps<L>,
) -> Result<Taken, Halt>
    requires usable { AreUsable walker.old.limits }
    requires asks { (item : Item) → A.asks [] item }
    requires next { (old : Walker A) × (item : Item) × WasJudged old walker.old item judged
        × (kinds : List Kind) × (start : A) × (before : List Entry)
        × RosterStandsFor kinds old.roster (items before)
        × A.leads kinds start before old.analysis × AreBefore number before }
    ensures item { (old : Walker A) (item : Item) → WasJudged old walker.old item judged →
        TakesItem A.leads A.text A.bound number item old walker.new
        (S.written out.old) (S.written out.new) steps.old steps.new result }
    ensures limits { walker.new.limits ≡ walker.old.limits }
    ensures fault { TellsFault (S.faults out.old) (S.faults out.new) (S.at_fault out.new)
        (S.written out.new) result }
{
    match judged {
        Ok(accepted) => hand_on(walker, number, &accepted, out, steps),
        Err(refused) => match refused {
            BytesRefused::BadLine => unreachable!(),
            BytesRefused::Cause(cause) => refuse(walker, TraceCause::Wf(cause)),
            BytesRefused::NoMemory => Err(Halt::NoMemory),
        },
    }
}

// An access that the roster accepted is handed on.
#[inline(always)]
fn hand_on_access<S: Sink, L: Ledger>(
    walker: &mut Walker<FirstRaces>,
    number: u64,
    call: CallNumbers,
    out: &mut S,
    steps: &mut Steps<L>,
) -> Result<Taken, Halt>
    requires usable { AreUsable walker.old.limits }
    requires next { (old : Walker FirstRaces) × (item : Item) × WasJudged old walker.old item (with_values (Nil ∷ []) (Ok call))
        × (kinds : List Kind) × (start : FirstRaces) × (before : List Entry)
        × RosterStandsFor kinds old.roster (items before)
        × WatchLeads kinds start before old.analysis × AreBefore number before }
    ensures item { (old : Walker FirstRaces) (item : Item) → WasJudged old walker.old item (with_values (Nil ∷ []) (Ok call)) →
        TakesMemoryItem number item old walker.new (S.written out.old) (S.written out.new) steps.old steps.new result }
    ensures accepted { result ≢ Ok Taken.Refused }
    ensures limits { walker.new.limits ≡ walker.old.limits }
    ensures fault { TellsFault (S.faults out.old) (S.faults out.new) (S.at_fault out.new)
        (S.written out.new) result }
{
    let place = walker.roster.events() - 1;
    match walker
        .analysis
        .call(number, place, call, &walker.roster, out, steps)
    {
        Ok(()) => Ok(Taken::Accepted),
        Err(halt) => Err(halt),
    }
}

// What the roster judged of an access, whose words are names, is done.
#[inline(always)]
fn finish_access<S: Sink, L: Ledger>(
    walker: &mut Walker<FirstRaces>,
    number: u64,
    judged: Result<CallNumbers, BytesRefused>,
    out: &mut S,
    steps: &mut Steps<L>,
) -> Result<Taken, Halt>
    requires usable { AreUsable walker.old.limits }
    requires next { (old : Walker FirstRaces) × (item : Item) × WasJudged old walker.old item (with_values (Nil ∷ []) judged)
        × (kinds : List Kind) × (start : FirstRaces) × (before : List Entry)
        × RosterStandsFor kinds old.roster (items before)
        × WatchLeads kinds start before old.analysis × AreBefore number before }
    ensures item { (old : Walker FirstRaces) (item : Item) → WasJudged old walker.old item (with_values (Nil ∷ []) judged) →
        TakesMemoryItem number item old walker.new (S.written out.old) (S.written out.new) steps.old steps.new result }
    ensures limits { walker.new.limits ≡ walker.old.limits }
    ensures fault { TellsFault (S.faults out.old) (S.faults out.new) (S.at_fault out.new)
        (S.written out.new) result }
{
    match judged {
        Ok(call) => hand_on_access(walker, number, call, out, steps),
        Err(refused) => match refused {
            BytesRefused::BadLine => unreachable!(),
            BytesRefused::Cause(cause) => refuse(walker, TraceCause::Wf(cause)),
            BytesRefused::NoMemory => Err(Halt::NoMemory),
        },
    }
}

// What a look-up of the method of an access finds.
#[inline(always)]
fn method_of(write: bool) -> FoundMethod
    ensures found { result ≡ found_method (methods_at memory_kinds 0) (access_keyword write) }
    ensures slots { result.slots ≡ 1 }
{
    FoundMethod {
        number: if write { 1 } else { 0 },
        unknown: false,
        slots: 1,
    }
}

// Accepts an access, as the call that it is. Its method is known, since the kinds are those of reads and writes.
#[inline(always)]
fn judge(roster: &mut Roster, words: Words, limits: &Limits) -> Result<CallNumbers, BytesRefused>
    requires { kinds_in roster.old ≡ memory_kinds }
    ensures takes { TakesNames true (IsName words.entry.thread.now × IsName words.entry.variable.now) roster.old roster.new limits.now
        (access_call words.entry.thread.now words.entry.variable.now words.entry.write) (with_values (Nil ∷ []) result) }
    ensures memory { IfErr result (λ refused. refused ≢ BytesRefused.NoMemory) }
{
    let known = KnownMethod {
        kind: 0,
        found: method_of(words.write),
    };
    roster.call_numbers::<Anywhere>(
        words.thread,
        words.variable,
        keyword_of(words.write),
        known,
        limits,
    )
}

// The same of an access to a variable that was looked up before.
#[inline(always)]
fn judge_known(
    roster: &mut Roster,
    words: Words,
    variable: FoundObject,
    limits: &Limits,
) -> Result<CallNumbers, BytesRefused>
    requires kinds { kinds_in roster.old ≡ memory_kinds }
    requires found { IsFoundObject roster.old words.variable.now variable }
    requires named { IsName words.variable.now }
    ensures takes { TakesNames true (IsName words.entry.thread.now × IsName words.entry.variable.now) roster.old roster.new limits.now
        (access_call words.entry.thread.now words.entry.variable.now words.entry.write) (with_values (Nil ∷ []) result) }
    ensures memory { IfErr result (λ refused. refused ≢ BytesRefused.NoMemory) }
{
    let known = KnownMethod {
        kind: 0,
        found: method_of(words.write),
    };
    roster.call_numbers_of(
        words.thread,
        words.variable,
        variable,
        keyword_of(words.write),
        known,
        limits,
    )
}

// A line whose words aren't both names is refused.
#[inline(never)]
fn refuse_unnamed(walker: &mut Walker<FirstRaces>, words: Words) -> Result<Taken, Halt>
    requires unnamed { ¬ (IsName words.thread.now × IsName words.variable.now) }
    ensures limits { walker.new.limits ≡ walker.old.limits }
    ensures refused { result ≡ Ok Taken.Refused }
    ensures line { (bytes : List ℕ) (number : ℕ) (written : Option (List ℕ)) (steps : ℕ) → SayAccess bytes words.entry →
        TakesMemoryLine number bytes walker.old walker.new written written steps steps result }
{
    refuse(walker, TraceCause::BadLine)
}

// An access to a known variable is refused, as the roster refused it.
#[inline(never)]
fn refuse_access(
    walker: &mut Walker<FirstRaces>,
    words: Words,
    refused: BytesRefused,
) -> Result<Taken, Halt>
    requires judged { TakesNames true (IsName words.thread.now × IsName words.variable.now) walker.old.roster walker.old.roster walker.old.limits
        (access_call words.thread.now words.variable.now words.write) (Err refused) }
    requires declared { (kinds : List Kind) (lines : List Item) →
        RosterStandsFor kinds walker.old.roster lines → is_among (objects_of lines) words.variable.now ≡ true }
    requires memory { refused ≢ BytesRefused.NoMemory }
    ensures limits { walker.new.limits ≡ walker.old.limits }
    ensures refused { result ≡ Ok Taken.Refused }
    ensures line { (bytes : List ℕ) (number : ℕ) (written : Option (List ℕ)) (steps : ℕ) → SayAccess bytes words.entry →
        TakesMemoryLine number bytes walker.old walker.new written written steps steps result }
{
    match refused {
        BytesRefused::BadLine => refuse_unnamed(walker, words),
        BytesRefused::Cause(cause) => refuse(walker, TraceCause::Wf(cause)),
        BytesRefused::NoMemory => unreachable!(),
    }
}

// Takes the first access to a variable, whose words are names: it is declared, and then the access is judged.
#[inline(always)]
fn take_first<S: Sink, L: Ledger>(
    kind: &Name,
    walker: &mut Walker<FirstRaces>,
    number: u64,
    words: Words,
    name: Name,
    out: &mut S,
    steps: &mut Steps<L>,
) -> Result<Taken, Halt>
    requires kind { kind.now ≡ codes "variable" }
    requires usable { AreUsable walker.old.limits }
    requires stands { (kinds : List Kind) × (start : FirstRaces) × (before : List Entry)
        × RosterStandsFor kinds walker.old.roster (items before)
        × WatchLeads kinds start before walker.old.analysis × AreBefore number before }
    requires named { IsName words.thread.now × IsName words.variable.now }
    requires name { name ≡ words.variable.now }
    requires undeclared { (kinds : List Kind) (lines : List Item) →
        RosterStandsFor kinds walker.old.roster lines → is_among (objects_of lines) words.variable.now ≡ false }
    ensures limits { walker.new.limits ≡ walker.old.limits }
    ensures line { (bytes : List ℕ) → SayAccess bytes words.entry →
        TakesMemoryLine number bytes walker.old walker.new (S.written out.old) (S.written out.new) steps.old steps.new result }
    ensures fault { TellsFault (S.faults out.old) (S.faults out.new) (S.at_fault out.new)
        (S.written out.new) result }
{
    let declared = walker.roster.declare_new(name, kind, &walker.limits);
    match finish(walker, number, declared, out, steps) {
        Ok(Taken::Accepted) => {}
        Ok(Taken::Refused) => return Ok(Taken::Refused),
        Err(halt) => return Err(halt),
    }
    let judged = judge(&mut walker.roster, words, &walker.limits);
    finish_access(walker, number, judged, out, steps)
}

// Takes an access to a variable that was not declared.
#[inline(never)]
fn take_new<S: Sink, L: Ledger>(
    kind: &Name,
    walker: &mut Walker<FirstRaces>,
    number: u64,
    words: Words,
    out: &mut S,
    steps: &mut Steps<L>,
) -> Result<Taken, Halt>
    requires kind { kind.now ≡ codes "variable" }
    requires usable { AreUsable walker.old.limits }
    requires stands { (kinds : List Kind) × (start : FirstRaces) × (before : List Entry)
        × RosterStandsFor kinds walker.old.roster (items before)
        × WatchLeads kinds start before walker.old.analysis × AreBefore number before }
    requires undeclared { (kinds : List Kind) (lines : List Item) →
        RosterStandsFor kinds walker.old.roster lines → is_among (objects_of lines) words.variable.now ≡ false }
    ensures limits { walker.new.limits ≡ walker.old.limits }
    ensures line { (bytes : List ℕ) → SayAccess bytes words.entry →
        TakesMemoryLine number bytes walker.old walker.new (S.written out.old) (S.written out.new) steps.old steps.new result }
    ensures fault { TellsFault (S.faults out.old) (S.faults out.new) (S.at_fault out.new)
        (S.written out.new) result }
{
    let Ok(name) = Name::from_bytes(words.variable) else {
        return refuse_unnamed(walker, words);
    };
    let Ok(_thread) = Name::from_bytes(words.thread) else {
        return refuse_unnamed(walker, words);
    };
    take_first(kind, walker, number, words, name, out, steps)
}

// Takes an access with these names.
#[inline(always)]
fn take_access<S: Sink, L: Ledger>(
    kind: &Name,
    walker: &mut Walker<FirstRaces>,
    number: u64,
    names: &[u8],
    write: bool,
    out: &mut S,
    steps: &mut Steps<L>,
) -> Result<Taken, Halt>
    requires kind { kind.now ≡ codes "variable" }
    requires usable { AreUsable walker.old.limits }
    requires stands { (kinds : List Kind) × (start : FirstRaces) × (before : List Entry)
        × RosterStandsFor kinds walker.old.roster (items before)
        × WatchLeads kinds start before walker.old.analysis × AreBefore number before }
    ensures limits { walker.new.limits ≡ walker.old.limits }
    ensures line { (bytes : List ℕ) → memory_line_of bytes ≡ option_map (access_of write) (names_read names.now) →
        TakesMemoryLine number bytes walker.old walker.new (S.written out.old) (S.written out.new) steps.old steps.new result }
    ensures fault { TellsFault (S.faults out.old) (S.faults out.new) (S.at_fault out.new)
        (S.written out.new) result }
{
    let Some((thread, variable)) = cut_at_space(names) else {
        return refuse(walker, TraceCause::BadLine);
    };
    let words = Words {
        thread,
        variable,
        write,
    };
    let Some(found) = walker.roster.known_object(variable) else {
        return take_new(kind, walker, number, words, out, steps);
    };
    match judge_known(&mut walker.roster, words, found, &walker.limits) {
        Ok(call) => hand_on_access(walker, number, call, out, steps),
        Err(refused) => refuse_access(walker, words, refused),
    }
}

// Takes a line that is no access, no acquire, no release and no join.
#[inline(never)]
fn take_rare<A: Analysis, S: Sink, L: Ledger>(
    walker: &mut Walker<A>,
    number: u64,
    bytes: &[u8],
    out: &mut S,
    steps: &mut Steps<L>,
) -> Result<Taken, Halt>
    requires usable { AreUsable walker.old.limits }
    requires stands { (kinds : List Kind) × (start : A) × (before : List Entry)
        × RosterStandsFor kinds walker.old.roster (items before)
        × A.leads kinds start before walker.old.analysis × AreBefore number before }
    requires read { (rest : List ℕ) → bytes.now ≢ codes "read " ++ rest }
    requires write { (rest : List ℕ) → bytes.now ≢ codes "write " ++ rest }
    requires acquire { (rest : List ℕ) → bytes.now ≢ codes "acquire " ++ rest }
    requires release { (rest : List ℕ) → bytes.now ≢ codes "release " ++ rest }
    requires join { (rest : List ℕ) → bytes.now ≢ codes "join " ++ rest }
    ensures limits { walker.new.limits ≡ walker.old.limits }
    ensures line { TakesGrammarLine memory_says A.leads A.text A.bound number bytes.now walker.old walker.new
        (S.written out.old) (S.written out.new) steps.old steps.new result }
    ensures fault { TellsFault (S.faults out.old) (S.faults out.new) (S.at_fault out.new)
        (S.written out.new) result }
{
    law_of_keywords();
    if behind(bytes, b"fork ").is_some() {
        return take_anywhere(walker, number, bytes, out, steps);
    }
    if behind(bytes, b"thread ").is_some() {
        return take_anywhere(walker, number, bytes, out, steps);
    }
    if is_skipped(bytes) {
        return take_anywhere(walker, number, bytes, out, steps);
    }
    if bytes == b"rdmem 1".as_slice() {
        // it says what the header of a trace says
        return take_anywhere(walker, number, b"rdtrace 1", out, steps);
    }
    refuse(walker, TraceCause::BadLine)
}

// What stands behind the text, if the bytes begin with it.
#[inline(always)]
fn behind<'a>(bytes: &'a [u8], text: &[u8]) -> Option<&'a [u8]>
    ensures some { IfSome result (λ rest. bytes.now ≡ text.now ++ rest.now) }
    ensures none { IfNone result ((rest : List ℕ) → bytes.now ≢ text.now ++ rest) }
{
    bytes.strip_prefix(text)
}

impl MemoryLines {
    /// The lines of a trace of reads and writes.
    pub fn new() -> MemoryLines {
        let Ok(kind) = Name::from_bytes(b"variable") else {
            unreachable!();
        };
        MemoryLines { kind }
    }
}

impl Grammar<FirstRaces> for MemoryLines {
    ghost use Rattle.rd_memory.specs.MemoryTraces.{memory_says};

    ghost says = { memory_says };

    fn take_line<S: Sink, L: Ledger>(
        &self,
        walker: &mut Walker<FirstRaces>,
        number: u64,
        bytes: &[u8],
        out: &mut S,
        steps: &mut Steps<L>,
    ) -> Result<Taken, Halt> {
        law_of_keywords();
        if let Some(names) = behind(bytes, b"read ") {
            return take_access(&self.kind, walker, number, names, false, out, steps);
        }
        if let Some(names) = behind(bytes, b"write ") {
            return take_access(&self.kind, walker, number, names, true, out, steps);
        }
        if behind(bytes, b"acquire ").is_some() {
            return take_keyword::<AcquireLine, FirstRaces, S, L>(walker, number, bytes, out, steps);
        }
        if behind(bytes, b"release ").is_some() {
            return take_keyword::<ReleaseLine, FirstRaces, S, L>(walker, number, bytes, out, steps);
        }
        if behind(bytes, b"join ").is_some() {
            return take_keyword::<JoinLine, FirstRaces, S, L>(walker, number, bytes, out, steps);
        }
        take_rare(walker, number, bytes, out, steps)
    }

    fn law_of_skipped_bytes(&self) {
        law_of_keywords();
    }
}
