//! A grammar of lines: what the bytes of a line say, and how it is taken. The lines of a trace.
ghost use Rattle.std.specs.Prelude.{◌≡◌, true, List, ℕ, [], ◌∷◌, Ok, Some};
ghost use Rattle.rd_base.specs.Limits.{AreUsable};
ghost use Rattle.rd_ecl.specs.Kinds.{Kind};
ghost use Rattle.rd_event.specs.Items.{is_skipped};
ghost use Rattle.rd_event.specs.declared.items.Line.{Line as Item};
ghost use Rattle.rd_walk.specs.Analysis.{AreBefore, TellsFault};
ghost use Rattle.rd_walk.specs.Taking.{TakesGrammarLine, TakesTraceLine};
ghost use Rattle.rd_walk.specs.Walk.{Entry, Saying, items};
ghost use Rattle.rd_wf.specs.Roster.{RosterStandsFor};

use crate::analysis::{Analysis, Halt};
use crate::walk::{Taken, Walker};
use rd_base::Steps;
use rd_io::Sink;
use rd_wf::{
    AcquireLine, BytesRefused, CallLine, JoinLine, Keyword, Near, ObjectLine, ReleaseLine,
    ShareLine, TraceCause, UnshareLine,
};
use std::sync::ledger::Ledger;

/// A grammar of lines: what the bytes of a line say, and how a line of it is taken, for an analysis.
pub trait Grammar<A: Analysis> {
    // What lines say.
    ghost says: { Saying };

    /// Takes a line that isn't skipped: it is judged by what its bytes say behind the accepted lines, and that is handed on, item by item.
    fn take_line<S: Sink, L: Ledger>(
        &self,
        walker: &mut Walker<A>,
        number: u64,
        bytes: &[u8],
        out: &mut S,
        steps: &mut Steps<L>,
    ) -> Result<Taken, Halt>
        requires usable { AreUsable walker.old.limits }
        requires stands { (kinds : List Kind) × (start : A) × (before : List Entry)
            × RosterStandsFor kinds walker.old.roster (items before)
            × A.leads kinds start before walker.old.analysis × AreBefore number before }
        ensures limits { walker.new.limits ≡ walker.old.limits }
        ensures line { TakesGrammarLine says A.leads A.text A.bound number bytes.now walker.old walker.new
            (S.written out.old) (S.written out.new) steps.old steps.new result }
        ensures fault { TellsFault (S.faults out.old) (S.faults out.new) (S.at_fault out.new)
            (S.written out.new) result };

    /// The law of skipped lines: each says that it is skipped.
    fn law_of_skipped_bytes(&self)
        ensures { (before : List Item) (bytes : List ℕ) → is_skipped bytes ≡ true → says before bytes ≡ Some (Item.Skip ∷ []) };
}

/// The lines of a trace.
pub struct TraceLines;

impl<A: Analysis> Grammar<A> for TraceLines {
    ghost use Rattle.rd_walk.specs.Walk.{trace_says};

    ghost says = { trace_says };

    fn take_line<S: Sink, L: Ledger>(
        &self,
        walker: &mut Walker<A>,
        number: u64,
        bytes: &[u8],
        out: &mut S,
        steps: &mut Steps<L>,
    ) -> Result<Taken, Halt> {
        match bytes.first() {
            Some(b'c') => take_keyword::<CallLine, A, S, L>(walker, number, bytes, out, steps),
            Some(b'a') => take_keyword::<AcquireLine, A, S, L>(walker, number, bytes, out, steps),
            Some(b'r') => take_keyword::<ReleaseLine, A, S, L>(walker, number, bytes, out, steps),
            Some(b'j') => take_keyword::<JoinLine, A, S, L>(walker, number, bytes, out, steps),
            Some(b'o') => take_keyword::<ObjectLine, A, S, L>(walker, number, bytes, out, steps),
            Some(b's') => take_keyword::<ShareLine, A, S, L>(walker, number, bytes, out, steps),
            Some(b'u') => take_keyword::<UnshareLine, A, S, L>(walker, number, bytes, out, steps),
            _ => take_anywhere(walker, number, bytes, out, steps),
        }
    }

    fn law_of_skipped_bytes(&self) {}
}

/// Takes a line of a trace of this sort, whose names are looked for near first. This doesn't stand in `take_line`: each other line would make room for
/// what it holds.
#[inline(never)]
pub fn take_keyword<K: Keyword, A: Analysis, S: Sink, L: Ledger>(
    walker: &mut Walker<A>,
    number: u64,
    bytes: &[u8],
    out: &mut S,
    steps: &mut Steps<L>,
) -> Result<Taken, Halt>
    requires usable { AreUsable walker.old.limits }
    requires stands { (kinds : List Kind) × (start : A) × (before : List Entry)
        × RosterStandsFor kinds walker.old.roster (items before)
        × A.leads kinds start before walker.old.analysis × AreBefore number before }
    ensures limits { walker.new.limits ≡ walker.old.limits }
    ensures line { TakesTraceLine A.leads A.text A.bound number bytes.now walker.old walker.new
        (S.written out.old) (S.written out.new) steps.old steps.new result }
    ensures silent { result ≡ Ok Taken.Refused → out.new ≡ out.old }
    ensures fault { TellsFault (S.faults out.old) (S.faults out.new) (S.at_fault out.new)
        (S.written out.new) result }
{
    let Ok(accepted) = K::accept_bytes::<Near>(&mut walker.roster, bytes, &walker.limits) else {
        return take_anywhere(walker, number, bytes, out, steps);
    };
    match walker
        .analysis
        .accept(number, bytes, &accepted, &walker.roster, out, steps)
    {
        Ok(()) => Ok(Taken::Accepted),
        Err(halt) => Err(halt),
    }
}

/// Takes a line of a trace, each of whose names is found.
#[inline(never)]
pub fn take_anywhere<A: Analysis, S: Sink, L: Ledger>(
    walker: &mut Walker<A>,
    number: u64,
    bytes: &[u8],
    out: &mut S,
    steps: &mut Steps<L>,
) -> Result<Taken, Halt>
    requires usable { AreUsable walker.old.limits }
    requires stands { (kinds : List Kind) × (start : A) × (before : List Entry)
        × RosterStandsFor kinds walker.old.roster (items before)
        × A.leads kinds start before walker.old.analysis × AreBefore number before }
    ensures limits { walker.new.limits ≡ walker.old.limits }
    ensures line { TakesTraceLine A.leads A.text A.bound number bytes.now walker.old walker.new
        (S.written out.old) (S.written out.new) steps.old steps.new result }
    ensures silent { result ≡ Ok Taken.Refused → out.new ≡ out.old }
    ensures fault { TellsFault (S.faults out.old) (S.faults out.new) (S.at_fault out.new)
        (S.written out.new) result }
{
    match walker.roster.accept_bytes(bytes, &walker.limits) {
        Ok(accepted) => {
            let Err(halt) = walker
                .analysis
                .accept(number, bytes, &accepted, &walker.roster, out, steps)
            else {
                return Ok(Taken::Accepted);
            };
            Err(halt)
        }
        Err(BytesRefused::BadLine) => {
            walker.refused = Some(TraceCause::BadLine);
            Ok(Taken::Refused)
        }
        Err(BytesRefused::Cause(cause)) => {
            walker.refused = Some(TraceCause::Wf(cause));
            Ok(Taken::Refused)
        }
        Err(BytesRefused::NoMemory) => Err(Halt::NoMemory),
    }
}
