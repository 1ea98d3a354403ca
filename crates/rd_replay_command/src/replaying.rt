//! The command `replay`.
ghost use Rattle.std.specs.Prelude.{[]};
ghost use Rattle.rd_base.specs.Limits.{AreUsable};
ghost use Rattle.rd_replay_command.specs.Meanings.{replay_meaning};
ghost use Rattle.rd_walk.specs.Meanings.{Ran, seen};
ghost use Rattle.rd_walk.specs.Output.{ended_status};

use crate::following::follow;
use crate::states::write_replay;
use rd_base::{Limits, Steps, Word};
use rd_io::{Inputs, Sink};
use rd_kinds::shipped;
use rd_replay::Replayer;
use rd_report::ending_of_report;
use rd_walk::{Analysis, Ended, Halt, Report, TraceLines, WalkEnd, Walker, report_trace};
use rd_wf::{Accepted, Roster};
use std::alloc::Global;
use std::mem;
use std::sync::ledger::Ledger;

/// Keeps the replay of the calls.
#[derive(Drop)]
pub(crate) struct Replaying {
    replayer: Replayer,
}

impl Replaying {
    ghost use Rattle.std.specs.Prelude.{[]};
    ghost use Rattle.rd_replay.specs.Replayer.{ReplayerStandsFor};

    /// The replay of no calls. It takes no memory.
    pub(crate) fn new(alloc: Global) -> Replaying
        ensures { ReplayerStandsFor result.replayer [] [] }
    {
        Replaying {
            replayer: Replayer::new(alloc),
        }
    }
}

impl Analysis for Replaying {
    ghost use Rattle.std.specs.Prelude.{[]};
    ghost use Rattle.std.proofs.Common.{refl};
    ghost use Rattle.rd_replay_command.specs.Replaying.{Replayed};

    ghost begins = { λ kinds start. Replayed kinds [] start.replayer };

    ghost leads = { λ kinds start entries now. Replayed kinds entries now.replayer };

    ghost text = { λ _ _ _. [] };

    ghost asks = { λ _ _. Unit {0} };

    ghost bound = { λ _ _ _ _. 0 };

    ghost starts = { λ kinds start begins. begins };

    ghost silent = { λ _ _. refl };

    ghost said = { λ _ _ _ _. tt };

    #[inline(always)]
    fn accept<S: Sink, L: Ledger>(
        &mut self,
        number: u64,
        _bytes: &[u8],
        accepted: &Accepted,
        _roster: &Roster,
        _out: &mut S,
        _steps: &mut Steps<L>,
    ) -> Result<(), Halt> {
        follow(&mut self.replayer, number, accepted)
    }

    fn law_of_skipped_lines(&self, _number: u64, _roster: &Roster) {}
}

impl Report for Replaying {
    ghost use Rattle.rd_io.specs.Inputs.{fault_line};
    ghost use Rattle.rd_replay_command.specs.States.{replay_outcome};

    ghost outcome = { λ kinds _ walked. replay_outcome kinds walked };

    ghost unopened = { λ _. fault_line };

    fn unopened_text(&self) -> &'static [u8] {
        b"fault input\n"
    }

    fn conclude<S: Sink>(
        &self,
        alloc: Global,
        names: &Roster,
        ending: WalkEnd,
        out: &mut S,
    ) -> Result<Ended, Halt> {
        let ending = ending_of_report(0, &self.replayer, ending)?;
        write_replay(alloc, names, &self.replayer, &ending, out)
    }

    fn law_of_outcomes(&self) {}
}

/// `replay TRACE`: writes how the replay of the calls ends, and where it is exact what each object holds, or why a line of the trace is
/// refused, or that the trace can't be opened or read.
pub fn replay<I: Inputs, S: Sink, L: Ledger>(
    alloc: Global,
    trace: &Word,
    inputs: &mut I,
    out: &mut S,
    limits: &Limits,
    steps: &mut Steps<L>,
) -> Result<Ended, Halt>
    requires { AreUsable limits.now }
    ensures { Ran (replay_meaning trace.now) limits.now
        (seen I.told I.faults inputs.old S.written S.faults S.at_fault out.old steps.old)
        (seen I.told I.faults inputs.new S.written S.faults S.at_fault out.new steps.new)
        (ended_status result) }
{
    let spec = shipped(alloc)?;
    let mut walker = Walker::new(alloc, limits, &spec, Replaying::new(alloc))?;
    let ended = report_trace(&TraceLines, &mut walker, trace, inputs, out, steps);
    // what the walk held is left to the end of the process, which takes it back at once
    mem::forget(walker);
    ended
}
