//! How a report ends, by the walk and the replay, and its status.
ghost use Rattle.std.specs.Prelude.{◌≡◌, ◌≢◌, ◌↔◌, ℕ, List, Ok, IfOk};
ghost use Rattle.rd_walk.specs.Output.{IsTraceEnd, ended_status};
ghost use Rattle.rd_replay.specs.Replays.{Recorded, replay_end};
ghost use Rattle.rd_replay.specs.Replayer.{ReplayerStandsFor};
ghost use Rattle.rd_report.specs.Endings.{check_status, is_limit, is_shown, replay_status, ending_of_report};

use crate::endings::Ending;
use rd_base::NoMemory;
use rd_object::ReplayEnd;
use rd_replay::Replayer;
use rd_walk::{Ended, WalkEnd};
use rd_wf::{TraceCause, WfCause};

fn is_limit(cause: TraceCause) -> bool
    ensures { result ≡ is_limit cause }
{
    matches!(
        cause,
        TraceCause::Limit(_, _) | TraceCause::Wf(WfCause::Limit(_, _))
    )
}

/// How a replay ended that was written.
fn replay_status(replay: &ReplayEnd) -> Ended
    ensures status { ended_status (Ok result) ≡ replay_status replay.now }
    ensures ends { IsTraceEnd result }
    ensures read { result ≢ Ended.InputFault }
{
    match replay {
        ReplayEnd::Differs { .. } => Ended::ReplayDiffers,
        ReplayEnd::Exact | ReplayEnd::NotShipped => Ended::Clean,
    }
}

/// Is it shown that every order of the events which keeps what comes before what ends the same?
fn is_shown(races: u64, replay: &ReplayEnd) -> bool
    ensures { result ≡ is_shown races replay.now }
{
    match replay {
        ReplayEnd::Exact => races == 0,
        ReplayEnd::Differs { .. } | ReplayEnd::NotShipped => false,
    }
}

/// How a trace ends that was read to its end, by the number of reported calls and what the replayer was told.
fn end_of_report(races: u64, replayer: &Replayer) -> Result<Ending, NoMemory>
    ensures reported { IfOk result
        (λ report. (kinds : List ℕ) (calls : List Recorded) → ReplayerStandsFor replayer.now kinds calls →
        report ≡ ending_of_report races (replay_end kinds calls) WalkEnd.End) }
    ensures no_fault { IfOk result (λ report. report ≢ Ending.Fault) }
{
    let replay = replayer.end()?;
    let shown = is_shown(races, &replay);
    Ok(Ending::End { replay, shown })
}

/// How a report ends, by the number of reported calls, how the walk ends and what the replayer was told.
pub fn ending_of_report(
    races: u64,
    replayer: &Replayer,
    ending: WalkEnd,
) -> Result<Ending, NoMemory>
    ensures reported { IfOk result
        (λ report. (kinds : List ℕ) (calls : List Recorded) → ReplayerStandsFor replayer.now kinds calls →
        report ≡ ending_of_report races (replay_end kinds calls) ending) }
    ensures fault { IfOk result (λ report. (report ≡ Ending.Fault) ↔ (ending ≡ WalkEnd.Fault)) }
{
    Ok(match ending {
        WalkEnd::End => end_of_report(races, replayer)?,
        WalkEnd::Refused { line, cause } => Ending::Refused { line, cause },
        WalkEnd::Fault => Ending::Fault,
    })
}

/// How a check ended that wrote all, or a replay, which reports no call.
#[tactic(auto, unfolding(crate::specs::Endings::check_status))]
pub fn check_status(races: u64, ending: &Ending) -> Ended
    ensures status { ended_status (Ok result) ≡ check_status races ending.now }
    ensures ends { IsTraceEnd result }
    ensures input { (result ≡ Ended.InputFault) ↔ (ending.now ≡ Ending.Fault) }
{
    match ending {
        Ending::End { replay, .. } => {
            if races == 0 {
                replay_status(replay)
            } else {
                Ended::Raced
            }
        }
        Ending::Refused { line: _, cause } => {
            if is_limit(*cause) {
                Ended::LimitReached
            } else {
                Ended::TraceRefused
            }
        }
        Ending::Fault => Ended::InputFault,
    }
}
