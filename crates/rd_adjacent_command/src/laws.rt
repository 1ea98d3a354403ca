//! The law of `adjacent`: what its definition says, proved for all bytes.
ghost use Rattle.std.specs.Prelude.{ℕ, ◌<◌, ◌^◌, List};
ghost use Rattle.rd_adjacent_command.specs.Outcomes.{adjacent_outcome};
ghost use Rattle.rd_adjacent_command.specs.Reports.{IsAdjacentTrace};
ghost use Rattle.rd_base.specs.Limits.{AreUsable};
ghost use Rattle.rd_base.specs.declared.limits.Limits.{Limits};
ghost use Rattle.rd_io.specs.Lines.{Stop};
ghost use Rattle.rd_replay_command.specs.States.{built_in_kinds};
ghost use Rattle.rd_walk.specs.Walk.{trace_of};

/// What `adjacent` writes and answers, for all bytes of a trace, whatever the two lines and the limits within their ranges, and wherever the
/// reading of it ends. Where both are the lines of calls of which the earlier doesn't reach the later, the trace's lines are written, with the
/// events in a linear order in which these two are neighbours; where it does, the lines of the farthest path; else which line isn't that
/// of a call, or why a line was refused, or that a read failed.
pub fn law_of_adjacent_calls()
    ensures { (first second : ℕ) → first < second → (limits : Limits) → AreUsable limits →
        limits.threads < 2 ^ 32 → (stop : Stop) (bytes : List ℕ) →
        IsAdjacentTrace first second limits stop bytes
        (adjacent_outcome first second built_in_kinds (trace_of built_in_kinds limits stop bytes)) }
{}
