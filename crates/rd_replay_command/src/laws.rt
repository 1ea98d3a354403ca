//! The law of the reports of `replay`: what their definition says, proved for all bytes.
ghost use Rattle.std.specs.Prelude.{ℕ, ◌<◌, ◌^◌, List};
ghost use Rattle.rd_base.specs.Limits.{AreUsable};
ghost use Rattle.rd_base.specs.declared.limits.Limits.{Limits};
ghost use Rattle.rd_io.specs.Lines.{Stop};
ghost use Rattle.rd_replay_command.specs.Reports.{IsReplayed};
ghost use Rattle.rd_replay_command.specs.States.{built_in_kinds, replay_outcome};
ghost use Rattle.rd_walk.specs.Walk.{trace_of};

/// What `replay` writes and answers, for all bytes of a trace, whatever the limits within their ranges, and wherever the reading of it ends. The
/// accepted lines are those that say an item which may follow, up to the first that doesn't; at the end of the trace it is told whether each
/// object's calls give what was recorded, or which line has the first that doesn't, and what the object gives there; and where all do, what each object
/// holds. Else it is told why a line was refused, or that a read failed.
pub fn law_of_replay_reports()
    ensures { (limits : Limits) → AreUsable limits → limits.threads < 2 ^ 32 →
        (stop : Stop) (bytes : List ℕ) →
        IsReplayed limits stop bytes
        (replay_outcome built_in_kinds (trace_of built_in_kinds limits stop bytes)) }
{}
