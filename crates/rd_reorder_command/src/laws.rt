//! The law of `reorder`: what its definition says, proved for all bytes.
ghost use Rattle.std.specs.Prelude.{ℕ, ◌<◌, ◌^◌, List};
ghost use Rattle.rd_base.specs.Limits.{AreUsable};
ghost use Rattle.rd_base.specs.declared.limits.Limits.{Limits};
ghost use Rattle.rd_io.specs.Lines.{Stop};
ghost use Rattle.rd_reorder_command.specs.Outcomes.{reorder_outcome};
ghost use Rattle.rd_reorder_command.specs.Reports.{IsReordered};
ghost use Rattle.rd_replay_command.specs.States.{built_in_kinds};
ghost use Rattle.rd_walk.specs.Walk.{trace_of};

/// What `reorder` writes and answers, for all bytes of a trace, whatever the number and the limits within their ranges, and wherever the
/// reading of it ends. The accepted lines are those that say an item which may follow, up to the first that doesn't. At the end of the trace
/// its lines are written, each as often as it was read but for those that are skipped, with the events in a linear order: one that reaches
/// another stands before it. Else it is told why a line was refused, or that a read failed.
pub fn law_of_reordering()
    ensures { (number : ℕ) (limits : Limits) → AreUsable limits → limits.threads < 2 ^ 32 →
        (stop : Stop) (bytes : List ℕ) →
        IsReordered limits stop bytes
        (reorder_outcome number built_in_kinds (trace_of built_in_kinds limits stop bytes)) }
{}
