//! The law of `epochs`: what its definition says, proved for all bytes.
ghost use Rattle.std.specs.Prelude.{ℕ, ◌<◌, ◌^◌, List};
ghost use Rattle.rd_base.specs.Limits.{AreUsable};
ghost use Rattle.rd_base.specs.declared.limits.Limits.{Limits};
ghost use Rattle.rd_epochs_command.specs.Firsts.{epochs_outcome};
ghost use Rattle.rd_epochs_command.specs.Reports.{IsEpochsReport};
ghost use Rattle.rd_epochs_command.specs.Watching.{memory_kinds};
ghost use Rattle.rd_io.specs.Lines.{Stop};
ghost use Rattle.rd_memory.specs.MemoryTraces.{memory_says};
ghost use Rattle.rd_walk.specs.Walk.{trace_by};

/// What `epochs` writes and answers, for all bytes of a trace of reads and writes, whatever the limits within their ranges, and wherever the reading
/// of it ends: the first race of exactly those variables on which some access is reported, each with the latest access that races with it, in their
/// order; how many they are; and why a line was refused, or that a read failed.
pub fn law_of_first_races()
    ensures { (limits : Limits) → AreUsable limits → limits.threads < 2 ^ 32 → (stop : Stop) (bytes : List ℕ) →
        IsEpochsReport limits stop bytes (epochs_outcome (trace_by memory_says memory_kinds limits stop bytes)) }
{}
