//! The laws of generated traces.
ghost use Rattle.std.specs.Prelude.{◌≡◌, ◌<◌, ◌^◌, ℕ, Bool};
ghost use Rattle.rd_base.specs.Limits.{AreUsable};
ghost use Rattle.rd_base.specs.declared.limits.Limits.{Limits};
ghost use Rattle.rd_ecl.specs.Kinds.{kinds_of};
ghost use Rattle.rd_gen_command.specs.GeneratedWalks.{generated_walk};
ghost use Rattle.rd_gen_command.specs.Meanings.{gen_check_meaning};
ghost use Rattle.rd_gen_laws.specs.WellEnded.{IsGeneratedStatus, IsWellEnded};
ghost use Rattle.rd_io.specs.Inputs.{Source};
ghost use Rattle.rd_kinds.specs.Shipped.{shipped_kinds};
ghost use Rattle.rd_check_command.specs.Checked.{races_of};
ghost use Rattle.rd_check_command.specs.Verdicts.{AreDeterministic};
ghost use Rattle.rd_replay_command.specs.Replaying.{replay_of};
ghost use Rattle.rd_replay_command.specs.States.{built_in_kinds};
ghost use Rattle.rd_walk.specs.Output.{Outcome};
ghost use Rattle.rd_walk.specs.Walk.{entries_of};

use rd_check_command::law_of_verdicts;
use rd_object::ReplayEnd;

/// The verdict on a generated trace, whose lines are judged like any others: where no call is reported, its events are deterministic.
pub fn law_of_generated_verdicts()
    ensures { (limits : Limits) (number count : ℕ) → AreUsable limits → limits.threads < 2 ^ 32 →
        races_of shipped_kinds (entries_of (generated_walk built_in_kinds limits number count)) ≡ 0 →
        AreDeterministic shipped_kinds (entries_of (generated_walk built_in_kinds limits number count)) }
{
    law_of_verdicts();
}

/// Of the lines of a generated trace only a limit can refuse one: each other rule on what may follow is met, whatever the number, and
/// the walk over them comes to the end where no limit is passed.
pub fn law_of_generated_lines()
    ensures { (limits : Limits) (number count : ℕ) →
        IsWellEnded (generated_walk (kinds_of shipped_kinds) limits number count) }
{}

/// The replay of a generated trace is exact, whatever the number: each call gives what was recorded, up to the line that a limit refuses,
/// where one does. So `gen` never answers that a call differs from its record, nor that a line breaks another rule.
pub fn law_of_generated_replays()
    ensures exact { (limits : Limits) (number count : ℕ) →
        replay_of built_in_kinds (entries_of (generated_walk built_in_kinds limits number count)) ≡ ReplayEnd.Exact }
    ensures status { (limits : Limits) (number count : ℕ) (rose : Bool) (old new : Source) (outcome : Outcome) →
        (gen_check_meaning number count).outcome limits rose old new outcome →
        IsGeneratedStatus outcome.status }
{}
