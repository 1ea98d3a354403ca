//! The laws of reports: what their definitions say, proved for all bytes and for every list of events.
ghost use Rattle.std.specs.Prelude.{◌≡◌, ◌↔◌, ℕ, ◌<◌, ◌^◌, List, ◌++◌, length};
ghost use Rattle.rd_base.specs.Bytes.{IsFront};
ghost use Rattle.rd_base.specs.Limits.{AreUsable};
ghost use Rattle.rd_base.specs.declared.limits.Limits.{Limits};
ghost use Rattle.rd_races.specs.Races.{Reported};
ghost use Rattle.rd_races.specs.Commuting.{Commute};
ghost use Rattle.rd_json.specs.declared.forms.Form.{Form};
ghost use Rattle.rd_io.specs.Lines.{Stop};
ghost use Rattle.rd_io.specs.Lines.Stop.{fault};
ghost use Rattle.rd_check_command.specs.Checked.{check_outcome, entries_race, entry_events, race_texts, races_of};
ghost use Rattle.rd_object.specs.declared.shapes.Expected.{Expected as ExpectedOf};
ghost use Rattle.rd_replay_command.specs.Replaying.{replay_of};
ghost use Rattle.rd_check_command.specs.Reports.{IsChecked, IsReport};
ghost use Rattle.rd_check_command.specs.Verdicts.{AreDeterministic};
ghost use Rattle.rd_kinds.specs.Shipped.{shipped_kinds};
ghost use Rattle.rd_rules.specs.Events.{AreAccepted};
ghost use Rattle.rd_walk.specs.Walk.{Entry, Walked, ending_of, entries_of, items, trace_of};
ghost use Rattle.rd_ecl.specs.Kinds.{kinds_of};
ghost use Rattle.rd_ecl.specs.Specified.{SpecifiedKind};

use rd_linear::law_of_determinism;
use rd_object::ReplayEnd;
use rd_walk::{Status, WalkEnd};

/// What `check` writes in any form and answers, in the words of races. The texts of the races are, for each event of the accepted lines in
/// their order, nothing where no earlier call races with it, else the text of the race with the latest that does. The
/// count of races is 0 exactly where no call is reported. The status is `Raced` exactly where the trace was read to its
/// end and some call is reported, and `ReplayDiffers` exactly where it was read to its end, no call is reported, and in the replay a call
/// differs from its record.
pub fn law_of_reports()
    ensures report { (form : Form) (kinds : List SpecifiedKind) (entries : List Entry) →
        IsReport (Commute kinds) (entries_race form kinds entries) (entry_events kinds entries)
        (length (entry_events kinds entries)) (race_texts form kinds entries) }
    ensures none { (kinds : List SpecifiedKind) (entries : List Entry) →
        ((races_of kinds entries ≡ 0)
        ↔ ((j : ℕ) → ¬ (Reported (Commute kinds) (entry_events kinds entries) j))) }
    ensures raced { (form : Form) (kinds : List SpecifiedKind) (walked : Walked) →
        ((check_outcome form kinds walked).status ≡ Status.Raced
        ↔ ((ending_of walked ≡ WalkEnd.End)
        × ((j : ℕ) × Reported (Commute kinds) (entry_events kinds (entries_of walked)) j))) }
    ensures differs { (form : Form) (kinds : List SpecifiedKind) (walked : Walked) →
        ((check_outcome form kinds walked).status ≡ Status.ReplayDiffers
        ↔ ((ending_of walked ≡ WalkEnd.End)
        × (((j : ℕ) → ¬ (Reported (Commute kinds) (entry_events kinds (entries_of walked)) j))
        × ((line : ℕ) × (expected : ExpectedOf)
        × (replay_of (kinds_of kinds) (entries_of walked) ≡ ReplayEnd.Differs line expected))))) }
{}

/// The verdict: where no call of accepted lines is reported and their replay is exact, each order of their events that keeps what comes
/// before what is a well-formed list with the same events before one another, and its calls give the recorded results and lead the objects
/// to the same shapes. So it is of the kinds that are built in, and any others behind them.
pub fn law_of_verdicts()
    ensures { (more : List SpecifiedKind) (entries : List Entry) →
        AreAccepted (kinds_of (shipped_kinds ++ more)) (items entries) →
        races_of (shipped_kinds ++ more) entries ≡ 0 →
        replay_of (kinds_of (shipped_kinds ++ more)) entries ≡ ReplayEnd.Exact →
        AreDeterministic (shipped_kinds ++ more) entries }
{
    law_of_determinism();
}

/// The headline whole, for all bytes of a trace, whatever the form, the kinds of its objects and the limits within their ranges, and wherever the
/// reading of it ends. The outcome that `run` is proved to write and answer is this: the bytes are these lines; the accepted ones are those that
/// say an item which may follow, up to the first line that doesn't; the text has, for each event of theirs with which an earlier call races, the
/// text of the race with the latest that does, which tells both calls with their lines and clocks and the formula that they fail; then how many
/// calls are reported, and then how the replay of the calls ends and the verdict, or why a line was refused, or that a read failed; where the
/// verdict is `deterministic`, every order of the events that keeps what comes before what gives the same results and ends the same; and the
/// status is that of how the lines end, of whether a call is reported, and of the replay.
pub fn law_of_checks()
    ensures { (form : Form) (kinds : List SpecifiedKind) (limits : Limits) → AreUsable limits →
        limits.threads < 2 ^ 32 → (stop : Stop) (bytes : List ℕ) →
        IsChecked form kinds limits stop bytes
        (check_outcome form kinds (trace_of (kinds_of kinds) limits stop bytes)) }
{}

/// The texts of races that are written before a read fails are a front of what is written for the whole, whatever bytes were still to come.
pub fn law_of_faults()
    ensures { (form : Form) (kinds : List SpecifiedKind) (limits : Limits) → AreUsable limits →
        limits.threads < 2 ^ 32 → (stop : Stop) (bytes more : List ℕ) →
        IsFront (race_texts form kinds (entries_of (trace_of (kinds_of kinds) limits fault bytes)))
        (check_outcome form kinds (trace_of (kinds_of kinds) limits stop (bytes ++ more))).text }
{}
