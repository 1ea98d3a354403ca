//! The laws of weaving, from the texts of logs.
ghost use Rattle.std.specs.Prelude.{◌≡◌, ◌⊎◌, ◌<◌, ◌↔◌, ℕ, List, Ok, Err, Some, slice_get};
ghost use Rattle.rd_ecl.specs.Kinds.{Kind, kinds_of};
ghost use Rattle.rd_ecl.specs.Specified.{SpecifiedKind};
ghost use Rattle.rd_event.specs.declared.items.Line.{Line as LineOf};
ghost use Rattle.rd_logs.specs.WholeLogs.{LogRecord, log_of};
ghost use Rattle.rd_numbered_logs.specs.LogsUnder.{logs_under};
ghost use Rattle.rd_order.specs.Order.{Reaches};
ghost use Rattle.rd_races.specs.Commuting.{Commute};
ghost use Rattle.rd_races.specs.Races.{Racing};
ghost use Rattle.rd_weave.specs.Answers.{BadLine, records_of, weave_answer, woven_lines};
ghost use Rattle.rd_weave.specs.Answers.WeaveAnswer.{Bad, Stuck, Woven};
ghost use Rattle.rd_weave.specs.Woven.{IsWovenFrom};
ghost use Rattle.rd_weavings.specs.declared.spots.Spot.{Spot as SpotOf};
ghost use Rattle.rd_weavings.specs.Logs.{woven};

use rd_numbered_logs::law_of_numbers;
use rd_races::law_of_commuting;
use rd_weavings::{law_of_alike_logs, law_of_ends, law_of_weavings};

/// What each answer to the texts of logs says. Lines are those of a weaving, under every specification. Where the answer is that the logs are stuck, there is
/// none. And a bad line is the first one of the first log that says none, where all logs before it say one.
pub fn law_of_answers()
    ensures woven { (texts : List (List ℕ)) (lines : List LineOf) → weave_answer texts ≡ Woven lines →
        (logs : List LogRecord) × (spots : List SpotOf) × (records_of texts ≡ Ok logs) × ((kinds : List Kind) → IsWovenFrom kinds logs spots) × (lines ≡ woven_lines logs spots) }
    ensures stuck { (texts : List (List ℕ)) (counts : List ℕ) → weave_answer texts ≡ Stuck counts →
        (logs : List LogRecord) × (records_of texts ≡ Ok logs) × ((kinds : List Kind) (spots : List SpotOf) → ¬ (IsWovenFrom kinds logs spots)) }
    ensures bad { (texts : List (List ℕ)) (bad : BadLine) → weave_answer texts ≡ Bad bad →
        (text : List ℕ) × (slice_get texts bad.log ≡ Some text) × (log_of text ≡ Err bad.line)
        × ((l : ℕ) (before : List ℕ) → l < bad.log → slice_get texts l ≡ Some before → (log : LogRecord) × (log_of before ≡ Ok log)) }
{
    law_of_numbers();
    law_of_alike_logs();
    law_of_ends();
}

/// Any two weavings of the same logs order the same events, and the same pairs of calls race, under every specification.
pub fn law_of_woven_logs()
    ensures reaches { (kinds : List Kind) (logs : List LogRecord) (one other : List SpotOf) → IsWovenFrom kinds logs one → IsWovenFrom kinds logs other
        → (s t : SpotOf) (i j k l : ℕ) → slice_get one i ≡ Some s → slice_get one j ≡ Some t → slice_get other k ≡ Some s → slice_get other l ≡ Some t
        → (Reaches (woven (logs_under kinds logs) one) i j ↔ Reaches (woven (logs_under kinds logs) other) k l) }
    ensures races { (kinds : List SpecifiedKind) (logs : List LogRecord) (one other : List SpotOf) → IsWovenFrom (kinds_of kinds) logs one → IsWovenFrom (kinds_of kinds) logs other
        → (s t : SpotOf) (i j k l : ℕ) → slice_get one i ≡ Some s → slice_get one j ≡ Some t → slice_get other k ≡ Some s → slice_get other l ≡ Some t
        → Racing (Commute kinds) (woven (logs_under (kinds_of kinds) logs) one) i j
        → Racing (Commute kinds) (woven (logs_under (kinds_of kinds) logs) other) k l ⊎ Racing (Commute kinds) (woven (logs_under (kinds_of kinds) logs) other) l k }
{
    law_of_numbers();
    law_of_weavings();
    law_of_commuting();
}
