//! The laws of names' numbers.
ghost use Rattle.std.specs.Prelude.{◌≡◌, ℕ, List, Some, true, slice_get};
ghost use Rattle.rd_ecl.specs.Kinds.{Kind};
ghost use Rattle.rd_logs.specs.declared.lines.LogEvent.{LogEvent as EventOf};
ghost use Rattle.rd_logs.specs.WholeLogs.{LogRecord};
ghost use Rattle.rd_numbered_logs.specs.LogNames.{IsMentioned, have_own_names, log_names};
ghost use Rattle.rd_numbered_logs.specs.LogsUnder.{logs_under};
ghost use Rattle.rd_rules.specs.MayFollow.{is_among, place};
ghost use Rattle.rd_weavings.specs.Alike.{AreAlike};
ghost use Rattle.rd_weavings.specs.Logs.{AreLogs};
ghost use Rattle.rd_weavings.specs.Weavings.{HaveOwnThreads};

/// Each thread, lock and object that logs name has a number, and no two of one sort have the same. What the logs say by them are logs, of which each has
/// a thread of its own where the names do, and which are alike under all specifications.
pub fn law_of_numbers()
    ensures apart { (names : List (List ℕ)) (one other : List ℕ) → is_among names one ≡ true → place names one ≡ place names other → one ≡ other }
    ensures thread { (logs : List LogRecord) (l : ℕ) (log : LogRecord) → slice_get logs l ≡ Some log → is_among (log_names logs).threads log.thread ≡ true }
    ensures event { (logs : List LogRecord) (l p : ℕ) (log : LogRecord) (noted : EventOf) → slice_get logs l ≡ Some log → slice_get log.events p ≡ Some noted
        → IsMentioned (log_names logs) noted.event }
    ensures logs { (kinds : List Kind) (logs : List LogRecord) → AreLogs (logs_under kinds logs) }
    ensures alike { (kinds other : List Kind) (logs : List LogRecord) → AreAlike (logs_under kinds logs) (logs_under other logs) }
    ensures own { (kinds : List Kind) (logs : List LogRecord) → have_own_names logs ≡ true → HaveOwnThreads (logs_under kinds logs) }
{}
