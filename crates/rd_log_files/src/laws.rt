//! The law of the limits that logs pass.
ghost use Rattle.std.specs.Prelude.{◌≡◌, ◌↔◌, ℕ, ◌-◌, ◌≤◌, ◌++◌, List, Some, None, length, take};
ghost use Rattle.rd_base.specs.declared.limits.Limits.{Limits};
ghost use Rattle.rd_log_files.specs.Gathered.{AreWithin, first_limit};
ghost use Rattle.rd_log_files.specs.declared.unread.LogLimit.{LogLimit};

/// The law of the limits that logs pass. They pass none exactly where the lines of each end by none and there are in all no more lines that aren't skipped than
/// may be. The first that they pass is that of one of the logs, in front of which they pass none, and it doesn't depend on those behind it.
pub fn law_of_log_limits()
    ensures none { (limits : Limits) (logs : List (List ℕ)) → (first_limit limits logs ≡ None ↔ AreWithin limits logs) }
    ensures front { (limits : Limits) (logs : List (List ℕ)) (passed : LogLimit) → first_limit limits logs ≡ Some passed →
        first_limit limits (take (passed.log - 1) logs) ≡ None }
    ensures behind { (limits : Limits) (logs more : List (List ℕ)) (passed : LogLimit) → first_limit limits logs ≡ Some passed →
        first_limit limits (logs ++ more) ≡ Some passed }
    ensures place { (limits : Limits) (logs : List (List ℕ)) (passed : LogLimit) → first_limit limits logs ≡ Some passed →
        (1 ≤ passed.log) × (passed.log ≤ length logs) × (1 ≤ passed.line) }
{}
