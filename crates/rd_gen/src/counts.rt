//! How many lines and calls a generated trace has.
ghost use Rattle.std.specs.Prelude.{◌≡◌, ◌≤◌, ℕ, count_by, length};
ghost use Rattle.rd_gen.specs.Counts.{is_call_line};
ghost use Rattle.rd_gen.specs.Generated.{generated};
ghost use Rattle.rd_gen.specs.declared.counts.TheConstants.{MOST_CALLS};

/// How many calls a generated trace has at most, beside its last.
pub const MOST_CALLS: u32 = 10_000_000;

/// How many lines the trace of this number with so many calls has: at most 30,000,012.
pub fn lines_in(number: u64, count: u32) -> u32
    requires { count ≤ MOST_CALLS }
    ensures { result ≡ length (generated number count) }
{
    if number % 2 == 0 {
        12 + 3 * count
    } else {
        12 + count
    }
}

/// How many of its lines are calls, whatever its number: the last one is counted too.
pub fn calls_in(count: u32) -> u32
    requires { count ≤ MOST_CALLS }
    ensures { (number : ℕ) → result ≡ count_by is_call_line (generated number count) }
{
    count + 1
}
