//! The law of decimals.
ghost use Rattle.std.specs.Prelude.{◌≡◌, ◌↔◌, ◌≤◌, ◌<◌, ◌^◌, ℕ, List, Some};
ghost use Rattle.std.specs.Fmt.{decimal};
ghost use Rattle.rd_decimals.specs.Decimals.{number_read};

/// Bytes spell a number exactly where they are its decimal: so each number has one spelling.
pub fn law_of_decimals()
    ensures { (most number : ℕ) (bytes : List ℕ) → most < 2 ^ 64 →
        ((number_read most bytes ≡ Some number) ↔ ((number ≤ most) × (bytes ≡ decimal number))) }
{}
