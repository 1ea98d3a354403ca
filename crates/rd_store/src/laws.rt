//! The laws of stores.
ghost use Rattle.std.specs.Prelude.{◌≡◌, ◌+◌, ◌<◌, ◌≤◌, ℕ, List, length, Some};
ghost use Rattle.rd_store.specs.Stores.{Cell, HasOneEach, cell_of, others_of};
ghost use Rattle.rd_store.specs.declared.Witness.{Witness as WitnessOf};

/// The law of stores: where each thread has one cell at most and there are no more threads than that, there are no more
/// cells, and one less of others than any of these threads.
pub fn law_of_stores()
    ensures few { (cells : List Cell) (n : ℕ) → HasOneEach cells
        → ((thread : ℕ) (seen : WitnessOf) → cell_of cells thread ≡ Some seen → thread < n)
        → length cells ≤ n }
    ensures others { (cells : List Cell) (n thread : ℕ) → HasOneEach cells
        → ((other : ℕ) (seen : WitnessOf) → cell_of cells other ≡ Some seen → other < n)
        → thread < n → others_of cells thread + 1 ≤ n }
{}
