//! The laws of accesses.
ghost use Rattle.std.specs.Prelude.{◌≡◌, ◌≢◌, ◌↔◌, ℕ, ◌<◌, ◌≤◌, Bool, false, List, [], ◌∷◌, ◌++◌, Some, length, slice_get};
ghost use Rattle.rd_ecl.specs.Kinds.{kinds_of};
ghost use Rattle.rd_event.specs.declared.events.Call.{Call as CallOf};
ghost use Rattle.rd_event.specs.declared.events.Event.{Event as EventOf};
ghost use Rattle.rd_event.specs.declared.events.Event.TheVariants as event;
ghost use Rattle.rd_hb.specs.Tracker.{Tracking, TrackerStandsFor};
ghost use Rattle.rd_order.specs.EventLists.{WellFormedWith};
ghost use Rattle.rd_races.specs.Commuting.{Commute};
ghost use Rattle.rd_epoch.specs.Accesses.{variable_kinds};
ghost use Rattle.rd_epoch.specs.Epochs.{EpochsStandFor, HeldAccesses, held_at};

/// Two accesses commute exactly where both are reads.
pub fn law_of_accesses()
    ensures { (a b : CallOf) → a.kind ≡ 0 → b.kind ≡ 0 → a.method < 2 → b.method < 2
        → (Commute variable_kinds a b ↔ ((a.method ≡ 0) × (b.method ≡ 0))) }
{}

/// What is held stands for the list with an event that is no access too, and needs no call for it. A variable has at most as many open reads as
/// there are known threads.
pub fn law_of_epochs()
    ensures few { (held : List HeldAccesses) (roots : ℕ → Bool) (lines : List ℕ) (es : List EventOf) (tracking : Tracking) (variable : ℕ)
        → EpochsStandFor held roots lines es → TrackerStandsFor tracking roots es
        → (held_at held variable).raced ≡ false → length (held_at held variable).reads ≤ length tracking.threads }
    ensures events { (held : List HeldAccesses) (roots : ℕ → Bool) (lines : List ℕ) (es : List EventOf) (line : ℕ) (e : EventOf)
        → ((call : CallOf) → e ≢ event.Call call)
        → WellFormedWith (kinds_of variable_kinds) roots (es ++ e ∷ [])
        → ((k l : ℕ) → slice_get lines k ≡ Some l → l < line)
        → EpochsStandFor held roots lines es
        → EpochsStandFor held roots (lines ++ line ∷ []) (es ++ e ∷ []) }
{}
