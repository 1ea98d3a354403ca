//! What a detector stands for, beside calls.
ghost use Rattle.std.specs.Prelude.{◌≢◌, Bool, ℕ, List, [], ◌∷◌, ◌++◌, Option};
ghost use Rattle.rd_detect.specs.Covers.{CoversStandFor};
ghost use Rattle.rd_detect.specs.Detect.{Detecting, DetectorStandsFor};
ghost use Rattle.rd_detect.specs.declared.covers.Epoch.{Epoch as EpochOf};
ghost use Rattle.rd_ecl.specs.Kinds.{kinds_of};
ghost use Rattle.rd_ecl.specs.Specified.{SpecifiedKind};
ghost use Rattle.rd_event.specs.declared.events.Call.{Call as CallOf};
ghost use Rattle.rd_event.specs.declared.events.Event.{Event as EventOf};
ghost use Rattle.rd_event.specs.declared.events.Event.TheVariants as event;
ghost use Rattle.rd_order.specs.EventLists.{WellFormedWith};
ghost use Rattle.rd_store.specs.Stores.{PointCells};

/// What a detector stands for: an event that is no call leaves it, and it stands for the list with that event too; before the first event the roots may be
/// others.
pub fn law_of_detectors()
    ensures events { (kinds : List SpecifiedKind) (detecting : Detecting) (roots : ℕ → Bool)
        (lines : List ℕ) (es : List EventOf) (line : ℕ) (e : EventOf) →
        ((call : CallOf) → e ≢ event.Call call) →
        WellFormedWith (kinds_of kinds) roots (es ++ e ∷ []) →
        DetectorStandsFor kinds detecting roots lines es →
        DetectorStandsFor kinds detecting roots (lines ++ line ∷ []) (es ++ e ∷ []) }
    ensures roots { (kinds : List SpecifiedKind) (detecting : Detecting) (roots others : ℕ → Bool) →
        WellFormedWith (kinds_of kinds) others [] →
        DetectorStandsFor kinds detecting roots [] [] →
        DetectorStandsFor kinds detecting others [] [] }
{}

/// What is known of points beside their cells stays so when events follow; at first nothing is.
pub fn law_of_covers()
    ensures events { (es : List EventOf) (e : EventOf) (store : List PointCells) (covers : List (Option EpochOf)) →
        CoversStandFor es store covers → CoversStandFor (es ++ e ∷ []) store covers }
    ensures none { (es : List EventOf) (store : List PointCells) → CoversStandFor es store [] }
{}
