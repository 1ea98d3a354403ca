//! The laws of races: what their definitions say, proved for every list of events.
ghost use Rattle.std.specs.Prelude.{◌≡◌, ◌↔◌, Bool, ℕ, ◌<◌, List, ◌++◌, length, MatchOption, IsTrue};
ghost use Rattle.rd_races.specs.Commuting.{Commute};
ghost use Rattle.rd_ecl.specs.Specified.{SpecifiedKind};
ghost use Rattle.rd_races.specs.RaceTests.{Passing, is_racing, latest_of};
ghost use Rattle.rd_races.specs.Races.{Racing, Reported, IsLatest};
ghost use Rattle.rd_event.specs.declared.events.Call.{Call as CallOf};
ghost use Rattle.rd_event.specs.declared.events.Event.{Event as EventOf};

/// Whichever calls commute: a test tells whether calls race, and another which is the latest that races with a call, of which there
/// is one at most. Events that are appended leave races as they are.
pub fn law_of_races()
    ensures racing { (commuting : CallOf → CallOf → Bool) (es : List EventOf) (i j : ℕ) →
        (IsTrue (is_racing commuting es i j) ↔ Racing (Passing commuting) es i j) }
    ensures latest { (commuting : CallOf → CallOf → Bool) (es : List EventOf) (j : ℕ) →
        MatchOption (latest_of commuting es j) (¬ (Reported (Passing commuting) es j))
        (IsLatest (Passing commuting) es j) }
    ensures one { (commuting : CallOf → CallOf → Bool) (es : List EventOf) (j i k : ℕ) →
        IsLatest (Passing commuting) es j i → IsLatest (Passing commuting) es j k → i ≡ k }
    ensures growth { (commuting : CallOf → CallOf → Bool) (es fs : List EventOf) (i j : ℕ) →
        j < length es →
        (Racing (Passing commuting) (es ++ fs) i j ↔ Racing (Passing commuting) es i j) }
{}

/// Calls of one kind commute both ways.
pub fn law_of_commuting()
    ensures { (kinds : List SpecifiedKind) (a b : CallOf) → a.kind ≡ b.kind → Commute kinds a b →
        Commute kinds b a }
{}
