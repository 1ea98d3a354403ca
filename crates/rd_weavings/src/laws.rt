//! The laws of weavings.
ghost use Rattle.std.specs.Prelude.{◌≡◌, ◌≢◌, ◌⊎◌, ◌↔◌, ◌<◌, ◌+◌, ℕ, Bool, List, [], ◌∷◌, ◌++◌, Some, IsTrue, length, slice_get, take};
ghost use Rattle.rd_order.specs.Order.{Reaches};
ghost use Rattle.rd_event.specs.declared.events.Event.TheVariants.{Fork, Join, Acquire, Release};
ghost use Rattle.rd_event.specs.declared.events.Call.{Call as CallOf};
ghost use Rattle.rd_races.specs.Races.{Racing};
ghost use Rattle.rd_weavings.specs.Alike.{AreAlike};
ghost use Rattle.rd_weavings.specs.Samples.{a_call, a_log, at, log, main_log, numbered, unnumbered};
ghost use Rattle.rd_weavings.specs.WeaveTests.{counts_of, logs_of, may_give, placed_in, turns_left, woven_first};
ghost use Rattle.rd_weavings.specs.declared.spots.Spot.{Spot};
ghost use Rattle.rd_weavings.specs.Logs.{AreLogs, IsSpot, Logs, IsPlaced, given, next_spot, woven};
ghost use Rattle.rd_weavings.specs.Turns.{IsWoken};
ghost use Rattle.rd_weavings.specs.Weavings.{ArePlaced, IsWeaving, HaveOwnThreads, MayGive};

/// Where the logs may be woven, and however events were placed so far, a log may give its next one while events are left; and where
/// none is left, what was placed is a weaving. So where no log may give its next one, and some are left, there is no weaving.
pub fn law_of_placing()
    ensures goes_on { (all : Logs) (spots whole : List Spot) → AreLogs all → ArePlaced all spots → IsWeaving all whole
        → ((s : Spot) → IsSpot all s → IsPlaced spots s) ⊎ ((log : ℕ) × MayGive all spots log) }
    ensures done { (all : Logs) (spots : List Spot) → AreLogs all → HaveOwnThreads all → ArePlaced all spots
        → ((s : Spot) → IsSpot all s → IsPlaced spots s) → IsWeaving all spots }
{}

/// What an event that is placed lets other logs give: a log that may give its next event then, and couldn't before, was waiting for that event. So who
/// keeps the logs that may give looks only at those that an event wakes.
pub fn law_of_turns()
    ensures woken { (all : Logs) (spots : List Spot) (log other : ℕ) → AreLogs all → HaveOwnThreads all → ArePlaced all spots → MayGive all spots log
        → other ≢ log → MayGive all (spots ++ next_spot spots log ∷ []) other → MayGive all spots other ⊎ IsWoken all spots log other }
{}

/// Where at each turn the first log that may gives its next event, until none may, a weaving was made, or there is none. Which log may is told by
/// a test.
pub fn law_of_first_turns()
    ensures told { (all : Logs) (spots : List Spot) (log : ℕ) → AreLogs all → ArePlaced all spots
        → (IsTrue (may_give all spots log) ↔ MayGive all spots log) }
    ensures woven { (all : Logs) → AreLogs all → HaveOwnThreads all
        → IsWeaving all (woven_first all) ⊎ ((whole : List Spot) → ¬ (IsWeaving all whole)) }
{}

/// What the turns leave: where nothing is left, a weaving was made, and where something is, there is none. Each event that is placed is the next one of
/// its log then, and one event fewer is left.
pub fn law_of_ends()
    ensures whole { (all : Logs) → AreLogs all → HaveOwnThreads all → turns_left all (woven_first all) ≡ 0 → IsWeaving all (woven_first all) }
    ensures stuck { (all : Logs) → AreLogs all → turns_left all (woven_first all) ≢ 0 → (spots : List Spot) → ¬ (IsWeaving all spots) }
    ensures left { (all : Logs) → turns_left all (woven_first all) + length (woven_first all) ≡ turns_left all [] }
    ensures next { (all : Logs) (s : Spot) (j : ℕ) → slice_get (woven_first all) j ≡ Some s
        → IsSpot all s × (s.log < length all.logs) × (s.place ≡ given (take j (woven_first all)) s.log) }
{}

/// Any two weavings of the same logs order the same events, and the same pairs of calls race, whichever commute.
pub fn law_of_weavings()
    ensures reaches { (all : Logs) (one other : List Spot) → AreLogs all → IsWeaving all one → IsWeaving all other
        → (s t : Spot) (i j k l : ℕ) → slice_get one i ≡ Some s → slice_get one j ≡ Some t → slice_get other k ≡ Some s → slice_get other l ≡ Some t
        → (Reaches (woven all one) i j ↔ Reaches (woven all other) k l) }
    ensures races { (commuting : CallOf → CallOf → Bool) (all : Logs) (one other : List Spot)
        → ((a b : CallOf) → a.kind ≡ b.kind → IsTrue (commuting a b) → IsTrue (commuting b a))
        → AreLogs all → IsWeaving all one → IsWeaving all other
        → (s t : Spot) (i j k l : ℕ) → slice_get one i ≡ Some s → slice_get one j ≡ Some t → slice_get other k ≡ Some s → slice_get other l ≡ Some t
        → Racing (λ a b. IsTrue (commuting a b)) (woven all one) i j
        → Racing (λ a b. IsTrue (commuting a b)) (woven all other) k l ⊎ Racing (λ a b. IsTrue (commuting a b)) (woven all other) l k }
{}

/// Logs that differ at most in which kinds, methods and values are called on their objects take the same turns.
pub fn law_of_alike_logs()
    ensures turns { (one other : Logs) → AreAlike one other → woven_first one ≡ woven_first other }
    ensures counts { (one other : Logs) (spots : List Spot) → AreAlike one other → counts_of one spots ≡ counts_of other spots }
{}

/// Logs that are woven, or not.
pub fn examples_of_weaving()
    // the worked row: main waits for its number, and joins a when its log is used up
    ensures row { placed_in (logs_of (main_log 2 ∷ a_log ∷ []) 1) 8 []
        ≡ at 0 0 ∷ at 1 0 ∷ at 1 1 ∷ at 1 2 ∷ at 0 1 ∷ at 0 2 ∷ at 0 3 ∷ at 0 4 ∷ [] }
    // two acquires of one number: main gives four events, and a none
    ensures stuck { counts_of (logs_of (main_log 1 ∷ a_log ∷ []) 1) (placed_in (logs_of (main_log 1 ∷ a_log ∷ []) 1) 8 []) ≡ 4 ∷ 0 ∷ [] }
    // an empty log; a lock of which the first acquire is missing
    ensures empty { placed_in (logs_of (log 0 [] ∷ []) 0) 1 [] ≡ [] }
    ensures no_first { counts_of (logs_of (log 0 (numbered (Acquire 0 0) 2 ∷ []) ∷ []) 0) (placed_in (logs_of (log 0 (numbered (Acquire 0 0) 2 ∷ []) ∷ []) 0) 1 []) ≡ 0 ∷ [] }
    // an acquire of a lock that the thread has is counted like any other
    ensures again { placed_in (logs_of (log 0 (numbered (Acquire 0 0) 1 ∷ numbered (Acquire 0 0) 2 ∷ unnumbered (Release 0 0) ∷ []) ∷ []) 0) 3 []
        ≡ at 0 0 ∷ at 0 1 ∷ at 0 2 ∷ [] }
    // a thread that is never begun can't be joined; one that is forked and has no log can
    ensures unknown { placed_in (logs_of (log 0 (unnumbered (Join 0 1) ∷ []) ∷ []) 0) 1 [] ≡ [] }
    ensures without_log { placed_in (logs_of (log 0 (unnumbered (Fork 0 1) ∷ unnumbered (Join 0 1) ∷ []) ∷ []) 0) 2 [] ≡ at 0 0 ∷ at 0 1 ∷ [] }
    // a thread that forks itself is no root; and one that two fork is forked once
    ensures own_fork { placed_in (logs_of (log 0 (unnumbered (Fork 0 0) ∷ []) ∷ []) 0) 1 [] ≡ [] }
    ensures two_forks { placed_in (logs_of (log 0 (unnumbered (Fork 0 2) ∷ []) ∷ log 1 (unnumbered (Fork 1 2) ∷ []) ∷ []) 0) 2 [] ≡ at 0 0 ∷ [] }
    // a call on an object that no log declares
    ensures undeclared { placed_in (logs_of (log 0 (unnumbered (a_call 0 3) ∷ []) ∷ []) 3) 1 [] ≡ [] }
{}
