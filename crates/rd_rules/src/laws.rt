//! The laws of the rules: what their definitions say, proved for every list of lines.
ghost use Rattle.std.specs.Prelude.{◌≡◌, ◌↔◌, ◌<◌, List, ℕ, MatchOption, length, slice_get, Contains, Some};
ghost use Rattle.rd_base.specs.declared.limits.Limits.{Limits as LimitsOf};
ghost use Rattle.rd_event.specs.declared.items.Line.{Line as LineOf};
ghost use Rattle.rd_event.specs.declared.items.Line.TheVariants as line;
ghost use Rattle.rd_event.specs.declared.items.LineEvent.TheVariants as spelled;
ghost use Rattle.rd_event.specs.declared.events.Event.TheVariants as event;
ghost use Rattle.rd_order.specs.EventLists.{IsKnownThread, WellFormedWith, calls, givings, joins, takings};
ghost use Rattle.rd_order.specs.Order.{exclusive, shared};
ghost use Rattle.rd_rules.specs.declared.causes.Accepted.TheVariants as accepted;
ghost use Rattle.rd_rules.specs.Events.{AreAccepted, events_of, roots_of};
ghost use Rattle.rd_ecl.specs.Kinds.{Kind};
ghost use Rattle.rd_rules.specs.MayFollow.{IsBrokenFirst, MayFollow, accepted_of, acquires, events, first_broken, joined_of, locks_of, object_kinds, place, releases, shares, threads_of, unshares};

use crate::causes::WfCause;

/// The rules and their test say the same: the test answers nothing exactly where the line may
/// follow, and else the one cause whose part the line breaks first.
pub fn law_of_following()
    ensures test { (kinds : List Kind) (limits : LimitsOf) (before : List LineOf) (line : LineOf) →
        MatchOption (first_broken kinds limits before line) (MayFollow kinds limits before line)
        (IsBrokenFirst kinds limits before line) }
    ensures apart { (kinds : List Kind) (limits : LimitsOf) (before : List LineOf) (line : LineOf) →
        MayFollow kinds limits before line → (cause : WfCause) →
        ¬ (IsBrokenFirst kinds limits before line cause) }
    ensures only { (kinds : List Kind) (limits : LimitsOf) (before : List LineOf) (line : LineOf)
        (cause : WfCause) →
        IsBrokenFirst kinds limits before line cause →
        first_broken kinds limits before line ≡ Some cause }
{}

/// The events of accepted lines are a well-formed list for the kinds and for the threads that no
/// event begins, as many as the lines of events. Its known threads are those of the lines, and its
/// joined ones those that the lines join. All calls on an object are of the kind that its line
/// declares. A thread takes and gives back a lock as often as the lines with their names acquire and
/// release it, and a share of it as often as they share and unshare it. A lock that is acquired or shared
/// for the first time has the next number.
pub fn law_of_events()
    // the events are well formed, and counted
    ensures formed { (kinds : List Kind) (lines : List LineOf) → AreAccepted kinds lines →
        WellFormedWith kinds (roots_of lines) (events_of kinds lines) }
    ensures count { (kinds : List Kind) (lines : List LineOf) → AreAccepted kinds lines →
        length (events_of kinds lines) ≡ events lines }

    // threads and objects
    ensures known { (kinds : List Kind) (lines : List LineOf) → AreAccepted kinds lines → (t : ℕ) →
        (IsKnownThread (roots_of lines) (events_of kinds lines) t ↔ (t < length (threads_of lines))) }
    ensures ended { (kinds : List Kind) (lines : List LineOf) → AreAccepted kinds lines → (t : ℕ) →
        ((0 < joins (events_of kinds lines) t)
        ↔ ((name : List ℕ) × (slice_get (threads_of lines) t ≡ Some name)
        × Contains (joined_of lines) name)) }
    ensures one_kind { (kinds : List Kind) (lines : List LineOf) → AreAccepted kinds lines →
        (object kind : ℕ) →
        0 < calls (events_of kinds lines) object kind →
        slice_get (object_kinds kinds lines) object ≡ Some kind }

    // locks
    ensures taken { (kinds : List Kind) (lines : List LineOf) → AreAccepted kinds lines →
        (t l : ℕ) (thread lock : List ℕ) →
        slice_get (threads_of lines) t ≡ Some thread → slice_get (locks_of lines) l ≡ Some lock →
        takings (events_of kinds lines) t (exclusive l) ≡ acquires lines thread lock }
    ensures given { (kinds : List Kind) (lines : List LineOf) → AreAccepted kinds lines →
        (t l : ℕ) (thread lock : List ℕ) →
        slice_get (threads_of lines) t ≡ Some thread → slice_get (locks_of lines) l ≡ Some lock →
        givings (events_of kinds lines) t (exclusive l) ≡ releases lines thread lock }
    ensures shares_taken { (kinds : List Kind) (lines : List LineOf) → AreAccepted kinds lines →
        (t l : ℕ) (thread lock : List ℕ) →
        slice_get (threads_of lines) t ≡ Some thread → slice_get (locks_of lines) l ≡ Some lock →
        takings (events_of kinds lines) t (shared l) ≡ shares lines thread lock }
    ensures shares_given { (kinds : List Kind) (lines : List LineOf) → AreAccepted kinds lines →
        (t l : ℕ) (thread lock : List ℕ) →
        slice_get (threads_of lines) t ≡ Some thread → slice_get (locks_of lines) l ≡ Some lock →
        givings (events_of kinds lines) t (shared l) ≡ unshares lines thread lock }
    ensures numbered { (kinds : List Kind) (before : List LineOf) (thread lock : List ℕ) →
        ¬ (Contains (locks_of before) lock) →
        accepted_of kinds before (line.Event (spelled.Acquire thread lock)) ≡ accepted.Event
        (event.Acquire (place (threads_of before) thread) (length (locks_of before))) }
    ensures shared_first { (kinds : List Kind) (before : List LineOf) (thread lock : List ℕ) →
        ¬ (Contains (locks_of before) lock) →
        accepted_of kinds before (line.Event (spelled.Share thread lock)) ≡ accepted.Event
        (event.Share (place (threads_of before) thread) (length (locks_of before))) }
{}
