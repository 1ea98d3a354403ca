//! The laws of the order of events: what its definitions say, proved for every list of events.
ghost use Rattle.std.specs.Prelude.{◌≡◌, ◌≢◌, ◌↔◌, ℕ, ◌<◌, ◌≤◌, ◌==◌, ◌||◌, Bool, true, List, [], ◌∷◌, ◌++◌, length, take, Some, IsTrue, slice_get};
ghost use Rattle.rd_event.specs.declared.events.Call.{Call as CallOf};
ghost use Rattle.rd_event.specs.declared.events.Event.{Event};
ghost use Rattle.rd_event.specs.declared.events.Event.TheVariants.{Fork, Join, Acquire, Release, Share, Unshare, Call};
ghost use Rattle.rd_order.specs.Order.{Against, Edge, Hold, IsPath, Reaches, Unordered, Uses};
ghost use Rattle.rd_order.specs.OrderTests.{reaches};
ghost use Rattle.rd_order.specs.Paths.{IsFarthestPath, farthest_path};
ghost use Rattle.rd_order.specs.EventLists.{IsBounded, MayHappen, WellFormed, givings, implied_roots, takings};

/// Reaching is the least transitive relation that holds each edge. It leads to later places alone, a
/// test tells it, and events that are appended leave it as it is.
pub fn law_of_reaching()
    // the least order that has the edges
    ensures edges { (es : List Event) (i j : ℕ) → Edge es i j → Reaches es i j }
    ensures joins { (es : List Event) (i j k : ℕ) →
        Reaches es i j → Reaches es j k → Reaches es i k }
    ensures least { (es : List Event) (p : ℕ → ℕ → Bool) →
        ((i j : ℕ) → Edge es i j → IsTrue (p i j)) →
        ((i j k : ℕ) → IsTrue (p i j) → IsTrue (p j k) → IsTrue (p i k)) →
        (i j : ℕ) → Reaches es i j → IsTrue (p i j) }

    // it goes forward, and stays inside
    ensures rises { (es : List Event) (i j : ℕ) → Reaches es i j → i < j }
    ensures inside { (es : List Event) (i j : ℕ) → Reaches es i j → j < length es }

    // `reaches` tells it, and later events don't change it
    ensures test { (es : List Event) (i j : ℕ) → (IsTrue (reaches es i j) ↔ Reaches es i j) }
    ensures growth { (es fs : List Event) (i j : ℕ) → j < length es →
        (Reaches (es ++ fs) i j ↔ Reaches es i j) }
{}

/// A farthest path is a path, there is one alone, and where a place reaches another it is `farthest_path`.
pub fn law_of_farthest_paths()
    ensures path { (es : List Event) (places : List ℕ) (i j : ℕ) → i < j →
        IsFarthestPath es i places j → IsPath es i places j }
    ensures alone { (es : List Event) (places others : List ℕ) (i j : ℕ) →
        IsFarthestPath es i places j → IsFarthestPath es i others j → places ≡ others }
    ensures computed { (es : List Event) (i j : ℕ) → Reaches es i j →
        IsFarthestPath es i (farthest_path es i j) j }
{}

/// A list is well-formed exactly where each event may follow the events in front of it, and the bounds
/// hold. So it is with one event more exactly where that event may follow the list, within the bounds.
/// What is well-formed by some roots is so by those that it implies.
pub fn law_of_lists()
    ensures places { (roots : ℕ → Bool) (es : List Event) →
        (WellFormed roots es
        ↔ (((j : ℕ) (e : Event) → slice_get es j ≡ Some e → MayHappen roots (take j es) e)
        × IsBounded roots es)) }
    ensures growth { (roots : ℕ → Bool) (es : List Event) (e : Event) →
        (WellFormed roots (es ++ e ∷ [])
        ↔ (WellFormed roots es × MayHappen roots es e × IsBounded roots (es ++ e ∷ []))) }
    ensures implied { (roots : ℕ → Bool) (es : List Event) →
        WellFormed roots es → WellFormed (implied_roots es) es }
{}

/// The lock rule: of two events that take or give back holds against one another, such as two on one lock of which one at least is
/// no share, the earlier reaches the later. A hold is given back at most as often as it was taken, and while a thread has it no
/// other thread has one against it.
pub fn law_of_locks()
    ensures order { (roots : ℕ → Bool) (es : List Event) (i j : ℕ) (a b : Event) (h k : Hold) →
        WellFormed roots es → i < j →
        slice_get es i ≡ Some a → slice_get es j ≡ Some b → Uses a h → Uses b k → Against h k →
        Reaches es i j }
    ensures covered { (roots : ℕ → Bool) (es : List Event) (t : ℕ) (h : Hold) →
        WellFormed roots es → givings es t h ≤ takings es t h }
    ensures alone { (roots : ℕ → Bool) (es : List Event) (t u : ℕ) (h k : Hold) →
        WellFormed roots es → Against h k → t ≢ u →
        givings es t h < takings es t h → takings es u k ≡ givings es u k }
{}

/// Short lists in which an order holds or doesn't, and which are well-formed or not.
pub fn examples_of_order()
    ensures same_thread { Edge (Fork 0 1 ∷ Fork 0 2 ∷ []) 0 1 }
    ensures begins { Edge (Fork 0 1 ∷ Fork 1 2 ∷ []) 0 1 }
    ensures ends { Edge (Fork 1 2 ∷ Join 0 1 ∷ []) 0 1 }
    // A fork reaches a join of its child that is of another thread, where the child does nothing.
    ensures spans { Reaches (Fork 0 1 ∷ Fork 2 3 ∷ Join 2 1 ∷ []) 0 2 }
    // A release comes before the acquires of its lock behind it, and an acquire before no other thread's.
    ensures hands_over { Edge (Release 0 5 ∷ Acquire 1 5 ∷ []) 0 1 }
    ensures another_lock { Unordered (Release 0 5 ∷ Acquire 1 6 ∷ []) 0 1 }
    ensures acquired_twice { Unordered (Acquire 0 5 ∷ Acquire 1 5 ∷ []) 0 1 }
    // An unshare comes before the acquires of its lock behind it, and a release before the shares, but an unshare before no other
    // thread's share.
    ensures release_before_share { Edge (Release 0 5 ∷ Share 1 5 ∷ []) 0 1 }
    ensures unshare_before_acquire { Edge (Unshare 0 5 ∷ Acquire 1 5 ∷ []) 0 1 }
    ensures shares_apart { Unordered (Unshare 0 5 ∷ Share 1 5 ∷ []) 0 1 }
    ensures another_shared { Unordered (Unshare 0 5 ∷ Acquire 1 6 ∷ []) 0 1 }
    ensures by_two_edges { Reaches (Fork 0 1 ∷ Fork 1 2 ∷ Join 2 3 ∷ []) 0 2 }
    ensures apart { Unordered (Fork 0 1 ∷ Fork 2 3 ∷ []) 0 1 }
    // The thread that joins is ordered behind the one that it joins, and not the other way round.
    ensures not_back { Unordered (Join 0 1 ∷ Fork 1 2 ∷ []) 0 1 }

    // one list is well-formed, and the next ones are not
    ensures well_formed { WellFormed (λ t. t == 0)
        (Fork 0 1 ∷ Fork 1 2 ∷ Join 0 1 ∷ Join 0 2 ∷ []) }
    ensures too_many_roots { ¬ (WellFormed (λ t. true) []) }
    ensures unknown_actor { ¬ (WellFormed (λ t. t == 0) (Fork 1 2 ∷ [])) }
    ensures unknown_joined { ¬ (WellFormed (λ t. t == 0) (Join 0 1 ∷ [])) }

    // none begins twice, acts after its end, or joins itself
    ensures forked_twice { ¬ (WellFormed (λ t. t == 0) (Fork 0 1 ∷ Fork 0 1 ∷ [])) }
    ensures acts_after_its_end { ¬ (WellFormed (λ t. t == 0)
        (Fork 0 1 ∷ Join 0 1 ∷ Fork 1 2 ∷ [])) }
    ensures joins_itself { ¬ (WellFormed (λ t. t == 0) (Join 0 0 ∷ [])) }

    // an object is of one kind
    ensures one_call { (call : CallOf) → call.thread ≡ 0 →
        WellFormed (λ t. t == 0) (Call call ∷ []) }
    ensures two_kinds { (call other : CallOf) → call.object ≡ other.object →
        call.kind ≢ other.kind →
        ¬ (WellFormed (λ t. t == 0) (Call call ∷ Call other ∷ [])) }
    // A lock may be acquired again by the thread that has it, and is free where that thread released it as often.
    ensures acquired_again { WellFormed (λ t. t == 0)
        (Acquire 0 5 ∷ Acquire 0 5 ∷ Release 0 5 ∷ Release 0 5 ∷ []) }
    ensures held_by_another { ¬ (WellFormed (λ t. (t == 0) || (t == 1))
        (Acquire 0 5 ∷ Acquire 1 5 ∷ [])) }
    ensures released_once { ¬ (WellFormed (λ t. (t == 0) || (t == 1))
        (Acquire 0 5 ∷ Acquire 0 5 ∷ Release 0 5 ∷ Acquire 1 5 ∷ [])) }
    ensures not_held { ¬ (WellFormed (λ t. t == 0) (Release 0 5 ∷ [])) }
    ensures released_twice { ¬ (WellFormed (λ t. t == 0)
        (Acquire 0 5 ∷ Release 0 5 ∷ Release 0 5 ∷ [])) }

    // several threads share a lock, but none while another has it, and none takes it while another shares it
    ensures two_sharers { WellFormed (λ t. (t == 0) || (t == 1))
        (Share 0 5 ∷ Share 1 5 ∷ Unshare 0 5 ∷ Unshare 1 5 ∷ []) }
    ensures shared_while_held { ¬ (WellFormed (λ t. (t == 0) || (t == 1))
        (Acquire 0 5 ∷ Share 1 5 ∷ [])) }
    ensures acquired_while_shared { ¬ (WellFormed (λ t. (t == 0) || (t == 1))
        (Share 0 5 ∷ Acquire 1 5 ∷ [])) }
    // The only sharer may acquire, and who has the lock may share it; each gives back what it took.
    ensures upgrade { WellFormed (λ t. t == 0)
        (Share 0 5 ∷ Acquire 0 5 ∷ Release 0 5 ∷ Unshare 0 5 ∷ []) }
    ensures downgrade { WellFormed (λ t. t == 0)
        (Acquire 0 5 ∷ Share 0 5 ∷ Release 0 5 ∷ Unshare 0 5 ∷ []) }
    ensures not_shared { ¬ (WellFormed (λ t. t == 0) (Unshare 0 5 ∷ [])) }
    ensures released_a_share { ¬ (WellFormed (λ t. t == 0) (Share 0 5 ∷ Release 0 5 ∷ [])) }
{}
