//! The law of walks: what their definition says, proved for all bytes.
ghost use Rattle.std.specs.Prelude.{ℕ, ◌<◌, ◌^◌, List, []};
ghost use Rattle.rd_base.specs.Limits.{AreUsable};
ghost use Rattle.rd_base.specs.declared.limits.Limits.{Limits};
ghost use Rattle.rd_order.specs.EventLists.{WellFormedWith};
ghost use Rattle.rd_io.specs.Lines.{Stop, reading};
ghost use Rattle.rd_walk.specs.AcceptedLines.{IsWalk};
ghost use Rattle.rd_walk.specs.Walk.{Saying, ending_of, entries_of, items, trace_by, trace_of};
ghost use Rattle.rd_rules.specs.Events.{AreAccepted, events_of, roots_of};
ghost use Rattle.rd_ecl.specs.Kinds.{Kind};

/// The walk over the bytes of a trace accepts those lines that say an item which may follow, up to the first that doesn't, and tells why
/// that one is refused. Whatever lines say, items are accepted each after those in front of it, whatever the bytes, and their events are a
/// well-formed list for the threads that no event begins, with calls of the kinds.
pub fn law_of_walks()
    ensures walk { (kinds : List Kind) (limits : Limits) (stop : Stop) (bytes : List ℕ) →
        IsWalk kinds limits [] 1 (reading limits.line limits.bytes stop bytes)
        (entries_of (trace_of kinds limits stop bytes))
        (ending_of (trace_of kinds limits stop bytes)) }
    ensures accepted { (says : Saying) (kinds : List Kind) (limits : Limits) → AreUsable limits →
        limits.threads < 2 ^ 32 → (stop : Stop) (bytes : List ℕ) →
        AreAccepted kinds (items (entries_of (trace_by says kinds limits stop bytes))) }
    ensures formed { (says : Saying) (kinds : List Kind) (limits : Limits) → AreUsable limits →
        limits.threads < 2 ^ 32 → (stop : Stop) (bytes : List ℕ) →
        let lines = items (entries_of (trace_by says kinds limits stop bytes)) in WellFormedWith kinds
        (roots_of lines) (events_of kinds lines) }
{}
