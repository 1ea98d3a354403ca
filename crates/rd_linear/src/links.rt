//! Which lanes wait for each place.
ghost use Rattle.std.specs.Prelude.{◌≡◌, ◌+◌, ◌<◌, ◌++◌, ◌∷◌, [], length, slice_index_or, IfOk, OnOk};
ghost use Rattle.rd_linear.specs.Lanes.{AreThreadsRising, HaveThreads};
ghost use Rattle.rd_linear.specs.Linear.{Stands};
ghost use Rattle.rd_linear.specs.Links.{AreChained, LinksStay, HaveLanes, HaveLinks, HaveLinksBelow, IsOwnOrLinked};
ghost use Rattle.rd_linear.specs.Noting.{HaveWaits};

use crate::lanes::lane_of;
use crate::waits::{Waits, is_of, short};
use rd_base::NoMemory;
use rd_event::Event;
use rd_order::thread_of;
use std::alloc::Global;

/// A lane that waits for a place, and one more than the number of the link before it to this place, or 0.
#[derive(Clone, Copy, Drop)]
pub(crate) struct Link {
    pub(crate) place: u32,
    pub(crate) lane: u32,
    pub(crate) before: u32,
}

/// The lanes that wait for places of other lanes.
#[derive(Drop)]
pub(crate) struct Links {
    pub(crate) items: Vec<Link>,
    /// by the place: one more than the number of the last link to it, or 0
    pub(crate) last: Vec<u32>,
}

// Puts a link last.
fn add_link(links: &mut Links, place: u32, lane: u32) -> Result<(), NoMemory>
    requires chained { AreChained links.old }
    requires inside { place < length links.old.last.items }
    ensures chained { OnOk result (AreChained links.new) }
    ensures items { OnOk result (links.new.items.items ≡ links.old.items.items
        ++ record { place = place; lane = lane; before = slice_index_or links.old.last.items place 0 } ∷ []) }
    ensures places { length links.new.last.items ≡ length links.old.last.items }
{
    let before = links.last[place as usize];
    links.items.push(Link {
        place,
        lane,
        before,
    })?;
    links.last[place as usize] = short(links.items.len())?;
    Ok(())
}

// Links a thread's lane to a place for which one of its events waits, where that is another thread's.
fn link_wait(
    links: &mut Links,
    events: &[Event],
    threads: &[u32],
    thread: u32,
    place: u32,
) -> Result<(), NoMemory>
    requires chained { AreChained links.old }
    requires inside { place < length links.old.last.items }
    requires rising { AreThreadsRising threads.now }
    requires few { length threads.now < 4294967296 }
    requires stands { Stands threads.now thread }
    requires lanes { HaveLanes threads.now links.old.items.items }
    ensures chained { OnOk result (AreChained links.new) }
    ensures lanes { OnOk result (HaveLanes threads.now links.new.items.items) }
    ensures places { length links.new.last.items ≡ length links.old.last.items }
    ensures kept { OnOk result (LinksStay links.old.items.items links.new.items.items) }
    ensures heard { OnOk result
        (IsOwnOrLinked events.now links.new.items.items threads.now thread place) }
{
    if is_of(events, place, thread) {
        return Ok(());
    }
    add_link(links, place, lane_of(threads, 0, thread) as u32)
}

// Links the lane of the event at a place to the places of other lanes for which it waits.
fn link_event(
    links: &mut Links,
    events: &[Event],
    threads: &[u32],
    waits: &Waits,
    place: usize,
) -> Result<(), NoMemory>
    requires inside { place < length events.now }
    requires few { length threads.now < 4294967296 }
    requires threads { HaveThreads events.now threads.now }
    requires waits { HaveWaits events.now waits.now }
    requires links { HaveLinksBelow events.now threads.now waits.now place links.old }
    ensures { OnOk result (HaveLinksBelow events.now threads.now waits.now (place + 1) links.new) }
{
    let thread = thread_of(&events[place]);
    let part = waits.parts[place];
    for at in part.from..part.to {
        link_wait(links, events, threads, thread, waits.places[at as usize])?;
    }
    Ok(())
}

/// The lanes that wait for places of other lanes: those of these threads, in their order. It looks at each wait once.
pub(crate) fn links_of(
    alloc: Global,
    events: &[Event],
    threads: &[u32],
    waits: &Waits,
) -> Result<Links, NoMemory>
    requires few { length threads.now < 4294967296 }
    requires threads { HaveThreads events.now threads.now }
    requires waits { HaveWaits events.now waits.now }
    ensures { IfOk result (λ links. HaveLinks events.now threads.now waits.now links) }
{
    let mut last = Vec::new(alloc);
    last.resize(events.len(), 0)?;
    let mut links = Links {
        items: Vec::new(alloc),
        last,
    };
    for place in 0..events.len() {
        link_event(&mut links, events, threads, waits, place)?;
    }
    Ok(links)
}
