//! The events of each thread, and which of them comes next.
ghost use Rattle.std.specs.Prelude.{ℕ, Bool, List, [], ◌+◌, ◌-◌, ◌<◌, ◌≤◌, ◌↔◌, ◌⊎◌, IfOk, OnOk, ◌≡◌, length, filter_map, map, slice_get, slice_set, IfSome, IfNone, IsTrue, Some};
ghost use Rattle.rd_order.specs.EventLists.{WellFormed};
ghost use Rattle.rd_linear.specs.Lanes.{AreLanes, AreLanesBelow, HaveThreads, IsPlaceAdded, AreThreadsRising, are_over, is_over, order_by, part_over, ready_in, thread_at, threads_in};
ghost use Rattle.rd_linear.specs.Linear.{Stands};
ghost use Rattle.rd_linear.specs.Links.{AreAskedBut, AreChained, HaveLanes, IsPicked};
ghost use Rattle.rd_linear.specs.Orders.{IsLinear};
ghost use Rattle.rd_linear.specs.declared.lanes.Lane.{Lane as LaneOf};

use crate::linear::no_marks;
use crate::links::{Links, links_of};
use crate::waits::{Part, Waits, waits_of};
use rd_base::NoMemory;
use rd_event::Event;
use rd_order::{Places, thread_of};
use rd_ranks::Ranks;
use std::alloc::Global;

// The places of a thread's events, and how many of them were given.
#[derive(Drop)]
struct Lane {
    thread: u32,
    places: Vec<u32>,
    given: usize,
}

// Is the wait with this number marked?
fn is_over(waits: &Waits, seen: &[bool], at: usize) -> bool
    ensures { result ≡ is_over waits.now seen.now at }
{
    match waits.places.get(at) {
        Some(place) => seen.get(*place as usize).copied().unwrap_or(false),
        None => false,
    }
}

fn is_part_over(waits: &Waits, seen: &[bool], part: Part) -> bool
    ensures { result ≡ part_over waits.now seen.now part }
{
    for at in part.from..part.to {
        if !is_over(waits, seen, at as usize) {
            return false;
        }
    }
    true
}

fn are_waits_over(waits: &Waits, seen: &[bool], place: u32) -> bool
    ensures { result ≡ are_over waits.now seen.now place }
{
    match waits.parts.get(place as usize) {
        Some(part) => is_part_over(waits, seen, *part),
        None => false,
    }
}

// The next place of a lane, where it is ready.
#[tactic(auto, unfolding(crate::specs::Lanes::ready_in))]
fn ready(waits: &Waits, seen: &[bool], lane: &Lane) -> Option<u32>
    ensures { result ≡ ready_in waits.now seen.now lane.now }
{
    match lane.places.get(lane.given) {
        Some(place) => {
            if are_waits_over(waits, seen, *place) {
                Some(*place)
            } else {
                None
            }
        }
        None => None,
    }
}

// ---- what lanes have

// Sets what a lane has: its next place, where that is ready.
fn ask(waits: &Waits, seen: &[bool], lanes: &[Lane], at: usize, ranks: &mut Ranks)
    requires inside { at < length lanes.now }
    requires count { length ranks.old ≡ length lanes.now }
    ensures { (lane : LaneOf) → slice_get lanes.now at ≡ Some lane →
        ranks.new ≡ slice_set ranks.old at (ready_in waits.now seen.now lane) }
{
    ranks.set(at, ready(waits, seen, &lanes[at]));
}

// What each lane has.
fn ask_all(alloc: Global, waits: &Waits, seen: &[bool], lanes: &[Lane]) -> Result<Ranks, NoMemory>
    requires few { length lanes.now < 4294967296 }
    ensures { IfOk result (λ ranks. ranks ≡ map (ready_in waits.now seen.now) lanes.now) }
{
    let mut ranks = Ranks::new(alloc, lanes.len())?;
    for at in 0..lanes.len() {
        ask(waits, seen, lanes, at, &mut ranks);
    }
    Ok(ranks)
}

// Sets what the lanes have that are linked to a place.
fn ask_linked(
    waits: &Waits,
    seen: &[bool],
    lanes: &[Lane],
    links: &Links,
    place: u32,
    ranks: &mut Ranks,
)
    requires inside { place < length links.now.last.items }
    requires chained { AreChained links.now }
    requires lanes { HaveLanes (threads_in lanes.now) links.now.items.items }
    requires asked { AreAskedBut waits.now seen.now lanes.now ranks.old links.now.items.items place
        (length links.now.items.items) }
    ensures { ranks.new ≡ map (ready_in waits.now seen.now) lanes.now }
{
    let mut number = links.last[place as usize];
    while number > 0 {
        let link = links.items[number as usize - 1];
        ask(waits, seen, lanes, link.lane as usize, ranks);
        number = link.before;
    }
}

// The lane that the number picks of those that have a place, what it has, and the number for the next turn; `None` exactly where none has one.
fn choose(ranks: &Ranks, left: u64) -> Option<(usize, u32, u64)>
    ensures some { IfSome result (IsPicked ranks.now left) }
    ensures none { IfNone result (length (filter_map (λ given. given) ranks.now) ≡ 0) }
{
    let count = ranks.count();
    if count == 0 {
        return None;
    }
    let number = left % count as u64;
    match ranks.nth(number as usize) {
        Some((at, place)) => Some((at, place, left / count as u64)),
        None => None,
    }
}

// ---- lanes

// With this thread among those in the order of their numbers.
fn add_thread(threads: &mut Vec<u32>, thread: u32) -> Result<(), NoMemory>
    requires rising { AreThreadsRising threads.old.items }
    ensures rising { OnOk result (AreThreadsRising threads.new.items) }
    ensures has { OnOk result ((t : ℕ) →
        (Stands threads.new.items t ↔ ((t ≡ thread) ⊎ Stands threads.old.items t))) }
    ensures more { OnOk result (length threads.new.items ≤ length threads.old.items + 1) }
{
    if let Err(at) = threads.as_slice().binary_search(&thread) {
        threads.insert(at, thread)?;
    }
    Ok(())
}

// Is the event at the place of the thread of the one before it?
fn goes_on(events: &[Event], place: usize) -> bool
    requires inside { place < length events.now }
    ensures { IsTrue result → (0 < place)
        × (thread_at events.now place ≡ thread_at events.now (place - 1)) }
{
    place > 0 && thread_of(&events[place]) == thread_of(&events[place - 1])
}

// The threads of the events, in the order of their numbers.
fn threads_of(alloc: Global, events: &[Event]) -> Result<Vec<u32>, NoMemory>
    ensures threads { IfOk result (λ threads. HaveThreads events.now threads.items) }
    ensures few { IfOk result (λ threads. length threads.items ≤ length events.now) }
{
    let mut threads = Vec::new(alloc);
    for place in 0..events.len() {
        if !goes_on(events, place) {
            add_thread(&mut threads, thread_of(&events[place]))?;
        }
    }
    Ok(threads)
}

// Where the thread stands among these. The guess may be its place, and is looked at first.
pub(crate) fn lane_of(threads: &[u32], guess: usize, thread: u32) -> usize
    requires rising { AreThreadsRising threads.now }
    requires stands { Stands threads.now thread }
    ensures { slice_get threads.now result ≡ Some thread }
{
    if threads.get(guess).copied() == Some(thread) {
        return guess;
    }
    match threads.binary_search(&thread) {
        Ok(at) => at,
        Err(_) => unreachable!(),
    }
}

// A lane for each of these threads, without places.
fn empty_lanes(alloc: Global, threads: &[u32]) -> Result<Vec<Lane>, NoMemory>
    ensures { IfOk result (λ lanes. AreLanesBelow [] 0 threads.now lanes.items) }
{
    let mut lanes = Vec::new(alloc);
    for at in 0..threads.len() {
        lanes.push(Lane {
            thread: threads[at],
            places: Vec::new(alloc),
            given: 0,
        })?;
    }
    Ok(lanes)
}

// Puts a place last in a lane.
fn add_place(lanes: &mut Vec<Lane>, at: usize, place: u32) -> Result<(), NoMemory>
    requires inside { at < length lanes.old.items }
    ensures { OnOk result (IsPlaceAdded lanes.old.items lanes.new.items at place) }
{
    lanes[at].places.push(place)?;
    Ok(())
}

// The lanes of the threads that act, in the order of their numbers.
fn lanes_of(alloc: Global, events: &[Event], threads: &[u32]) -> Result<Vec<Lane>, NoMemory>
    requires few { length events.now < 4294967296 }
    requires threads { HaveThreads events.now threads.now }
    ensures lanes { IfOk result (λ lanes. AreLanes events.now [] lanes.items) }
    ensures threads { IfOk result (λ lanes. threads_in lanes.items ≡ threads.now) }
{
    let mut lanes = empty_lanes(alloc, threads)?;
    let mut at = 0;
    for place in 0..events.len() {
        at = lane_of(threads, at, thread_of(&events[place]));
        add_place(&mut lanes, at, place as u32)?;
    }
    Ok(lanes)
}

/// The places of the events in the order that the number picks, which is linear. It is made one event at a time. A thread is ready where
/// it has an event that isn't placed, and all events that reach the first of these are placed. At each turn the remainder of the
/// number by how many threads are ready picks one of them, in the order of their numbers and from 0. This one gives its event, and
/// the quotient is the number for the next turn. A turn takes the logarithm of how many threads act for the picked one and for each that
/// waits for its event, and it looks at the places for which their next events wait.
pub fn reorder(alloc: Global, events: &[Event], number: u64) -> Result<Places, NoMemory>
    requires formed { (roots : ℕ → Bool) × WellFormed roots events.now }
    ensures order { IfOk result (λ places. (threads : List ℕ) × HaveThreads events.now threads
        × (places ≡ order_by events.now threads number)) }
    ensures linear { IfOk result (λ places. IsLinear events.now places) }
{
    let waits = waits_of(alloc, events)?;
    let threads = threads_of(alloc, events)?;
    let links = links_of(alloc, events, threads.as_slice(), &waits)?;
    let mut lanes = lanes_of(alloc, events, threads.as_slice())?;
    let mut seen = no_marks(alloc, events.len())?;
    let mut ranks = ask_all(alloc, &waits, seen.as_slice(), lanes.as_slice())?;
    let mut places = Places::new(alloc);
    let mut left = number;
    for turn in 0..events.len() {
        let (at, place, rest) = choose(&ranks, left).unwrap();
        left = rest;
        lanes[at].given += 1;
        seen[place as usize] = true;
        ask(&waits, seen.as_slice(), lanes.as_slice(), at, &mut ranks);
        ask_linked(
            &waits,
            seen.as_slice(),
            lanes.as_slice(),
            &links,
            place,
            &mut ranks,
        );
        places.push(place)?;
    }
    Ok(places)
}
