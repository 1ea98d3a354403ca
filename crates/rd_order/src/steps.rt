//! How far the places before one may step on the way to it.
ghost use Rattle.std.specs.Prelude.{◌≡◌, ◌<◌, ◌≤◌, ◌+◌, ◌-◌, ◌↔◌, ℕ, nat_eq, List, length, None, IsSome, IfOk, OnOk};
ghost use Rattle.rd_event.specs.declared.events.Event.{Event};
ghost use Rattle.indexmap.specs.IndexMap.{get};
ghost use Rattle.rd_order.specs.Noting.{AreNoted, acquire_noted, exclusive_in, kept_at, kept_if, later_of_two, next_by, noted_of, share_noted, shared_in, taker, thread_noted};
ghost use Rattle.rd_order.specs.Order.{Reaches, forked_thread, hold_given, hold_taken, joined_thread, thread_of};
ghost use Rattle.rd_order.specs.Paths.{AreFarthestSteps, IsFarthest};

use crate::edges::{forked_thread, joined_thread, thread_of};
use indexmap::IndexMap;
use rd_base::NoMemory;
use rd_event::Event;
use std::alloc::Global;
use std::marker::Model;

/// How far the places before one may step on the way to it. Contracts see it as a list: the farthest next place of the place before
/// it, of the one before that, and so on, each time none where the place doesn't reach it.
#[derive(Drop)]
pub struct FarthestSteps {
    held: Vec<Option<u32>>,
}

impl Model for FarthestSteps {
    ghost use Rattle.std.specs.Prelude.{List, Option, ℕ};

    ghost Value = { List (Option ℕ) };

    ghost view = { λ s. s.held.items };
}

impl FarthestSteps {
    /// The step of a place before j, where these are the steps to j and its own is among them. It takes no memory.
    pub fn step(&self, place: u32, j: u32) -> Option<u32>
        requires below { place < j }
        requires inside { j ≤ place + length self.now }
        ensures farthest { (es : List Event) → AreFarthestSteps es j self.now →
            IsFarthest es j place result }
        ensures reaches { (es : List Event) → AreFarthestSteps es j self.now →
            (IsSome result ↔ Reaches es place j) }
    {
        let steps = self.held.as_slice();
        steps[(j - place - 1) as usize]
    }
}

// What is noted of the places passed so far that are the target or reach it, each time the last place: of those that act as a
// thread or join it, of those that acquire a lock, and of those that share one.
#[derive(Drop)]
struct Notes {
    threads: IndexMap<u32, u32>,
    acquires: IndexMap<u32, u32>,
    shares: IndexMap<u32, u32>,
}

// ---- the next place

fn place_of(map: &IndexMap<u32, u32>, key: u32) -> Option<u32>
    ensures { result ≡ get nat_eq map.now key }
{
    map.get(&key).copied()
}

fn noted_of(map: &IndexMap<u32, u32>, key: Option<u32>) -> Option<u32>
    ensures { result ≡ noted_of (get nat_eq map.now) key }
{
    match key {
        Some(key) => place_of(map, key),
        None => None,
    }
}

fn later(one: Option<u32>, other: Option<u32>) -> Option<u32>
    ensures { result ≡ later_of_two one other }
{
    match (one, other) {
        (None, other) => other,
        (Some(one), None) => Some(one),
        (Some(one), Some(other)) => Some(one.max(other)),
    }
}

// The last place that takes a hold against one that the event gives back.
fn taker(notes: &Notes, event: &Event) -> Option<u32>
    ensures { result ≡ taker notes.now (hold_given event.now) }
{
    match event {
        Event::Release { lock, .. } => later(
            place_of(&notes.acquires, *lock),
            place_of(&notes.shares, *lock),
        ),
        Event::Unshare { lock, .. } => place_of(&notes.acquires, *lock),
        _ => None,
    }
}

fn next(notes: &Notes, event: &Event) -> Option<u32>
    ensures { result ≡ next_by notes.now event.now }
{
    let thread = place_of(&notes.threads, thread_of(event));
    let forked = noted_of(&notes.threads, forked_thread(event));
    later(later(thread, forked), taker(notes, event))
}

// ---- noting

#[tactic(auto, using(crate::proofs::NotingLemmas::kept_there, crate::proofs::NotingLemmas::kept_new))]
fn keep(map: &mut IndexMap<u32, u32>, key: u32, place: u32) -> Result<(), NoMemory>
    ensures { OnOk result ((q : ℕ) →
        get nat_eq map.new q ≡ kept_at (get nat_eq map.old) key place q) }
{
    if place_of(map, key).is_some() {
        return Ok(());
    }
    map.insert(key, place)?;
    Ok(())
}

fn keep_if(map: &mut IndexMap<u32, u32>, key: Option<u32>, place: u32) -> Result<(), NoMemory>
    ensures { OnOk result ((q : ℕ) →
        get nat_eq map.new q ≡ kept_if (get nat_eq map.old) key place q) }
{
    match key {
        Some(key) => keep(map, key, place),
        None => Ok(()),
    }
}

fn acquired_lock(event: &Event) -> Option<u32>
    ensures { result ≡ exclusive_in (hold_taken event.now) }
{
    match event {
        Event::Acquire { lock, .. } => Some(*lock),
        _ => None,
    }
}

fn shared_lock(event: &Event) -> Option<u32>
    ensures { result ≡ shared_in (hold_taken event.now) }
{
    match event {
        Event::Share { lock, .. } => Some(*lock),
        _ => None,
    }
}

fn note_threads(threads: &mut IndexMap<u32, u32>, event: &Event, place: u32) -> Result<(), NoMemory>
    ensures { OnOk result ((t : ℕ) →
        get nat_eq threads.new t
        ≡ kept_if (kept_at (get nat_eq threads.old) (thread_of event.now) place)
        (joined_thread event.now) place t) }
{
    keep(threads, thread_of(event), place)?;
    keep_if(threads, joined_thread(event), place)
}

// Notes the event at a place, which is the target or reaches it, where those behind it are noted.
fn note(notes: &mut Notes, event: &Event, place: u32) -> Result<(), NoMemory>
    ensures threads { OnOk result ((t : ℕ) →
        thread_noted notes.new t
        ≡ kept_if (kept_at (thread_noted notes.old) (thread_of event.now) place)
        (joined_thread event.now) place t) }
    ensures acquires { OnOk result ((lock : ℕ) →
        acquire_noted notes.new lock
        ≡ kept_if (acquire_noted notes.old) (exclusive_in (hold_taken event.now)) place lock) }
    ensures shares { OnOk result ((lock : ℕ) →
        share_noted notes.new lock
        ≡ kept_if (share_noted notes.old) (shared_in (hold_taken event.now)) place lock) }
{
    note_threads(&mut notes.threads, event, place)?;
    keep_if(&mut notes.acquires, acquired_lock(event), place)?;
    keep_if(&mut notes.shares, shared_lock(event), place)
}

// The step of a place, where those behind it are noted. The place is noted itself where there is one.
fn pass(notes: &mut Notes, events: &[Event], place: u32, j: u32) -> Result<Option<u32>, NoMemory>
    requires below { place < j }
    requires to { j < length events.now }
    requires noted { (lo : ℕ) × (lo ≡ place + 1) × AreNoted events.now j lo notes.old }
    ensures step { IfOk result (λ step. IsFarthest events.now j place step) }
    ensures noted { OnOk result (AreNoted events.now j place notes.new) }
{
    let event = &events[place as usize];
    let found = next(notes, event);
    if found.is_some() {
        note(notes, event, place)?;
    }
    Ok(found)
}

// Notes of no place.
fn no_notes(alloc: Global) -> Notes
    ensures threads { (t : ℕ) → thread_noted result t ≡ None }
    ensures acquires { (lock : ℕ) → acquire_noted result lock ≡ None }
    ensures shares { (lock : ℕ) → share_noted result lock ≡ None }
{
    Notes {
        threads: IndexMap::new(alloc),
        acquires: IndexMap::new(alloc),
        shares: IndexMap::new(alloc),
    }
}

/// The steps to j of the places before it down to i. It looks at each of these events once.
pub fn farthest_steps(
    alloc: Global,
    events: &[Event],
    i: u32,
    j: u32,
) -> Result<FarthestSteps, NoMemory>
    requires order { i ≤ j }
    requires to { j < length events.now }
    ensures count { IfOk result (λ steps. length steps ≡ j - i) }
    ensures each { IfOk result (λ steps. AreFarthestSteps events.now j steps) }
{
    let mut notes = no_notes(alloc);
    note(&mut notes, &events[j as usize], j)?;
    let mut steps = Vec::new(alloc);
    for back in 0..j - i {
        let next = pass(&mut notes, events, j - back - 1, j)?;
        steps.push(next)?;
    }
    Ok(FarthestSteps { held: steps })
}
