//! The places for which each event waits.
ghost use Rattle.std.specs.Prelude.{◌≡◌, ◌≢◌, ◌<◌, ℕ, Bool, ◌++◌, length, nat_eq, IfOk, OnOk, Some, None, IsTrue, option_copied};
ghost use Rattle.indexmap.specs.IndexMap.{get};
ghost use Rattle.rd_order.specs.EventLists.{WellFormed};
ghost use Rattle.rd_order.specs.Order.{IsOf, forked_thread, thread_of};
ghost use Rattle.rd_linear.specs.Noting.{AreFirstWaits, AreNotedBelow, AreUnsharesAfter, HaveWaits, IsReplaced, place_noted, noted_at, noted_if, one_if, other_waits, places_in, release_noted, lock_in_release, touch_noted, unshares_noted, waits_by};

use indexmap::IndexMap;
use rd_base::NoMemory;
use rd_event::Event;
use rd_order::thread_of;
use std::alloc::Global;

/// Which of all waits are those of one event: those from one number to another.
#[derive(Clone, Copy, Drop)]
pub(crate) struct Part {
    pub(crate) from: u32,
    pub(crate) to: u32,
}

/// The places for which each event waits, those of one event behind those of another, and for each event which of them are its own.
#[derive(Drop)]
pub(crate) struct Waits {
    pub(crate) places: Vec<u32>,
    pub(crate) parts: Vec<Part>,
}

// The last unshare by each thread of a lock since that was last acquired.
#[derive(Drop)]
struct Unshared {
    places: Vec<u32>,
}

// What is noted of the events so far: the last place of each thread or of its fork, the last release of each lock, and its unshares.
#[derive(Drop)]
struct Notes {
    // by the number of the thread
    threads: Vec<Option<u32>>,
    // by the number of the lock
    releases: Vec<Option<u32>>,
    unshares: IndexMap<u32, Unshared>,
}

fn place_of(noted: &[Option<u32>], key: u32) -> Option<u32>
    ensures { result ≡ place_noted noted.now key }
{
    match noted.get(key as usize) {
        Some(place) => *place,
        None => None,
    }
}

// Makes the list long enough for a number. Nothing is noted of those that are new.
fn make_room(noted: &mut Vec<Option<u32>>, key: u32) -> Result<(), NoMemory>
    ensures room { OnOk result (key < length noted.new.items) }
    ensures same { (q : ℕ) → place_noted noted.new.items q ≡ place_noted noted.old.items q }
{
    while noted.len() <= key as usize {
        noted.push(None)?;
    }
    Ok(())
}

fn put(noted: &mut Vec<Option<u32>>, key: u32, place: u32) -> Result<(), NoMemory>
    ensures { OnOk result ((q : ℕ) →
        place_noted noted.new.items q ≡ noted_at (place_noted noted.old.items) key place q) }
{
    make_room(noted, key)?;
    noted[key as usize] = Some(place);
    Ok(())
}

/// The number, where it has 32 bits. More waits than that find no memory.
pub(crate) fn short(number: usize) -> Result<u32, NoMemory>
    ensures { IfOk result (λ short. short ≡ number) }
{
    u32::try_from(number).map_err(|_| NoMemory)
}

// ---- waits

fn push_if(places: &mut Vec<u32>, place: Option<u32>) -> Result<(), NoMemory>
    ensures { OnOk result (places.new.items ≡ places.old.items ++ one_if place) }
{
    if let Some(place) = place {
        places.push(place)?;
    }
    Ok(())
}

fn push_unshares(places: &mut Vec<u32>, unshared: Option<&Unshared>) -> Result<(), NoMemory>
    ensures { OnOk result (places.new.items ≡ places.old.items ++ places_in (option_copied unshared.entry)) }
{
    if let Some(unshared) = unshared {
        places.extend_from_slice(unshared.places.as_slice())?;
    }
    Ok(())
}

// Puts the waits of an event last, beside that of its own thread.
fn push_others(places: &mut Vec<u32>, notes: &Notes, event: &Event) -> Result<(), NoMemory>
    ensures { OnOk result (places.new.items ≡ places.old.items ++ other_waits notes.now event.now) }
{
    match event {
        Event::Join { child, .. } => push_if(places, place_of(notes.threads.as_slice(), *child)),
        Event::Acquire { lock, .. } => {
            push_if(places, place_of(notes.releases.as_slice(), *lock))?;
            push_unshares(places, notes.unshares.get(lock))
        }
        Event::Share { lock, .. } => push_if(places, place_of(notes.releases.as_slice(), *lock)),
        _ => Ok(()),
    }
}

fn push_waits(places: &mut Vec<u32>, notes: &Notes, event: &Event) -> Result<(), NoMemory>
    ensures { OnOk result (places.new.items ≡ places.old.items ++ waits_by notes.now event.now) }
{
    push_if(places, place_of(notes.threads.as_slice(), thread_of(event)))?;
    push_others(places, notes, event)
}

// ---- noting

// The event at this place is the last of its thread, or the fork of one, so far.
fn note_threads(threads: &mut Vec<Option<u32>>, event: &Event, place: u32) -> Result<(), NoMemory>
    ensures { OnOk result ((t : ℕ) → place_noted threads.new.items t
        ≡ noted_if (noted_at (place_noted threads.old.items) (thread_of event.now) place) (forked_thread event.now) place t) }
{
    put(threads, thread_of(event), place)?;
    if let Event::Fork { child, .. } = event {
        put(threads, *child, place)?;
    }
    Ok(())
}

fn note_releases(releases: &mut Vec<Option<u32>>, event: &Event, place: u32) -> Result<(), NoMemory>
    ensures { OnOk result ((lock : ℕ) → place_noted releases.new.items lock
        ≡ noted_if (place_noted releases.old.items) (lock_in_release event.now) place lock) }
{
    match event {
        Event::Release { lock, .. } => put(releases, *lock, place),
        _ => Ok(()),
    }
}

// Is the event at the place of the thread?
pub(crate) fn is_of(events: &[Event], place: u32, thread: u32) -> bool
    ensures { IsTrue result → IsOf events.now thread place }
{
    match events.get(place as usize) {
        Some(event) => thread_of(event) == thread,
        None => false,
    }
}

// The place takes that of the thread's, or is put last.
fn replace(places: &mut Vec<u32>, events: &[Event], thread: u32, place: u32) -> Result<(), NoMemory>
    ensures { OnOk result (IsReplaced events.now thread place places.old.items places.new.items) }
{
    for at in 0..places.len() {
        if is_of(events, places[at], thread) {
            places[at] = place;
            return Ok(());
        }
    }
    places.push(place)?;
    Ok(())
}

// The unshares that are noted of a lock, which are no longer noted.
fn take_unshared(alloc: Global, unshares: &mut IndexMap<u32, Unshared>, lock: u32) -> Unshared
    ensures taken { result.places.items ≡ places_in (get nat_eq unshares.old lock) }
    ensures none { get nat_eq unshares.new lock ≡ None }
    ensures others { (q : ℕ) → lock ≢ q →
        get nat_eq unshares.new q ≡ get nat_eq unshares.old q }
{
    match unshares.swap_remove(&lock) {
        Some(unshared) => unshared,
        None => Unshared {
            places: Vec::new(alloc),
        },
    }
}

fn put_unshared(
    unshares: &mut IndexMap<u32, Unshared>,
    lock: u32,
    unshared: Unshared,
) -> Result<(), NoMemory>
    ensures here { OnOk result (get nat_eq unshares.new lock ≡ Some unshared) }
    ensures others { OnOk result ((q : ℕ) → lock ≢ q →
        get nat_eq unshares.new q ≡ get nat_eq unshares.old q) }
{
    unshares.insert(lock, unshared)?;
    Ok(())
}

// The thread gives back a share of the lock at this place.
fn note_unshare(
    alloc: Global,
    unshares: &mut IndexMap<u32, Unshared>,
    events: &[Event],
    thread: u32,
    lock: u32,
    place: u32,
) -> Result<(), NoMemory>
    ensures here { OnOk result (IsReplaced events.now thread place
        (places_in (get nat_eq unshares.old lock)) (places_in (get nat_eq unshares.new lock))) }
    ensures others { OnOk result ((q : ℕ) → lock ≢ q →
        get nat_eq unshares.new q ≡ get nat_eq unshares.old q) }
{
    let mut unshared = take_unshared(alloc, unshares, lock);
    replace(&mut unshared.places, events, thread, place)?;
    put_unshared(unshares, lock, unshared)
}

fn note_unshares(
    alloc: Global,
    unshares: &mut IndexMap<u32, Unshared>,
    events: &[Event],
    event: &Event,
    place: u32,
) -> Result<(), NoMemory>
    ensures { OnOk result (AreUnsharesAfter events.now event.now place
        (λ lock. places_in (get nat_eq unshares.old lock)) (λ lock. places_in (get nat_eq unshares.new lock))) }
{
    match event {
        Event::Acquire { lock, .. } => {
            take_unshared(alloc, unshares, *lock);
            Ok(())
        }
        Event::Unshare { thread, lock } => {
            note_unshare(alloc, unshares, events, *thread, *lock, place)
        }
        _ => Ok(()),
    }
}

// Notes the event at a place, behind those before it.
fn note(
    alloc: Global,
    notes: &mut Notes,
    events: &[Event],
    event: &Event,
    place: u32,
) -> Result<(), NoMemory>
    ensures threads { OnOk result ((t : ℕ) → touch_noted notes.new t
        ≡ noted_if (noted_at (touch_noted notes.old) (thread_of event.now) place) (forked_thread event.now) place t) }
    ensures releases { OnOk result ((lock : ℕ) → release_noted notes.new lock
        ≡ noted_if (release_noted notes.old) (lock_in_release event.now) place lock) }
    ensures unshares { OnOk result (AreUnsharesAfter events.now event.now place
        (unshares_noted notes.old) (unshares_noted notes.new)) }
{
    note_threads(&mut notes.threads, event, place)?;
    note_releases(&mut notes.releases, event, place)?;
    note_unshares(alloc, &mut notes.unshares, events, event, place)
}

// Puts the places for which each event waits. Before the first one nothing is noted.
fn put_waits(
    alloc: Global,
    events: &[Event],
    notes: &mut Notes,
    waits: &mut Waits,
) -> Result<(), NoMemory>
    requires formed { (roots : ℕ → Bool) × WellFormed roots events.now }
    requires noted { AreNotedBelow events.now 0 notes.old }
    requires first { AreFirstWaits events.now 0 waits.old }
    ensures { OnOk result (HaveWaits events.now waits.new) }
{
    let mut from = short(waits.places.len())?;
    for place in 0..events.len() {
        let event = &events[place];
        push_waits(&mut waits.places, notes, event)?;
        let to = short(waits.places.len())?;
        waits.parts.push(Part { from, to })?;
        from = to;
        note(alloc, notes, events, event, place as u32)?;
    }
    Ok(())
}

/// The places for which each event waits. It looks at each event once, and at an unshare at the others that are noted of its lock, at
/// most one for each thread.
pub(crate) fn waits_of(alloc: Global, events: &[Event]) -> Result<Waits, NoMemory>
    requires formed { (roots : ℕ → Bool) × WellFormed roots events.now }
    ensures { IfOk result (λ waits. HaveWaits events.now waits) }
{
    let mut notes = Notes {
        threads: Vec::new(alloc),
        releases: Vec::new(alloc),
        unshares: IndexMap::new(alloc),
    };
    let mut waits = Waits {
        places: Vec::new(alloc),
        parts: Vec::with_capacity(alloc, events.len())?,
    };
    put_waits(alloc, events, &mut notes, &mut waits)?;
    Ok(waits)
}
