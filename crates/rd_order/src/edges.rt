//! Whether there is an edge from one place to another.
ghost use Rattle.std.specs.Prelude.{◌≡◌, ◌<◌, ◌↔◌, IsTrue, length, option_map};
ghost use Rattle.rd_order.specs.Order.{Edge, hold_given, hold_taken, thread_of, forked_thread, joined_thread};
ghost use Rattle.rd_order.specs.Holds.{hold_in};
ghost use Rattle.rd_order.specs.OrderTests.{is_against, is_handed, is_linked, is_same};

use rd_event::Event;

/// The thread that acts in an event.
pub fn thread_of(event: &Event) -> u32
    ensures { result ≡ thread_of event.now }
{
    match event {
        Event::Fork { thread, .. } => *thread,
        Event::Join { thread, .. } => *thread,
        Event::Acquire { thread, .. } => *thread,
        Event::Release { thread, .. } => *thread,
        Event::Share { thread, .. } => *thread,
        Event::Unshare { thread, .. } => *thread,
        Event::Call(call) => call.thread,
    }
}

pub(crate) fn forked_thread(event: &Event) -> Option<u32>
    ensures { result ≡ forked_thread event.now }
{
    match event {
        Event::Fork { child, .. } => Some(*child),
        _ => None,
    }
}

pub(crate) fn joined_thread(event: &Event) -> Option<u32>
    ensures { result ≡ joined_thread event.now }
{
    match event {
        Event::Join { child, .. } => Some(*child),
        _ => None,
    }
}

// What a thread takes, and later gives back: a lock for itself, or a share of it.
#[derive(Clone, Copy)]
enum Hold {
    Exclusive(u32),
    Shared(u32),
}

fn hold_taken(event: &Event) -> Option<Hold>
    ensures { option_map hold_in result ≡ hold_taken event.now }
{
    match event {
        Event::Acquire { lock, .. } => Some(Hold::Exclusive(*lock)),
        Event::Share { lock, .. } => Some(Hold::Shared(*lock)),
        _ => None,
    }
}

fn hold_given(event: &Event) -> Option<Hold>
    ensures { option_map hold_in result ≡ hold_given event.now }
{
    match event {
        Event::Release { lock, .. } => Some(Hold::Exclusive(*lock)),
        Event::Unshare { lock, .. } => Some(Hold::Shared(*lock)),
        _ => None,
    }
}

// Are both one thread?
fn is_same(one: Option<u32>, other: Option<u32>) -> bool
    ensures { result ≡ is_same one other }
{
    one.is_some() && one == other
}

// Are the holds of one lock, and not both shares?
fn is_against(one: Hold, other: Hold) -> bool
    ensures { result ≡ is_against (hold_in one) (hold_in other) }
{
    match (one, other) {
        (Hold::Exclusive(lock), Hold::Exclusive(other)) => lock == other,
        (Hold::Exclusive(lock), Hold::Shared(other)) => lock == other,
        (Hold::Shared(lock), Hold::Exclusive(other)) => lock == other,
        (Hold::Shared(_), Hold::Shared(_)) => false,
    }
}

// Is a hold given back, and one against it taken?
fn is_handed(given: Option<Hold>, taken: Option<Hold>) -> bool
    ensures { result ≡ is_handed (option_map hold_in given) (option_map hold_in taken) }
{
    match (given, taken) {
        (Some(given), Some(taken)) => is_against(given, taken),
        _ => false,
    }
}

// Is there an edge from an event to a later one, whatever stands between them?
#[tactic(auto, unfolding(crate::specs::OrderTests::is_linked))]
fn are_linked(a: &Event, b: &Event) -> bool
    ensures { result ≡ is_linked a.now b.now }
{
    let thread = thread_of(b);
    thread_of(a) == thread
        || forked_thread(a) == Some(thread)
        || joined_thread(b) == Some(thread_of(a))
        || is_same(forked_thread(a), joined_thread(b))
        || is_handed(hold_given(a), hold_taken(b))
}

/// Whether there is an edge from the first place to the second (Lamport 1978; the kinds of edges are this project's profile): it
/// is the earlier one, and both events are of one thread, or the first forks the thread of the second, or the
/// second joins that of the first, or the first forks a thread that the second joins, or the first gives back a lock, or a share
/// of it, and the second takes it, or a share of it; of two shares there is none. It takes no memory.
pub fn edge(events: &[Event], i: u32, j: u32) -> bool
    requires from { i < length events.now }
    requires to { j < length events.now }
    ensures { IsTrue result ↔ Edge events.now i j }
{
    i < j && are_linked(&events[i as usize], &events[j as usize])
}
