//! The order in which two places stand side by side.
ghost use Rattle.std.specs.Prelude.{◌≡◌, ◌<◌, ◌++◌, [], ◌∷◌, if◌then◌else◌, length, IfOk, OnOk};
ghost use Rattle.rd_order.specs.OrderTests.{reaches};
ghost use Rattle.rd_order.specs.Paths.{AreFarthestSteps};
ghost use Rattle.rd_adjacent.specs.Beside.{beside, is_other, places_before, places_behind, reaches_either};

use rd_base::NoMemory;
use rd_event::Event;
use rd_order::{FarthestSteps, Places};
use std::alloc::Global;

// Does the place reach the one to which these are the steps, of all places before it?
fn reaches(events: &[Event], steps: &FarthestSteps, place: u32, j: u32) -> bool
    requires count { length steps.now ≡ j }
    requires known { AreFarthestSteps events.now j steps.now }
    ensures { result ≡ reaches events.now place j }
{
    if place >= j {
        return false;
    }
    steps.step(place, j).is_some()
}

// Two places, and the steps to each of all places before it.
#[derive(Clone, Copy)]
struct Two<'a> {
    i: u32,
    j: u32,
    to_i: &'a FarthestSteps,
    to_j: &'a FarthestSteps,
}

fn reaches_either(events: &[Event], two: &Two<'_>, place: u32) -> bool
    requires counts { (length two.now.to_i.now ≡ two.now.i) × (length two.now.to_j.now ≡ two.now.j) }
    requires known { AreFarthestSteps events.now two.now.i two.now.to_i.now × AreFarthestSteps events.now two.now.j two.now.to_j.now }
    ensures { result ≡ reaches_either events.now two.now.i two.now.j place }
{
    reaches(events, two.to_i, place, two.i) || reaches(events, two.to_j, place, two.j)
}

fn is_other(events: &[Event], two: &Two<'_>, place: u32) -> bool
    requires counts { (length two.now.to_i.now ≡ two.now.i) × (length two.now.to_j.now ≡ two.now.j) }
    requires known { AreFarthestSteps events.now two.now.i two.now.to_i.now × AreFarthestSteps events.now two.now.j two.now.to_j.now }
    ensures { result ≡ is_other events.now two.now.i two.now.j place }
{
    !reaches_either(events, two, place) && place != two.i && place != two.j
}

// Puts the place last, if it is wanted.
fn push_if(places: &mut Places, place: u32, wanted: bool) -> Result<(), NoMemory>
    ensures { OnOk result (places.new ≡ places.old ++ (if wanted then place ∷ [] else [])) }
{
    if wanted {
        places.push(place)?;
    }
    Ok(())
}

// Puts the places that reach one of the two last.
fn push_before(places: &mut Places, events: &[Event], two: &Two<'_>) -> Result<(), NoMemory>
    requires counts { (length two.now.to_i.now ≡ two.now.i) × (length two.now.to_j.now ≡ two.now.j) }
    requires known { AreFarthestSteps events.now two.now.i two.now.to_i.now × AreFarthestSteps events.now two.now.j two.now.to_j.now }
    requires few { length events.now < 4294967296 }
    ensures { OnOk result (places.new ≡ places.old ++ places_before events.now two.now.i two.now.j (length events.now)) }
{
    for place in 0..events.len() as u32 {
        let wanted = reaches_either(events, two, place);
        push_if(places, place, wanted)?;
    }
    Ok(())
}

// Puts the places last that are none of the two and reach none.
fn push_behind(places: &mut Places, events: &[Event], two: &Two<'_>) -> Result<(), NoMemory>
    requires counts { (length two.now.to_i.now ≡ two.now.i) × (length two.now.to_j.now ≡ two.now.j) }
    requires known { AreFarthestSteps events.now two.now.i two.now.to_i.now × AreFarthestSteps events.now two.now.j two.now.to_j.now }
    requires few { length events.now < 4294967296 }
    ensures { OnOk result (places.new ≡ places.old ++ places_behind events.now two.now.i two.now.j (length events.now)) }
{
    for place in 0..events.len() as u32 {
        let wanted = is_other(events, two, place);
        push_if(places, place, wanted)?;
    }
    Ok(())
}

/// The order in which i and j stand side by side, by the steps to each of all places before it. It looks at each event twice.
#[tactic(auto, unfolding(crate::specs::Beside::beside))]
pub fn beside(
    alloc: Global,
    events: &[Event],
    to_i: &FarthestSteps,
    to_j: &FarthestSteps,
    i: u32,
    j: u32,
) -> Result<Places, NoMemory>
    requires counts { (length to_i.now ≡ i) × (length to_j.now ≡ j) }
    requires known { AreFarthestSteps events.now i to_i.now × AreFarthestSteps events.now j to_j.now }
    requires few { length events.now < 4294967296 }
    ensures { IfOk result (λ places. places ≡ beside events.now i j) }
{
    let two = Two { i, j, to_i, to_j };
    let mut places = Places::new(alloc);
    push_before(&mut places, events, &two)?;
    places.push(i)?;
    places.push(j)?;
    push_behind(&mut places, events, &two)?;
    Ok(places)
}
