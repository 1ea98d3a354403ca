//! The events of lines that may follow each other.
ghost use Rattle.std.specs.Prelude.{◌≡◌, ◌++◌, option_to_list};
ghost use Rattle.rd_linear_trials.specs.Courses.{event_in};

use rd_base::Limits;
use rd_ecl::Spec;
use rd_event::{Event, read_line};
use rd_kinds::shipped;
use rd_linear::reorder;
use rd_order::Places;
use rd_wf::{Accepted, Roster, WfRefused, law_of_events};
use std::alloc::Global;
use std::marker::Model;
use std::process::Abort;

// Puts the event of an accepted line last, if it is one.
fn add(rt: &impl Abort, events: &mut Vec<Event>, accepted: Accepted)
    ensures { events.new.items ≡ events.old.items ++ option_to_list (event_in accepted) }
{
    if let Accepted::Event(event) = accepted {
        events.push(event).expect(rt, "memory");
    }
}

/// The events of the lines so far, and the roster that stands for these.
#[derive(Drop)]
pub struct Course {
    alloc: Global,
    roster: Box<Roster>,
    events: Vec<Event>,
}

impl Model for Course {
    ghost use Rattle.std.specs.Prelude.{ℕ};
    ghost use Rattle.rd_linear_trials.specs.Courses.{HasEvents};

    ghost Value = { ℕ };

    ghost view = { λ c. 0 };

    ghost invariant = { λ c. HasEvents c.roster.value c.events.items };
}

impl Course {
    /// No line.
    pub fn new(rt: &impl Abort, alloc: Global) -> Course {
        let spec = shipped(alloc).expect(rt, "memory");
        let roster = Roster::new(alloc, &spec).expect(rt, "memory");
        Course {
            alloc,
            roster: Box::new(alloc, roster).expect(rt, "memory"),
            events: Vec::new(alloc),
        }
    }

    /// Takes a line, where it may follow; else nothing changes.
    pub fn take(&mut self, rt: &impl Abort, text: &str) -> bool {
        let line = read_line(self.alloc, text.as_bytes(), 2).expect(rt, "a line");
        let accepted = match self.roster.accept(&line, &Limits::standard()) {
            Ok(accepted) => accepted,
            Err(refused) => {
                assert!(rt; refused != WfRefused::NoMemory);
                return false;
            }
        };
        add(rt, &mut self.events, accepted);
        true
    }

    /// The events so far.
    pub fn events(&self) -> &[Event] {
        self.events.as_slice()
    }

    /// The order that the number picks.
    pub fn order(&self, rt: &impl Abort, number: u64) -> Places {
        law_of_events();
        reorder(self.alloc, self.events.as_slice(), number).expect(rt, "memory")
    }
}
