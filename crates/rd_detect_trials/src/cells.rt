//! How many cells there are behind calls, and when they are swept.
ghost use Rattle.std.specs.Prelude.{◌≡◌, ◌<◌};

use crate::trial::{Taken, Trial};
use rd_base::Steps;
use std::alloc::Global;
use std::marker::Brand;
use std::process::Abort;
use std::sync::ledger::{Blank, Ledger};

// Takes a line, which may follow.
fn takes<L: Ledger>(rt: &impl Abort, trial: &mut Trial, line: &str, steps: &mut Steps<L>) {
    let taken = trial.take(rt, line, steps);
    assert!(rt; !matches!(taken, Taken::Refused), "{line}");
}

// Takes lines with a semicolon between two.
fn opens<L: Ledger>(rt: &impl Abort, trial: &mut Trial, lines: &str, steps: &mut Steps<L>) {
    for line in lines.split(';') {
        takes(rt, trial, line, steps);
    }
}

// A thread puts a new key into the dictionary, and so many cells are left.
fn puts<L: Ledger>(
    rt: &impl Abort,
    alloc: Global,
    trial: &mut Trial,
    thread: &str,
    key: u32,
    cells: u128,
    steps: &mut Steps<L>,
) {
    let mut line = String::new(alloc);
    write!(line, "call {thread} d put {key} 1 -> nil").expect(rt, "memory");
    takes(rt, trial, line.as_str(), steps);
    let found = trial.cells();
    assert!(rt; found == cells, "{found} cells behind {key}");
}

// One thread puts 64 keys: a put of a new key touches the key and the size. At 64 cells comes a sweep, and each call is known to all
// threads; then one more key is put.
fn one_thread<L: Ledger>(rt: &impl Abort, alloc: Global, steps: &mut Steps<L>) {
    let mut trial = Trial::new(rt, alloc);
    opens(
        rt,
        &mut trial,
        "rdtrace 1;thread p;object d dictionary",
        steps,
    );
    for key in 1..63u32 {
        puts(rt, alloc, &mut trial, "p", key, u128::from(key) + 1, steps);
    }
    puts(rt, alloc, &mut trial, "p", 63, 0, steps);
    puts(rt, alloc, &mut trial, "p", 64, 2, steps);
}

// While a second thread knows nothing of them, a sweep leaves all 64 cells. When it has joined the first thread it has all calls, and its
// own puts bring 128 cells, twice as many: that sweep leaves none.
fn two_threads<L: Ledger>(rt: &impl Abort, alloc: Global, steps: &mut Steps<L>) {
    let mut trial = Trial::new(rt, alloc);
    opens(
        rt,
        &mut trial,
        "rdtrace 1;thread p;thread q;object d dictionary",
        steps,
    );
    for key in 1..64u32 {
        puts(rt, alloc, &mut trial, "p", key, u128::from(key) + 1, steps);
    }
    opens(rt, &mut trial, "join q p;call q d size -> 63", steps);
    assert!(rt; trial.cells() == 65);
    for key in 64..125u32 {
        puts(rt, alloc, &mut trial, "q", key, u128::from(key) + 3, steps);
    }
    puts(rt, alloc, &mut trial, "q", 125, 0, steps);
}

fn of_threads<L: Ledger>(rt: &impl Abort, alloc: Global, blank: Blank)
    requires name { blank.name ≡ L.name }
    requires parts { blank.parts ≡ L.parts }
    requires some { 0 < blank.parts }
{
    let mut steps = Steps::<L>::new(blank);
    one_thread(rt, alloc, &mut steps);
    two_threads(rt, alloc, &mut steps);
}

#[test]
fn cells_are_swept_at_64_and_at_twice_as_many(rt: HostRuntime) {
    of_threads::<Brand>(&rt, rt.alloc(), Blank::new(1));
}
