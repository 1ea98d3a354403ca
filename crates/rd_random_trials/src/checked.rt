//! Runs of `check` over a trace and a specification in memory.
ghost use Rattle.std.specs.Prelude.{◌≡◌, ◌<◌};

use rd_base::{Limits, Steps, Word};
use rd_io::{MemoryInputs, MemorySink};
use rd_run::{Status, run};
use std::alloc::Global;
use std::marker::Brand;
use std::process::Abort;
use std::sync::ledger::{Blank, Ledger};

fn run_counted<L: Ledger>(
    alloc: Global,
    words: &[Word],
    inputs: &mut MemoryInputs,
    out: &mut MemorySink,
    blank: Blank,
) -> Status
    requires name { blank.name ≡ L.name }
    requires parts { blank.parts ≡ L.parts }
    requires some { 0 < blank.parts }
{
    let mut steps = Steps::<L>::new(blank);
    run(alloc, words, inputs, out, &Limits::standard(), &mut steps)
}

/// The words of the command.
fn command(rt: &impl Abort, alloc: Global, trace: Word, spec: Word) -> Vec<Word> {
    let mut words = Vec::new(alloc);
    let check = Word::from_bytes(alloc, b"check").expect(rt, "memory");
    words.push(check).expect(rt, "memory");
    words.push(trace).expect(rt, "memory");
    words.push(spec).expect(rt, "memory");
    words
}

/// What `check` answers for a trace beside a specification. It writes into the sink.
pub fn checked(
    rt: &impl Abort,
    alloc: Global,
    trace: &[u8],
    spec: &[u8],
    out: &mut MemorySink,
) -> Status {
    let trace_word = Word::from_bytes(alloc, b"t.trace").expect(rt, "memory");
    let spec_word = Word::from_bytes(alloc, b"s").expect(rt, "memory");
    let mut inputs = MemoryInputs::new(alloc, &[]).expect(rt, "memory");
    inputs.add(&trace_word, trace, 4096).expect(rt, "memory");
    inputs.add(&spec_word, spec, 4096).expect(rt, "memory");
    let words = command(rt, alloc, trace_word, spec_word);
    run_counted::<Brand>(alloc, words.as_slice(), &mut inputs, out, Blank::new(1))
}
