//! A row, and its runs.
ghost use Rattle.std.specs.Prelude.{◌≡◌, ◌<◌, ◌≤◌};
ghost use Rattle.rd_base.specs.Limits.{AreUsable};

use rd_base::{Limits, NoMemory, Steps, Word};
use rd_io::{MemoryInputs, MemorySink};
use rd_run::{Status, run};
use std::alloc::Global;
use std::marker::Brand;
use std::sync::ledger::{Blank, Ledger};

/// The words of a command, two files, what may fail, the limits, and what the run should answer and write.
#[derive(Drop)]
pub struct Row {
    pub alloc: Global,
    pub words: Vec<Word>,
    pub trace: Vec<u8>,
    pub specification: Vec<u8>,
    /// how many bytes a read gives at most, one run for each
    pub pieces: Vec<u32>,
    pub failing_reads: Vec<u32>,
    pub failing_writes: Vec<u32>,
    /// whether the row is run once more for each line that it writes, with the write of that line failing
    pub fails_each_write: bool,
    pub limits: Limits,
    pub status: u64,
    pub writes: Vec<u8>,
}

/// A command over inputs in memory, with a counter of steps of its own.
fn run_with<L: Ledger>(
    alloc: Global,
    words: &[Word],
    inputs: &mut MemoryInputs,
    out: &mut MemorySink,
    limits: &Limits,
    blank: Blank,
) -> Status
    requires usable { AreUsable limits.now }
    requires name { blank.name ≡ L.name }
    requires parts { blank.parts ≡ L.parts }
    requires some { 0 < blank.parts }
{
    let mut steps = Steps::<L>::new(blank);
    run(alloc, words, inputs, out, limits, &mut steps)
}

impl Row {
    /// A row without words, over empty files.
    pub fn new(alloc: Global) -> Row {
        Row {
            alloc,
            words: Vec::new(alloc),
            trace: Vec::new(alloc),
            specification: Vec::new(alloc),
            pieces: Vec::new(alloc),
            failing_reads: Vec::new(alloc),
            failing_writes: Vec::new(alloc),
            fails_each_write: false,
            limits: Limits::standard(),
            status: 0,
            writes: Vec::new(alloc),
        }
    }

    /// Makes it a row without words over empty files.
    pub fn clear(&mut self) {
        self.trace.clear();
        self.specification.clear();
        self.begin();
    }

    /// Makes it a row without words over the same files.
    pub fn begin(&mut self) {
        self.words.clear();
        self.pieces.clear();
        self.failing_reads.clear();
        self.failing_writes.clear();
        self.fails_each_write = false;
        self.limits = Limits::standard();
        self.status = 0;
        self.writes.clear();
    }

    /// Puts a word behind the others. None where memory runs out.
    pub fn push_word(&mut self, bytes: &[u8]) -> Option<()> {
        self.words
            .push(Word::from_bytes(self.alloc, bytes).ok()?)
            .ok()
    }

    /// The two files, `t.trace` and `s`, read in pieces of so many bytes.
    fn inputs(&self, piece: u32) -> Result<MemoryInputs, NoMemory>
        requires { 1 ≤ piece }
    {
        let mut inputs = MemoryInputs::new(self.alloc, &self.failing_reads)?;
        let trace = Word::from_bytes(self.alloc, b"t.trace")?;
        inputs.add(&trace, &self.trace, piece)?;
        let specification = Word::from_bytes(self.alloc, b"s")?;
        inputs.add(&specification, &self.specification, piece)?;
        Ok(inputs)
    }

    /// What the run in such pieces, in which these writes fail, answers, and whether it writes this. None where memory runs out, or the row can't
    /// be run.
    pub fn end(&self, piece: u32, failing: &[u32], text: &[u8]) -> Option<(u8, bool)> {
        let limits = self.limits;
        if piece < 1 || limits.line < 1 {
            return None;
        }
        if limits.bytes >= u64::MAX || limits.events > 4_294_967_294 {
            return None;
        }
        let mut inputs = self.inputs(piece).ok()?;
        let mut out = MemorySink::new(self.alloc, 16_384, failing).ok()?;
        let answer = run_with::<Brand>(
            self.alloc,
            &self.words,
            &mut inputs,
            &mut out,
            &limits,
            Blank::new(1),
        );
        Some((answer.code(), out.written() == text))
    }

    /// Does the run in such pieces, in which these writes fail, answer and write this? None where memory runs out, or the row can't be run.
    fn ends_so(&self, piece: u32, failing: &[u32], status: u64, text: &[u8]) -> Option<bool> {
        let (answer, writes_so) = self.end(piece, failing, text)?;
        Some(u64::from(answer) == status && writes_so)
    }

    /// Does the run in which the write of each line fails, one after the other, answer 7 and write the lines in front of it alone? None where
    /// memory runs out, or the row can't be run.
    fn is_met_by_failing_writes(&self) -> Option<bool> {
        let mut met = true;
        let mut number = 0u32;
        let mut begin = 0;
        for (place, byte) in self.writes.iter().enumerate() {
            if *byte == b'\n' {
                number = number.checked_add(1)?;
                let front = self.writes.get(..begin)?;
                met = met && self.ends_so(4096, &[number], 7, front)?;
                begin = place.checked_add(1)?;
            }
        }
        if number == 0 { None } else { Some(met) }
    }

    /// How many runs the row has.
    pub fn runs(&self) -> usize {
        if self.fails_each_write {
            return self.writes.iter().filter(|byte| **byte == b'\n').count();
        }
        self.pieces.len()
    }

    /// Do all runs of the row answer and write what they should? None where memory runs out, or the row can't be run.
    pub fn is_met(&self) -> Option<bool> {
        if self.fails_each_write {
            return self.is_met_by_failing_writes();
        }
        let mut met = true;
        for piece in &self.pieces {
            let is_met = self.ends_so(*piece, &self.failing_writes, self.status, &self.writes)?;
            met = met && is_met;
        }
        Some(met)
    }
}
