//! Standard output as a sink.
ghost use Rattle.std.specs.Prelude.{None};

use rd_io::{Failed, Sink};

/// Standard output, which tells nothing of what was written. Each error counts as a fault, and so does a write that takes
/// nothing of a part that isn't empty.
#[derive(Drop)]
pub struct OutputSink<'a, P: Print> {
    to: &'a P,
    faults: u64,
}

impl<'a, P: Print> OutputSink<'a, P> {
    pub fn new(to: &'a P) -> OutputSink<'a, P> {
        OutputSink { to, faults: 0 }
    }
}

impl<'a, P: Print> Sink for OutputSink<'a, P> {
    ghost written = { λ _. None };

    ghost faults = { λ out. out.faults };

    ghost at_fault = { λ _. None };

    fn write(&mut self, part: &[u8]) -> Result<usize, Failed> {
        if let Ok(count) = self.to.write_some(part) {
            if count == 0 && !part.is_empty() {
                self.faults = self.faults.saturating_add(1);
            }
            return Ok(count);
        }
        self.faults = self.faults.saturating_add(1);
        Err(Failed)
    }
}
