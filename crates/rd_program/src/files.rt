//! Real files as inputs.
ghost use Rattle.std.specs.Prelude.{None, ◌≤◌, length, IfOk};
ghost use Rattle.std.specs.Io.KnownBytes.{ReadConsumes};
ghost use Rattle.rd_io.specs.Inputs.{HasCause};

use rd_base::Word;
use rd_io::{Failed, Inputs};
use std::io::Read;
use std::rt::Files;
use std::{fs, str};

/// The files of the system, which tell nothing of what is in them. Each error counts as a fault, and so does a name that
/// isn't UTF-8.
#[derive(Drop)]
pub struct FileInputs<'a, R: Files> {
    rt: &'a R,
    current: Option<R::File>,
    faults: u64,
}

impl<'a, R: Files> FileInputs<'a, R> {
    pub fn new(rt: &'a R) -> FileInputs<'a, R> {
        FileInputs {
            rt,
            current: None,
            faults: 0,
        }
    }
}

impl<'a, R: Files> Inputs for FileInputs<'a, R> {
    ghost told = { λ _. None };

    ghost faults = { λ inputs. inputs.faults };

    fn open(&mut self, name: &Word) -> Result<(), Failed> {
        if let Ok(path) = str::from_utf8(name.items())
            && let Ok(file) = fs::open(self.rt, path)
        {
            self.current = Some(file);
            return Ok(());
        }
        self.faults = self.faults.saturating_add(1);
        Err(Failed)
    }

    fn read(&mut self, buffer: &mut [u8]) -> Result<usize, Failed> {
        match &mut self.current {
            Some(file) => read_counted(file, buffer, &mut self.faults),
            None => Ok(0),
        }
    }
}

/// Reads from a file. An error counts as a fault.
pub fn read_counted<F: Read>(
    file: &mut F,
    buffer: &mut [u8],
    faults: &mut u64,
) -> Result<usize, Failed>
    ensures bound { IfOk result (λ count. count ≤ length buffer.new) }
    ensures bytes { ReadConsumes (F.remaining file.old) (F.remaining file.new) result buffer.new }
    ensures cause { HasCause faults.old faults.new result }
{
    if let Ok(count) = file.read(buffer) {
        return Ok(count);
    }
    *faults = faults.saturating_add(1);
    Err(Failed)
}
