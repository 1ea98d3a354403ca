//! Inputs in memory.
ghost use Rattle.std.specs.Prelude.{◌≡◌, ℕ, min, take, ◌↔◌, ◌≤◌, None, Some, Ok, length, position, IfOk, OnOk, OnErr, IsErr};
ghost use Rattle.rd_io.specs.Calls.{FailsNext};
ghost use Rattle.rd_io.specs.Inputs.{Goes, Opens, Reads, HasCause};
ghost use Rattle.rd_io.specs.MemoryInputs.{StoredFile, RefusesName, is_named, no_files, file_named, source_of, taken_by_read, with_file, with_opened, with_failed_open, with_failed_read, with_taken};

use crate::calls::Calls;
use crate::inputs::{Failed, Inputs};
use rd_base::{NoMemory, Word};
use std::alloc::Global;
use std::marker::Model;

#[derive(Drop)]
struct File {
    name: Word,
    bytes: Vec<u8>,
    piece: u32,
}

impl Model for File {
    ghost use Rattle.rd_io.specs.MemoryInputs.{StoredFile};

    ghost Value = { StoredFile };

    ghost view = { λ f. record { name = f.name; bytes = f.bytes.items; piece = f.piece } };
}

impl File {
    fn new(alloc: Global, name: &Word, bytes: &[u8], piece: u32) -> Result<File, NoMemory>
        ensures { IfOk result
            (λ file. file ≡ record { name = name.now; bytes = bytes.now; piece = piece }) }
    {
        Ok(File {
            name: Word::from_bytes(alloc, name.items())?,
            bytes: Vec::from_slice(alloc, bytes)?,
            piece,
        })
    }
}

// The place of the first file with a name.
fn find_file(files: &[File], name: &[u8]) -> Option<usize>
    ensures { result ≡ position (is_named name.now) files.now }
{
    files.iter().position(|file| file.name.items() == name)
}

// Moves bytes from the front of what is left to the front of the buffer, as many as both and the piece allow.
fn take_piece(left: &[u8], piece: u32, buffer: &mut [u8]) -> usize
    ensures count { result ≡ min (length buffer.old) (min piece (length left.now)) }
    ensures taken { take result buffer.new ≡ take result left.now }
{
    let count = buffer.len().min((piece as usize).min(left.len()));
    buffer[..count].copy_from_slice(&left[..count]);
    count
}

/// Files in memory, which are read in pieces. Contracts see them as the files, what is left and what was taken of the
/// current one, and their calls of `open` and `read`.
#[derive(Drop)]
pub struct MemoryInputs {
    alloc: Global,
    files: Vec<File>,
    current: Option<usize>,
    position: usize,
    opens: u64,
    misses: u64,
    calls: Calls,
}

impl Model for MemoryInputs {
    ghost use Rattle.std.specs.Prelude.{take, drop};
    ghost use Rattle.rd_io.specs.MemoryInputs.{InputsState, IsPlace, bytes_at, piece_at};

    ghost Value = { InputsState };

    ghost view = { λ i. record {
      files = i.files.items;
      held = drop i.position (bytes_at i.files.items i.current);
      taken = take i.position (bytes_at i.files.items i.current);
      piece = piece_at i.files.items i.current;
      opens = i.opens;
      misses = i.misses;
      calls = i.calls;
    } };

    ghost invariant = { λ i. IsPlace i.files.items i.current i.position i.opens };
}

impl MemoryInputs {
    /// Inputs without a file. `failing` has the numbers of the calls of `open` and `read`, counted together from 1,
    /// that are to fail.
    pub fn new(alloc: Global, failing: &[u32]) -> Result<MemoryInputs, NoMemory>
        ensures { IfOk result (λ inputs. inputs ≡ no_files failing.now) }
    {
        Ok(MemoryInputs {
            alloc,
            files: Vec::new(alloc),
            current: None,
            position: 0,
            opens: 0,
            misses: 0,
            calls: Calls::new(alloc, failing)?,
        })
    }

    /// Adds a file, of which each read gives at most `piece` bytes. The current input stays what it is. After want of
    /// memory all is as before.
    pub fn add(&mut self, name: &Word, bytes: &[u8], piece: u32) -> Result<(), NoMemory>
        requires some { 1 ≤ piece }
        requires fresh { file_named self.old.files name.now ≡ None }
        ensures ok { OnOk result
            (self.new ≡ with_file self.old
            (record { name = name.now; bytes = bytes.now; piece = piece })) }
        ensures err { OnErr result (self.new ≡ self.old) }
    {
        let file = File::new(self.alloc, name, bytes, piece)?;
        self.files.push(file)?;
        Ok(())
    }

    /// How many calls failed, a count that stays at its last value. It takes no memory.
    pub fn faults(&self) -> u64
        ensures { result ≡ self.now.calls.faults }
    {
        self.calls.faults()
    }
}

impl Inputs for MemoryInputs {
    ghost told = { λ inputs. Some (source_of inputs) };

    ghost faults = { λ inputs. inputs.calls.faults };

    /// Makes the named file the current input. It fails exactly where the call is named among those that are to fail,
    /// or no file has the name. It takes no memory.
    fn open(&mut self, name: &Word) -> Result<(), Failed>
        ensures told { Goes (Some (source_of self.old)) (Some (source_of self.new))
            (λ old new. Opens old new name.now result) }
        ensures cause { HasCause self.old.calls.faults self.new.calls.faults result }
        ensures refused { IsErr result ↔ RefusesName self.old name.now }
        ensures ok { OnOk result
            ((file : StoredFile) × (file_named self.old.files name.now ≡ Some file)
            × (self.new ≡ with_opened self.old file)) }
        ensures err { OnErr result (self.new ≡ with_failed_open self.old name.now) }
    {
        let failing = self.calls.is_next_failing();
        let Some(index) = find_file(&self.files, name.items()) else {
            self.misses = self.misses.saturating_add(1);
            return Err(self.calls.fail());
        };
        if failing {
            return Err(self.calls.fail());
        }
        self.current = Some(index);
        self.position = 0;
        self.opens = self.opens.saturating_add(1);
        Ok(())
    }

    /// Moves as many bytes as the buffer, the file's piece and what is left allow. It fails exactly where the call is
    /// named among those that are to fail. It takes no memory.
    fn read(&mut self, buffer: &mut [u8]) -> Result<usize, Failed>
        // as each input promises
        ensures bound { IfOk result (λ count. count ≤ length buffer.new) }
        ensures told { Goes (Some (source_of self.old)) (Some (source_of self.new))
            (λ old new. Reads old new buffer.new result) }
        ensures cause { HasCause self.old.calls.faults self.new.calls.faults result }

        // and exactly what this one does
        ensures refused { IsErr result ↔ FailsNext self.old.calls }
        ensures amount { IfOk result (λ count. count ≡ taken_by_read self.old (length buffer.old)) }
        ensures ok { IfOk result (λ count. self.new ≡ with_taken self.old count) }
        ensures err { OnErr result (self.new ≡ with_failed_read self.old) }
    {
        if self.calls.is_next_failing() {
            return Err(self.calls.fail());
        }
        let Some(index) = self.current else {
            return Ok(0);
        };
        let file = &self.files[index];
        let count = take_piece(&file.bytes[self.position..], file.piece, buffer);
        self.position += count;
        Ok(count)
    }
}
