//! The adapters over what they stand on: short writes, writes that take nothing, and errors; and the words of a command line.
ghost use Rattle.std.specs.Prelude.{◌≤◌, length, IfOk};

use crate::arguments::{WordsRefused, words};
use crate::files::read_counted;
use crate::output::OutputSink;
use rd_io::{Sink, write_all};
use rd_run::Status;
use std::cell::{Cell, RefCell};
use std::env::{Env, FillError};
use std::fmt::Display;
use std::io;
use std::io::Read;
use std::process::Abort;

/// An output that takes at most `width` bytes in a write. Once there is no room left, a write fails, or takes nothing.
#[derive(Drop)]
struct Paper {
    taken: RefCell<Vec<u8>>,
    width: usize,
    room: Cell<usize>,
    fails: bool,
}

impl Print for Paper {
    fn print<D: Display + Drop>(&self, _value: D) -> io::Result<()> {
        Err(io::Error::other("only bytes are written"))
    }

    fn println<D: Display + Drop>(&self, _value: D) -> io::Result<()> {
        Err(io::Error::other("only bytes are written"))
    }

    fn write_all(&self, _bytes: &[u8]) -> io::Result<()> {
        Err(io::Error::other("only some bytes are written"))
    }

    fn write_some(&self, bytes: &[u8]) -> io::Result<usize> {
        let room = self.room.get();
        if room == 0 && self.fails {
            return Err(io::Error::other("no room"));
        }
        let count = self.width.min(room).min(bytes.len());
        let Ok(mut taken) = self.taken.try_borrow_mut() else {
            return Err(io::Error::other("written twice at once"));
        };
        if taken.extend_from_slice(&bytes[..count]).is_err() {
            return Err(io::Error::other("no memory"));
        }
        self.room.set(room - count);
        Ok(count)
    }
}

fn with_room(rt: HostRuntime, width: usize, room: usize, fails: bool) -> Paper {
    Paper {
        taken: RefCell::new(Vec::new(rt.alloc())),
        width,
        room: Cell::new(room),
        fails,
    }
}

/// Hands the bytes to the output, which takes all of them, or only so many in front of a fault.
fn takes(rt: &impl Abort, out: &mut OutputSink<Paper>, bytes: &[u8], before_fault: Option<usize>) {
    let taken = write_all(out, bytes).err().map(|fault| fault.written);
    assert!(rt; taken == before_fault);
}

/// One write takes so many of the bytes, or fails.
fn takes_at_once(
    rt: &impl Abort,
    out: &mut OutputSink<Paper>,
    bytes: &[u8],
    wanted: Option<usize>,
) {
    let count = out.write(bytes).ok();
    assert!(rt; count == wanted);
}

/// The output has taken these bytes and no others.
fn has_taken(rt: &impl Abort, paper: &Paper, bytes: &[u8]) {
    let taken = paper
        .taken
        .try_borrow()
        .expect(rt, "nothing is written now");
    assert!(rt; taken.as_slice() == bytes);
}

#[test]
fn short_writes_are_put_together(rt: HostRuntime) {
    let paper = with_room(rt, 3, 20, true);
    let mut out = OutputSink::new(&paper);
    takes(&rt, &mut out, b"races 0\n", None);
    takes(&rt, &mut out, b"refused", None);
    has_taken(&rt, &paper, b"races 0\nrefused");
    takes_at_once(&rt, &mut out, b"line 1", Some(3));
}

#[test]
fn a_write_that_takes_nothing_is_a_fault(rt: HostRuntime) {
    let paper = with_room(rt, 3, 4, false);
    let mut out = OutputSink::new(&paper);
    takes(&rt, &mut out, b"races 0\n", Some(4));
    has_taken(&rt, &paper, b"race");
    takes_at_once(&rt, &mut out, b"", Some(0));
}

#[test]
fn a_write_error_is_a_fault(rt: HostRuntime) {
    let paper = with_room(rt, 3, 4, true);
    let mut out = OutputSink::new(&paper);
    takes(&rt, &mut out, b"races 0\n", Some(4));
    has_taken(&rt, &paper, b"race");
    takes_at_once(&rt, &mut out, b"s", None);
}

/// A file that gives one byte in a read, so many times, and then an error.
#[derive(Drop)]
struct Worn {
    left: u32,
}

impl Read for Worn {
    fn read(&mut self, buf: &mut [u8]) -> io::Result<usize> {
        if self.left == 0 {
            return Err(io::Error::other("worn out"));
        }
        if buf.is_empty() {
            return Ok(0);
        }
        self.left -= 1;
        buf[0] = b'r';
        Ok(1)
    }
}

/// A read gives so many bytes, or fails, and there were so many faults behind it.
fn reads(
    rt: &impl Abort,
    file: &mut Worn,
    buffer: &mut [u8],
    faults: &mut u64,
    wanted: (Option<usize>, u64),
) {
    let count = read_counted(file, buffer, faults).ok();
    assert!(rt; (count, *faults) == wanted);
}

#[test]
fn a_read_error_is_a_fault(rt: HostRuntime) {
    let mut file = Worn { left: 2 };
    let mut buffer = [0u8; 4];
    let mut faults = 0;
    reads(&rt, &mut file, &mut buffer, &mut faults, (Some(1), 0));
    reads(&rt, &mut file, &mut buffer[1..], &mut faults, (Some(1), 0));
    assert!(rt; buffer.starts_with(b"rr"));
    reads(&rt, &mut file, &mut buffer, &mut faults, (None, 1));
    let mut last = u64::MAX;
    reads(&rt, &mut file, &mut buffer, &mut last, (None, u64::MAX));
}

#[test]
fn the_numbers_of_statuses(rt: HostRuntime) {
    let statuses = [
        Status::Clean,
        Status::Raced,
        Status::Usage,
        Status::SpecRefused,
        Status::TraceRefused,
        Status::ReplayDiffers,
        Status::InputFault,
        Status::OutputFault,
        Status::NoMemory,
        Status::LimitReached,
        Status::NotACall,
        Status::LogRefused,
    ];
    for (number, status) in statuses.iter().enumerate() {
        assert!(rt; usize::from(status.code()) == number, "{number}");
    }
}

/// A command line of words of one byte each, so many times as is said, behind the program's name, if that is given.
#[derive(Drop)]
struct Line<'a> {
    named: bool,
    byte: u8,
    lengths: &'a [usize],
}

/// Fills the front of the buffer with a byte, if it is long enough.
fn fill(buf: &mut [u8], count: usize, byte: u8) -> Result<usize, FillError>
    ensures { IfOk result (λ n. n ≤ length buf.new) }
{
    if count > buf.len() {
        return Err(FillError::TooLong);
    }
    buf[..count].fill(byte);
    Ok(count)
}

impl<'a> Env for Line<'a> {
    fn arg(&self, i: usize, buf: &mut [u8]) -> Result<usize, FillError> {
        if i == 0 && self.named {
            return fill(buf, 3, b'r');
        }
        match self.lengths.get(i.wrapping_sub(1)) {
            Some(count) => fill(buf, *count, self.byte),
            None => Err(FillError::NotPresent),
        }
    }

    fn var(&self, _name: &str, _buf: &mut [u8]) -> Result<usize, FillError> {
        Err(FillError::NotPresent)
    }

    fn var_at(&self, _i: usize, _buf: &mut [u8]) -> Result<usize, FillError> {
        Err(FillError::NotPresent)
    }
}

#[test]
fn words_of_each_length(rt: HostRuntime) {
    let lengths = [0, 1, 255, 256, 257, 511, 512, 513, 65_535, 65_536, 0];
    // no text in UTF-8 has this byte
    let line = Line {
        named: true,
        byte: 0xFF,
        lengths: &lengths,
    };
    let Ok(given) = words(&line, rt.alloc()) else {
        panic!(rt; "the words are given");
    };
    assert!(rt; given.len() == lengths.len());
    for (word, count) in given.iter().zip(lengths) {
        let bytes = word.items();
        assert!(rt;
            bytes.len() == count && bytes.iter().all(|byte| *byte == 0xFF),
            "{count}"
        );
    }
}

#[test]
fn a_line_without_words(rt: HostRuntime) {
    let line = Line {
        named: true,
        byte: b'w',
        lengths: &[],
    };
    let none = words(&line, rt.alloc()).is_ok_and(|given| given.is_empty());
    assert!(rt; none);
}

#[test]
fn a_line_that_is_not_given(rt: HostRuntime) {
    let line = Line {
        named: false,
        byte: b'w',
        lengths: &[],
    };
    let refused = words(&line, rt.alloc()).err() == Some(WordsRefused::NotGiven);
    assert!(rt; refused);
}
