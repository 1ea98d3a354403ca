//! Reading rows from the lines of a file.

use crate::rows::Row;
use std::alloc::Global;
use std::fs;
use std::rt::Files;

/// Whose text the lines behind are.
#[derive(Clone, Copy)]
enum Part {
    Trace,
    Specification,
    Writes,
}

/// What is read so far: the row that is open, whose text is read, and how many runs there were.
#[derive(Drop)]
pub struct Reader {
    row: Row,
    is_open: bool,
    part: Part,
    line: u32,
    runs: u32,
    otherwise: u32,
}

/// The number that the digits say. None where they aren't digits, or too many.
fn number(digits: &[u8]) -> Option<u64> {
    let mut number = 0u64;
    for digit in digits {
        if !digit.is_ascii_digit() {
            return None;
        }
        number = number
            .checked_mul(10)?
            .checked_add(u64::from(*digit - b'0'))?;
    }
    Some(number)
}

/// Puts the numbers of a line, one blank apart, behind the others. None where one isn't a number of 32 bits, or memory runs out.
fn push_numbers(numbers: &mut Vec<u32>, text: &[u8]) -> Option<()> {
    for digits in text.split(|byte| *byte == b' ') {
        let number = u32::try_from(number(digits)?).ok()?;
        numbers.push(number).ok()?;
    }
    Some(())
}

impl Reader {
    /// Before the first line.
    pub fn new(alloc: Global) -> Reader {
        Reader {
            row: Row::new(alloc),
            is_open: false,
            part: Part::Trace,
            line: 0,
            runs: 0,
            otherwise: 0,
        }
    }

    /// Runs the row that is open, if one is, and says where it isn't met.
    fn close<R: Print>(&mut self, rt: &R) -> Option<()> {
        if !self.is_open {
            return Some(());
        }
        self.is_open = false;
        if self.row.pieces.is_empty() {
            self.row.pieces.push(4096).ok()?;
        }
        let runs = u32::try_from(self.row.runs()).ok()?;
        self.runs = self.runs.checked_add(runs)?;
        if self.row.is_met()? {
            return Some(());
        }
        self.otherwise = self.otherwise.checked_add(1)?;
        let line = self.line;
        rt.println(format_args!("the row in front of line {line} ends otherwise"))
            .ok()
    }

    /// Begins a row without words.
    fn begin(&mut self) -> Option<()> {
        self.row.begin();
        self.is_open = true;
        Some(())
    }

    /// Begins a row with these words, one blank apart.
    fn begin_with(&mut self, words: &[u8]) -> Option<()> {
        self.begin()?;
        for word in words.split(|byte| *byte == b' ') {
            self.row.push_word(word)?;
        }
        Some(())
    }

    /// Begins to read a text.
    fn part(&mut self, part: Part) -> Option<()> {
        self.part = part;
        match part {
            Part::Trace => self.row.trace.clear(),
            Part::Specification => self.row.specification.clear(),
            Part::Writes => self.row.writes.clear(),
        }
        Some(())
    }

    /// Puts bytes behind the text that is read.
    fn push(&mut self, bytes: &[u8]) -> Option<()> {
        let text = match self.part {
            Part::Trace => &mut self.row.trace,
            Part::Specification => &mut self.row.specification,
            Part::Writes => &mut self.row.writes,
        };
        text.extend_from_slice(bytes).ok()
    }

    /// Makes the specification so many bytes long, where it is shorter.
    fn fill(&mut self, length: u64) -> Option<()> {
        let begin = u64::try_from(self.row.specification.len()).ok()?;
        for _ in begin..length {
            self.row.specification.push(b'#').ok()?;
        }
        Some(())
    }

    /// Sets the limit that is named.
    fn limit(&mut self, text: &[u8]) -> Option<()> {
        let limits = &mut self.row.limits;
        if let Some(digits) = text.strip_prefix(b"bytes ".as_slice()) {
            limits.bytes = number(digits)?;
            return Some(());
        }
        let (name, digits) = text.split_at(text.iter().position(|byte| *byte == b' ')?);
        let limit = u32::try_from(number(digits.get(1..)?)?).ok()?;
        if name == b"line".as_slice() {
            limits.line = limit;
        } else if name == b"events".as_slice() {
            limits.events = limit;
        } else if name == b"threads".as_slice() {
            limits.threads = limit;
        } else if name == b"locks".as_slice() {
            limits.locks = limit;
        } else if name == b"objects".as_slice() {
            limits.objects = limit;
        } else if name == b"depth".as_slice() {
            limits.depth = limit;
        } else {
            return None;
        }
        Some(())
    }

    /// Takes a line that sets something of the row.
    fn set(&mut self, line: &[u8]) -> Option<()> {
        if let Some(numbers) = line.strip_prefix(b"pieces ".as_slice()) {
            return push_numbers(&mut self.row.pieces, numbers);
        }
        if let Some(numbers) = line.strip_prefix(b"failing reads ".as_slice()) {
            return push_numbers(&mut self.row.failing_reads, numbers);
        }
        if let Some(numbers) = line.strip_prefix(b"failing writes ".as_slice()) {
            return push_numbers(&mut self.row.failing_writes, numbers);
        }
        if let Some(limit) = line.strip_prefix(b"limit ".as_slice()) {
            return self.limit(limit);
        }
        if let Some(digits) = line.strip_prefix(b"fill ".as_slice()) {
            return self.fill(number(digits)?);
        }
        if let Some(digits) = line.strip_prefix(b"byte ".as_slice()) {
            return self.push(&[u8::try_from(number(digits)?).ok()?]);
        }
        self.row.status = number(line.strip_prefix(b"status ".as_slice())?)?;
        Some(())
    }

    /// Takes a line that isn't part of a text.
    fn take_word<R: Print>(&mut self, rt: &R, line: &[u8]) -> Option<()> {
        if line.starts_with(b"case ") {
            self.close(rt)?;
            self.row.clear();
            return Some(());
        }
        if let Some(words) = line.strip_prefix(b"row ".as_slice()) {
            self.close(rt)?;
            return self.begin_with(words);
        }
        if line == b"row".as_slice() {
            self.close(rt)?;
            return self.begin();
        }
        if line == b"trace".as_slice() {
            return self.part(Part::Trace);
        }
        if line == b"specification".as_slice() {
            return self.part(Part::Specification);
        }
        if line == b"writes".as_slice() {
            return self.part(Part::Writes);
        }
        if line == b"each write fails".as_slice() {
            self.row.fails_each_write = true;
            return Some(());
        }
        self.set(line)
    }

    /// Takes the next line of the file. None where it says nothing that is known, memory runs out or writing fails.
    pub fn take<R: Print>(&mut self, rt: &R, line: &[u8]) -> Option<()> {
        self.line = self.line.checked_add(1)?;
        match line {
            [] | [b'#', ..] => Some(()),
            [b'|', text @ ..] => {
                self.push(text)?;
                self.push(b"\n")
            }
            [b'\'', text @ ..] => self.push(text),
            _ => self.take_word(rt, line),
        }
    }

    /// Runs the last row, and says how many runs there were.
    pub fn end<R: Print>(&mut self, rt: &R) -> Option<()> {
        self.close(rt)?;
        let runs = self.runs;
        let otherwise = self.otherwise;
        rt.println(format_args!("{runs} runs, {otherwise} rows end otherwise"))
            .ok()
    }
}

/// Runs each row of the file `rows`. None where a line of it says nothing that is known, memory runs out, or reading or writing fails.
pub fn run_rows<R: Files + Alloc<A = Global> + Print>(rt: &R) -> Option<()> {
    let bytes = fs::read(rt, "rows").ok()?;
    let mut reader = Reader::new(rt.alloc());
    for line in bytes.split(|byte| *byte == b'\n') {
        reader.take(rt, line)?;
    }
    reader.end(rt)
}
