//! The lines of an input.
ghost use Rattle.std.specs.Prelude.{◌≡◌, ◌≢◌, ℕ, ◌++◌, Some, Ok, Err, Result, ◌+◌, ◌-◌, ◌*◌, ◌^◌, ◌<◌, ◌≤◌, List, [], None, take, drop, length, IfOk, OnErr};
ghost use Rattle.rd_io.specs.Inputs.{Goes, Takes, Reads, HasCause, Rose};
ghost use Rattle.rd_base.specs.Limits.{AreUsable};
ghost use Rattle.rd_io.specs.LineReader.{HasNoFeed, FindsFeed, Looks, Finds, HasLine, IsAnswered, Moves, IsAtEnd, IsFault, fresh, last_number, with_more, with_end, with_refusal, with_rest};

use crate::inputs::{Failed, Inputs};
use memchr::memchr;
use rd_base::{Limits, NoMemory};
use std::alloc::Global;
use std::marker::Model;
use thiserror::Error;

/// What the reader found.
#[derive(Clone, Copy, PartialEq, Eq)]
pub enum Next {
    /// the next line stands in `line`
    Line,
    /// the input ended after a line feed or before its first byte
    End,
}

/// Why there is no further line.
#[derive(Clone, Copy, Debug, PartialEq, Eq, Error)]
pub enum ReadEnd {
    /// a read failed; the next call goes on
    #[error("a read failed")]
    ReadFault,
    /// the line has as many bytes as the limit on a line, or more
    #[error("the line is too long")]
    LineTooLong,
    /// there are bytes past the limit on bytes
    #[error("there are too many bytes")]
    BytesLimit,
    /// the input ended inside a line
    #[error("the input ended inside a line")]
    NoFinalNewline,
}

/// The next line feed from `from` on.
fn first_feed(bytes: &[u8], from: usize) -> Option<usize>
    requires within { from ≤ length bytes.now }
    requires before { HasNoFeed (take from bytes.now) }
    ensures { FindsFeed bytes.now result }
{
    let at = memchr(b'\n', &bytes[from..])?;
    Some(from + at)
}

/// What a look at the bytes that were taken finds.
enum Look {
    /// a line, which was cut off
    Line,
    /// as many bytes as a line may have, without a line feed
    TooLong,
    /// a byte past the limit on bytes, and no line before it
    Past,
    /// too few bytes
    Short,
}

/// What a search for the next line finds.
enum Found {
    /// a line, which was cut off
    Line,
    /// as many bytes as a line may have, without a line feed
    TooLong,
    /// a byte past the limit on bytes, and no line before it
    Past,
    /// the end of the input, and no line before it
    Ended,
    /// a read that failed, and no line before it
    Faulted,
}

/// Makes room behind the bytes that are held for as many as a line may have, by moving them and the line before them to
/// the front where they stand too far behind. The answer is by how much they moved.
fn make_room(buffer: &mut [u8], limit: usize, line_start: usize, start: usize, held: usize) -> usize
    requires size { length buffer.old ≡ 2 * limit }
    requires small { limit < 2 ^ 32 }
    requires behind { line_start ≤ start }
    requires near { start ≤ line_start + limit }
    requires within { start + held ≤ 2 * limit }

    // there is room behind the line, and its bytes are kept
    ensures low { result ≤ line_start }
    ensures room { start ≤ result + limit }
    ensures kept { (from n : ℕ) → line_start ≤ from → from + n ≤ start + held →
        take n (drop (from - result) buffer.new) ≡ take n (drop from buffer.old) }
{
    if start <= limit {
        return 0;
    }
    buffer.copy_within(line_start..start + held, 0);
    line_start
}

/// Reads into the buffer from a place on.
fn read_at<I: Inputs>(
    inputs: &mut I,
    buffer: &mut [u8],
    from: usize,
    asked: usize,
) -> Result<usize, Failed>
    requires { from + asked ≤ length buffer.old }
    ensures bound { IfOk result (λ count. count ≤ asked) }
    ensures before { take from buffer.new ≡ take from buffer.old }
    ensures told { Goes (I.told inputs.old) (I.told inputs.new)
        (λ old new. Reads old new (take asked (drop from buffer.new)) result) }
    ensures cause { HasCause (I.faults inputs.old) (I.faults inputs.new) result }
{
    inputs.read(&mut buffer[from..from + asked])
}

/// Reads the lines of an input through a buffer of its own. It takes memory only when it is made.
///
/// A line ends with a line feed. Contracts see the reader as the bytes that it took and hasn't given yet, what is left of the
/// limit on bytes, the last line, and its number.
#[derive(Drop)]
pub struct LineReader {
    buffer: Vec<u8>,
    limit: usize,
    start: usize,
    held: usize,
    line_start: usize,
    line_len: usize,
    room: u64,
    number: u64,
    ended: Option<Result<Next, ReadEnd>>,
}

impl Model for LineReader {
    ghost use Rattle.std.specs.Prelude.{take, drop, length};
    ghost use Rattle.rd_io.specs.LineReader.{Reader, IsLaidOut};

    ghost Value = { Reader };

    ghost view = { λ r. record {
      pending = take r.held (drop r.start r.buffer.items);
      room = r.room;
      limit = r.limit;
      line = take r.line_len (drop r.line_start r.buffer.items);
      number = r.number;
      ended = r.ended;
    } };

    ghost invariant = { λ r.
        IsLaidOut (length r.buffer.items) r.limit r.start r.held r.line_start r.line_len r.room r.number r.ended };
}

impl LineReader {
    /// A reader that has taken nothing.
    pub fn new(alloc: Global, limits: &Limits) -> Result<LineReader, NoMemory>
        requires { AreUsable limits.now }
        ensures { IfOk result (λ reader. reader ≡ fresh limits.now) }
    {
        let limit = limits.line as usize;
        Ok(LineReader {
            buffer: vec![in alloc; 0; 2 * limit]?,
            limit,
            start: 0,
            held: 0,
            line_start: 0,
            line_len: 0,
            room: limits.bytes,
            number: 0,
            ended: None,
        })
    }

    /// The last line, without its line feed. Before the first line it is empty, and after
    /// `NoFinalNewline` it is the rest that no line feed ends. It takes no memory.
    pub fn line(&self) -> &[u8]
        ensures { result.now ≡ self.now.line }
    {
        &self.buffer[self.line_start..self.line_start + self.line_len]
    }

    /// The number of the last line, from 1; 0 before the first line. After a refusal other than
    /// `ReadFault` it is the number of the line that was being read. It takes no memory.
    pub fn number(&self) -> u64
        ensures value { result ≡ self.now.number }
        ensures bound { result ≤ last_number self.now.ended }
    {
        self.number
    }

    fn look(&mut self, seen: usize) -> Look
        requires held { seen ≤ length self.old.pending }
        requires within { seen ≤ self.old.room }
        requires clean { HasNoFeed (take seen self.old.pending) }
        requires going { self.old.ended ≡ None }
        ensures { Looks self.old self.new result }
    {
        let within = self.room.min(self.held as u64) as usize;
        match first_feed(&self.buffer[self.start..self.start + within], seen) {
            Some(at) => {
                self.line_start = self.start;
                self.line_len = at;
                self.start += at + 1;
                self.held -= at + 1;
                self.room -= at as u64 + 1;
                self.number += 1;
                Look::Line
            }
            None if self.held as u64 > self.room => Look::Past,
            None if self.held == self.limit => Look::TooLong,
            None => Look::Short,
        }
    }

    fn fill<I: Inputs>(&mut self, inputs: &mut I) -> Result<usize, Failed>
        requires short { length self.old.pending < self.old.limit }
        requires within { length self.old.pending ≤ self.old.room }
        requires going { self.old.ended ≡ None }

        // bytes are added, no more than fit
        ensures ok { IfOk result (λ count. (bytes : List ℕ) × (length bytes ≡ count)
            × (self.new ≡ with_more self.old bytes)
            × Goes (I.told inputs.old) (I.told inputs.new)
            (λ old new. Takes old new bytes × (count ≡ 0 → old.held ≡ []))) }
        ensures bound { IfOk result (λ count. length self.old.pending + count ≤ self.old.room + 1) }
        ensures fits { IfOk result (λ count. length self.old.pending + count ≤ self.old.limit) }

        // or nothing is taken; each fault is told as one
        ensures err { OnErr result
            ((self.new ≡ self.old)
            × Goes (I.told inputs.old) (I.told inputs.new) (λ old new. new ≡ old)) }
        ensures cause { HasCause (I.faults inputs.old) (I.faults inputs.new) result }
    {
        let by = make_room(
            &mut self.buffer,
            self.limit,
            self.line_start,
            self.start,
            self.held,
        );
        self.start -= by;
        self.line_start -= by;
        let from = self.start + self.held;
        let left = self.room - self.held as u64 + 1;
        let asked = left.min((self.limit - self.held) as u64) as usize;
        let Ok(count) = read_at(inputs, &mut self.buffer, from, asked) else {
            return Err(Failed);
        };
        self.held += count;
        Ok(count)
    }

    fn held(&self) -> usize
        ensures { result ≡ length self.now.pending }
    {
        self.held
    }

    #[inline(always)]
    fn advance<I: Inputs>(&mut self, inputs: &mut I) -> Found
        requires { self.old.ended ≡ None }
        ensures finds { (bytes : List ℕ) × Finds (with_more self.old bytes) self.new result
            × (length (self.old.pending ++ bytes) ≤ self.old.room + 1)
            × (length (self.old.pending ++ bytes) ≤ self.old.limit)
            × Goes (I.told inputs.old) (I.told inputs.new)
            (λ old new. Takes old new bytes × (result ≡ Found.Ended → new.held ≡ [])) }
        ensures still { HasLine self.old → inputs.new ≡ inputs.old }
        ensures later { I.faults inputs.old ≤ I.faults inputs.new }
        ensures calm { result ≢ Found.Faulted → I.faults inputs.new ≡ I.faults inputs.old }
        ensures fault { result ≡ Found.Faulted → Rose (I.faults inputs.old) (I.faults inputs.new) }
    {
        let _buffer = &self.buffer;
        let mut seen = 0;
        'search: loop {
            match self.look(seen) {
                Look::Line => return Found::Line,
                Look::TooLong => return Found::TooLong,
                Look::Past => return Found::Past,
                Look::Short => {}
            }
            seen = self.held();
            let Ok(count) = self.fill(inputs) else {
                return Found::Faulted;
            };
            if count == 0 {
                return Found::Ended;
            }
        }
    }

    /// Refuses the line that is being read, for good.
    fn refuse(&mut self, refused: ReadEnd) -> Result<Next, ReadEnd>
        requires { self.old.ended ≡ None }
        ensures answer { result ≡ Err refused }
        ensures reader { self.new ≡ with_refusal self.old refused }
    {
        self.number += 1;
        self.ended = Some(Err(refused));
        Err(refused)
    }

    /// Ends the lines where the input ended: at a rest, which becomes the line, or well.
    fn finish(&mut self) -> Result<Next, ReadEnd>
        requires going { self.old.ended ≡ None }
        requires short { length self.old.pending < self.old.limit }
        ensures well { self.old.pending ≡ [] → (result ≡ Ok Next.End)
            × (self.new ≡ with_end self.old) }
        ensures rest { self.old.pending ≢ [] → (result ≡ Err ReadEnd.NoFinalNewline)
            × (self.new ≡ with_rest self.old) }
    {
        if self.held == 0 {
            self.ended = Some(Ok(Next::End));
            return Ok(Next::End);
        }
        self.line_start = self.start;
        self.line_len = self.held;
        self.start += self.held;
        self.held = 0;
        self.refuse(ReadEnd::NoFinalNewline)
    }

    /// Looks for the next line, and reads as long as the bytes that were taken hold none. Each read is handed all the
    /// free room: as many bytes as a line may have, less those that are held, and never more than the limit on bytes and
    /// one more. Where a whole line is held nothing is read. It takes no memory.
    ///
    /// - `Line`: the next line stands in `line`.
    /// - `End`: the input ended after a line feed, or before its first byte.
    /// - `ReadFault` comes only where a read failed in this call. The reader is as before but for the bytes that it took,
    ///   and the next call goes on.
    /// - `LineTooLong`: as many bytes as the limit on a line were taken without a line feed, all within the limit on bytes.
    /// - `BytesLimit`: the bytes within the limit on bytes hold no further line, and one more was taken.
    /// - `NoFinalNewline`: the input ended inside a line, and neither of these two holds.
    ///
    /// After an answer other than `Line` and `ReadFault` each further call answers the same, and reads nothing.
    #[inline(always)]
    pub fn next<I: Inputs>(&mut self, inputs: &mut I) -> Result<Next, ReadEnd>
        // Once the lines have ended, each further call answers the same.
        ensures again { (answer : Result Next ReadEnd) → self.old.ended ≡ Some answer →
            (result ≡ answer) × (self.new ≡ self.old) × (inputs.new ≡ inputs.old) }
        // What the answer says of the lines to come, where it leaves the reader, and what it took of the input.
        ensures moves { self.old.ended ≡ None → Moves self.old self.new result }
        ensures tells { self.old.ended ≡ None → (bytes : List ℕ)
            × IsAnswered self.old bytes self.new result
            × Goes (I.told inputs.old) (I.told inputs.new)
            (λ old new. Takes old new bytes × (IsAtEnd result → new.held ≡ [])) }
        // Where a whole line is held nothing is read.
        ensures still { HasLine self.old → inputs.new ≡ inputs.old }
        // A read failed in this call exactly where the answer says so.
        ensures later { I.faults inputs.old ≤ I.faults inputs.new }
        ensures calm { ¬ (IsFault result) → I.faults inputs.new ≡ I.faults inputs.old }
        ensures fault { self.old.ended ≡ None → IsFault result →
            Rose (I.faults inputs.old) (I.faults inputs.new) }
    {
        if let Some(answer) = self.ended {
            return answer;
        }
        match self.advance(inputs) {
            Found::Line => Ok(Next::Line),
            Found::TooLong => self.refuse(ReadEnd::LineTooLong),
            Found::Past => self.refuse(ReadEnd::BytesLimit),
            Found::Ended => self.finish(),
            Found::Faulted => Err(ReadEnd::ReadFault),
        }
    }
}
