//! The lines of a source.
ghost use Rattle.std.specs.Prelude.{◌≡◌, ◌≤◌, ◌+◌, ◌<◌, IfErr, IfOk, drop, length, nat_le, if◌then◌else◌};
ghost use Rattle.line_reader.specs.declared.input.Next.TheVariants as nexts;
ghost use Rattle.std.specs.Io.{ReadsAtMost};
ghost use Rattle.std.specs.Io.KnownBytes.{ReadConsumes};
ghost use Rattle.media.specs.Cause.{HasCause, Rose};
ghost use Rattle.line_reader.specs.Lines.{Fills, GivesPart, IsFront, TakesLine, IsBounded, IsReadFault, ended, first_reader, longest_script};

use crate::refusal::NotRead;
use media::{Failed, Source};
use memchr::memchr;
use std::alloc::{AllocError, Global};
use std::marker::Model;

/// How many bytes are asked of the source at a time.
const PIECE: usize = 4096;

/// The most bytes of a line, with its end.
const LONGEST_LINE: usize = 2048;

/// The most bytes of a script.
const LONGEST_SCRIPT: u64 = 16_777_216;

/// What comes next: a line without its end, the end of the input, or what can't be a line.
#[derive(Drop)]
pub enum Next {
    Line(Vec<u8>),
    End,
    Bad,
}

/// Whether a byte is pending, the source is at its end, or it has given all that a script may have.
#[derive(Clone, Copy)]
pub enum Filled {
    Some,
    End,
    TooLong,
}

/// The lines of a source, which is read in pieces: at most the longest script, and one byte more.
#[derive(Drop)]
pub struct Input {
    piece: Vec<u8>,
    /// Where the bytes begin that no line has yet, and where they end.
    from: usize,
    upto: usize,
    /// How many bytes the source gave.
    read: u64,
    /// How many lines there were.
    lines: u64,
}

impl Model for Input {
    ghost use Rattle.std.specs.Prelude.{◌≡◌, ◌≤◌, ◌+◌, ◌-◌, take, drop, length};
    ghost use Rattle.line_reader.specs.Lines.{Reader};

    ghost Value = { Reader };

    ghost view = { λ i. record { pending = take (i.upto - i.from) (drop i.from i.piece.items); taken = i.read - (i.upto - i.from); lines = i.lines } };

    ghost invariant = { λ i. (length i.piece.items ≡ 4096) × (i.from ≤ i.upto) × (i.upto ≤ 4096) × (i.lines + (i.upto - i.from) ≤ i.read) × (i.read ≤ 16777217) };
}

impl Input {
    /// Nothing is read yet.
    pub fn new(alloc: Global) -> Result<Input, AllocError>
        ensures { IfOk result (λ input. input ≡ first_reader) }
    {
        Ok(Input {
            piece: vec![in alloc; 0u8; PIECE]?,
            from: 0,
            upto: 0,
            read: 0,
            lines: 0,
        })
    }

    /// How many lines there were.
    pub fn lines(&self) -> u64
        ensures value { result ≡ self.now.lines }
        ensures few { result ≤ 16777217 }
        ensures most { IsBounded self.now }
    {
        self.lines
    }

    /// Whether a byte is pending; one is read where none is.
    fn fill<S: Source>(&mut self, source: &mut S) -> Result<Filled, Failed>
        ensures bytes { Fills self.old self.new (S.left source.old) (S.left source.new) result }
        ensures counts { (self.new.taken ≡ self.old.taken) × (self.new.lines ≡ self.old.lines) }
        ensures most { IsBounded self.new }
        ensures cause { HasCause S.faults source.old source.new result }
    {
        if self.from < self.upto {
            return Ok(Filled::Some);
        }
        let room = LONGEST_SCRIPT + 1 - self.read;
        if room == 0 {
            return Ok(Filled::TooLong);
        }
        let count = read_some(source, self.piece.as_mut_slice(), room)?;
        self.from = 0;
        self.upto = count;
        self.read += count as u64;
        if count == 0 {
            return Ok(Filled::End);
        }
        Ok(Filled::Some)
    }

    /// The bytes that no line has yet.
    fn pending(&self) -> &[u8]
        ensures { result.now ≡ self.now.pending }
    {
        let (_, behind) = self.piece.as_slice().split_at(self.from);
        let (pending, _) = behind.split_at(self.upto - self.from);
        pending
    }

    /// The first pending bytes are given to a line.
    fn skip(&mut self, count: usize)
        requires { count ≤ length self.old.pending }
        ensures pending { self.new.pending ≡ drop count self.old.pending }
        ensures counts { (self.new.taken ≡ self.old.taken + count) × (self.new.lines ≡ self.old.lines) }
        ensures fewer { self.new.lines + count ≤ self.new.taken }
        ensures most { IsBounded self.new }
    {
        self.from += count;
    }

    /// Gives a line the pending bytes before the first line end, so many of them at most. Whether a line end comes next.
    /// Without memory nothing is given.
    fn give(&mut self, line: &mut Vec<u8>, most: usize) -> Result<bool, AllocError>
        ensures part { IfOk result (GivesPart self.old self.new line.old.items line.new.items most) }
        ensures none { IfErr result (λ _. self.new ≡ self.old) }
        ensures same { (self.new.lines ≡ self.old.lines) × (IsBounded self.old → IsBounded self.new) }
    {
        let pending = self.pending();
        let (first, _) = pending.split_at(pending.len().min(most));
        let (part, ends) = before_end(first);
        let count = part.len();
        line.extend_from_slice(part)?;
        self.skip(count);
        Ok(ends)
    }

    /// The next line, without its end.
    pub fn next_line<S: Source>(&mut self, alloc: Global, source: &mut S) -> Result<Next, NotRead>
        requires { IsBounded self.old }
        ensures bytes { TakesLine self.old self.new (S.left source.old) (S.left source.new) result }
        ensures most { IsBounded self.new }
        ensures later { S.faults source.old ≤ S.faults source.new }
        ensures cause { IfErr result (IsReadFault (S.faults source.old) (S.faults source.new)) }
    {
        let mut line = Vec::new(alloc);
        for _ in 0..LONGEST_LINE {
            let filled = match self.fill(source) {
                Ok(filled) => filled,
                Err(_) => return Err(NotRead::SourceFault),
            };
            match filled {
                Filled::Some => {}
                Filled::End => return Ok(ended(&line)),
                Filled::TooLong => return Ok(Next::Bad),
            }
            let room = LONGEST_LINE - line.len();
            let ends = match self.give(&mut line, room) {
                Ok(ends) => ends,
                Err(_) => return Err(NotRead::Memory),
            };
            if line.len() == LONGEST_LINE {
                return Ok(Next::Bad);
            }
            if ends {
                self.skip(1);
                return Ok(self.finish(line));
            }
        }
        Ok(Next::Bad)
    }

    /// A line whose end was taken is counted, where the script isn't too long with it.
    fn finish(&mut self, line: Vec<u8>) -> Next
        requires { self.old.lines < self.old.taken }
        ensures next { result ≡ (if nat_le self.old.taken longest_script then nexts.Line line else nexts.Bad) }
        ensures same { (self.new.pending ≡ self.old.pending) × (self.new.taken ≡ self.old.taken) }
        ensures most { IsBounded self.new }
        ensures lines { self.new.lines ≡ (if nat_le self.old.taken longest_script then self.old.lines + 1 else self.old.lines) }
    {
        let taken = self.read - (self.upto - self.from) as u64;
        if taken > LONGEST_SCRIPT {
            return Next::Bad;
        }
        self.lines += 1;
        Next::Line(line)
    }
}

/// The bytes before the first line end, and whether there is one.
fn before_end(bytes: &[u8]) -> (&[u8], bool)
    ensures { IsFront bytes.now result.0.now result.1 }
{
    match memchr(b'\n', bytes) {
        None => (bytes, false),
        Some(i) => {
            let (front, _) = bytes.split_at(i);
            (front, true)
        }
    }
}

/// The input ends behind these bytes of a line.
fn ended(line: &[u8]) -> Next
    ensures { result ≡ ended line.now }
{
    if line.is_empty() {
        Next::End
    } else {
        Next::Bad
    }
}

/// Reads at most so many bytes to the front of a buffer.
fn read_some<S: Source>(source: &mut S, piece: &mut [u8], most: u64) -> Result<usize, Failed>
    requires { (length piece.old ≡ 4096) × (0 < most) }
    ensures size { length piece.new ≡ 4096 }
    ensures bound { IfOk result (λ n. (n ≤ 4096) × (n ≤ most)) }
    ensures bytes { ReadConsumes (S.left source.old) (S.left source.new) result piece.new }
    ensures cause { HasCause S.faults source.old source.new result }
{
    let room = most.min(PIECE as u64) as usize;
    let (front, _) = piece.split_at_mut(room);
    source.read(front)
}
