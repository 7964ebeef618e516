//! The lines of an input that aren't blank, one after another, up to the first that passes a limit.

ghost use Rattle.std.specs.Prelude.{◌≡◌, ◌++◌, ◌≤◌, ◌==◌, ℕ, [], List, Option, IsTrue, IfOk, IfSome, is_err, length, take, drop};
ghost use Rattle.contract_words.specs.InputLines.{max_line, is_blank_line};
ghost use Rattle.tele_io.specs.Views.{Reads};
ghost use Rattle.tele_io.specs.Mark.{start_of, SameLines, IsAhead, ReadsAhead};
ghost use Rattle.tele_io.specs.Reading.{TakesLine, Advances, Keeps, is_fault, Unbroken, BeginsBroken, Cuts, Finishes, ReadsLine};

use crate::disk::{Disk, DiskFault};
use crate::piece::Piece;
use memchr::memchr;
use std::alloc::{AllocError, Global};
use std::marker::Model;
use std::mem;

/// The most bytes of a line.
pub const MAX_LINE: usize = 16_777_216;

/// The most lines of an input, blank ones counted.
pub const MAX_LINES: u32 = 1_000_000;

/// Why no line came.
#[derive(Clone, Copy, Debug, PartialEq, Eq)]
pub enum LineStop {
    /// A read failed.
    Fault,
    /// The next line has more than `MAX_LINE` bytes, or comes behind `MAX_LINES` others.
    TooLong,
    NoMemory,
}

/// What is left of the lines under a name: those gone by, and what has been read past them.
#[derive(Drop)]
pub struct Lines {
    name: String,
    gone: u64,
    count: u32,
    begun: Vec<u8>,
    ahead: Piece,
    live: bool,
}

impl Model for Lines {
    ghost use Rattle.std.specs.Prelude.{◌≤◌, ◌+◌, ◌*◌, length, string_bytes};
    ghost use Rattle.contract_words.specs.InputLines.{max_line, max_lines};
    ghost use Rattle.tele_io.specs.Mark.{Mark};
    ghost use Rattle.tele_io.specs.Reading.{Unbroken};

    ghost Value = { Mark };

    ghost view = { λ l. record {
      name = string_bytes l.name;
      gone = l.gone;
      count = l.count;
      begun = l.begun.items;
      ahead = l.ahead;
      live = l.live;
    } };

    ghost invariant = { λ l. (l.gone ≤ (max_line + 1) * l.count) × (l.count ≤ max_lines)
        × (length l.begun.items ≤ max_line) × Unbroken l.begun.items };
}

// How many bytes stand before the first newline; all of them where there is none.
fn line_end(bytes: &[u8]) -> usize
    ensures within { result ≤ length bytes.now }
    ensures unbroken { Unbroken (take result bytes.now) }
    ensures broken { BeginsBroken (drop result bytes.now) }
{
    match memchr(b'\n', bytes) {
        Some(at) => at,
        None => bytes.len(),
    }
}

// Whether only spaces, tabs and carriage returns are in it.
fn is_blank(line: &[u8]) -> bool
    ensures { result ≡ is_blank_line line.now }
{
    for b in line {
        if *b != b' ' && *b != b'\t' && *b != b'\r' {
            return false;
        }
    }
    true
}

impl Lines {
    /// Stands before the first line; nothing is read yet.
    pub fn begin(alloc: Global, name: &str) -> Result<Lines, AllocError>
        ensures at_start { IfOk result (λ lines. lines ≡ start_of name.now) }
        ensures ahead { IfOk result (λ lines. (file : Option (List ℕ)) → IsAhead file lines) }
    {
        Ok(Lines {
            name: String::from_str(alloc, name)?,
            gone: 0,
            count: 0,
            begun: Vec::new(alloc),
            ahead: Piece::new(alloc)?,
            live: true,
        })
    }

    /// Whether no fault and no line past a limit was answered.
    pub fn live(&self) -> bool
        ensures { result ≡ self.now.live }
    {
        self.live
    }

    /// The next line that isn't blank, without its newline. After `NoMemory` it may be asked for
    /// again.
    pub fn next<D: Disk>(&mut self, disk: &mut D) -> Result<Option<Vec<u8>>, LineStop>
        requires { IsTrue self.old.live }
        // What is answered, where what has been read still stands under the name.
        ensures read { Reads (is_fault result) (λ held. IsAhead (held self.old.name) self.old
            → TakesLine (held self.old.name) self.old self.new result)
            (D.seen disk.old) (D.seen disk.new) }
        ensures name { self.new.name ≡ self.old.name }
        ensures live { Keeps self.new.live result }
        // Over every disk, told or not.
        ensures counts { Advances self.old.count self.new.count result }
        ensures short { IfOk result (λ found. IfSome found (λ line. length line.items ≤ max_line)) }
    {
        'lines: loop {
            match self.read_line(disk) {
                Ok(Some(line)) => {
                    if !is_blank(line.as_slice()) {
                        return Ok(Some(line));
                    }
                }
                Ok(None) => return Ok(None),
                Err(stop) => {
                    self.live = stop == LineStop::NoMemory;
                    return Err(stop);
                }
            }
        }
    }

    // Whether all that was read has been looked at.
    fn is_used_up(&self) -> bool
        ensures { result ≡ (length self.now.ahead == 0) }
    {
        self.ahead.is_empty()
    }

    // Moves the bytes ahead, up to the first newline, behind the line that is begun.
    fn cut(&mut self) -> Result<(), LineStop>
        ensures same { SameLines self.old self.new }
        ensures bytes { self.new.begun ++ self.new.ahead ≡ self.old.begun ++ self.old.ahead }
        ensures unbroken { Unbroken self.new.begun }
        ensures short { length self.new.begun ≤ max_line }
        ensures answer { Cuts self.new result }
    {
        let bytes = self.ahead.rest();
        let count = line_end(bytes);
        if count > MAX_LINE - self.begun.len() {
            return Err(LineStop::TooLong);
        }
        match self.begun.extend_from_slice(&bytes[..count]) {
            Ok(()) => {}
            Err(_) => return Err(LineStop::NoMemory),
        }
        self.ahead.skip(count);
        Ok(())
    }

    // Reads more behind what is begun.
    fn fill<D: Disk>(&mut self, disk: &mut D) -> Result<(), DiskFault>
        requires { self.old.ahead ≡ [] }
        ensures same { SameLines self.old self.new }
        ensures begun { self.new.begun ≡ self.old.begun }
        ensures read { Reads (is_err result)
            (λ held. ReadsAhead (held self.old.name) self.old self.new result)
            (D.seen disk.old) (D.seen disk.new) }
    {
        let at = self.gone + self.begun.len() as u64;
        self.ahead.fill(disk, self.name.as_str(), at)
    }

    // Lets the line that is begun go by, with the newline that stands ahead; None where nothing is
    // begun or ahead.
    fn finish(&mut self) -> Result<Option<Vec<u8>>, LineStop>
        ensures ends { Finishes self.old self.new result }
        ensures short { IfOk result (λ found. IfSome found (λ line. length line.items ≤ max_line)) }
    {
        if self.begun.is_empty() && self.ahead.is_empty() {
            return Ok(None);
        }
        if self.count >= MAX_LINES {
            return Err(LineStop::TooLong);
        }
        let alloc = *self.begun.allocator();
        let line = mem::replace(&mut self.begun, Vec::new(alloc));
        self.gone += line.len() as u64;
        if !self.ahead.is_empty() {
            self.ahead.skip(1);
            self.gone += 1;
        }
        self.count += 1;
        Ok(Some(line))
    }

    // The next line, blank or not.
    fn read_line<D: Disk>(&mut self, disk: &mut D) -> Result<Option<Vec<u8>>, LineStop>
        ensures short { IfOk result (λ found. IfSome found (λ line. length line.items ≤ max_line)) }
        ensures name { self.new.name ≡ self.old.name }
        ensures live { self.new.live ≡ self.old.live }
        ensures counts { Advances self.old.count self.new.count result }
        ensures read { Reads (is_fault result) (λ held. IsAhead (held self.old.name) self.old
            → ReadsLine (held self.old.name) self.old self.new result)
            (D.seen disk.old) (D.seen disk.new) }
    {
        'pieces: loop {
            match self.cut() {
                Ok(()) => {}
                Err(stop) => return Err(stop),
            }
            if !self.is_used_up() {
                return self.finish();
            }
            match self.fill(disk) {
                Ok(()) => {}
                Err(_) => return Err(LineStop::Fault),
            }
            if self.is_used_up() {
                return self.finish();
            }
        }
    }
}
