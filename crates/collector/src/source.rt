//! Where the lines of a run come from.

ghost use Rattle.std.specs.Prelude.{◌≡◌, ◌≤◌, IsTrue, IfOk, IfSome, List, OnOk, ℕ, length};
ghost use Rattle.contract_words.specs.Held.{Held};
ghost use Rattle.contract_words.specs.InputLines.{max_line};
ghost use Rattle.tele_io.specs.Mark.{IsAhead};
ghost use Rattle.tele_io.specs.Reading.{Advances, is_fault};
ghost use Rattle.tele_io.specs.Views.{Reads};
ghost use Rattle.collector.specs.Configured as spec;
ghost use Rattle.collector.specs.Source.{FindsLine, IsSafeFrom, text_in};

use load_gen::{MAX_PAYLOADS, make_payloads};
use std::alloc::{AllocError, Global};
use tele_io::{Disk, LineStop, Lines, MemDisk};

/// What the lines of a run stand in.
#[derive(Drop)]
pub enum Source {
    /// A file of the disk.
    File,
    /// A text that was made.
    Made(MemDisk),
}

impl Source {
    /// The payloads that are made from a seed, under a name.
    pub fn made(alloc: Global, name: &str, seed: u64, count: u32) -> Result<Source, AllocError>
        requires { count ≤ MAX_PAYLOADS }
        ensures text { IfOk result (λ source. text_in source name.now ≡ spec.made seed count) }
        ensures safe { IfOk result (λ source. (names : List (List ℕ)) (other : List ℕ)
            → IsSafeFrom names source other) }
    {
        let text = make_payloads(alloc, seed, count)?;
        let mut memory = MemDisk::new(alloc);
        memory.put(name, text.as_slice())?;
        Ok(Source::Made(memory))
    }

    /// The next line that isn't blank, of what stands under the reader's name.
    pub fn next<D: Disk>(
        &mut self,
        lines: &mut Lines,
        disk: &mut D,
    ) -> Result<Option<Vec<u8>>, LineStop>
        requires { IsTrue lines.old.live }
        ensures read { Reads (is_fault result)
            (λ held. IsAhead (text_in self.old lines.old.name held) lines.old
            → FindsLine (text_in self.old lines.old.name held) lines.old lines.new result)
            (D.seen disk.old) (D.seen disk.new) }
        ensures same { (name : List ℕ) (held : Held)
            → text_in self.new name held ≡ text_in self.old name held }
        ensures name { lines.new.name ≡ lines.old.name }
        ensures live { OnOk result (IsTrue lines.new.live) }
        ensures counts { Advances lines.old.count lines.new.count result }
        ensures short { IfOk result (λ found. IfSome found (λ line. length line.items ≤ max_line)) }
    {
        match self {
            Source::File => lines.next(disk),
            Source::Made(memory) => match lines.next(memory) {
                Ok(found) => Ok(found),
                Err(LineStop::TooLong) => Err(LineStop::TooLong),
                // No read of the text is planned to fail, so this is want of memory.
                Err(_) => Err(LineStop::NoMemory),
            },
        }
    }
}
