//! A disk in memory.

ghost use Rattle.std.specs.Prelude.{◌≡◌, ◌≤◌, ◌↔◌, ◌⊎◌, [], Some, None, length, option_map, IsNone, IfSome, IsErr, IfOk, IsTrue, IsFalse, OnOk, OnErr, is_err};
ghost use Rattle.std.specs.List.{position};
ghost use Rattle.std.specs.Str.{bytes_eq};
ghost use Rattle.tele_io.specs.Views.{Reads, Writes};
ghost use Rattle.tele_io.specs.Calls.{PutsBytes, Empties, Appends};
ghost use Rattle.tele_io.specs.Memory.{empty_memory, file_of, held_of, holding, unknown, called, with_plan, Puts, Plans, IsPlanned, Counted, Creates, Grows, OtherFiles, SameCounts, disk_view};

use crate::disk::{Disk, DiskFault};
use crate::memory::file::{DiskOp, MemFile};
use std::alloc::{AllocError, Global};
use std::marker::Model;

/// A disk that tells what it holds, and fails where it was told to or wants memory.
#[derive(Drop)]
pub struct MemDisk {
    files: Vec<MemFile>,
    read_faults: u64,
    write_faults: u64,
}

impl Model for MemDisk {
    ghost use Rattle.tele_io.specs.Memory.{Memory};

    ghost Value = { Memory };

    ghost view = { λ d. record {
      files = d.files.items;
      read_faults = d.read_faults;
      write_faults = d.write_faults;
    } };
}

fn find(files: &[MemFile], name: &str) -> Option<usize>
    ensures { result ≡ position (λ f. bytes_eq f.name name.now) files.now }
{
    files.iter().position(|file| file.is_named(name))
}

impl MemDisk {
    /// A disk without names.
    pub fn new(alloc: Global) -> MemDisk
        ensures { result ≡ empty_memory }
    {
        MemDisk {
            files: Vec::new(alloc),
            read_faults: 0,
            write_faults: 0,
        }
    }

    /// Lets the name hold the bytes.
    pub fn put(&mut self, name: &str, bytes: &[u8]) -> Result<(), AllocError>
        ensures ok { OnOk result (Puts name.now bytes.now self.old.files self.new.files) }
        ensures err { OnErr result (self.new ≡ self.old) }
        ensures others { OtherFiles name.now self.old.files self.new.files }
        ensures counts { SameCounts self.old self.new }
    {
        let alloc = *self.files.allocator();
        let bytes = bytes.to_vec(alloc)?;
        match find(self.files.as_slice(), name) {
            Some(i) => self.files[i].put(bytes),
            None => {
                let mut file = MemFile::new(alloc, name)?;
                file.put(bytes);
                self.files.push(file)?;
            }
        }
        Ok(())
    }

    /// Lets the nth call of that kind on the name fail, counted from 1 since the name was first
    /// put, created or named here, with the create that made it.
    pub fn fail(&mut self, op: DiskOp, name: &str, nth: u64) -> Result<(), AllocError>
        ensures ok { OnOk result (Plans op name.now nth self.old.files self.new.files) }
        ensures err { OnErr result (self.new ≡ self.old) }
        ensures others { OtherFiles name.now self.old.files self.new.files }
        ensures counts { SameCounts self.old self.new }
    {
        match find(self.files.as_slice(), name) {
            Some(i) => self.files[i].fail(op, nth)?,
            None => {
                let mut file = MemFile::new(*self.files.allocator(), name)?;
                file.fail(op, nth)?;
                self.files.push(file)?;
            }
        }
        Ok(())
    }

    /// The bytes under the name; None where it isn't there.
    pub fn get(&self, name: &str) -> Option<&[u8]>
        ensures { option_map (λ b. b.now) result ≡ held_of self.now.files name.now }
    {
        match find(self.files.as_slice(), name) {
            Some(i) => self.files[i].bytes(),
            None => None,
        }
    }
}

// Reads from that place on; nothing where the call fails or the name isn't there.
fn read_file(files: &mut Vec<MemFile>, name: &str, at: u64, room: &mut [u8]) -> Option<usize>
    ensures count { IfSome result (λ n. n ≤ length room.old) }
    ensures bytes { IfSome result
        (PutsBytes (held_of files.old.items name.now) at room.old room.new) }
    ensures none { IsNone result ↔ (IsPlanned DiskOp.Read name.now files.old.items
        ⊎ (held_of files.old.items name.now ≡ None)) }
    ensures counted { Counted DiskOp.Read name.now files.old.items files.new.items }
    ensures others { OtherFiles name.now files.old.items files.new.items }
{
    match find(files.as_slice(), name) {
        Some(i) => files[i].read(at, room),
        None => None,
    }
}

// Adds the whole piece, and tells whether the call went well.
fn append_file(files: &mut Vec<MemFile>, name: &str, piece: &[u8]) -> bool
    ensures planned { IsPlanned DiskOp.Append name.now files.old.items → IsFalse result }
    ensures absent { held_of files.old.items name.now ≡ None → IsFalse result }
    ensures added { IsTrue result → Grows name.now piece.now files.old.items files.new.items }
    ensures counted { IsFalse result
        → Counted DiskOp.Append name.now files.old.items files.new.items }
    ensures others { OtherFiles name.now files.old.items files.new.items }
{
    match find(files.as_slice(), name) {
        Some(i) => files[i].append(piece),
        None => false,
    }
}

// Adds a file without bytes under a new name, and tells whether there was memory.
fn add_file(files: &mut Vec<MemFile>, name: &str) -> Result<(), AllocError>
    requires { file_of files.old.items name.now ≡ None }
    ensures ok { OnOk result (file_of files.new.items name.now
        ≡ Some (holding [] (with_plan DiskOp.Create called (unknown name.now)))) }
    ensures err { OnErr result (files.new.items ≡ files.old.items) }
    ensures others { OtherFiles name.now files.old.items files.new.items }
{
    let mut file = MemFile::new(*files.allocator(), name)?;
    file.create();
    files.push(file)?;
    Ok(())
}

// Lets the name hold no bytes, and tells whether the call went well.
fn create_file(files: &mut Vec<MemFile>, name: &str) -> bool
    ensures planned { IsPlanned DiskOp.Create name.now files.old.items → IsFalse result }
    ensures room { IsFalse result → IsPlanned DiskOp.Create name.now files.old.items
        ⊎ (file_of files.old.items name.now ≡ None) }
    ensures created { IsTrue result → Creates name.now files.old.items files.new.items }
    ensures counted { IsFalse result
        → Counted DiskOp.Create name.now files.old.items files.new.items }
    ensures others { OtherFiles name.now files.old.items files.new.items }
{
    match find(files.as_slice(), name) {
        Some(i) => files[i].create(),
        None => match add_file(files, name) {
            Ok(()) => true,
            Err(_) => false,
        },
    }
}

impl Disk for MemDisk {
    ghost use Rattle.tele_io.specs.Memory.{disk_view};

    ghost seen = { disk_view };

    /// Takes no memory.
    fn read(&mut self, name: &str, at: u64, room: &mut [u8]) -> Result<usize, DiskFault>
        ensures count { IfOk result (λ n. n ≤ length room.old) }
        ensures read { Reads (is_err result)
            (λ held. IfOk result (PutsBytes (held name.now) at room.old room.new))
            (disk_view self.old) (disk_view self.new) }
        // When it fails, and what counts the call.
        ensures fails { IsErr result ↔ (IsPlanned DiskOp.Read name.now self.old.files
            ⊎ (held_of self.old.files name.now ≡ None)) }
        ensures counted { Counted DiskOp.Read name.now self.old.files self.new.files }
        ensures others { OtherFiles name.now self.old.files self.new.files }
    {
        match read_file(&mut self.files, name, at, room) {
            Some(count) => Ok(count),
            None => {
                self.read_faults = self.read_faults.saturating_add(1);
                Err(DiskFault)
            }
        }
    }

    fn create(&mut self, name: &str) -> Result<(), DiskFault>
        ensures create { Writes (is_err result) (Empties name.now result)
            (disk_view self.old) (disk_view self.new) }
        ensures ok { OnOk result (Creates name.now self.old.files self.new.files) }
        ensures err { OnErr result (Counted DiskOp.Create name.now self.old.files self.new.files) }
        // When it fails: memory is wanted for a new name alone.
        ensures planned { IsPlanned DiskOp.Create name.now self.old.files → IsErr result }
        ensures room { IsErr result → IsPlanned DiskOp.Create name.now self.old.files
            ⊎ (file_of self.old.files name.now ≡ None) }
        ensures others { OtherFiles name.now self.old.files self.new.files }
    {
        if create_file(&mut self.files, name) {
            return Ok(());
        }
        self.write_faults = self.write_faults.saturating_add(1);
        Err(DiskFault)
    }

    /// Takes the whole piece.
    fn append(&mut self, name: &str, piece: &[u8]) -> Result<usize, DiskFault>
        ensures whole { IfOk result (λ n. n ≡ length piece.now) }
        ensures append { Writes (is_err result) (Appends name.now piece.now result)
            (disk_view self.old) (disk_view self.new) }
        ensures ok { OnOk result (Grows name.now piece.now self.old.files self.new.files) }
        ensures err { OnErr result (Counted DiskOp.Append name.now self.old.files self.new.files) }
        // When it fails, want of memory aside.
        ensures planned { IsPlanned DiskOp.Append name.now self.old.files → IsErr result }
        ensures absent { held_of self.old.files name.now ≡ None → IsErr result }
        ensures others { OtherFiles name.now self.old.files self.new.files }
    {
        if append_file(&mut self.files, name, piece) {
            return Ok(piece.len());
        }
        self.write_faults = self.write_faults.saturating_add(1);
        Err(DiskFault)
    }
}
