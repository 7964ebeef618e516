//! The system's files as a disk.

ghost use Rattle.std.specs.Prelude.{◌≡◌, ◌+◌, ◌<◌, ◌≤◌, ◌^◌, IfOk, IfSome, length};

use crate::disk::{Disk, DiskFault};
use crate::host::tries::{read_some, write_some};
use std::alloc::Global;
use std::fs::{self, OpenOptions};
use std::io::{self, Seek, SeekFrom};
use std::rt::Files;

/// A file that is open under a name.
#[derive(Drop)]
struct Opened<F> {
    name: String,
    file: F,
}

/// How many files are kept open to be written.
const MOST_OPEN: usize = 32;

/// Keeps the file that was read last and the files that were written last open between calls.
#[derive(Drop)]
pub struct HostDisk<R: Files> {
    files: R,
    alloc: Global,
    reading: Option<Opened<R::File>>,
    // The place in it that is read next.
    place: u64,
    writing: Vec<Opened<R::File>>,
    read_faults: u64,
    write_faults: u64,
}

// The file, if it has this name.
fn if_named<F: Drop>(opened: Option<Opened<F>>, name: &str) -> Option<Opened<F>> {
    match opened {
        Some(opened) => {
            if opened.name.as_str() == name {
                Some(opened)
            } else {
                None
            }
        }
        None => None,
    }
}

fn with_name<F: Drop>(alloc: Global, name: &str, file: F) -> io::Result<Opened<F>> {
    let name = String::from_str(alloc, name)?;
    Ok(Opened { name, file })
}

// Where the file with this name stands.
fn place_of<F>(opened: &[Opened<F>], name: &str) -> Option<usize>
    ensures { IfSome result (λ at. at < length opened.now) }
{
    for at in 0..opened.len() {
        if opened[at].name.as_str() == name {
            return Some(at);
        }
    }
    None
}

impl<R: Files> HostDisk<R> {
    pub fn new(alloc: Global, files: R) -> HostDisk<R> {
        HostDisk {
            files,
            alloc,
            reading: None,
            place: 0,
            writing: Vec::new(alloc),
            read_faults: 0,
            write_faults: 0,
        }
    }

    // Reads on in the file that is open under this name, or in one that is opened here; after an
    // error none is open.
    fn read_at(&mut self, name: &str, at: u64, room: &mut [u8]) -> io::Result<usize>
        requires { at + length room.old < 2 ^ 64 }
        ensures count { IfOk result (λ n. n ≤ length room.old) }
        ensures reads { self.new.read_faults ≡ self.old.read_faults }
        ensures writes { self.new.write_faults ≡ self.old.write_faults }
    {
        let mut opened = match if_named(self.reading.take(), name) {
            Some(opened) => opened,
            None => {
                self.place = 0;
                with_name(self.alloc, name, fs::open(&self.files, name)?)?
            }
        };
        if self.place != at {
            opened.file.seek(SeekFrom::Start(at))?;
        }
        let count = read_some(&mut opened.file, room)?;
        self.place = at + count as u64;
        self.reading = Some(opened);
        Ok(count)
    }

    // The file that is open to be written under this name, which is handed out.
    fn take_open(&mut self, name: &str) -> Option<Opened<R::File>>
        ensures reads { self.new.read_faults ≡ self.old.read_faults }
        ensures writes { self.new.write_faults ≡ self.old.write_faults }
    {
        let at = place_of(self.writing.as_slice(), name)?;
        Some(self.writing.remove(at))
    }

    // Keeps a file open to be written; where there are many, the one of old goes.
    fn keep_open(&mut self, opened: Opened<R::File>) -> io::Result<()>
        ensures reads { self.new.read_faults ≡ self.old.read_faults }
        ensures writes { self.new.write_faults ≡ self.old.write_faults }
    {
        if self.writing.len() >= MOST_OPEN {
            drop(self.writing.remove(0));
        }
        self.writing.push(opened)?;
        Ok(())
    }

    // A file that was there holds no bytes afterwards. After an error none is open to be written
    // under this name.
    fn create_anew(&mut self, name: &str) -> io::Result<()>
        ensures reads { self.new.read_faults ≡ self.old.read_faults }
        ensures writes { self.new.write_faults ≡ self.old.write_faults }
    {
        drop(self.take_open(name));
        let file = fs::create(&self.files, name)?;
        self.keep_open(with_name(self.alloc, name, file)?)
    }

    // Writes on to the file that is open under this name, or to one that is opened here; after an
    // error none is open under this name.
    fn append_to(&mut self, name: &str, piece: &[u8]) -> io::Result<usize>
        ensures count { IfOk result (λ n. n ≤ length piece.now) }
        ensures some { IfOk result (λ n. 0 < length piece.now → 0 < n) }
        ensures reads { self.new.read_faults ≡ self.old.read_faults }
        ensures writes { self.new.write_faults ≡ self.old.write_faults }
    {
        let mut opened = match self.take_open(name) {
            Some(opened) => opened,
            None => {
                let file = OpenOptions::new().append(true).open(&self.files, name)?;
                with_name(self.alloc, name, file)?
            }
        };
        let count = write_some(&mut opened.file, piece)?;
        self.keep_open(opened)?;
        Ok(count)
    }
}

impl<R: Files> Disk for HostDisk<R> {
    ghost use Rattle.std.specs.Prelude.{None};

    ghost seen = { λ d. record {
      held = None;
      read_faults = d.read_faults;
      write_faults = d.write_faults;
    } };

    fn read(&mut self, name: &str, at: u64, room: &mut [u8]) -> Result<usize, DiskFault> {
        match self.read_at(name, at, room) {
            Ok(count) => Ok(count),
            Err(_) => {
                self.read_faults = self.read_faults.saturating_add(1);
                Err(DiskFault)
            }
        }
    }

    fn create(&mut self, name: &str) -> Result<(), DiskFault> {
        match self.create_anew(name) {
            Ok(()) => Ok(()),
            Err(_) => {
                self.write_faults = self.write_faults.saturating_add(1);
                Err(DiskFault)
            }
        }
    }

    fn append(&mut self, name: &str, piece: &[u8]) -> Result<usize, DiskFault> {
        match self.append_to(name, piece) {
            Ok(count) => Ok(count),
            Err(_) => {
                self.write_faults = self.write_faults.saturating_add(1);
                Err(DiskFault)
            }
        }
    }
}
