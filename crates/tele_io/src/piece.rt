//! Bytes of a file that were read ahead.

ghost use Rattle.std.specs.Prelude.{◌≡◌, ◌+◌, ◌≤◌, ◌<◌, ◌^◌, ◌==◌, [], IfOk, OnOk, OnErr, is_err, length, drop};
ghost use Rattle.tele_io.specs.Views.{Reads};
ghost use Rattle.tele_io.specs.Mark.{Fills};

use crate::disk::{Disk, DiskFault};
use std::alloc::{AllocError, Global};
use std::marker::Model;

const PIECE: usize = 65_536;

/// Bytes that were read and not yet used, in a buffer that is filled anew once they are used up.
#[derive(Drop)]
pub struct Piece {
    bytes: Vec<u8>,
    begin: usize,
    end: usize,
}

impl Model for Piece {
    ghost use Rattle.std.specs.Prelude.{◌≡◌, ◌≤◌, ℕ, List, length, slice_range};

    ghost Value = { List ℕ };

    ghost view = { λ p. slice_range p.bytes.items p.begin p.end };

    ghost invariant = { λ p. (p.begin ≤ p.end) × (p.end ≤ 65536) × (length p.bytes.items ≡ 65536) };
}

impl Piece {
    pub fn new(alloc: Global) -> Result<Piece, AllocError>
        ensures { IfOk result (λ p. p ≡ []) }
    {
        Ok(Piece {
            bytes: vec![in alloc; 0u8; PIECE]?,
            begin: 0,
            end: 0,
        })
    }

    pub fn rest(&self) -> &[u8]
        ensures value { result.now ≡ self.now }
        ensures short { length self.now ≤ 65536 }
    {
        &self.bytes.as_slice()[self.begin..self.end]
    }

    pub fn is_empty(&self) -> bool
        ensures { result ≡ (length self.now == 0) }
    {
        self.begin == self.end
    }

    pub fn skip(&mut self, count: usize)
        requires { count ≤ length self.old }
        ensures { self.new ≡ drop count self.old }
    {
        self.begin += count;
    }

    // Reads anew from that place on; nothing is read exactly at the end.
    pub fn fill<D: Disk>(&mut self, disk: &mut D, name: &str, at: u64) -> Result<(), DiskFault>
        requires empty { self.old ≡ [] }
        requires room { at + 65536 < 2 ^ 64 }
        ensures read { Reads (is_err result)
            (λ held. OnOk result (Fills (held name.now) at self.new))
            (D.seen disk.old) (D.seen disk.new) }
        ensures err { OnErr result (self.new ≡ []) }
    {
        self.begin = 0;
        self.end = 0;
        let count = disk.read(name, at, self.bytes.as_mut_slice())?;
        self.end = count;
        Ok(())
    }
}
