//! A disk: bytes under names, where it tells them, and how often its calls failed.

ghost use Rattle.std.specs.Prelude.{◌+◌, ◌<◌, ◌≤◌, ◌^◌, IfOk, is_err, length};
ghost use Rattle.tele_io.specs.Views.{DiskView, Reads, Writes};
ghost use Rattle.tele_io.specs.Calls.{PutsBytes, Empties, Appends};

/// A call of a disk failed.
#[derive(Clone, Copy, Debug, PartialEq, Eq)]
pub struct DiskFault;

/// Files by their names. Two different names are two different files.
pub trait Disk {
    /// What it holds, where it tells that, and how often its calls failed.
    ghost seen: { Self → DiskView };

    /// Reads from that place on into the front of `room`, and answers how many bytes. A name that
    /// isn't there is a fault.
    fn read(&mut self, name: &str, at: u64, room: &mut [u8]) -> Result<usize, DiskFault>
        requires { at + length room.old < 2 ^ 64 }
        ensures count { IfOk result (λ n. n ≤ length room.old) }
        ensures read { Reads (is_err result)
            (λ held. IfOk result (PutsBytes (held name.now) at room.old room.new))
            (seen self.old) (seen self.new) };

    /// Lets the name hold no bytes. After a fault it holds what it held, or no bytes.
    fn create(&mut self, name: &str) -> Result<(), DiskFault>
        ensures { Writes (is_err result) (Empties name.now result)
            (seen self.old) (seen self.new) };

    /// Puts a front of the piece behind what the name holds, and answers its length. A name that
    /// isn't there is a fault.
    fn append(&mut self, name: &str, piece: &[u8]) -> Result<usize, DiskFault>
        ensures count { IfOk result (λ n. n ≤ length piece.now) }
        ensures some { IfOk result (λ n. 0 < length piece.now → 0 < n) }
        ensures append { Writes (is_err result) (Appends name.now piece.now result)
            (seen self.old) (seen self.new) };
}
