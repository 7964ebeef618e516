//! All the bytes under a name, where these aren't more than a limit.

ghost use Rattle.std.specs.Prelude.{◌≡◌, ◌-◌, ◌<◌, ◌≤◌, ◌^◌, ◌++◌, [], IfOk, OnOk, length};
ghost use Rattle.tele_io.specs.Views.{Reads};
ghost use Rattle.tele_io.specs.Whole.{is_failed_read, FindsWhole, TakesPiece};

use crate::disk::Disk;
use crate::piece::Piece;
use std::alloc::{AllocError, Global};

/// Why not all the bytes came.
#[derive(Clone, Copy, Debug, PartialEq, Eq)]
pub enum ReadStop {
    /// A read failed.
    Fault,
    /// There are more bytes than the limit.
    TooLong,
    NoMemory,
}

impl From<AllocError> for ReadStop {
    ghost use Rattle.std.specs.Prelude.{◌≡◌};
    ghost use Rattle.tele_io.specs.declared.whole.ReadStop.TheVariants.{NoMemory};

    ghost from_gives = { λ _ stop. stop ≡ NoMemory };

    fn from(_error: AllocError) -> ReadStop {
        ReadStop::NoMemory
    }
}

/// All the bytes under the name, if these are at most `limit`.
pub fn read_all<D: Disk>(
    alloc: Global,
    disk: &mut D,
    name: &str,
    limit: u64,
) -> Result<Vec<u8>, ReadStop>
    requires { limit < 2 ^ 64 - 1 }
    ensures read { Reads (is_failed_read result)
        (λ held. FindsWhole limit (held name.now) result)
        (D.seen disk.old) (D.seen disk.new) }
    // Over every disk, told or not.
    ensures short { IfOk result (λ bytes. length bytes.items ≤ limit) }
{
    let mut bytes = Vec::new(alloc);
    let mut piece = Piece::new(alloc)?;
    'pieces: loop {
        match piece.fill(disk, name, bytes.len() as u64) {
            Ok(()) => {}
            Err(_) => return Err(ReadStop::Fault),
        }
        if piece.is_empty() {
            return Ok(bytes);
        }
        match take_piece(&mut bytes, &mut piece, limit) {
            Ok(()) => {}
            Err(stop) => return Err(stop),
        }
    }
}

// Moves the piece behind the bytes, if they are then at most `limit`.
fn take_piece(bytes: &mut Vec<u8>, piece: &mut Piece, limit: u64) -> Result<(), ReadStop>
    requires { length bytes.old.items ≤ limit }
    ensures taken { OnOk result (bytes.new.items ≡ bytes.old.items ++ piece.old) }
    ensures used { OnOk result (piece.new ≡ []) }
    ensures short { length bytes.new.items ≤ limit }
    ensures answer { TakesPiece limit bytes.old.items piece.old result }
{
    let more = piece.rest();
    let count = more.len();
    if count as u64 > limit - bytes.len() as u64 {
        return Err(ReadStop::TooLong);
    }
    bytes.extend_from_slice(more)?;
    piece.skip(count);
    Ok(())
}
