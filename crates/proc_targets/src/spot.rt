//! Where conditions and statements run, and what an error there does.

ghost use Rattle.std.specs.Prelude.{◌≡◌, OnErr};
ghost use Rattle.conf_json.specs.Account.{under};
ghost use Rattle.proc_targets.specs.Ends.{EndsAs, FailsUnder, Stays};
ghost use Rattle.proc_targets.specs.Judging.{note_at};

use crate::memory::{narrow, or_stop};
use conf_json::{ErrorMode, Note, NoteBook, Part, PlainStop};
use pdata_tree::{Context, Place};
use pdata_value::EvalErr;

/// A target on which the conditions or the statements of one list run, under an error mode.
#[derive(Clone, Copy)]
pub struct Spot {
    pub mode: ErrorMode,
    pub part: Part,
    /// The number of the group that the list stands in.
    pub group: u32,
    pub context: Context,
    pub place: Place,
}

impl Spot {
    // The note of an error of the condition or the statement with this number.
    fn note(&self, index: u32, err: EvalErr) -> Note
        ensures { result ≡ note_at self.now index err }
    {
        Note {
            part: self.part,
            group: self.group,
            index,
            context: self.context,
            place: self.place,
            err,
        }
    }
}

/// Meets an error of the condition or the statement with this number, as the mode says.
pub fn meet(book: &mut NoteBook, spot: &Spot, index: usize, err: EvalErr) -> Result<(), PlainStop>
    ensures value { EndsAs book.new result
        (under spot.now.mode (note_at spot.now index err) book.old) }
    ensures stays { Stays spot.now.mode book.old book.new }
    ensures failed { FailsUnder spot.now.mode result }
    ensures back { OnErr result (book.new ≡ book.old) }
{
    let index = or_stop(narrow(index))?;
    meet_note(book, spot.mode, spot.note(index, err))
}

// Meets an error with this note.
fn meet_note(book: &mut NoteBook, mode: ErrorMode, note: Note) -> Result<(), PlainStop>
    ensures value { EndsAs book.new result (under mode note book.old) }
    ensures stays { Stays mode book.old book.new }
    ensures failed { FailsUnder mode result }
    ensures back { OnErr result (book.new ≡ book.old) }
{
    match book.meet(mode, note) {
        Ok(()) => Ok(()),
        Err(note) => Err(PlainStop::Failed(note)),
    }
}
