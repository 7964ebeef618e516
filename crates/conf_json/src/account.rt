//! The account of errors: how many there were, and notes of the first.

ghost use Rattle.std.specs.Prelude.{◌≡◌, ◌≤◌, [], length, IfErr};
ghost use Rattle.conf_json.specs.Account.{empty_account, noted, under, Follows};

use arrayvec::ArrayVec;
use conf_draft::ErrorMode;
use pdata_tree::{Context, Place};
use pdata_value::EvalErr;
use std::marker::Model;

/// How many errors of a leg are noted.
pub const MAX_NOTES: usize = 8;

/// What erred.
#[derive(Clone, Copy, Debug, PartialEq, Eq)]
pub enum Part {
    Statement,
    GroupCondition,
    FilterCondition,
    RouteRow,
}

/// An error, with what erred and where. The numbers are from 0; one that doesn't count is 0.
#[derive(Clone, Copy, Debug, PartialEq, Eq)]
pub struct Note {
    pub part: Part,
    /// The group of a statement or of a group's condition.
    pub group: u32,
    /// The statement, the condition or the row.
    pub index: u32,
    pub context: Context,
    pub place: Place,
    pub err: EvalErr,
}

impl Default for Note {
    fn default() -> Note {
        let place = Place {
            resource: 0,
            scope: 0,
            log: 0,
        };
        Note {
            part: Part::Statement,
            group: 0,
            index: 0,
            context: Context::Resource,
            place,
            err: EvalErr::NilArgument,
        }
    }
}

/// How a component's turn ended.
#[derive(Clone, Copy, Debug, PartialEq, Eq)]
pub enum StepEnd {
    More,
    Finished,
    Failed(Note),
    NoMemory,
}

/// Why a component didn't finish.
#[derive(Clone, Copy, Debug, PartialEq, Eq)]
pub enum PlainStop {
    Failed(Note),
    NoMemory,
}

/// An account of errors, with room for its notes from the start.
#[derive(Drop)]
pub struct NoteBook {
    errors: u64,
    kept: ArrayVec<Note, MAX_NOTES>,
}

impl Model for NoteBook {
    ghost use Rattle.conf_json.specs.Account.{Account};

    ghost Value = { Account };

    ghost view = { λ book. record { count = book.errors; notes = book.kept.items } };
}

impl NoteBook {
    pub fn new() -> NoteBook
        ensures { result ≡ empty_account }
    {
        NoteBook {
            errors: 0,
            kept: ArrayVec::new(),
        }
    }

    /// Another book with the same account.
    pub fn copy(&self) -> NoteBook
        ensures { result ≡ self.now }
    {
        let mut kept = ArrayVec::new();
        let notes = self.kept.as_slice();
        for note in notes {
            kept.push(*note);
        }
        NoteBook {
            errors: self.errors,
            kept,
        }
    }

    /// Counts an error, and keeps its note where there is room.
    pub fn put(&mut self, note: Note)
        ensures { self.new ≡ noted note self.old }
    {
        self.errors = self.errors.saturating_add(1);
        if self.kept.len() < MAX_NOTES {
            self.kept.push(note);
        }
    }

    /// Meets an error as the mode says; an Err ends the work.
    pub fn meet(&mut self, mode: ErrorMode, note: Note) -> Result<(), Note>
        ensures { Follows self.old self.new result (under mode note self.old) }
    {
        match mode {
            ErrorMode::Ignore => {
                self.put(note);
                Ok(())
            }
            ErrorMode::Silent => Ok(()),
            ErrorMode::Propagate => Err(note),
        }
    }

    /// How many errors were counted. The number stays at its greatest.
    pub fn count(&self) -> u64
        ensures { result ≡ self.now.count }
    {
        self.errors
    }

    /// The notes of the first errors.
    pub fn notes(&self) -> &[Note]
        ensures value { result.now ≡ self.now.notes }
        ensures few { length self.now.notes ≤ MAX_NOTES }
    {
        self.kept.as_slice()
    }
}
