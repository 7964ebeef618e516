//! `check`: the legs of a configuration, or its first fault.

ghost use Rattle.std.specs.Prelude.{◌≡◌, ◌≤◌, IfOk, length};
ghost use Rattle.tele_io.specs.Views.{DiskView};
ghost use Rattle.collector.specs.Check.{Checks, Says, Tells, lent};
ghost use Rattle.collector.specs.Devices.{Caused, devices};
ghost use Rattle.collector.specs.Judged.{answer_of};

use crate::status::Status;
use conf_json::{ConfStop, MAX_CONF};
use func_text::PatternMaker;
use graph_build::check_conf;
use run_texts::{check_text, fault_note};
use std::alloc::{AllocError, Global};
use tele_io::{Disk, ReadStop, Sink, read_all, write_all};

/// What is said of a configuration.
#[derive(Drop)]
pub enum Said {
    /// The text of its legs.
    Legs(String),
    /// The note of its first fault.
    Fault(String),
}

impl From<ReadStop> for Status {
    ghost use Rattle.std.specs.Prelude.{◌≡◌};
    ghost use Rattle.collector.specs.Judged.{status_of_read};

    ghost from_gives = { λ stop status. status ≡ status_of_read stop };

    fn from(stop: ReadStop) -> Status {
        match stop {
            ReadStop::Fault => Status::ReadFault,
            ReadStop::TooLong => Status::TooLong,
            ReadStop::NoMemory => Status::NoMemory,
        }
    }
}

/// Judges the bytes of a configuration.
fn judge<P: PatternMaker>(alloc: Global, maker: &mut P, bytes: &[u8]) -> Result<Said, AllocError>
    requires { length bytes.now ≤ MAX_CONF }
    ensures { IfOk result (λ said.
        Says bytes.now (P.refusals maker.old) (P.refusals maker.new) (answer_of said)) }
{
    match check_conf(alloc, maker, bytes) {
        Ok(plan) => Ok(Said::Legs(check_text(alloc, &plan)?)),
        Err(ConfStop::Fault(fault)) => Ok(Said::Fault(fault_note(alloc, &fault)?)),
        Err(ConfStop::NoMemory) => Err(AllocError),
    }
}

/// Writes a text to the output, a note to the notes.
pub(crate) fn tell<O: Sink, N: Sink>(said: &Said, out: &mut O, notes: &mut N) -> Status
    ensures tells { (disk : DiskView) → Tells result (answer_of said.now)
        (devices disk (O.seen out.old) (N.seen notes.old))
        (devices disk (O.seen out.new) (N.seen notes.new)) }
    ensures cause { (disk : DiskView) → Caused result
        (devices disk (O.seen out.old) (N.seen notes.old))
        (devices disk (O.seen out.new) (N.seen notes.new)) }
{
    match said {
        Said::Legs(text) => match write_all(out, text.as_bytes()) {
            Ok(()) => Status::Done,
            Err(_) => Status::WriteFault,
        },
        Said::Fault(note) => match write_all(notes, note.as_bytes()) {
            Ok(()) => Status::BadConf,
            Err(_) => Status::WriteFault,
        },
    }
}

/// Tells the legs of the configuration with that name, or its first fault.
pub fn run_check<D: Disk, O: Sink, N: Sink, P: PatternMaker>(
    alloc: Global,
    conf: &str,
    disk: &mut D,
    out: &mut O,
    notes: &mut N,
    maker: &mut P,
) -> Status
    ensures checks { Checks conf.now
        (lent (devices (D.seen disk.old) (O.seen out.old) (N.seen notes.old))
        (P.refusals maker.old))
        (lent (devices (D.seen disk.new) (O.seen out.new) (N.seen notes.new))
        (P.refusals maker.new)) result }
    ensures cause { Caused result
        (devices (D.seen disk.old) (O.seen out.old) (N.seen notes.old))
        (devices (D.seen disk.new) (O.seen out.new) (N.seen notes.new)) }
{
    let bytes = match read_all(alloc, disk, conf, MAX_CONF as u64) {
        Ok(bytes) => bytes,
        Err(stop) => return Status::from(stop),
    };
    match judge(alloc, maker, bytes.as_slice()) {
        Ok(said) => tell(&said, out, notes),
        Err(_) => Status::NoMemory,
    }
}
