//! `pass`: each accepted payload of an input is written in its one form.

ghost use Rattle.std.specs.Prelude.{◌≡◌, ◌≢◌, ◌+◌, ◌<◌, ◌≤◌, ◌++◌, ◌∷◌, [], IfOk, OnOk, OnErr, IsTrue, is_err, length, codes};
ghost use Rattle.contract_words.specs.InputLines.{max_line, max_lines};
ghost use Rattle.tele_io.specs.Views.{SinkView, Told, Writes};
ghost use Rattle.tele_io.specs.Mark.{start_of};
ghost use Rattle.otlp_json.specs.Names.{fault_name};
ghost use Rattle.collector.specs.Devices.{Devices, devices, Caused};
ghost use Rattle.collector.specs.Lines.{step, flushing, Gathers, LineText, LineNote, LineCounts, status_by};
ghost use Rattle.collector.specs.Pass.{note_of_fault, summary_by, pass_meaning};
ghost use Rattle.collector.specs.Between.{start, Stands, LinesEnd};

use crate::payload::rewrite;
use crate::stop::Stop;
use otlp_json::{PayloadFault, PayloadStop};
use std::alloc::{AllocError, Global};
use tele_io::{Disk, DiskFault, Lines, Sink, append_all, write_all};

/// So many bytes are gathered before they are appended.
const GATHERED: usize = 65_536;

/// What of the lines so far isn't written yet, and how many they are.
#[derive(Drop)]
pub struct Progress {
    pub gathered: Vec<u8>,
    pub accepted: u32,
    pub refused: u32,
}

/// The note of a refused line, under its payload number.
fn note_of(alloc: Global, number: u32, fault: PayloadFault) -> Result<String, AllocError>
    ensures { IfOk result (λ note. note.bytes.items ≡ note_of_fault number (fault_name fault)) }
{
    Ok(format!(in alloc; "payload {number} refused {fault}\n")?)
}

impl Progress {
    pub fn new(alloc: Global) -> Progress
        ensures gathered { result.gathered.items ≡ [] }
        ensures accepted { result.accepted ≡ 0 }
        ensures refused { result.refused ≡ 0 }
    {
        Progress {
            gathered: Vec::new(alloc),
            accepted: 0,
            refused: 0,
        }
    }

    /// Appends what was gathered.
    fn flush<D: Disk>(&mut self, output: &str, disk: &mut D) -> Result<(), DiskFault>
        ensures text { Writes (is_err result)
            (Gathers (flushing output.now self.old self.new) result)
            (D.seen disk.old) (D.seen disk.new) }
        ensures emptied { OnOk result (self.new.gathered.items ≡ []) }
        // What stays.
        ensures accepted { self.new.accepted ≡ self.old.accepted }
        ensures refused { self.new.refused ≡ self.old.refused }
    {
        append_all(disk, output, self.gathered.as_slice())?;
        self.gathered.clear();
        Ok(())
    }

    /// Counts an accepted line, whose text is gathered.
    fn accept<D: Disk>(&mut self, output: &str, disk: &mut D) -> Result<(), DiskFault>
        requires { self.old.accepted + self.old.refused < max_lines }
        ensures text { Writes (is_err result)
            (Gathers (flushing output.now self.old self.new) result)
            (D.seen disk.old) (D.seen disk.new) }
        ensures accepted { self.new.accepted ≡ self.old.accepted + 1 }
        ensures refused { self.new.refused ≡ self.old.refused }
    {
        self.accepted += 1;
        if self.gathered.len() < GATHERED {
            return Ok(());
        }
        self.flush(output, disk)
    }

    /// Takes one line: gathers the written form of its payload, or writes its note.
    fn pass_line<D: Disk, N: Sink>(
        &mut self,
        alloc: Global,
        line: &[u8],
        output: &str,
        disk: &mut D,
        notes: &mut N,
    ) -> Result<(), Stop>
        requires room { self.old.accepted + self.old.refused < max_lines }
        requires short { length line.now ≤ max_line }
        ensures text { Told
            (LineText (step output.now line.now self.old self.new) result)
            (D.seen disk.old).held (D.seen disk.new).held }
        ensures note { Told (LineNote (step output.now line.now self.old self.new) result)
            (N.seen notes.old).held (N.seen notes.new).held }
        ensures counts { LineCounts (step output.now line.now self.old self.new) result }
        // When a fault comes, whatever the output is.
        ensures cause { (out : SinkView) → Caused (status_by result)
            (devices (D.seen disk.old) out (N.seen notes.old))
            (devices (D.seen disk.new) out (N.seen notes.new)) }
    {
        match rewrite(alloc, line, &mut self.gathered) {
            Ok(()) => {
                self.accept(output, disk)?;
            }
            Err(PayloadStop::Fault(fault)) => {
                self.flush(output, disk)?;
                let note = note_of(alloc, self.accepted + self.refused + 1, fault)?;
                write_all(notes, note.as_bytes())?;
                self.refused += 1;
            }
            Err(PayloadStop::NoMemory) => {
                self.flush(output, disk)?;
                return Err(Stop::NoMemory);
            }
        }
        Ok(())
    }
}

/// Takes all lines, and appends what was gathered at their end.
pub fn pass_lines<D: Disk, N: Sink>(
    alloc: Global,
    lines: &mut Lines,
    output: &str,
    progress: &mut Progress,
    disk: &mut D,
    notes: &mut N,
) -> Result<(), Stop>
    requires first { lines.old ≡ start_of lines.old.name }
    requires apart { lines.old.name ≢ output.now }
    requires fresh { (progress.old.gathered.items ≡ []) × (progress.old.accepted ≡ 0)
        × (progress.old.refused ≡ 0) }
    // From where a run stands before its first line, whatever it began with and whatever the output
    // is.
    ensures ends { let m = pass_meaning lines.old.name output.now in
        (begun : Devices) (out : SinkView)
        → Stands m (start ([] ∷ [])) begun (devices (D.seen disk.old) out (N.seen notes.old))
        → LinesEnd m (summary_by progress.new.accepted progress.new.refused) progress.new.refused
        begun (devices (D.seen disk.new) out (N.seen notes.new)) result }
    ensures bound { progress.new.accepted + progress.new.refused ≤ max_lines }
    // When a fault comes.
    ensures cause { (out : SinkView) → Caused (status_by result)
        (devices (D.seen disk.old) out (N.seen notes.old))
        (devices (D.seen disk.new) out (N.seen notes.new)) }
{
    'lines: loop {
        match lines.next(disk) {
            Ok(Some(line)) => match progress.pass_line(
                alloc,
                line.as_slice(),
                output,
                disk,
                notes,
            ) {
                Ok(()) => {}
                Err(stop) => return Err(stop),
            },
            Ok(None) => {
                return match progress.flush(output, disk) {
                    Ok(()) => Ok(()),
                    Err(_) => Err(Stop::WriteFault),
                };
            }
            Err(line_stop) => {
                return match progress.flush(output, disk) {
                    Ok(()) => Err(Stop::from(line_stop)),
                    Err(_) => Err(Stop::WriteFault),
                };
            }
        }
    }
}
