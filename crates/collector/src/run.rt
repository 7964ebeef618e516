//! The runs of the commands.

ghost use Rattle.std.specs.Prelude.{◌≡◌, ◌≢◌, ◌+◌, ◌≤◌};
ghost use Rattle.contract_words.specs.InputLines.{max_lines};
ghost use Rattle.collector.specs.Devices.{devices, Caused};
ghost use Rattle.collector.specs.Ends.{Runs};
ghost use Rattle.collector.specs.Lines.{SumsUp};
ghost use Rattle.collector.specs.Pass.{pass_meaning, summary_by};

use crate::pass::{Progress, pass_lines};
use crate::status::Status;
use crate::stop::Stop;
use std::alloc::Global;
use tele_io::{Disk, Lines, Sink, write_all};

impl From<Stop> for Status {
    ghost use Rattle.std.specs.Prelude.{◌≡◌};
    ghost use Rattle.collector.specs.Lines.{status_of};

    ghost from_gives = { λ stop status. status ≡ status_of stop };

    fn from(stop: Stop) -> Status {
        match stop {
            Stop::ReadFault => Status::ReadFault,
            Stop::WriteFault => Status::WriteFault,
            Stop::NoMemory => Status::NoMemory,
            Stop::TooLong => Status::TooLong,
        }
    }
}

/// Writes the summary of a run that took all lines, and refused so many of them.
pub(crate) fn write_summary<O: Sink>(summary: &[u8], refused: u128, out: &mut O) -> Status
    ensures { SumsUp result summary.now refused (O.seen out.old) (O.seen out.new) }
{
    match write_all(out, summary) {
        Ok(()) => {}
        Err(_) => return Status::WriteFault,
    }
    if refused == 0 {
        Status::Done
    } else {
        Status::SomeRefused
    }
}

// The same of `pass`.
fn sum_up<O: Sink>(alloc: Global, accepted: u32, refused: u32, out: &mut O) -> Status
    requires { accepted + refused ≤ max_lines }
    ensures { SumsUp result (summary_by accepted refused) refused (O.seen out.old)
        (O.seen out.new) }
{
    let payloads = accepted + refused;
    match format!(in alloc; "payloads {payloads} accepted {accepted} refused {refused}\n") {
        Ok(line) => write_summary(line.as_bytes(), refused as u128, out),
        Err(_) => Status::NoMemory,
    }
}

/// Writes each accepted payload of the input in its one form. The output is created before the
/// input is read.
pub fn run_pass<D: Disk, O: Sink, N: Sink>(
    alloc: Global,
    input: &str,
    output: &str,
    disk: &mut D,
    out: &mut O,
    notes: &mut N,
) -> Status
    requires { input.now ≢ output.now }
    ensures runs { Runs (pass_meaning input.now output.now)
        (devices (D.seen disk.old) (O.seen out.old) (N.seen notes.old))
        (devices (D.seen disk.new) (O.seen out.new) (N.seen notes.new)) result }
    ensures cause { Caused result
        (devices (D.seen disk.old) (O.seen out.old) (N.seen notes.old))
        (devices (D.seen disk.new) (O.seen out.new) (N.seen notes.new)) }
{
    let mut lines = match Lines::begin(alloc, input) {
        Ok(lines) => lines,
        Err(_) => return Status::NoMemory,
    };
    match disk.create(output) {
        Ok(()) => {}
        Err(_) => return Status::WriteFault,
    }
    let mut progress = Progress::new(alloc);
    match pass_lines(alloc, &mut lines, output, &mut progress, disk, notes) {
        Ok(()) => sum_up(alloc, progress.accepted, progress.refused, out),
        Err(stop) => Status::from(stop),
    }
}
