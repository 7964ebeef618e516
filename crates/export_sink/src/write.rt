//! Writes the texts of exporters to their files.

ghost use Rattle.std.specs.Prelude.{is_err};
ghost use Rattle.tele_io.specs.Views.{Sends, Writes};
ghost use Rattle.export_sink.specs.Files.{AreApart};
ghost use Rattle.export_sink.specs.Writing.{Adds, Creates, Exports, Notes, empty_files, is_disk, is_sink, pieces};

use crate::bundle::Bundle;
use conf_draft::Exporter;
use pdata_value::Bytes;
use tele_io::{Disk, DiskFault, Sink, append_all, write_all};

/// Why a bundle wasn't written whole.
#[derive(Clone, Copy, Debug, PartialEq, Eq)]
pub enum ExportStop {
    Disk,
    Sink,
}

/// Creates the file of each exporter, in their order.
pub fn create_files<D: Disk>(disk: &mut D, exporters: &[Exporter]) -> Result<(), DiskFault>
    requires { AreApart (empty_files exporters.now) }
    ensures { Writes (is_err result) (Creates (empty_files exporters.now) result)
        (D.seen disk.old) (D.seen disk.new) }
{
    let mut left = exporters;
    'files: while let [exporter, others @ ..] = left {
        match disk.create(exporter.path.as_str()) {
            Ok(()) => {}
            Err(fault) => return Err(fault),
        }
        left = others;
    }
    Ok(())
}

// Adds each text to the file of its exporter.
fn write_texts<D: Disk>(
    disk: &mut D,
    exporters: &[Exporter],
    texts: &[Bytes],
) -> Result<(), DiskFault>
    requires { AreApart (pieces exporters.now texts.now) }
    ensures { Writes (is_err result) (Adds (pieces exporters.now texts.now) result)
        (D.seen disk.old) (D.seen disk.new) }
{
    let mut exporters = exporters;
    let mut texts = texts;
    'files: while let [exporter, others @ ..] = exporters {
        let [text, behind @ ..] = texts else {
            return Ok(());
        };
        match append_all(disk, exporter.path.as_str(), text.as_slice()) {
            Ok(()) => {}
            Err(fault) => return Err(fault),
        }
        exporters = others;
        texts = behind;
    }
    Ok(())
}

/// Adds the texts of a bundle to the files of the exporters, in their order, then its notes to the
/// sink. It takes no memory.
pub fn write_bundle<D: Disk, N: Sink>(
    disk: &mut D,
    notes: &mut N,
    exporters: &[Exporter],
    bundle: &Bundle,
) -> Result<(), ExportStop>
    requires { AreApart (pieces exporters.now bundle.now.texts) }
    ensures texts { Writes (is_disk result) (Exports (pieces exporters.now bundle.now.texts) result)
        (D.seen disk.old) (D.seen disk.new) }
    ensures notes { Sends (is_sink result) (Notes bundle.now.notes result)
        (N.seen notes.old) (N.seen notes.new) }
{
    match write_texts(disk, exporters, bundle.texts.as_slice()) {
        Ok(()) => {}
        Err(_) => return Err(ExportStop::Disk),
    }
    match write_all(notes, bundle.notes.as_slice()) {
        Ok(()) => Ok(()),
        Err(_) => Err(ExportStop::Sink),
    }
}
