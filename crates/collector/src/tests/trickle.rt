//! A disk and sinks that take one byte a call.

ghost use Rattle.std.specs.Prelude.{None};

use super::{run_words, tell};
use std::test::Fail;
use tele_io::{Disk, DiskFault, MemDisk, MemSink, Sink, SinkFault};

/// Hands on one byte of each piece, and reads one byte a call. It tells nothing to contracts.
#[derive(Drop)]
struct Trickle<T> {
    inner: T,
}

impl Disk for Trickle<MemDisk> {
    ghost seen = { λ d. record { held = None; read_faults = d.inner.read_faults; write_faults = d.inner.write_faults } };

    fn read(&mut self, name: &str, at: u64, room: &mut [u8]) -> Result<usize, DiskFault> {
        let count = room.len().min(1);
        self.inner.read(name, at, &mut room[..count])
    }

    fn create(&mut self, name: &str) -> Result<(), DiskFault> {
        self.inner.create(name)
    }

    fn append(&mut self, name: &str, piece: &[u8]) -> Result<usize, DiskFault> {
        self.inner.append(name, &piece[..piece.len().min(1)])
    }
}

impl Sink for Trickle<MemSink> {
    ghost seen = { λ s. record { held = None; faults = s.inner.faults } };

    fn write(&mut self, piece: &[u8]) -> Result<usize, SinkFault> {
        self.inner.write(&piece[..piece.len().min(1)])
    }
}

#[test]
fn devices_that_take_one_byte_a_call_get_the_same_bytes(rt: HostRuntime) -> Result<(), Fail> {
    let alloc = rt.alloc();
    let mut inner = MemDisk::new(alloc);
    inner.put("in", b"{}\n[]\n{}")?;
    inner.put("other", b"kept")?;
    let mut disk = Trickle { inner };
    let mut out = Trickle {
        inner: MemSink::new(alloc),
    };
    let mut notes = Trickle {
        inner: MemSink::new(alloc),
    };
    let status = run_words(alloc, "pass|in|out", &mut disk, &mut out, &mut notes)?;
    let told = tell(
        alloc,
        status,
        &disk.inner,
        out.inner.bytes(),
        notes.inner.bytes(),
    )?;
    let want =
        b"SomeRefused|{\"resourceLogs\":[]}\n{\"resourceLogs\":[]}\n|payloads 3 accepted 2 refused 1\n|payload 2 refused NotObject at 0\n";
    assert_eq!(rt; told.as_slice(), want.as_slice());
    Ok(())
}
