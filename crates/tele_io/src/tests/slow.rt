//! A disk and a sink that take so many bytes a call.

use crate::{Disk, DiskFault, MemDisk, MemSink, Sink, SinkFault};

#[derive(Drop)]
pub struct SlowDisk {
    pub disk: MemDisk,
    pub most: usize,
}

impl Disk for SlowDisk {
    ghost use Rattle.tele_io.specs.Memory.{disk_view};

    ghost seen = { λ d. disk_view d.disk };

    fn read(&mut self, name: &str, at: u64, room: &mut [u8]) -> Result<usize, DiskFault> {
        self.disk.read(name, at, room)
    }

    fn create(&mut self, name: &str) -> Result<(), DiskFault> {
        self.disk.create(name)
    }

    fn append(&mut self, name: &str, piece: &[u8]) -> Result<usize, DiskFault> {
        self.disk
            .append(name, &piece[..piece.len().min(self.most.max(1))])
    }
}

#[derive(Drop)]
pub struct SlowSink {
    pub sink: MemSink,
    pub most: usize,
}

impl Sink for SlowSink {
    ghost use Rattle.tele_io.specs.Memory.{sink_view};

    ghost seen = { λ s. sink_view s.sink };

    fn write(&mut self, piece: &[u8]) -> Result<usize, SinkFault> {
        self.sink.write(&piece[..piece.len().min(self.most.max(1))])
    }
}
