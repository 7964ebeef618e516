//! All the bytes under a name.

use crate::{DiskOp, MemDisk, ReadStop, read_all};
use std::alloc::{AllocError, Global};
use std::test::Fail;

/// The length of what is read of so many bytes; `F` for a fault, `L` for too many bytes. The nth
/// read fails.
fn length_of(alloc: Global, count: Option<usize>, limit: u64, nth: u64) -> Result<String, Fail> {
    let mut disk = MemDisk::new(alloc);
    if let Some(count) = count {
        disk.put("in", vec![in alloc; b'x'; count]?.as_slice())?;
    }
    disk.fail(DiskOp::Read, "in", nth)?;
    if limit > 100_000 {
        return Err(Fail::from("far"));
    }
    match read_all(alloc, &mut disk, "in", limit) {
        Ok(bytes) => Ok(format!(in alloc; "{}", bytes.len())?),
        Err(ReadStop::Fault) => Ok(String::from_str(alloc, "F")?),
        Err(ReadStop::TooLong) => Ok(String::from_str(alloc, "L")?),
        Err(ReadStop::NoMemory) => Err(AllocError.into()),
    }
}

#[test]
fn a_file_is_read_whole_up_to_the_limit(rt: HostRuntime) -> Result<(), Fail> {
    for (count, limit, nth, want) in [
        (Some(0), 0, 0, "0"),
        (Some(3), 3, 0, "3"),
        (Some(3), 2, 0, "L"),
        (Some(65_536), 65_536, 0, "65536"),
        (Some(70_000), 70_000, 0, "70000"),
        (Some(70_000), 69_999, 0, "L"),
        // A read that fails, and a file that isn't there.
        (Some(70_000), 70_000, 2, "F"),
        (None, 9, 0, "F"),
    ] {
        let answered = length_of(rt.alloc(), count, limit, nth)?;
        assert_eq!(rt; answered.as_str(), want, "of {count:?} up to {limit}");
    }
    Ok(())
}
