//! Disks in memory with the files on which sessions run.
use crate::ends::end_of;
use std::alloc::Global;
use std::process::Abort;
use wm_disk::{Crashed, Disk, MemDisk};

/// Where the journal of a new file lies, which is that of its first slot.
const JOURNAL: usize = 4_198_400;

/// So many bytes of the journal of a file that has had no checkpoint.
pub(crate) fn journal(content: &[u8], len: usize) -> &[u8] {
    let (_, journal) = content
        .split_at_checked(JOURNAL)
        .unwrap_or((content, content));
    let (used, _) = journal.split_at_checked(len).unwrap_or((journal, journal));
    used
}

/// A disk with a new file.
pub(crate) fn new_file(rt: &impl Abort, alloc: Global) -> MemDisk {
    let mut disk = MemDisk::new(alloc, 0);
    wm_store::format(alloc, &mut disk).expect(rt, "a file");
    disk
}

/// A disk with a new file, after sessions with these lines.
pub(crate) fn file_after(rt: &impl Abort, alloc: Global, sessions: &[&str]) -> MemDisk {
    let mut disk = new_file(rt, alloc);
    for input in sessions {
        let end = end_of(rt, alloc, disk, &mut input.as_bytes());
        disk = disk_of(rt, alloc, &end.content);
        drop(end);
    }
    disk
}

/// A disk that holds these bytes.
pub(crate) fn disk_of(rt: &impl Abort, alloc: Global, content: &[u8]) -> MemDisk {
    let mut disk = MemDisk::new(alloc, 0);
    disk.write_at(0, content).expect(rt, "a write");
    disk.sync().expect(rt, "a sync");
    disk
}

/// What a disk holds, also one whose calls fail.
pub(crate) fn content_of(rt: &impl Abort, alloc: Global, disk: MemDisk) -> Vec<u8> {
    let mut disk = disk.stop();
    let len = disk.len().expect(rt, "a length") as usize;
    let mut content = vec![in alloc; 0u8; len].expect(rt, "memory");
    disk.read_at(0, &mut content).expect(rt, "a read");
    drop(disk);
    content
}

/// The header of a file of version 1.
const HEADER: &[u8] = b"\xa5WMSTATE\x00\x00\x00\x01\x00";

/// A slot with number 1 and a registry without roots, whose next root number is 1.
const SLOT: &[u8] =
    b"\xa5\x00\x00\x00\x00\x00\x00\x00\x01\x00\x00\x00\x14\x00\x00\x00\x00\x00\x00\x00\x00\x00\x00\x00\x00\x00\x00\x00\x01\x00\x00\x00\x00";

/// Puts bytes at a place. The content has to reach so far.
fn overwrite(rt: &impl Abort, content: &mut Vec<u8>, at: usize, bytes: &[u8]) {
    assert!(rt; at <= content.len() && bytes.len() <= content.len() - at);
    content[at..at + bytes.len()].copy_from_slice(bytes);
}

/// The content of a new file of version 1.
pub(crate) fn content_of_version_1(rt: &impl Abort, alloc: Global) -> Vec<u8> {
    let mut content = vec![in alloc; 0u8; 2_625_536].expect(rt, "memory");
    overwrite(rt, &mut content, 0, HEADER);
    overwrite(rt, &mut content, 4_096, SLOT);
    content
}
