//! Disks in memory, and the bytes on them.
use crate::checks::check;
use std::alloc::Global;
use std::process::Abort;
use wm_disk::{Crashed, Disk, MemDisk};

/// How many writes, syncs and other calls a disk had.
pub(crate) type Calls = (u64, u64, u64);

/// A disk that holds these bytes, all of them durable, after one write and one sync; the choice says what its
/// crashes leave.
pub(crate) fn disk_of(rt: &impl Abort, alloc: Global, choice: u64, content: &[u8]) -> MemDisk {
    let mut disk = MemDisk::new(alloc, choice);
    disk.write_at(0, content).expect(rt, "a write");
    disk.sync().expect(rt, "a sync");
    disk
}

/// What a disk holds, also one whose calls fail.
pub(crate) fn content_of(rt: &impl Abort, alloc: Global, disk: MemDisk) -> Vec<u8> {
    read_whole(rt, alloc, &mut disk.stop())
}

/// All bytes of the disk, as reads give them.
pub(crate) fn read_whole(rt: &impl Abort, alloc: Global, disk: &mut MemDisk) -> Vec<u8> {
    let len = disk.len().expect(rt, "a length") as usize;
    let mut content = vec![in alloc; 0u8; len].expect(rt, "memory");
    disk.read_at(0, &mut content).expect(rt, "the bytes");
    content
}

/// So many bytes from a place on, or none where the content is too short.
pub(crate) fn part(content: &[u8], at: usize, len: usize) -> &[u8] {
    if at > content.len() || len > content.len() - at {
        return &[];
    }
    &content[at..at + len]
}

/// Whether these bytes stand at a place.
pub(crate) fn stands(content: &[u8], at: usize, bytes: &[u8]) -> bool {
    part(content, at, bytes.len()) == bytes
}

/// Each of these bytes has to stand at its place.
pub(crate) fn assert_stand(rt: &impl Abort, content: &[u8], parts: &[(usize, &[u8])]) {
    for (at, bytes) in parts {
        check!(rt; stands(content, *at, bytes), at);
    }
}

/// Puts bytes at a place. The content has to reach so far.
pub(crate) fn overwrite(rt: &impl Abort, content: &mut Vec<u8>, at: usize, bytes: &[u8]) {
    assert!(rt; at <= content.len() && bytes.len() <= content.len() - at);
    content[at..at + bytes.len()].copy_from_slice(bytes);
}
