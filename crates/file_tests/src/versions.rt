//! The versions of the state file: a new file of each, and where its parts begin.
use std::alloc::Global;
use std::process::Abort;
use wm_checkpoint::{Keeper, Version1};
use wm_disk::{MemDisk, Refusal};
use wm_registry::{FiledRegistry, Registry, Version, Watches};
use wm_store::format;

/// Both versions.
pub(crate) const VERSIONS: &[Version] = &[Version::One, Version::Two];

/// A part of a file.
#[derive(Clone, Copy, Debug)]
pub(crate) enum Part {
    Header,
    SlotA,
    JournalA,
    SlotB,
    JournalB,
}

/// Where the part begins in a file of this version.
pub(crate) fn place(version: Version, part: Part) -> usize {
    match (version, part) {
        (_, Part::Header) => 0,
        (_, Part::SlotA) => 4_096,
        (Version::One, Part::JournalA) => 1_052_672,
        (Version::One, Part::SlotB) => 1_314_816,
        (Version::One, Part::JournalB) => 2_363_392,
        (Version::Two, Part::JournalA) => 4_198_400,
        (Version::Two, Part::SlotB) => 4_460_544,
        (Version::Two, Part::JournalB) => 8_654_848,
    }
}

/// Makes a file of version 1.
fn format_first(alloc: Global, disk: &mut MemDisk) -> Result<(), Refusal> {
    let first = FiledRegistry::new(Registry::new(alloc, Version::One));
    Keeper::<MemDisk, Watches<Version1>, Version1>::format(alloc, disk, &first)
}

/// Makes a file of this version.
fn format_as(alloc: Global, disk: &mut MemDisk, version: Version) -> Result<(), Refusal> {
    match version {
        Version::One => format_first(alloc, disk),
        Version::Two => format(alloc, disk),
    }
}

/// A disk with a new file of this version; the choice says what its crashes leave.
pub(crate) fn formatted_with(
    rt: &impl Abort,
    alloc: Global,
    version: Version,
    choice: u64,
) -> MemDisk {
    let mut disk = MemDisk::new(alloc, choice);
    format_as(alloc, &mut disk, version).expect(rt, "a file");
    disk
}

/// A disk with a new file of this version.
pub(crate) fn formatted(rt: &impl Abort, alloc: Global, version: Version) -> MemDisk {
    formatted_with(rt, alloc, version, 0)
}
