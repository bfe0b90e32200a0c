//! A journal in an area of a disk, in which a crash never leaves what isn't a record.
//!
//! A journal is record behind record, each behind a gate of one byte: open at `A5`, closed at any other
//! value. It ends at its first closed gate; what stands behind that gate isn't read. A group of records is
//! first written behind the closed gate, every gate of it closed, and made durable; then its gates are
//! opened, first to last, and made durable. So a crash leaves a prefix of the group, whatever bytes it
//! left of a cut write: of the records that count, none is ever written over, and no checksum is trusted.
//!
//! [`Region`] is a journal on a [`wm_disk::Disk`], [`read_records`] the same reading of bytes at hand.
//!
//! Tests: file_tests/src/journal.
#![tactic(auto)]

mod gates;
mod group;
mod read;
mod region;

pub use gates::{CLOSED, OPEN};
pub use read::read_records;
pub use region::Region;
