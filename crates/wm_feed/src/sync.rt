//! What a record tells of the folder of a root's syncs. A client makes a file there and waits until its making is told: all that was
//! changed before it has been told then. Definitions: specs/Syncs.antt. Tests: feed_tests/src/sync.rt.

ghost use Rattle.std.specs.Prelude.{◌≡◌, ◌∷◌, ◌++◌, []};
ghost use Rattle.std.specs.Str.{bytes_eq};
ghost use Rattle.wm_feed.specs.Syncs.{is_new_file as is_new_file_lem, sync_at, sync_in, sync_tells};

use crate::record::{has, parts_of};

/// What a record tells of a folder of syncs.
#[derive(Clone, Copy, Debug, PartialEq, Eq)]
pub enum Synced<'a> {
    /// The record is of another folder, or no record.
    Elsewhere,
    /// It is of the folder, and asks for nothing.
    Nothing,
    /// An entry of this name, which is no folder, was made there or moved to there.
    Asked(&'a str),
}

/// Whether an entry that is no folder was made or came.
fn is_new_file(events: &[u8]) -> bool
    ensures { result ≡ is_new_file_lem events.now }
{
    (has(events, b"CREATE") || has(events, b"MOVED_TO")) && !has(events, b"ISDIR")
}

/// Whether this is the folder, with the slash that ends it in a record.
fn is_of(folder: &[u8], told: &[u8]) -> bool
    ensures { result ≡ bytes_eq told.now (folder.now ++ 47 ∷ []) }
{
    match told.strip_suffix(b"/") {
        Some(front) => front == folder,
        None => false,
    }
}

/// What events at a name ask for.
fn asked<'a>(events: &[u8], name: &'a [u8]) -> Synced<'a>
    ensures { sync_in result ≡ sync_at events.now name.now }
{
    if name.is_empty() || !is_new_file(events) {
        return Synced::Nothing;
    }
    match str::from_utf8(name) {
        Ok(name) => Synced::Asked(name),
        Err(_) => Synced::Nothing,
    }
}

/// What a record, without the newline that ends it, tells of the folder of syncs whose path this is, without a slash at its end.
pub fn read_sync<'a>(folder: &str, bytes: &'a [u8]) -> Synced<'a>
    ensures { sync_in result ≡ sync_tells folder.now bytes.now }
{
    match parts_of(bytes) {
        Some(parts) if is_of(folder.as_bytes(), parts.folder) => asked(parts.events, parts.name),
        _ => Synced::Elsewhere,
    }
}
