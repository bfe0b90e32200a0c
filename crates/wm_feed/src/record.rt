//! What a record of inotifywait means. Definitions: specs/Records.antt.
//! Tests: feed_tests/src/records.rt.
ghost use Rattle.std.specs.Prelude.{◌≡◌, ◌==◌, option_map};
ghost use Rattle.std.specs.List.{position};
ghost use Rattle.wm_feed.specs.Records.{at_name, behind_root, below_of, change_in, happened_in, happened_to_file, is_listed_anew as is_listed_anew_lem, cut_of, told_happened, has as has_lem, inner_path, is_lost as is_lost_lem, is_own_end as is_own_end_lem, name_of as name_of_lem, own_of, record_in, record_of, tells_of, told_elsewhere, told_other, record_tells, without_last_slash as without_last_slash_lem};

/// What happened to an entry of a folder.
#[derive(Clone, Copy, Debug, PartialEq, Eq)]
pub enum Change<'a> {
    /// It is no folder, and its content or what is known of it changed, while its folder stayed the same.
    Content,
    /// It is no folder, and was made, removed or renamed.
    File,
    /// It is a folder, or was one, and something about it changed.
    Folder,
    /// It is a folder that was made there.
    Made,
    /// It was a folder, and was removed.
    Removed,
    /// It was a folder, and was renamed to elsewhere; the word names the move.
    Left(&'a [u8]),
    /// It is a folder that was renamed from elsewhere; the word names the move.
    Came(&'a [u8]),
}

/// What a record tells of a root.
#[derive(Clone, Copy, Debug, PartialEq, Eq)]
pub enum Told<'a> {
    /// Nothing that a view of the root holds has changed.
    Nothing,
    /// An entry of a folder may have changed, and with it the folder. The folder is a path below
    /// the root, and empty for the root itself.
    Entry {
        folder: &'a str,
        name: &'a str,
        change: Change<'a>,
    },
    /// A folder may have changed, by an entry whose name no view holds.
    Folder {
        folder: &'a str,
    },
    /// More may have changed than is told, or a folder got a name, or lost one, that no view holds.
    Doubt,
}

impl<'a> Told<'a> {
    /// The same of another folder.
    pub fn at(self, folder: &'a str) -> Told<'a>
        ensures { tells_of result ≡ told_elsewhere folder.now (tells_of self.entry) }
    {
        match self {
            Told::Entry { name, change, .. } => Told::Entry {
                folder,
                name,
                change,
            },
            Told::Folder { .. } => Told::Folder { folder },
            Told::Nothing => Told::Nothing,
            Told::Doubt => Told::Doubt,
        }
    }
}

/// The parts of a record.
#[derive(Clone, Copy)]
pub(crate) struct Parts<'a> {
    pub(crate) folder: &'a [u8],
    pub(crate) events: &'a [u8],
    /// What a folder's departure and its arrival have in common.
    pub(crate) cookie: &'a [u8],
    pub(crate) name: &'a [u8],
}

/// The place of the first zero byte.
fn first_zero(bytes: &[u8]) -> Option<usize>
    ensures { result ≡ position (λ b. b == 0) bytes.now }
{
    bytes.iter().position(|byte| *byte == 0)
}

/// The bytes before the first zero byte, and those behind it.
pub(crate) fn cut(bytes: &[u8]) -> Option<(&[u8], &[u8])>
    ensures { option_map (λ p. (p.0.now, p.1.now)) result ≡ cut_of bytes.now }
{
    match first_zero(bytes) {
        Some(place) => Some((&bytes[..place], &bytes[place + 1..])),
        None => None,
    }
}

/// The name behind a slash, where nothing else follows.
fn name_of<'a>(named: &'a [u8], rest: &[u8]) -> Option<&'a [u8]>
    ensures { option_map (λ s. s.now) result ≡ name_of_lem named.now rest.now }
{
    match (named, rest) {
        ([b'/', name @ ..], []) => Some(name),
        _ => None,
    }
}

/// The parts of a record: four, each ended by a zero byte, the last with a slash in front.
pub(crate) fn parts_of(bytes: &[u8]) -> Option<Parts<'_>>
    ensures { option_map record_in result ≡ record_of bytes.now }
{
    let (folder, rest) = cut(bytes)?;
    let (events, rest) = cut(rest)?;
    let (cookie, rest) = cut(rest)?;
    let (named, rest) = cut(rest)?;
    let name = name_of(named, rest)?;
    Some(Parts {
        folder,
        events,
        cookie,
        name,
    })
}

/// Whether an event is among those of a record, which commas part.
pub(crate) fn has(events: &[u8], event: &[u8]) -> bool
    ensures { result ≡ has_lem events.now event.now }
{
    events.split(|byte| *byte == b',').any(|one| one == event)
}

/// Whether the system lost events, or the folder's file system is gone.
fn is_lost(events: &[u8]) -> bool
    ensures { result ≡ is_lost_lem events.now }
{
    has(events, b"Q_OVERFLOW") || has(events, b"UNMOUNT")
}

/// Whether a watched folder itself is gone from where it was.
fn is_own_end(events: &[u8]) -> bool
    ensures { result ≡ is_own_end_lem events.now }
{
    has(events, b"DELETE_SELF") || has(events, b"MOVE_SELF")
}

/// Whether an entry was made, removed or renamed, so that its folder changed too.
fn is_listed_anew(events: &[u8]) -> bool
    ensures { result ≡ is_listed_anew_lem events.now }
{
    has(events, b"CREATE")
        || has(events, b"DELETE")
        || has(events, b"MOVED_FROM")
        || has(events, b"MOVED_TO")
}

/// What happened to an entry that is no folder.
fn file_change_of<'a>(events: &[u8]) -> Change<'a>
    ensures { change_in result ≡ happened_to_file events.now }
{
    if is_listed_anew(events) {
        Change::File
    } else {
        Change::Content
    }
}

/// What happened to an entry.
fn change_of<'a>(events: &[u8], cookie: &'a [u8]) -> Change<'a>
    ensures { change_in result ≡ happened_in events.now cookie.now }
{
    if !has(events, b"ISDIR") {
        file_change_of(events)
    } else if has(events, b"MOVED_FROM") {
        Change::Left(cookie)
    } else if has(events, b"MOVED_TO") {
        Change::Came(cookie)
    } else if has(events, b"CREATE") {
        Change::Made
    } else if has(events, b"DELETE") {
        Change::Removed
    } else {
        Change::Folder
    }
}

/// A path without the slash at its end, which only an empty one lacks.
fn without_last_slash(path: &[u8]) -> Option<&[u8]>
    ensures { option_map (λ s. s.now) result ≡ without_last_slash_lem path.now }
{
    if path.is_empty() {
        return Some(path);
    }
    path.strip_suffix(b"/")
}

/// What stands between a slash in front and the one at the end.
fn inner(rest: &[u8]) -> Option<&[u8]>
    ensures { option_map (λ s. s.now) result ≡ inner_path rest.now }
{
    match rest {
        [b'/', path @ ..] => without_last_slash(path),
        _ => None,
    }
}

/// What follows the root's path.
fn behind<'a>(root: &[u8], folder: &'a [u8]) -> Option<&'a [u8]>
    ensures { option_map (λ s. s.now) result ≡ behind_root root.now folder.now }
{
    folder.strip_prefix(root)
}

/// The folder below the root, without a slash at its end.
fn below<'a>(root: &[u8], folder: &'a [u8]) -> Option<&'a [u8]>
    ensures { option_map (λ s. s.now) result ≡ below_of root.now folder.now }
{
    inner(behind(root, folder)?)
}

/// What is told of a change below the root whose folder or name isn't a text. A folder that moves is a doubt there, since the
/// folders in it may be told by that name from then on.
fn other<'a>(told: Told<'a>, change: Change<'a>) -> Told<'a>
    ensures { tells_of result ≡ told_other (tells_of told.entry) (change_in change.entry) }
{
    match change {
        Change::Left(_) | Change::Came(_) => Told::Doubt,
        _ => told,
    }
}

/// What is told of an entry of a folder below the root.
fn entry<'a>(folder: &'a [u8], name: &'a [u8], change: Change<'a>) -> Told<'a>
    ensures { tells_of result ≡ told_happened folder.now name.now (change_in change.entry) }
{
    let Ok(folder) = str::from_utf8(folder) else {
        return other(Told::Nothing, change);
    };
    match str::from_utf8(name) {
        Ok(name) => Told::Entry {
            folder,
            name,
            change,
        },
        Err(_) => other(Told::Folder { folder }, change),
    }
}

/// What is told where something happened to a watched folder itself.
fn own<'a>(folder: &[u8], events: &[u8]) -> Told<'a>
    ensures { tells_of result ≡ own_of folder.now events.now }
{
    match folder {
        [] if is_own_end(events) => Told::Doubt,
        _ => Told::Nothing,
    }
}

/// What is told of a name in a folder below the root.
fn named<'a>(folder: &'a [u8], events: &[u8], cookie: &'a [u8], name: &'a [u8]) -> Told<'a>
    ensures { tells_of result ≡ at_name folder.now events.now cookie.now name.now }
{
    match name {
        [] => own(folder, events),
        _ => entry(folder, name, change_of(events, cookie)),
    }
}

/// What a record, without the newline that ends it, tells of a root.
pub fn read_record<'a>(root: &str, bytes: &'a [u8]) -> Told<'a>
    ensures { tells_of result ≡ record_tells root.now bytes.now }
{
    let Some(parts) = parts_of(bytes) else {
        return Told::Doubt;
    };
    if is_lost(parts.events) {
        return Told::Doubt;
    }
    match below(root.as_bytes(), parts.folder) {
        Some(folder) => named(folder, parts.events, parts.cookie, parts.name),
        None => Told::Doubt,
    }
}
