//! What a system says of a file, and what a crawl makes of it.
//! Definitions: specs/Stats.antt. Tests: crawler_tests/src/folders.rt.
ghost use Rattle.std.specs.Prelude.{◌≡◌, Some, None, Ok, Err, cond, MatchResult};
ghost use Rattle.std.specs.IoError.{error_kind};
ghost use Rattle.wm_disk.specs.declared.refusal.Refusal.TheVariants.{DeviceFailed};
ghost use Rattle.wm_crawler.specs.Stats.{is_missing_kind, kind_of_mode, meta_of_stat, milliseconds};

use std::io;
use std::io::ErrorKind;
use wm_disk::{MAX_COUNTER, Refusal};
use wm_names::{Kind, Meta};

/// What a system says of a file.
#[derive(Clone, Copy, Debug, PartialEq, Eq)]
pub struct Stat {
    /// The type of the file and the rights to it, as `st_mode` of stat(2).
    pub mode: u32,
    /// In bytes.
    pub size: u64,
    /// The moment of its last change: seconds since 1970, and nanoseconds of a second.
    pub seconds: i64,
    pub nanoseconds: i64,
}

/// The bits of a mode that tell the type of a file, and those of a file, a folder and a link.
const TYPE_BITS: u32 = 0o170_000;

const FILE_BITS: u32 = 0o100_000;

const FOLDER_BITS: u32 = 0o040_000;

const LINK_BITS: u32 = 0o120_000;

fn kind_by(mode: u32) -> Kind
    ensures { result ≡ kind_of_mode mode }
{
    let bits = mode & TYPE_BITS;
    if bits == FILE_BITS {
        Kind::File
    } else if bits == FOLDER_BITS {
        Kind::Folder
    } else if bits == LINK_BITS {
        Kind::Link
    } else {
        Kind::Other
    }
}

/// In milliseconds since 1970, and 0 if it was before.
fn moment(seconds: i64, nanoseconds: i64) -> u64
    ensures { result ≡ milliseconds seconds nanoseconds }
{
    let Ok(seconds) = u64::try_from(seconds) else {
        return 0;
    };
    let Ok(nanoseconds) = u64::try_from(nanoseconds) else {
        return 0;
    };
    let all = seconds
        .saturating_mul(1_000)
        .saturating_add(nanoseconds / 1_000_000);
    all.min(MAX_COUNTER)
}

/// The metadata that a crawl lists of a file.
pub(crate) fn meta_by(stat: &Stat) -> Meta
    ensures { result ≡ meta_of_stat stat.now }
{
    Meta {
        kind: kind_by(stat.mode),
        size: stat.size.min(MAX_COUNTER),
        mtime_ms: moment(stat.seconds, stat.nanoseconds),
    }
}

/// Whether nothing is there: no such name, or a file or a link where the path goes on.
fn is_missing(kind: ErrorKind) -> bool
    ensures { result ≡ is_missing_kind kind }
{
    matches!(
        kind,
        ErrorKind::NotFound
            | ErrorKind::NotADirectory
            | ErrorKind::FilesystemLoop
            | ErrorKind::InvalidFilename
    )
}

/// What was found at a path, and `None` if nothing is there. `DeviceFailed` after any other error.
pub(crate) fn missing_or<T>(found: io::Result<T>) -> Result<Option<T>, Refusal>
    ensures { MatchResult found (λ x. result ≡ Ok (Some x)) (λ e. result ≡ cond (is_missing_kind (error_kind e)) (Ok None) (Err DeviceFailed)) }
{
    match found {
        Ok(there) => Ok(Some(there)),
        Err(e) if is_missing(e.kind()) => Ok(None),
        Err(_) => Err(Refusal::DeviceFailed),
    }
}
