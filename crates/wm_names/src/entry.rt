//! What is known of a file besides its path, and when two such are the same.
//! Definitions: specs/Entries.antt. Tests: leaf_tests/src/names/entries.rt.
ghost use Rattle.std.specs.Prelude.{◌≡◌};
ghost use Rattle.wm_names.specs.Entries.{kind_of, letter_of, same_kind, same_meta as same_meta_lem};

use crate::rel_path::RelPath;

/// What kind of thing a path names.
#[derive(Clone, Copy, Debug, PartialEq, Eq)]
pub enum Kind {
    /// A regular file.
    File,
    /// A folder.
    Folder,
    /// A symbolic link, which isn't followed.
    Link,
    /// Anything else, as a socket or a device.
    Other,
}

/// What is known of a file besides its path. Size in bytes; the last change in milliseconds since
/// 1970, and 0 where it was before. Any two numbers of 64 bits make one: that both are at most 2^63 - 1 is
/// kept by lines, and has to be by whoever else makes one, or an answer tells a number that no line takes.
#[derive(Clone, Copy, Debug, PartialEq, Eq)]
pub struct Meta {
    pub kind: Kind,
    /// In bytes; lines take 0 to 2^63 - 1.
    pub size: u64,
    /// In milliseconds since 1970; lines take 0 to 2^63 - 1.
    pub mtime_ms: u64,
}

/// A path, whether it exists, and its metadata; of a file that is gone, the last that it had.
#[derive(Drop)]
pub struct Entry {
    pub path: RelPath,
    pub exists: bool,
    pub meta: Meta,
}

impl Kind {
    /// Its letter: `f` for a file, `d` for a folder, `l` for a link, `o` for anything else.
    pub fn letter(self) -> &'static str
        ensures { result.now ≡ letter_of self }
    {
        match self {
            Kind::File => "f",
            Kind::Folder => "d",
            Kind::Link => "l",
            Kind::Other => "o",
        }
    }

    /// The kind with this letter.
    pub fn from_letter(letter: &str) -> Option<Kind>
        ensures { result ≡ kind_of letter.now }
    {
        match letter {
            "f" => Some(Kind::File),
            "d" => Some(Kind::Folder),
            "l" => Some(Kind::Link),
            "o" => Some(Kind::Other),
            _ => None,
        }
    }

    /// Whether the two are one kind.
    pub fn same(self, other: Kind) -> bool
        ensures { result ≡ same_kind self other }
    {
        match (self, other) {
            (Kind::File, Kind::File) => true,
            (Kind::Folder, Kind::Folder) => true,
            (Kind::Link, Kind::Link) => true,
            (Kind::Other, Kind::Other) => true,
            _ => false,
        }
    }
}

impl Meta {
    /// Whether the two are equal in each part.
    pub fn same(&self, other: &Meta) -> bool
        ensures { result ≡ same_meta_lem self.now other.now }
    {
        self.kind.same(other.kind) && self.size == other.size && self.mtime_ms == other.mtime_ms
    }
}
