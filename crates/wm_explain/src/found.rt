//! What a program found at a path when it looked there after a failure.

/// Who has the lock of a file.
#[derive(Clone, Copy, Debug, PartialEq, Eq)]
pub enum Lock {
    /// Nobody.
    Free,
    /// Somebody; the system doesn't say who.
    Unknown,
    /// The process of this number, which is another `watchmand`.
    Watchmand(u32),
    /// The process of this number, which is another program.
    Program(u32),
}

/// As what a file begins.
#[derive(Clone, Copy, Debug, PartialEq, Eq)]
pub enum Head {
    /// As no state file.
    Foreign,
    /// As a state file of version 1.
    VersionOne,
    /// As a state file of version 1 whose registry was migrated into another file.
    Retired,
    /// As a state file of version 2, or of a later one.
    VersionTwo,
}

/// What was found at a path.
#[derive(Clone, Copy, Debug, PartialEq, Eq)]
pub enum Found {
    /// Nothing, in a folder that is there.
    Nothing,
    /// The path's folder isn't there.
    NoFolder,
    /// There is no right to look at it, or to open it.
    Denied,
    /// A folder.
    Folder,
    /// A regular file that can be opened.
    File { lock: Lock, head: Head },
    /// A socket on which a server takes connections.
    Served,
    /// A socket on which nobody listens.
    Unserved,
    /// Something else.
    Other,
}
