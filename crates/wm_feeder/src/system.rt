//! What a feed asks of the system that it runs on. Tests: feed_tests stand in for one.
ghost use Rattle.std.specs.Prelude.{◌≡◌, ◌⊎◌, IfErr};

use std::alloc::Global;
use std::collections::BTreeSet;
use std::io;
use std::io::{BufRead, Read, Write};
use std::time::Duration;
use wm_client::Stop;
use wm_crawler::Tree;
use wm_names::RootPath;

/// The stream to which all inotifywaits of a feed write their records.
pub trait Records: Read {
    /// How long a reading waits for bytes, or that it doesn't wait. If none come, it fails with `WouldBlock`.
    fn set_patience(&mut self, patience: Option<Duration>) -> io::Result<()>;
}

/// A running inotifywait.
pub trait Watcher {
    /// Reads what it says beside its records. It fails with `WouldBlock` if nothing was said, and reads nothing if it ended.
    fn read_words(&mut self, room: &mut [u8]) -> io::Result<usize>;

    /// The number of its process.
    fn process(&self) -> u32;

    /// Ends it.
    fn end(&mut self);
}

/// What explains to the user why a feed waits.
pub trait Explainer {
    /// Explains why a root, or the server at a socket, isn't fed now, by the path of the root or of the socket.
    fn explain(&self, alloc: Global, path: &str, stop: Stop);
}

/// A system: its sockets, its programs, its files and its time.
pub trait System {
    type Records: Records + Drop;

    type Watcher: Watcher + Drop;

    /// The two directions of a session with a server.
    type Sender: Write + Drop;

    type Replies: BufRead + Drop;

    type Files: Tree + Drop;

    /// A session with the server at the socket of a path. `Unreached` if none can be had, and `NoMemory`.
    fn connect(&self, alloc: Global, socket: &str) -> Result<(Self::Sender, Self::Replies), Stop>
        ensures { IfErr result (λ stop. (stop ≡ Stop.Unreached) ⊎ (stop ≡ Stop.NoMemory)) };

    /// A stream for records. `Unwatched` if inotifywait can't be started, and `NoMemory`.
    fn records(&self, alloc: Global) -> Result<Self::Records, Stop>;

    /// Starts inotifywait on the folders at these paths and those below them. It writes this number in front of each of its records.
    /// `Unwatched` if it can't be started, and `NoMemory`.
    fn watch(
        &self,
        alloc: Global,
        records: &Self::Records,
        number: u64,
        folders: &[String],
    ) -> Result<Self::Watcher, Stop>;

    /// What stands at the paths below a root.
    fn files(&self, root: RootPath) -> Self::Files;

    /// The numbers of all files that a process watches.
    fn watched(&self, alloc: Global, process: u32) -> Result<BTreeSet<u64>, Stop>;

    /// The number of the folder at a path; `None` if no folder is there. A link isn't followed.
    fn folder(&self, path: &str) -> Option<u64>;

    /// The device and the number of the folder that a root's path leads to; `None` if it leads to none.
    fn identity(&self, root: &str) -> Option<(u64, u64)>;

    /// The names in the folder at a path; `None` if it can't be read, and none if no folder is there. A name that is no text is left out.
    fn names(&self, alloc: Global, path: &str) -> Result<Option<Vec<String>>, Stop>;

    /// Makes a folder that this user alone may use, if none is there, and returns whether one is there now.
    fn make_folder(&self, path: &str) -> bool;

    /// Removes a file, or an empty folder, if it is there.
    fn remove(&self, path: &str);

    /// Reports a line to the user.
    fn tell(&self, line: &str);

    /// Explains to the user why a root, or the server at a socket, isn't fed now, behind the line that reports it. The path is that of the
    /// root or of the socket.
    fn explain(&self, alloc: Global, path: &str, stop: Stop);

    /// The time since some moment, in milliseconds.
    fn now(&self) -> u64;

    /// Waits.
    fn sleep(&self, time: Duration);
}
