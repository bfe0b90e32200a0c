//! A feed by inotifywait, as `wmfeed` asks for one: the system that it runs on. Tests: tools/try/feed.
ghost use Rattle.std.specs.Prelude.{⊤};

use crate::feeding::{Order, feed_by};
use crate::inotifywait::{Inotifywait, RecordSocket};
use crate::line_sender::LineSender;
use crate::system::{Explainer, System};
use std::alloc::Global;
use std::collections::BTreeSet;
use std::fs::{DirBuilder, Files};
use std::io::{BufReader, Eprint, Error, ErrorKind, Read};
use std::net::Net;
use std::os::unix::fs::{DirBuilderExt, MetadataExt};
use std::os::unix::net::UnixStream;
use std::process::Processes;
use std::time::{Clock, Duration, Instant};
use std::{fs, thread};
use wm_client::{Feeder, Stop};
use wm_crawler::FolderTree;
use wm_feed::add_watched;
use wm_names::RootPath;

/// A feeder to which inotifywait reports what changes.
#[derive(Clone, Copy)]
pub struct Inotify<'a, R, X> {
    /// The system that it runs on.
    pub rt: &'a R,
    /// When it began.
    pub begun: Instant,
    /// What explains to the user why it waits.
    pub explainer: &'a X,
}

impl<R: Net + Processes + Files + Clock + Eprint + AllocGlobal, X: Explainer> Feeder
    for Inotify<'_, R, X> {
    ghost may_stop = { λ _ _ _ _ _. ⊤ };

    fn feed(
        &self,
        alloc: Global,
        socket: &str,
        root: Option<&RootPath>,
        is_every_event: bool,
    ) -> Stop {
        let order = Order {
            socket,
            root,
            is_every_event,
        };
        feed_by(self, alloc, &order)
    }
}

/// Adds the names that were read of a folder, each with a zero byte behind it. One that is no text is left out.
fn add_names(alloc: Global, names: &mut Vec<String>, read: &[u8]) -> Result<(), Stop> {
    for name in read.split(|byte| *byte == 0) {
        let Ok(name) = str::from_utf8(name) else {
            continue;
        };
        if !matches!(name, "" | "." | "..") {
            names.push(String::from_str(alloc, name)?)?;
        }
    }
    Ok(())
}

/// The names in a folder; `None` if it can't be read to its end.
fn names_of(alloc: Global, dir: &mut impl Read) -> Result<Option<Vec<String>>, Stop> {
    let mut names = Vec::new(alloc);
    let mut room = [0u8; 8_192];
    for _ in 0..u64::MAX {
        match dir.read(&mut room) {
            Ok(0) => break,
            Ok(n) => add_names(alloc, &mut names, &room[..n.min(room.len())])?,
            Err(error) if error.kind() == ErrorKind::Interrupted => {}
            Err(_) => return Ok(None),
        }
    }
    Ok(Some(names))
}

/// Whether no folder is where one was looked for.
fn is_missing(error: &Error) -> bool {
    matches!(
        error.kind(),
        ErrorKind::NotFound
            | ErrorKind::NotADirectory
            | ErrorKind::FilesystemLoop
            | ErrorKind::InvalidFilename
    )
}

impl<'a, R: Net + Processes + Files + Clock + Eprint + AllocGlobal, X: Explainer> System
    for Inotify<'a, R, X> {
    type Records = RecordSocket;

    type Watcher = Inotifywait<R>;

    type Sender = LineSender;

    type Replies = BufReader<UnixStream>;

    type Files = FolderTree<&'a R>;

    fn connect(
        &self,
        alloc: Global,
        socket: &str,
    ) -> Result<(LineSender, BufReader<UnixStream>), Stop> {
        let Ok(sender) = UnixStream::connect(self.rt, socket) else {
            return Err(Stop::Unreached);
        };
        let Ok(other) = sender.try_clone() else {
            return Err(Stop::Unreached);
        };
        match BufReader::new(alloc, other) {
            Ok(replies) => Ok((LineSender::new(alloc, sender), replies)),
            Err(_) => Err(Stop::NoMemory),
        }
    }

    fn records(&self, alloc: Global) -> Result<RecordSocket, Stop> {
        RecordSocket::open(alloc, self.rt)
    }

    fn watch(
        &self,
        alloc: Global,
        records: &RecordSocket,
        number: u64,
        folders: &[String],
    ) -> Result<Inotifywait<R>, Stop> {
        Inotifywait::start(alloc, self.rt, records, number, folders)
    }

    fn files(&self, root: RootPath) -> FolderTree<&'a R> {
        FolderTree::new(self.rt, root)
    }

    fn watched(&self, alloc: Global, process: u32) -> Result<BTreeSet<u64>, Stop> {
        let mut numbers = BTreeSet::new(alloc);
        for descriptor in 3..16 {
            let path = format!(in alloc; "/proc/{process}/fdinfo/{descriptor}")?;
            if let Ok(text) = fs::read_to_string(self.rt, path.as_str()) {
                add_watched(alloc, &mut numbers, text.as_str())?;
            }
        }
        Ok(numbers)
    }

    fn folder(&self, path: &str) -> Option<u64> {
        match fs::symlink_metadata(self.rt, path) {
            Ok(found) if found.is_dir() => Some(found.ino()),
            _ => None,
        }
    }

    fn identity(&self, root: &str) -> Option<(u64, u64)> {
        match fs::metadata(self.rt, root) {
            Ok(found) if found.is_dir() => Some((found.dev(), found.ino())),
            _ => None,
        }
    }

    fn names(&self, alloc: Global, path: &str) -> Result<Option<Vec<String>>, Stop> {
        match self.rt.open_dir(path) {
            Ok(mut dir) => names_of(alloc, &mut dir),
            Err(error) if is_missing(&error) => Ok(Some(Vec::new(alloc))),
            Err(_) => Ok(None),
        }
    }

    fn make_folder(&self, path: &str) -> bool {
        let _made = DirBuilder::new().mode(0o700).create(self.rt, path);
        self.folder(path).is_some()
    }

    fn remove(&self, path: &str) {
        if fs::remove_file(self.rt, path).is_err() {
            let _removed = fs::remove_dir(self.rt, path);
        }
    }

    fn tell(&self, line: &str) {
        // If even this can't be reported, the feed goes on.
        let _told = self.rt.eprintln(line);
    }

    fn explain(&self, alloc: Global, path: &str, stop: Stop) {
        self.explainer.explain(alloc, path, stop);
    }

    fn now(&self) -> u64 {
        match Instant::now(self.rt) {
            Ok(now) => u64::try_from(now.duration_since(self.begun).as_millis()).unwrap_or(
                u64::MAX,
            ),
            Err(_) => 0,
        }
    }

    fn sleep(&self, time: Duration) {
        thread::sleep(self.rt, time);
    }
}
