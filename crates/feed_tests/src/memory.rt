//! A system in memory: a server that answers by lines that stand ready, records and words that come at moments, and paths.
ghost use Rattle.std.specs.Prelude.{⊤};

use crate::done::Done;
use crate::paths::Paths;
use std::alloc::{AllocError, Global};
use std::collections::BTreeSet;
use std::io;
use std::io::{Chain, ErrorKind, Read, Write};
use std::time::Duration;
use wm_client::{Feeder, Stop};
use wm_feeder::{Order, Records, System, Watcher, feed_by};
use wm_names::{Kind, RootPath};

/// Bytes that come at moments, in milliseconds since the feed began. Where there are none it ends.
pub type Coming = &'static [(u64, &'static [u8])];

/// What a system has ready.
#[derive(Clone, Copy)]
pub struct Ready {
    /// What the server answers in each session in turn, line by line, whatever it is asked; then it ends. `None`, and behind the last:
    /// nobody serves the socket.
    pub sessions: &'static [Option<[&'static str; 2]>],
    /// Whether each write of a request fails, and how long a request takes, in milliseconds.
    pub is_deaf: bool,
    pub slow: u64,
    /// How many inotifywaits can be started.
    pub starts: u64,
    /// The records that come, and the place of one that is read several times at once, with how often.
    pub records: Coming,
    pub repeated: Option<(usize, u64)>,
    /// What each inotifywait says beside them: one behind the last says what the last does.
    pub words: &'static [Coming],
    /// The numbers of the folders that each inotifywait watches: one behind the last watches what the last does.
    pub watched: &'static [&'static [u64]],
    /// What stands at whole paths: a kind, a size and a time in milliseconds.
    pub paths: &'static [(&'static str, Kind, u64, u64)],
    /// The numbers of the folders at whole paths, also of some that aren't among `paths`.
    pub folders: &'static [(&'static str, u64)],
    /// The whole paths of folders that nobody may read before a moment.
    pub closed: &'static [(u64, &'static str)],
    /// What the path of the root `/r` leads to from moments on.
    pub roots: &'static [(u64, Option<(u64, u64)>)],
    /// Whether folders of syncs can be made, and the files of syncs, each made at a moment.
    pub has_syncs: bool,
    pub syncs: &'static [(u64, &'static str)],
}

/// A system that has this ready, with a server at the socket `socket`.
#[derive(Clone, Copy)]
pub struct Memory<'a> {
    pub ready: Ready,
    pub done: &'a Done,
}

/// What takes requests.
#[derive(Clone, Copy)]
pub struct Ear<'a> {
    done: &'a Done,
    is_deaf: bool,
    slow: u64,
}

impl Write for Ear<'_> {
    fn write(&mut self, bytes: &[u8]) -> io::Result<usize> {
        if self.is_deaf {
            return Err(io::Error::from(ErrorKind::BrokenPipe));
        }
        self.done.add(bytes);
        if bytes.ends_with(b"\n") {
            self.done.pass(self.slow);
        }
        Ok(bytes.len())
    }

    fn flush(&mut self) -> io::Result<()> {
        Ok(())
    }
}

/// What comes at a place, if it has come by a moment.
fn come(coming: Coming, place: usize, by: u64) -> Option<(u64, &'static [u8])> {
    match coming.get(place) {
        Some((moment, bytes)) if *moment <= by => Some((*moment, *bytes)),
        _ => None,
    }
}

/// The place behind what came. An end comes again.
fn behind(place: usize, bytes: &[u8]) -> usize {
    if bytes.is_empty() {
        place
    } else {
        place.saturating_add(1)
    }
}

/// The stream of records.
#[derive(Clone, Copy)]
pub struct Stream<'a> {
    records: Coming,
    repeated: Option<(usize, u64)>,
    place: usize,
    patience: u64,
    done: &'a Done,
}

impl Stream<'_> {
    /// How often the next record is read at once.
    fn times(&self) -> u64 {
        match self.repeated {
            Some((place, times)) if place == self.place => times,
            _ => 1,
        }
    }
}

impl Read for Stream<'_> {
    fn read(&mut self, room: &mut [u8]) -> io::Result<usize> {
        let now = self.done.now();
        let by = now.saturating_add(self.patience);
        match come(self.records, self.place, by) {
            Some((moment, bytes)) => {
                let times = self.times();
                self.place = behind(self.place, bytes);
                self.done.pass(moment.saturating_sub(now));
                let mut all = Vec::new(self.done.alloc());
                for _ in 0..times {
                    all.extend_from_slice(bytes)?;
                }
                let mut all = all.as_slice();
                all.read(room)
            }
            None => {
                self.done.pass(self.patience);
                Err(io::Error::from(ErrorKind::WouldBlock))
            }
        }
    }
}

impl Records for Stream<'_> {
    fn set_patience(&mut self, patience: Option<Duration>) -> io::Result<()> {
        self.patience = match patience {
            Some(time) => u64::try_from(time.as_millis()).unwrap_or(0),
            None => 0,
        };
        Ok(())
    }
}

/// An inotifywait.
#[derive(Clone, Copy)]
pub struct Script<'a> {
    number: u64,
    words: Coming,
    place: usize,
    done: &'a Done,
}

impl Watcher for Script<'_> {
    fn read_words(&mut self, room: &mut [u8]) -> io::Result<usize> {
        match come(self.words, self.place, self.done.now()) {
            Some((_, bytes)) => {
                self.place = behind(self.place, bytes);
                let mut bytes = bytes;
                bytes.read(room)
            }
            None => Err(io::Error::from(ErrorKind::WouldBlock)),
        }
    }

    fn process(&self) -> u32 {
        u32::try_from(self.number).unwrap_or(0)
    }

    fn end(&mut self) {
        if let Ok(line) = format!(in self.done.alloc(); "end {}", self.number) {
            self.done.note(line.as_str());
        }
    }
}

/// The numbers as a set.
fn set_of(alloc: Global, numbers: &[u64]) -> Result<BTreeSet<u64>, AllocError> {
    let mut set = BTreeSet::new(alloc);
    for number in numbers {
        set.insert(*number)?;
    }
    Ok(set)
}

/// What is ready for the inotifywait of a number, which is above zero.
fn of_number<T: Copy>(all: &[T], number: u64) -> Option<T> {
    let place = usize::try_from(number).unwrap_or(0).saturating_sub(1);
    match all.get(place) {
        Some(one) => Some(*one),
        None => all.last().copied(),
    }
}

/// Adds the name of what stands in a folder, once.
fn add_name(alloc: Global, names: &mut Vec<String>, folder: &str, path: &str) -> Result<(), Stop> {
    let Some((above, name)) = path.rsplit_once('/') else {
        return Ok(());
    };
    if above == folder && !names.iter().any(|one| one.as_str() == name) {
        names.push(String::from_str(alloc, name)?)?;
    }
    Ok(())
}

impl Memory<'_> {
    /// Whether nobody may read the folder at a path now.
    fn is_closed(&self, path: &str) -> bool {
        let now = self.done.now();
        self.ready
            .closed
            .iter()
            .any(|(moment, text)| *text == path && now < *moment)
    }
}

impl<'a> System for Memory<'a> {
    type Records = Stream<'a>;

    type Watcher = Script<'a>;

    type Sender = Ear<'a>;

    type Replies = Chain<&'static [u8], &'static [u8]>;

    type Files = Paths;

    fn connect(
        &self,
        _alloc: Global,
        socket: &str,
    ) -> Result<(Ear<'a>, Chain<&'static [u8], &'static [u8]>), Stop> {
        let session = self.ready.sessions.get(self.done.connect());
        let Some(Some([first, then])) = session else {
            return Err(Stop::Unreached);
        };
        if socket != "socket" {
            return Err(Stop::Unreached);
        }
        let ear = Ear {
            done: self.done,
            is_deaf: self.ready.is_deaf,
            slow: self.ready.slow,
        };
        Ok((ear, first.as_bytes().chain(then.as_bytes())))
    }

    fn records(&self, _alloc: Global) -> Result<Stream<'a>, Stop> {
        if self.ready.starts == 0 {
            return Err(Stop::Unwatched);
        }
        Ok(Stream {
            records: self.ready.records,
            repeated: self.ready.repeated,
            place: 0,
            patience: 0,
            done: self.done,
        })
    }

    fn watch(
        &self,
        alloc: Global,
        _records: &Stream<'a>,
        number: u64,
        folders: &[String],
    ) -> Result<Script<'a>, Stop> {
        if number > self.ready.starts {
            return Err(Stop::Unwatched);
        }
        let mut line = format!(in alloc; "watch {number}")?;
        for folder in folders {
            line.push(' ')?;
            line.push_str(folder.as_str())?;
        }
        self.done.note(line.as_str());
        Ok(Script {
            number,
            words: of_number(self.ready.words, number).unwrap_or(&[]),
            place: 0,
            done: self.done,
        })
    }

    fn files(&self, root: RootPath) -> Paths {
        Paths {
            root,
            paths: self.ready.paths,
            folders: self.ready.folders,
        }
    }

    fn watched(&self, alloc: Global, process: u32) -> Result<BTreeSet<u64>, Stop> {
        let watched = of_number(self.ready.watched, u64::from(process)).unwrap_or(&[]);
        Ok(set_of(alloc, watched)?)
    }

    fn folder(&self, path: &str) -> Option<u64> {
        for (text, number) in self.ready.folders {
            if *text == path {
                return Some(*number);
            }
        }
        None
    }

    fn identity(&self, root: &str) -> Option<(u64, u64)> {
        if root != "/r" {
            return Some((1, 2));
        }
        let now = self.done.now();
        let mut identity = Some((1, 1));
        for (moment, from) in self.ready.roots {
            if *moment <= now {
                identity = *from;
            }
        }
        identity
    }

    fn names(&self, alloc: Global, path: &str) -> Result<Option<Vec<String>>, Stop> {
        let folder = path.trim_end_matches('/');
        if self.is_closed(folder) {
            return Ok(None);
        }
        let mut names = Vec::new(alloc);
        for (text, _) in self.ready.folders {
            add_name(alloc, &mut names, folder, text)?;
        }
        for (text, _, _, _) in self.ready.paths {
            add_name(alloc, &mut names, folder, text)?;
        }
        for (moment, text) in self.ready.syncs {
            if *moment <= self.done.now() && !self.done.is_removed(text) {
                add_name(alloc, &mut names, folder, text)?;
            }
        }
        Ok(Some(names))
    }

    fn make_folder(&self, _path: &str) -> bool {
        self.ready.has_syncs
    }

    fn remove(&self, path: &str) {
        self.done.add(b"remove ");
        self.done.note(path);
    }

    fn tell(&self, line: &str) {
        self.done.report(line.as_bytes());
        self.done.report(b"\n");
    }

    fn explain(&self, _alloc: Global, path: &str, _stop: Stop) {
        for part in ["(", path, ")\n"] {
            self.done.report(part.as_bytes());
        }
    }

    fn now(&self) -> u64 {
        self.done.now()
    }

    fn sleep(&self, time: Duration) {
        self.done.pass(u64::try_from(time.as_millis()).unwrap_or(0));
    }
}

impl Feeder for Memory<'_> {
    ghost may_stop = { λ _ _ _ _ _. ⊤ };

    fn feed(
        &self,
        alloc: Global,
        socket: &str,
        root: Option<&RootPath>,
        is_every_event: bool,
    ) -> Stop {
        let order = Order {
            socket,
            root,
            is_every_event,
        };
        feed_by(self, alloc, &order)
    }
}
