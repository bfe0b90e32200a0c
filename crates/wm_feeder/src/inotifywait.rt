//! inotifywait as a program of the system: its start, and the bytes that it writes.
//! All inotifywaits of a feed write their records to one socket, since a socket can be read for so long and no longer; each has
//! another one for what it says beside them. A record is one write, unless its path is longer than a view holds.
//! Tests: tools/try/feed.

use crate::system::{Records, Watcher};
use std::alloc::Global;
use std::io;
use std::io::Read;
use std::net::Net;
use std::os::fd::OwnedFd;
use std::os::unix::net::UnixStream;
use std::process::{Child, Command, Processes, Stdio};
use std::time::Duration;
use wm_client::Stop;

/// How a record is written behind its number: the folder, the events, the word of a move, and the name with a slash in front, a zero
/// byte behind each, and a newline at the end. So a zero byte and a newline together stand at ends of records alone.
const FORMAT: &str = "%0%w%0%e%0%c%0/%f%0";

/// What is to be reported. inotifywait reports lost events only if it is asked to.
const EVENTS: &str =
    "modify,attrib,close_write,move,create,delete,delete_self,move_self,unmount,q_overflow";

/// What starts a program that is killed once this process has ended, by whatever cause.
const GUARD: &str = "setpriv";

const GUARDED: &[&str] = &["--pdeathsig", "KILL", "--"];

/// The socket of all records.
#[derive(Drop)]
pub struct RecordSocket {
    records: UnixStream,
    /// The end to which the inotifywaits write.
    theirs: UnixStream,
    /// Whether programs can be started that end with this process.
    is_guarded: bool,
    is_waiting: bool,
    patience: Duration,
}

/// A running inotifywait, and what it says beside its records.
#[derive(Drop)]
pub struct Inotifywait<R: Processes> {
    child: Child<R::Started>,
    words: UnixStream,
}

/// The command of a program that ends with this process, if such a command can be started.
fn guarded(alloc: Global, program: &str, is_guarded: bool) -> Result<Command, Stop> {
    if !is_guarded {
        return Ok(Command::new(alloc, program)?);
    }
    let mut command = Command::new(alloc, GUARD)?;
    command.args(GUARDED)?.arg(program)?;
    Ok(command)
}

/// Runs a command whose output nobody reads; whether it ended well, and `None` if it couldn't be started.
fn run<R: Processes>(rt: &R, mut command: Command) -> Option<bool> {
    command
        .stdin(Stdio::null())
        .stdout(Stdio::null())
        .stderr(Stdio::null());
    let Ok(mut child) = command.spawn(rt) else {
        return None;
    };
    match child.wait() {
        Ok(status) => Some(status.success()),
        Err(_) => Some(false),
    }
}

/// Whether programs that end with this process can be started. `Unwatched` if inotifywait isn't there.
fn can_guard<R: Processes>(alloc: Global, rt: &R) -> Result<bool, Stop> {
    let mut help = Command::new(alloc, "inotifywait")?;
    help.arg("--help")?;
    if run(rt, help).is_none() {
        return Err(Stop::Unwatched);
    }
    Ok(run(rt, guarded(alloc, "true", true)?) == Some(true))
}

impl RecordSocket {
    /// A socket for records. `Unwatched` if inotifywait can't be started, and `NoMemory`.
    pub(crate) fn open<R: Net + Processes>(alloc: Global, rt: &R) -> Result<RecordSocket, Stop> {
        let Ok((records, theirs)) = UnixStream::pair(rt) else {
            return Err(Stop::Unwatched);
        };
        Ok(RecordSocket {
            records,
            theirs,
            is_guarded: can_guard(alloc, rt)?,
            is_waiting: true,
            patience: Duration::from_millis(0),
        })
    }
}

impl Read for RecordSocket {
    fn read(&mut self, room: &mut [u8]) -> io::Result<usize> {
        (&self.records).read(room)
    }
}

impl Records for RecordSocket {
    fn set_patience(&mut self, patience: Option<Duration>) -> io::Result<()> {
        let is_waiting = patience.is_some();
        if is_waiting != self.is_waiting {
            self.records.set_nonblocking(!is_waiting)?;
            self.is_waiting = is_waiting;
        }
        if let Some(patience) = patience {
            if patience != self.patience {
                self.records.set_read_timeout(Some(patience))?;
                self.patience = patience;
            }
        }
        Ok(())
    }
}

/// The command that watches folders.
fn command(
    alloc: Global,
    is_guarded: bool,
    number: u64,
    folders: &[String],
) -> Result<Command, Stop> {
    let mut command = guarded(alloc, "inotifywait", is_guarded)?;
    let format = format!(in alloc; "{number}{FORMAT}")?;
    command.args(["-m", "-r", "-P", "--format"])?;
    command.arg(format.as_str())?.args(["-e", EVENTS, "--"])?;
    for folder in folders {
        command.arg(folder.as_str())?;
    }
    Ok(command)
}

/// Starts a command whose records go to a socket.
fn spawn<R: Net + Processes>(
    rt: &R,
    mut command: Command,
    records: &UnixStream,
) -> io::Result<Inotifywait<R>> {
    let (words, said) = UnixStream::pair(rt)?;
    command
        .stdin(Stdio::null())
        .stdout(OwnedFd::from(records.try_clone()?))
        .stderr(OwnedFd::from(said));
    let child = command.spawn(rt)?;
    words.set_nonblocking(true)?;
    Ok(Inotifywait { child, words })
}

impl<R: Net + Processes> Inotifywait<R> {
    /// Starts it on folders. `Unwatched` if it can't be started, and `NoMemory`.
    pub(crate) fn start(
        alloc: Global,
        rt: &R,
        records: &RecordSocket,
        number: u64,
        folders: &[String],
    ) -> Result<Inotifywait<R>, Stop> {
        let command = command(alloc, records.is_guarded, number, folders)?;
        match spawn(rt, command, &records.theirs) {
            Ok(started) => Ok(started),
            Err(_) => Err(Stop::Unwatched),
        }
    }
}

impl<R: Processes> Watcher for Inotifywait<R> {
    fn read_words(&mut self, room: &mut [u8]) -> io::Result<usize> {
        (&self.words).read(room)
    }

    fn process(&self) -> u32 {
        self.child.id()
    }

    fn end(&mut self) {
        if self.child.kill().is_ok() {
            let _ended = self.child.wait();
        }
    }
}
