//! What the system says of its processes.

use crate::failure::Failure;
use crate::feeds::is_feed_in;
use crate::lost_socket::is_server_in;
use std::fs;

/// What a process does for a socket.
#[derive(Clone, Copy)]
pub enum Role {
    /// It serves it.
    Server,
    /// It is a feed for the server there.
    Feed,
    /// It is such a feed, and no signal stopped it.
    UnstoppedFeed,
    /// It is such a feed, and one for all roots.
    FeedOfAll,
}

impl Role {
    /// Whether a process, whose folder in /proc is named, does this for a socket.
    fn is_of(self, rt: &HostRuntime, process: &str, socket: &str) -> Result<bool, Failure> {
        match self {
            Role::Server => is_server_in(rt, process, socket),
            Role::Feed => is_feed_in(rt, process, socket, false),
            Role::UnstoppedFeed => {
                Ok(is_feed_in(rt, process, socket, false)? && !is_stopped(rt, process)?)
            }
            Role::FeedOfAll => is_feed_in(rt, process, socket, true),
        }
    }
}

/// The number of a process that does this for a socket, whoever started it. `None` if none does.
pub fn process_that(rt: &HostRuntime, role: Role, socket: &str) -> Result<Option<String>, Failure> {
    let Ok(processes) = fs::read_dir(rt, "/proc") else {
        return Ok(None);
    };
    for process in processes {
        let Ok(process) = process else {
            continue;
        };
        let number = process.file_name();
        let folder = format!(in rt.alloc(); "/proc/{number}")?;
        if role.is_of(rt, &folder, socket)? {
            return Ok(Some(String::from_str(rt.alloc(), number)?));
        }
    }
    Ok(None)
}

/// Whether the words of a process, each with a zero byte behind it, begin with a program of this name. A process that has ended has none.
pub fn is_program(words: &str, name: &str) -> bool {
    let Some((program, _)) = words.split_once('\0') else {
        return false;
    };
    match program.rsplit_once('/') {
        Some((_, last)) => last == name,
        None => program == name,
    }
}

/// Whether a signal stopped a process, whose folder in /proc is named.
fn is_stopped(rt: &HostRuntime, process: &str) -> Result<bool, Failure> {
    let file = format!(in rt.alloc(); "{process}/status")?;
    match fs::read_to_string(rt, file.as_str()) {
        Ok(status) => Ok(status.as_str().contains("\nState:\tT")),
        Err(_) => Ok(false),
    }
}

/// Whether what the system says of a process's state is that it has ended, and only its number is left.
fn is_zombie(status: &str) -> bool {
    status.contains("\nState:\tZ") || status.contains("\nState:\tX")
}

/// Whether each thread of a process has ended but the first, which is the last to go.
fn is_one_thread(rt: &HostRuntime, number: &str) -> Result<bool, Failure> {
    let folder = format!(in rt.alloc(); "/proc/{number}/task")?;
    let Ok(threads) = fs::read_dir(rt, folder.as_str()) else {
        return Ok(true);
    };
    let mut count = 0u64;
    for _thread in threads {
        count = count.saturating_add(1);
    }
    Ok(count <= 1)
}

/// Whether a process has ended, with all that it held: it isn't there, another program has its number, or nothing but the number is left.
pub fn has_gone(rt: &HostRuntime, number: &str, name: &str) -> Result<bool, Failure> {
    let alloc = rt.alloc();
    let file = format!(in alloc; "/proc/{number}/status")?;
    let Ok(status) = fs::read_to_string(rt, file.as_str()) else {
        return Ok(true);
    };
    if is_zombie(status.as_str()) {
        return is_one_thread(rt, number);
    }
    let file = format!(in alloc; "/proc/{number}/cmdline")?;
    match fs::read_to_string(rt, file.as_str()) {
        Ok(words) => Ok(!words.is_empty() && !is_program(words.as_str(), name)),
        Err(_) => Ok(false),
    }
}
