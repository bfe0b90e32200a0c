//! The further line that explains a failure, or an answer that misleads, on a terminal. Tests: tools/try/messages.py.

use crate::programs::missing_program_line;
use std::alloc::Global;
use std::env;
use std::env::VarError;
use std::fs::{File, Files};
use std::net::Net;
use std::rt::Env;
use std::time::Clock;
use wm_client::{Request, Words};
use wm_disk::{NoMemory, Refusal};
use wm_findings::{
    RootFound, found_without_folder, is_own, is_unreadable, more_line, root_line, unreached_line,
    unread_below, unread_line,
};
use wm_parts::{
    RequestKind, braces_hint, log_line, no_feed_line, refusal_line, request_kind, root_asked,
    root_explanation,
};

/// What is said of words in place of a request.
const NO_REQUEST: &str =
    "a request is one word, JSON, as in wmctl SOCKET '[\"watch-list\"]'; 'wm watch FOLDER' and 'wm --help' are for plain words\n";

/// What is said of a request in place of the socket.
const SOCKET_FIRST: &str = "the socket comes first, as in wmctl SOCKET REQUEST\n";

/// How many folders that can't be read are named.
const MOST_NAMED: usize = 3;

/// What is said of lines that are awaited and don't come.
const NO_FURTHER_LINES: &str =
    "only a subscribe is followed by further lines: --follow waits until the server ends\n";

/// How the program ended.
#[derive(Clone, Copy)]
pub struct Ended {
    /// Its status.
    pub status: u8,
    /// The refusal that was replied.
    pub refusal: Option<Refusal>,
    /// Whether no feed answered in time.
    pub lacks_feed: bool,
}

/// Whether there are words behind the socket's, and no request may be among them.
fn lack_request(words: &[&str]) -> bool {
    words.len() > 1 && !words.iter().any(|word| word.starts_with("["))
}

/// Whether a request seems to stand at the socket's place.
fn begin_with_request(words: &[&str]) -> bool {
    match words.first() {
        Some(word) => word.starts_with("[") || word.starts_with("{"),
        None => false,
    }
}

/// The line of a root in whose path a symbolic link is.
fn link_line<R: Files<File = File>>(
    rt: &R,
    alloc: Global,
    root: &str,
) -> Result<Option<String>, NoMemory> {
    let Ok(folder) = rt.canonicalize(alloc, root) else {
        return Ok(None);
    };
    if folder.as_str() == root {
        return Ok(None);
    }
    Ok(Some(root_line(alloc, root, RootFound::Link(folder.as_str()))?))
}

/// The line of the root of a request that succeeded: no folder is there; or it can't be read, or is a link, and is to be watched.
fn folder_line<R: Files<File = File>>(
    rt: &R,
    alloc: Global,
    json: &str,
) -> Result<Option<String>, NoMemory> {
    let Some(root) = root_asked(alloc, json)? else {
        return Ok(None);
    };
    if let Some(found) = found_without_folder(rt, root.as_str()) {
        return Ok(Some(root_line(alloc, root.as_str(), found)?));
    }
    if request_kind(alloc, json)? != RequestKind::Watch {
        return Ok(None);
    }
    if is_unreadable(rt, root.as_str()) {
        return Ok(Some(root_line(alloc, root.as_str(), RootFound::Unreadable)?));
    }
    link_line(rt, alloc, root.as_str())
}

/// The line of a request that succeeded, if its answer may mislead.
fn answer_line<R: Files<File = File>>(
    rt: &R,
    alloc: Global,
    json: &str,
) -> Result<Option<String>, NoMemory> {
    match folder_line(rt, alloc, json)? {
        Some(line) => Ok(Some(line)),
        None => braces_hint(alloc, json),
    }
}

/// The lines of folders below a root that can't be read: the first of them, and how many there are more.
fn folder_lines(alloc: Global, root: &str, folders: &[String]) -> Result<String, NoMemory> {
    let mut text = String::new(alloc);
    for folder in folders.iter().take(MOST_NAMED) {
        let line = unread_line(alloc, folder)?;
        text.push_str(&line)?;
    }
    if folders.len() > MOST_NAMED {
        let line = more_line(alloc, root, folders.len() - MOST_NAMED)?;
        text.push_str(&line)?;
    }
    Ok(text)
}

/// Whether the answer to a request of this kind may lack what is in folders that can't be read.
fn tells_of_files(kind: RequestKind) -> bool {
    matches!(
        kind,
        RequestKind::Query | RequestKind::Watch | RequestKind::Recrawl
    )
}

/// The lines of the folders below a request's root that the server's user can't read, if that is the user of this program. If a root that is
/// to be watched or crawled can't be read itself, another line says so.
fn unread_lines<R: Files<File = File> + Clock + Alloc + Clone + Drop>(
    rt: &R,
    alloc: Global,
    request: &Request,
) -> Result<String, NoMemory> {
    let kind = request_kind(alloc, &request.json)?;
    if !tells_of_files(kind) || !is_own(rt, &request.socket) {
        return Ok(String::new(alloc));
    }
    let Some(root) = root_asked(alloc, &request.json)? else {
        return Ok(String::new(alloc));
    };
    if kind != RequestKind::Query && is_unreadable(rt, root.as_str()) {
        return Ok(String::new(alloc));
    }
    let folders = unread_below(rt, alloc, root.as_str())?;
    folder_lines(alloc, root.as_str(), &folders)
}

/// Whether lines are awaited behind a reply that none follows.
fn waits_in_vain(alloc: Global, request: &Request) -> Result<bool, NoMemory> {
    Ok(request.follow > 0 && request_kind(alloc, &request.json)? != RequestKind::Subscribe)
}

/// What is said behind a reply that is no refusal: that no folder is at the root, that it is watched by a link, or that a pattern has braces;
/// that a trigger's program isn't there; which folders can't be read; and that no further line comes, if some are awaited.
pub fn answer_text<R: Files<File = File> + Env + Clock + Alloc + Clone + Drop>(
    rt: &R,
    alloc: Global,
    request: &Request,
) -> Result<String, NoMemory> {
    let mut text = String::new(alloc);
    if let Some(line) = answer_line(rt, alloc, &request.json)? {
        text.push_str(&line)?;
    }
    if let Some(line) = missing_program_line(rt, alloc, &request.json)? {
        text.push_str(&line)?;
    }
    let unread = unread_lines(rt, alloc, request)?;
    text.push_str(&unread)?;
    if waits_in_vain(alloc, request)? {
        text.push_str(NO_FURTHER_LINES)?;
    }
    Ok(text)
}

/// The line of a root that wasn't crawled, or couldn't be, if its folder can't be read.
fn unreadable_line<R: Files<File = File>>(
    rt: &R,
    alloc: Global,
    request: &Request,
) -> Result<Option<String>, NoMemory> {
    let Some(root) = root_asked(alloc, &request.json)? else {
        return Ok(None);
    };
    if !is_unreadable(rt, root.as_str()) {
        return Ok(None);
    }
    Ok(Some(root_line(alloc, root.as_str(), RootFound::Unreadable)?))
}

/// The line of a sync's root, if it is the cause of a refusal.
fn sync_line(alloc: Global, request: &Request) -> Result<Option<String>, NoMemory> {
    match &request.sync {
        Some(sync) => root_explanation(alloc, &sync.root),
        None => Ok(None),
    }
}

/// The line of a refusal by what a look at the request's roots finds.
fn seen_line<R: Files<File = File>>(
    rt: &R,
    alloc: Global,
    refusal: Refusal,
    request: &Request,
) -> Result<Option<String>, NoMemory> {
    match refusal {
        Refusal::BadPath => sync_line(alloc, request),
        Refusal::NotReady | Refusal::DeviceFailed => unreadable_line(rt, alloc, request),
        _ => Ok(None),
    }
}

/// Whether a crawl was refused since a folder can't be read.
fn is_of_crawl(alloc: Global, refusal: Refusal, request: &Request) -> Result<bool, NoMemory> {
    Ok(
        refusal == Refusal::DeviceFailed
            && request_kind(alloc, &request.json)? == RequestKind::Recrawl,
    )
}

/// The log of a server that `wm up` started with this environment.
fn log_path<R: Env + Alloc>(rt: &R, alloc: Global) -> Result<String, NoMemory> {
    match env::var(rt, "XDG_STATE_HOME") {
        Ok(state) if !state.as_str().is_empty() => {
            Ok(format!(in alloc; "{state}/watchmand/log")?)
        }
        Err(VarError::OutOfMemory) => Err(NoMemory),
        _ => Ok(String::from_str(alloc, "~/.local/state/watchmand/log")?),
    }
}

/// The lines of a refusal that no look explains. Behind that of a crawl stands where the log is that names the folder.
fn unseen_lines<R: Env + Alloc>(
    rt: &R,
    alloc: Global,
    refusal: Refusal,
    request: &Request,
) -> Result<String, NoMemory> {
    let mut text = refusal_line(alloc, refusal, &request.json)?;
    if is_of_crawl(alloc, refusal, request)? {
        let log = log_path(rt, alloc)?;
        let line = log_line(alloc, &log)?;
        text.push_str(&line)?;
    }
    Ok(text)
}

/// The lines of a refusal, without folders below a root.
fn refused_lines<R: Files<File = File> + Env + Alloc>(
    rt: &R,
    alloc: Global,
    refusal: Refusal,
    request: &Request,
) -> Result<String, NoMemory> {
    match seen_line(rt, alloc, refusal, request)? {
        Some(line) => Ok(line),
        None => unseen_lines(rt, alloc, refusal, request),
    }
}

/// The lines of a refusal. Behind that of a crawl they name the folders that can't be read.
fn refused_text<R: Files<File = File> + Env + Clock + Alloc + Clone + Drop>(
    rt: &R,
    alloc: Global,
    refusal: Option<Refusal>,
    request: &Request,
) -> Result<Option<String>, NoMemory> {
    let Some(refusal) = refusal else {
        return Ok(None);
    };
    let mut text = refused_lines(rt, alloc, refusal, request)?;
    if is_of_crawl(alloc, refusal, request)? {
        let unread = unread_lines(rt, alloc, request)?;
        text.push_str(&unread)?;
    }
    Ok(Some(text))
}

/// The line of a talk that came to nothing: no feed runs, the words are swapped, or no server can be reached.
fn unanswered_line<R: Files<File = File> + Net>(
    rt: &R,
    alloc: Global,
    ended: Ended,
    words: &[&str],
    socket: &str,
) -> Result<Option<String>, NoMemory> {
    if ended.lacks_feed {
        return Ok(Some(no_feed_line(alloc, socket)?));
    }
    if begin_with_request(words) {
        return Ok(Some(String::from_str(alloc, SOCKET_FIRST)?));
    }
    unreached_line(rt, alloc, socket)
}

/// The lines that explain how `wmctl` ended. With status 1, which part of the request is refused, or what to do; with 2, that there are words
/// in place of a request, or a request in that of the socket; with 3, why no server can be reached, or that no feed runs. `None` if that
/// isn't found.
pub fn text_of<R: Files<File = File> + Env + Net + Clock + Alloc + Clone + Drop>(
    rt: &R,
    alloc: Global,
    ended: Ended,
    words: &[&str],
) -> Result<Option<String>, NoMemory> {
    match (ended.status, Words::read(alloc, words)?) {
        (1, Words::Talk(request)) => refused_text(rt, alloc, ended.refusal, &request),
        (2, _) if begin_with_request(words) => Ok(Some(String::from_str(alloc, SOCKET_FIRST)?)),
        (2, _) if lack_request(words) => Ok(Some(String::from_str(alloc, NO_REQUEST)?)),
        (3, Words::Talk(request)) => unanswered_line(rt, alloc, ended, words, &request.socket),
        _ => Ok(None),
    }
}
