//! What clients say of places: of a root, of a folder that can't be read, and of a socket at which no server answers.
//! Definitions: specs/Places. Tests: leaf_tests/src/places.rt.
ghost use Rattle.std.specs.Prelude.{◌≡◌, IfOk, string_bytes};
ghost use Rattle.wm_explain.specs.Shown.{shown_text};
ghost use Rattle.wm_findings.specs.Places.{away_line, fed_line, link_said, more_line, more_said, no_answer, no_server, place_line, root_line, server_line, start_said, unread_line};

use std::alloc::Global;
use wm_disk::NoMemory;
use wm_explain::{Cause, Trouble, line_of, shown};

/// What is said if inotifywait can't be started.
pub const NO_INOTIFYWAIT: &str =
    "inotifywait couldn't be started: install inotify-tools, or put it on the PATH";

/// What was found at the path of a root.
#[derive(Clone, Copy)]
pub enum RootFound<'a> {
    /// Nothing.
    Nothing,
    /// Something that is no folder.
    File,
    /// A folder that can't be read.
    Unreadable,
    /// A folder, by a symbolic link: this is its path without links.
    Link(&'a str),
}

/// Why a root can't be fed.
#[derive(Clone, Copy, Debug, PartialEq, Eq)]
pub enum Unfed {
    /// Nothing is at its path.
    Nothing,
    /// Something that is no folder is there.
    File,
    /// The folder there can't be read.
    Unreadable,
    /// The server can't read a folder of it.
    Uncrawled,
}

/// The line of a place, and what is said of it.
fn place_line(alloc: Global, path: &str, text: &str) -> Result<String, NoMemory>
    ensures { IfOk result (λ line. string_bytes line ≡ place_line path.now text.now) }
{
    let path = shown(alloc, path)?;
    Ok(format!(in alloc; "{path}: {text}\n")?)
}

/// What is said of a root in whose path a symbolic link is.
fn link_said(alloc: Global, folder: &str) -> Result<String, NoMemory>
    ensures { IfOk result (λ text. string_bytes text ≡ link_said (shown_text folder.now)) }
{
    let folder = shown(alloc, folder)?;
    let text = format!(in alloc;
        "a symbolic link leads to {folder}; the two paths are two roots, and 'wm watch' takes the latter"
    )?;
    Ok(text)
}

/// The line that says what was found at the path of a root that is watched.
pub fn root_line(alloc: Global, root: &str, found: RootFound<'_>) -> Result<String, NoMemory>
    ensures { IfOk result (λ line. string_bytes line ≡ root_line root.now found.entry) }
{
    match found {
        RootFound::Nothing => place_line(
            alloc,
            root,
            "no folder is there, so the root has no files: it is filled once a folder is made there, and 'wm unwatch ROOT' or [\"watch-del\",ROOT] ends the watch",
        ),
        RootFound::File => place_line(
            alloc,
            root,
            "this is a file and no folder, so the root has no files: it is filled once a folder is made there, and 'wm unwatch ROOT' or [\"watch-del\",ROOT] ends the watch",
        ),
        RootFound::Unreadable => place_line(
            alloc,
            root,
            "this folder can't be read: give the server's user the right to it, or watch a folder below",
        ),
        RootFound::Link(folder) => {
            let text = link_said(alloc, folder)?;
            place_line(alloc, root, text.as_str())
        }
    }
}

/// The line that says why a root can't be fed.
pub fn fed_line(alloc: Global, root: &str, cause: Unfed) -> Result<String, NoMemory>
    ensures { IfOk result (λ line. string_bytes line ≡ fed_line root.now cause) }
{
    match cause {
        Unfed::Nothing => {
            place_line(
                alloc,
                root,
                "nothing is there: make the folder, and start wmfeed again",
            )
        }
        Unfed::File => place_line(
            alloc,
            root,
            "this is no folder: wmfeed takes SOCKET first, and then the folder ROOT",
        ),
        Unfed::Unreadable => place_line(alloc, root, "the folder can't be read; it is tried again"),
        Unfed::Uncrawled => place_line(
            alloc,
            root,
            "the server can't read a folder of it, which 'wm status' names; it is tried again",
        ),
    }
}

/// The line of a folder that can't be read.
pub fn unread_line(alloc: Global, folder: &str) -> Result<String, NoMemory>
    ensures { IfOk result (λ line. string_bytes line ≡ unread_line folder.now) }
{
    place_line(
        alloc,
        folder,
        "the folder can't be read; what is in it isn't listed, or is known from before",
    )
}

/// What is said of so many folders that can't be read and aren't named.
fn more_said(alloc: Global, count: usize) -> Result<String, NoMemory>
    ensures { IfOk result (λ text. string_bytes text ≡ more_said count) }
{
    Ok(format!(in alloc; "and {count} more folders below it can't be read")?)
}

/// The line of so many folders below a root that can't be read and aren't named.
pub fn more_line(alloc: Global, root: &str, count: usize) -> Result<String, NoMemory>
    ensures { IfOk result (λ line. string_bytes line ≡ more_line root.now count) }
{
    let text = more_said(alloc, count)?;
    place_line(alloc, root, text.as_str())
}

/// A socket, and why no server answers there.
fn no_answer(alloc: Global, socket: &str, cause: &str) -> Result<String, NoMemory>
    ensures { IfOk result (λ text. string_bytes text ≡ no_answer (shown_text socket.now) cause.now) }
{
    let socket = shown(alloc, socket)?;
    Ok(format!(in alloc; "{socket} ({cause}): ")?)
}

/// How a server is started at a socket.
fn start_said(alloc: Global, socket: &str) -> Result<String, NoMemory>
    ensures { IfOk result (λ text. string_bytes text ≡ start_said (shown_text socket.now)) }
{
    let socket = shown(alloc, socket)?;
    Ok(format!(in alloc; "'wm up' starts one, or 'watchmand serve STATE {socket}'\n")?)
}

/// The line of a socket at which no server answers, for this cause, though one may be started there.
fn no_server(alloc: Global, socket: &str, cause: &str) -> Result<String, NoMemory>
    ensures { IfOk result (λ line. string_bytes line ≡ no_server (shown_text socket.now) cause.now) }
{
    let why = no_answer(alloc, socket, cause)?;
    let start = start_said(alloc, socket)?;
    let mut line = String::from_str(alloc, "no server answers at ")?;
    line.push_str(why.as_str())?;
    line.push_str(start.as_str())?;
    Ok(line)
}

/// The line of a socket whose folder isn't there.
fn away_line(alloc: Global, socket: &str) -> Result<String, NoMemory>
    ensures { IfOk result (λ line. string_bytes line ≡ away_line (shown_text socket.now)) }
{
    let socket = shown(alloc, socket)?;
    let line = format!(in alloc;
        "no server answers at {socket} (its folder isn't there): 'wm up' makes its own folder and starts one\n"
    )?;
    Ok(line)
}

/// The line that says why no server answers at a socket, and what to do. The socket may be another user's.
pub fn server_line(
    alloc: Global,
    socket: &str,
    cause: Cause,
    is_of_another: bool,
) -> Result<String, NoMemory>
    ensures { IfOk result (λ line. string_bytes line ≡ server_line socket.now cause is_of_another) }
{
    match (cause, is_of_another) {
        (Cause::Fixed(Trouble::NoServer), _) => no_server(alloc, socket, "no such file"),
        (Cause::Fixed(Trouble::Unserved), _) => no_server(alloc, socket, "nobody listens there"),
        (Cause::Fixed(Trouble::NoFolder), _) => away_line(alloc, socket),
        (Cause::Fixed(Trouble::Denied), true) => place_line(
            alloc,
            socket,
            "this is another user's, and there is no right to it: name the socket of your own server, which 'wm up' starts",
        ),
        _ => line_of(alloc, socket, cause),
    }
}
