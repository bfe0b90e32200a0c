//! Which cause a failure has, by what was found after it. Definitions: specs/Causes. Tests: leaf_tests/src/explanations.rt.
ghost use Rattle.std.specs.Prelude.{◌≡◌, ◌<◌, Some, true};
ghost use Rattle.wm_explain.specs.Causes.{begins_as_state, by_holder, file_cause as file_cause_lem, missing as missing_lem, no_listener, no_talk, refusal_said as refusal_said_lem, socket_cause as socket_cause_lem, unmade as unmade_lem, unopened as unopened_lem, unread as unread_lem};

use crate::found::{Found, Head, Lock};
use crate::lines::{Cause, Trouble};
use wm_disk::Refusal;

/// What a program did with a file when it was refused.
#[derive(Clone, Copy, Debug, PartialEq, Eq)]
pub enum Doing {
    /// It opened a state file.
    Opening,
    /// It made a state file.
    Making,
    /// It opened the file from which a registry was to be migrated.
    Moving,
    /// It opened, or made, the file into which a registry was to be migrated.
    Filling,
}

/// Which end of a socket a program was to have.
#[derive(Clone, Copy, Debug, PartialEq, Eq)]
pub enum End {
    /// That of the server, which makes the socket.
    Server,
    /// That of a client.
    Client,
}

/// The most bytes of a socket's path.
pub const MAX_SOCKET_PATH: usize = 107;

/// The refusal of a start whose text this is, of those that a file or a socket may explain.
pub fn refusal_said(text: &str) -> Option<Refusal>
    ensures { result ≡ refusal_said_lem text.now }
{
    match text {
        "13 DeviceFailed" => Some(Refusal::DeviceFailed),
        "14 Damaged" => Some(Refusal::Damaged),
        "20 Retired" => Some(Refusal::Retired),
        _ => None,
    }
}

/// Who has the lock of a file that can't be used. `None` if nobody has it.
fn held_by(lock: Lock) -> Option<Cause>
    ensures { result ≡ by_holder lock }
{
    match lock {
        Lock::Free => None,
        Lock::Unknown => Some(Cause::Fixed(Trouble::Locked)),
        Lock::Watchmand(process) => Some(Cause::Watchmand(process)),
        Lock::Program(process) => Some(Cause::Program(process)),
    }
}

/// Why nothing is at the path of a file.
fn missing(doing: Doing) -> Cause
    ensures { result ≡ missing_lem doing }
{
    match doing {
        Doing::Opening => Cause::NoFile,
        Doing::Making => Cause::Fixed(Trouble::NotMade),
        Doing::Moving => Cause::Fixed(Trouble::NoSuchFile),
        Doing::Filling => Cause::Fixed(Trouble::NoTarget),
    }
}

/// Why a file can't be opened or used.
fn unopened(doing: Doing, found: Found) -> Option<Cause>
    ensures { result ≡ unopened_lem doing found }
{
    match found {
        Found::Nothing => Some(missing(doing)),
        Found::NoFolder => Some(Cause::Fixed(Trouble::NoFolder)),
        Found::Denied => Some(Cause::Fixed(Trouble::Denied)),
        Found::Folder => Some(Cause::Fixed(Trouble::IsFolder)),
        Found::File { lock, .. } => held_by(lock),
        Found::Served | Found::Unserved | Found::Other => {
            Some(Cause::Fixed(Trouble::NoRegularFile))
        }
    }
}

/// Why a file can't be made.
fn unmade(found: Found) -> Cause
    ensures { result ≡ unmade_lem found }
{
    match found {
        Found::Nothing => Cause::Fixed(Trouble::NotMade),
        Found::NoFolder => Cause::Fixed(Trouble::NoFolder),
        Found::Denied => Cause::Fixed(Trouble::Denied),
        _ => Cause::Fixed(Trouble::IsThere),
    }
}

/// Why a file that was opened can't be read as a state file.
fn unread(doing: Doing, found: Found) -> Option<Cause>
    ensures { result ≡ unread_lem doing found }
{
    let Found::File { head, .. } = found else {
        return None;
    };
    match (head, doing) {
        (Head::Foreign, _) => Some(Cause::Fixed(Trouble::NoStateFile)),
        (_, Doing::Opening) => Some(Cause::Damaged),
        (_, Doing::Filling) => Some(Cause::Fixed(Trouble::NotTarget)),
        (Head::VersionTwo, Doing::Moving) => Some(Cause::Fixed(Trouble::HasMoved)),
        (Head::VersionOne, Doing::Moving) => Some(Cause::Fixed(Trouble::IsDamaged)),
        _ => None,
    }
}

/// Why a program was refused that did this with a file, by what is found there now. `None` if that doesn't tell.
pub fn file_cause(refusal: Refusal, doing: Doing, found: Found) -> Option<Cause>
    ensures value { result ≡ file_cause_lem refusal doing found }
    ensures careful { result ≡ Some Cause.Damaged → begins_as_state found ≡ true }
{
    match (refusal, doing) {
        (Refusal::DeviceFailed, Doing::Making) => Some(unmade(found)),
        (Refusal::DeviceFailed, _) => unopened(doing, found),
        (Refusal::Damaged, _) => unread(doing, found),
        (Refusal::Retired, Doing::Opening) => Some(Cause::Fixed(Trouble::IsRetired)),
        _ => None,
    }
}

/// Why a server can't listen at a path.
fn unlistened(found: Found) -> Trouble
    ensures { result ≡ no_listener found }
{
    match found {
        Found::Nothing => Trouble::NotMade,
        Found::NoFolder => Trouble::NoFolder,
        Found::Denied | Found::Unserved => Trouble::Denied,
        Found::Served => Trouble::Listened,
        Found::File { .. } | Found::Folder | Found::Other => Trouble::NoSocket,
    }
}

/// Why a client can't reach a server at a path. `None` if one takes connections there.
fn untalked(found: Found) -> Option<Trouble>
    ensures { result ≡ no_talk found }
{
    match found {
        Found::Nothing => Some(Trouble::NoServer),
        Found::NoFolder => Some(Trouble::NoFolder),
        Found::Denied => Some(Trouble::Denied),
        Found::Unserved => Some(Trouble::Unserved),
        Found::Served => None,
        Found::File { .. } | Found::Folder | Found::Other => Some(Trouble::NoSocket),
    }
}

/// Why a program can't have this end of a socket, whose path has so many bytes, by what is found there now. `None` if that doesn't
/// tell.
pub fn socket_cause(end: End, length: usize, found: Found) -> Option<Cause>
    ensures value { result ≡ socket_cause_lem end length found }
    ensures long { MAX_SOCKET_PATH < length → result ≡ Some (Cause.LongPath length) }
{
    if length > MAX_SOCKET_PATH {
        return Some(Cause::LongPath(length as u64));
    }
    match end {
        End::Server => Some(Cause::Fixed(unlistened(found))),
        End::Client => match untalked(found) {
            Some(trouble) => Some(Cause::Fixed(trouble)),
            None => None,
        },
    }
}
