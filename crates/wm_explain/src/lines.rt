//! The line of a cause. Definitions: specs/CauseLines. Tests: leaf_tests/src/explanations.rt.
ghost use Rattle.std.specs.Prelude.{◌≡◌, IfOk, string_bytes};
ghost use Rattle.wm_explain.specs.CauseLines.{advice, cause_line, command, holder_said, line_with, long_said, said_of_path, trouble_text};

use crate::escapes::shown;
use std::alloc::Global;
use wm_disk::NoMemory;

/// A cause of which a text without a number says all.
#[derive(Clone, Copy, Debug, PartialEq, Eq)]
pub enum Trouble {
    /// The folder of a path isn't there.
    NoFolder,
    /// There is no right to what is at the path.
    Denied,
    /// A folder is at the path of a file.
    IsFolder,
    /// Neither a file nor a folder is at the path of a file.
    NoRegularFile,
    /// A program has the file, and the system doesn't say which.
    Locked,
    /// The file doesn't begin as a state file.
    NoStateFile,
    /// The file that is to be migrated is damaged.
    IsDamaged,
    /// The registry of the file was migrated into another file.
    IsRetired,
    /// The file that is to be migrated has version 2 already.
    HasMoved,
    /// The file isn't there from which a registry is to be migrated.
    NoSuchFile,
    /// The file isn't there into which a registry is to be migrated.
    NoTarget,
    /// The file isn't that into which the registry was migrated, or it is damaged.
    NotTarget,
    /// The file that is to be made is there already.
    IsThere,
    /// The file or the socket can't be made in its folder.
    NotMade,
    /// Another server listens on the socket.
    Listened,
    /// Something else than a socket is at the path of a socket.
    NoSocket,
    /// Nothing is at the path of a client's socket.
    NoServer,
    /// Nobody listens on a client's socket.
    Unserved,
}

/// Why a program was refused.
#[derive(Clone, Copy, Debug, PartialEq, Eq)]
pub enum Cause {
    /// The state file that is to be opened isn't there.
    NoFile,
    /// The state file is damaged.
    Damaged,
    /// Another `watchmand` has the file; this is its process.
    Watchmand(u32),
    /// Another program has the file; this is its process.
    Program(u32),
    /// The path of the socket has so many bytes, which are too many.
    LongPath(u64),
    /// What a text says.
    Fixed(Trouble),
}

impl Trouble {
    /// What is said of it behind the path.
    fn text(self) -> &'static str
        ensures { result.now ≡ trouble_text self }
    {
        match self {
            Trouble::NoFolder => "its folder isn't there",
            Trouble::Denied => "there is no right to it",
            Trouble::IsFolder => "this is a folder",
            Trouble::NoRegularFile => "this is no regular file",
            Trouble::Locked => "another program has it",
            Trouble::NoStateFile => "this is no state file of watchmand",
            Trouble::IsDamaged => "this state file is damaged",
            Trouble::IsRetired => "its registry was migrated; serve the file into which it was",
            Trouble::HasMoved => "this state file has version 2 already",
            Trouble::NoSuchFile => "no such file",
            Trouble::NoTarget =>
                "no such file, and it can't be made, or OLD was migrated into another",
            Trouble::NotTarget => "OLD was migrated into another file, or this one is damaged",
            Trouble::IsThere => "is there already",
            Trouble::NotMade => "can't be made: look at the rights of its folder and at the disk",
            Trouble::Listened => "a server listens there",
            Trouble::NoSocket => "this is no socket",
            Trouble::NoServer => "no such file (is the server running?)",
            Trouble::Unserved => "nobody listens there (is the server running?)",
        }
    }
}

/// The path, and what is said of it.
fn said(alloc: Global, path: &str, text: &str) -> Result<String, NoMemory>
    ensures { IfOk result (λ line. string_bytes line ≡ said_of_path path.now text.now) }
{
    Ok(format!(in alloc; "{path}: {text}\n")?)
}

/// The path, and which program has it.
fn holder_said(alloc: Global, path: &str, program: &str, process: u32) -> Result<String, NoMemory>
    ensures { IfOk result (λ line. string_bytes line ≡ holder_said path.now program.now process) }
{
    Ok(format!(in alloc; "{path}: another {program} has it (pid {process})\n")?)
}

/// The command that makes a state file at a path.
fn command(alloc: Global, path: &str) -> Result<String, NoMemory>
    ensures { IfOk result (λ line. string_bytes line ≡ command path.now) }
{
    Ok(format!(in alloc; "'watchmand format {path}'")?)
}

/// A text, a command and what it does.
fn advice(alloc: Global, text: &str, command: &str, effect: &str) -> Result<String, NoMemory>
    ensures { IfOk result (λ line. string_bytes line ≡ advice text.now command.now effect.now) }
{
    Ok(format!(in alloc; "{text} {command} {effect}")?)
}

/// The path, what is said of it, and the command that makes a state file there.
fn advised(alloc: Global, path: &str, text: &str, effect: &str) -> Result<String, NoMemory>
    ensures { IfOk result (λ line. string_bytes line ≡ said_of_path path.now (advice text.now (command path.now) effect.now)) }
{
    let command = command(alloc, path)?;
    let advice = advice(alloc, text, &command, effect)?;
    said(alloc, path, &advice)
}

/// The line of a path that is too long for a socket.
fn long_said(alloc: Global, bytes: u64) -> Result<String, NoMemory>
    ensures { IfOk result (λ line. string_bytes line ≡ long_said bytes) }
{
    Ok(format!(in alloc; "socket: the path has {bytes} bytes, at most 107\n")?)
}

/// The line of a cause, with the path as it is shown.
fn line_with(alloc: Global, path: &str, cause: Cause) -> Result<String, NoMemory>
    ensures { IfOk result (λ line. string_bytes line ≡ line_with path.now cause) }
{
    match cause {
        Cause::NoFile => advised(alloc, path, "no such file;", "makes it"),
        Cause::Damaged => advised(
            alloc,
            path,
            "this state file is damaged; put a copy back, or move it away and",
            "makes a new one",
        ),
        Cause::Watchmand(process) => holder_said(alloc, path, "watchmand", process),
        Cause::Program(process) => holder_said(alloc, path, "program", process),
        Cause::LongPath(bytes) => long_said(alloc, bytes),
        Cause::Fixed(trouble) => said(alloc, path, trouble.text()),
    }
}

/// The line that says a cause, with its newline. The path is that of the file or the socket.
pub fn line_of(alloc: Global, path: &str, cause: Cause) -> Result<String, NoMemory>
    ensures { IfOk result (λ line. string_bytes line ≡ cause_line path.now cause) }
{
    let path = shown(alloc, path)?;
    line_with(alloc, &path, cause)
}
