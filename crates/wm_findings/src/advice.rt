//! What to do about a file or a socket that another has, or to which there is no right. Definitions: specs/Hindrances.antt. Tests:
//! leaf_tests/src/advice.rt.
ghost use Rattle.std.specs.Prelude.{◌≡◌, IfOk, option_map, string_bytes};
ghost use Rattle.wm_explain.specs.Shown.{shown_text};
ghost use Rattle.wm_explain.specs.CauseLines.{said_of_path};
ghost use Rattle.wm_findings.specs.Hindrances.{closed_said, hindrance_line, hindrance_said, holder_text, kill_text, listener_said, listening_text, owner_said, remedied, remedy_text, server_said};

use std::alloc::Global;
use wm_disk::NoMemory;
use wm_explain::shown;

/// What keeps a program from a file or a socket.
#[derive(Drop)]
pub enum Hindrance {
    /// This process, which is another `watchmand`, has the file. If it is found, the socket on which it listens.
    Server(u32, Option<String>),
    /// There is no right to the file; the number of the user who owns it, if that is known and another one.
    ClosedFile(Option<u32>),
    /// There is no right to the socket; its owner likewise.
    ClosedSocket(Option<u32>),
    /// A server listens on the socket, and takes connections of this user.
    Listener,
}

/// Which process has a file, as another server.
fn holder_text(alloc: Global, process: u32) -> Result<String, NoMemory>
    ensures { IfOk result (λ text. string_bytes text ≡ holder_text process) }
{
    Ok(format!(in alloc; "another watchmand has it (pid {process})")?)
}

/// Where it listens, behind that, if it is found.
fn listening_text(alloc: Global, socket: &Option<String>) -> Result<String, NoMemory>
    ensures { IfOk result (λ text. string_bytes text ≡ listening_text (option_map string_bytes socket.now)) }
{
    match socket {
        Some(socket) => {
            let socket = shown(alloc, socket)?;
            Ok(format!(in alloc; " and listens at {socket}")?)
        }
        None => Ok(String::new(alloc)),
    }
}

/// How a process is ended.
fn kill_text(alloc: Global, process: u32) -> Result<String, NoMemory>
    ensures { IfOk result (λ text. string_bytes text ≡ kill_text process) }
{
    Ok(format!(in alloc; "'kill {process}' ends it")?)
}

/// A cause, what is added to it, and what to do.
fn remedied(alloc: Global, cause: &str, added: &str, remedy: &str) -> Result<String, NoMemory>
    ensures { IfOk result (λ text. string_bytes text ≡ remedied cause.now added.now remedy.now) }
{
    Ok(format!(in alloc; "{cause}{added}: {remedy}")?)
}

/// What is said of a server that has a file.
fn server_said(alloc: Global, process: u32, socket: &Option<String>) -> Result<String, NoMemory>
    ensures { IfOk result (λ text. string_bytes text ≡ server_said process (option_map string_bytes socket.now)) }
{
    let holder = holder_text(alloc, process)?;
    let listening = listening_text(alloc, socket)?;
    let kill = kill_text(alloc, process)?;
    remedied(alloc, &holder, &listening, &kill)
}

/// Whose it is, behind what is said of it, if it has an owner who is to be named.
fn owner_said(alloc: Global, owner: Option<u32>) -> Result<String, NoMemory>
    ensures { IfOk result (λ text. string_bytes text ≡ owner_said owner) }
{
    match owner {
        Some(user) => Ok(format!(in alloc; " (user {user} owns it)")?),
        None => Ok(String::new(alloc)),
    }
}

/// What to do about a thing to which there is no right.
fn remedy_text(alloc: Global, thing: &str) -> Result<String, NoMemory>
    ensures { IfOk result (λ text. string_bytes text ≡ remedy_text thing.now) }
{
    Ok(format!(in alloc; "give it by chmod or chown, or name another {thing}")?)
}

/// What is said of a thing to which there is no right.
fn closed_said(alloc: Global, owner: Option<u32>, thing: &str) -> Result<String, NoMemory>
    ensures { IfOk result (λ text. string_bytes text ≡ closed_said owner thing.now) }
{
    let owner = owner_said(alloc, owner)?;
    let remedy = remedy_text(alloc, thing)?;
    remedied(alloc, "there is no right to it", &owner, &remedy)
}

/// What is said of a socket on which a server listens.
fn listener_said(alloc: Global, path: &str) -> Result<String, NoMemory>
    ensures { IfOk result (λ text. string_bytes text ≡ listener_said path.now) }
{
    Ok(format!(in alloc;
        "a server listens there: 'wm list --socket {path}' asks it, or name another socket"
    )?)
}

/// What is said of a hindrance, with the path as it is shown.
fn hindrance_said(alloc: Global, path: &str, hindrance: &Hindrance) -> Result<String, NoMemory>
    ensures { IfOk result (λ text. string_bytes text ≡ hindrance_said path.now hindrance.now) }
{
    match hindrance {
        Hindrance::Server(process, socket) => server_said(alloc, *process, socket),
        Hindrance::ClosedFile(owner) => closed_said(alloc, *owner, "file"),
        Hindrance::ClosedSocket(owner) => closed_said(alloc, *owner, "socket"),
        Hindrance::Listener => listener_said(alloc, path),
    }
}

/// A path, and what is said of it.
fn line_with(alloc: Global, path: &str, text: &str) -> Result<String, NoMemory>
    ensures { IfOk result (λ line. string_bytes line ≡ said_of_path path.now text.now) }
{
    Ok(format!(in alloc; "{path}: {text}\n")?)
}

/// The line that says what keeps a program from what is at a path, and what to do, with its newline.
pub fn advice_at(alloc: Global, path: &str, hindrance: &Hindrance) -> Result<String, NoMemory>
    ensures { IfOk result (λ line. string_bytes line ≡ hindrance_line path.now hindrance.now) }
{
    let path = shown(alloc, path)?;
    let text = hindrance_said(alloc, &path, hindrance)?;
    line_with(alloc, &path, &text)
}
