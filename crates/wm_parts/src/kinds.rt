//! Of what kind a request is, and about which root. Definitions: specs/RequestKinds. Tests: client_tests/src/hints.rt.
ghost use Rattle.std.specs.Prelude.{◌≡◌, ◌++◌, IfOk, codes, option_and_then};
ghost use Rattle.std.specs.Result.{result_ok};
ghost use Rattle.wm_lines.specs.RecrawlLines.{server_request_of_line};
ghost use Rattle.wm_parts.specs.RequestKinds.{common_kind, common_root, kind_of_read, kind_of_request, root_of_request};

use std::alloc::Global;
use wm_disk::{NoMemory, Refusal};
use wm_lines::{Request, ServerRequest};
use wm_names::RootPath;

/// Of what kind a request is, as far as what to do at its refusal differs.
#[derive(Clone, Copy, Debug, PartialEq, Eq)]
pub enum RequestKind {
    /// `watch`.
    Watch,
    /// `recrawl`.
    Recrawl,
    /// `trigger`.
    Trigger,
    /// `observe`.
    Observe,
    /// `query` or `since`.
    Query,
    /// `subscribe`, behind whose reply further lines come.
    Subscribe,
    /// Another one, or none that a server takes.
    Other,
}

/// The kind of a request that needs no server of sockets.
fn common_kind(request: Request) -> RequestKind
    ensures { result ≡ common_kind request }
{
    match request {
        Request::Watch(_) => RequestKind::Watch,
        Request::Trigger(_, _) => RequestKind::Trigger,
        Request::Observe(_, _) => RequestKind::Observe,
        Request::Query(_, _) => RequestKind::Query,
        Request::Subscribe(_, _, _) => RequestKind::Subscribe,
        _ => RequestKind::Other,
    }
}

/// The kind of a request.
pub(crate) fn kind_of(request: ServerRequest) -> RequestKind
    ensures { result ≡ kind_of_request request }
{
    match request {
        ServerRequest::Recrawl(_, _) => RequestKind::Recrawl,
        ServerRequest::Common(request) => common_kind(request),
    }
}

/// The root of a request that needs no server of sockets.
fn common_root(request: Request) -> Option<RootPath>
    ensures { result ≡ common_root request }
{
    match request {
        Request::Watch(root) => Some(root),
        Request::Clock(root) => Some(root),
        Request::Query(root, _) => Some(root),
        Request::Subscribe(root, _, _) => Some(root),
        _ => None,
    }
}

/// The root that a request has crawled, or about whose files it asks.
fn root_of(request: ServerRequest) -> Option<RootPath>
    ensures { result ≡ root_of_request request }
{
    match request {
        ServerRequest::Recrawl(root, _) => Some(root),
        ServerRequest::Common(request) => common_root(request),
    }
}

/// A request, one line without its newline, as a server reads it.
pub(crate) fn read(alloc: Global, json: &str) -> Result<Result<ServerRequest, Refusal>, NoMemory>
    ensures { IfOk result (λ r. r ≡ server_request_of_line (json.now ++ codes "\n")) }
{
    let line = format!(in alloc; "{json}\n")?;
    match ServerRequest::read(alloc, line.as_bytes()) {
        Ok(request) => Ok(Ok(request)),
        Err(Refusal::NoMemory) => Err(NoMemory),
        Err(refusal) => Ok(Err(refusal)),
    }
}

/// The kind of a request, one line without its newline.
pub fn request_kind(alloc: Global, json: &str) -> Result<RequestKind, NoMemory>
    ensures { IfOk result (λ r. r ≡ kind_of_read (server_request_of_line (json.now ++ codes "\n"))) }
{
    match read(alloc, json)? {
        Ok(request) => Ok(kind_of(request)),
        Err(_) => Ok(RequestKind::Other),
    }
}

/// The root that a request, one line without its newline, has crawled, or about whose files it asks. `None` if it is about none, or if a
/// server refuses it as it reads it.
pub fn root_asked(alloc: Global, json: &str) -> Result<Option<RootPath>, NoMemory>
    ensures { IfOk result (λ r. r ≡ option_and_then root_of_request (result_ok (server_request_of_line (json.now ++ codes "\n")))) }
{
    match read(alloc, json)? {
        Ok(request) => Ok(root_of(request)),
        Err(_) => Ok(None),
    }
}
