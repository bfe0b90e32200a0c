//! What a line asks of a server of sockets: `recrawl`, or what every line may ask. Its definitions are
//! in specs/RecrawlLines. Tests: serve_tests/src/requests.rt.
ghost use Rattle.std.specs.Prelude.{◌≡◌, ◌≢◌, Ok, Err, Some, IfOk, IfErr, option_map};
ghost use Rattle.serde_json.specs.Find.{at};
ghost use Rattle.serde_json.specs.View.{view};
ghost use Rattle.wm_lines.specs.Arguments.{text_at as text_at_lem};
ghost use Rattle.wm_lines.specs.RecrawlLines.{asks_recrawl, recrawl_request, server_request_of, server_request_of_line, top_in};

use crate::arguments::{has_items, text_at};
use crate::listing::subtree;
use crate::request::{Request, request_in, text_in};
use serde_json::Value;
use std::alloc::Global;
use wm_disk::Refusal;
use wm_names::{RootPath, Subtree};

/// What a line asks of a server of sockets.
#[derive(Drop)]
pub enum ServerRequest {
    /// That a part of a root be crawled anew.
    Recrawl(RootPath, Subtree),
    /// What a line of `lines` may ask too.
    Common(Request),
}

/// The part of the root that is named: the whole where none is.
fn top(value: &Value) -> Option<&str>
    ensures { option_map (λ s. s.now) result ≡ top_in (at 2 (view value.now)) }
{
    match value.get(2) {
        Some(item) => item.as_str(),
        None => Some(""),
    }
}

/// `recrawl` with a root path, or with that and a part of the root.
fn recrawl(alloc: Global, value: &Value) -> Result<ServerRequest, Refusal>
    ensures ok { IfOk result (λ r. recrawl_request (view value.now) ≡ Ok r) }
    ensures refused { IfErr result (λ e. e ≢ Refusal.NoMemory → recrawl_request (view value.now) ≡ Err e) }
{
    if !has_items(value, 3) {
        return Err(Refusal::BadArguments);
    }
    let (Some(root), Some(top)) = (text_at(value, 1), top(value)) else {
        return Err(Refusal::BadArguments);
    };
    let root = RootPath::read(alloc, root)?;
    let subtree = subtree(alloc, top)?;
    Ok(ServerRequest::Recrawl(root, subtree))
}

/// Whether the command is `recrawl`.
fn is_recrawl(value: &Value) -> bool
    ensures { result ≡ asks_recrawl (text_at_lem 0 (view value.now)) }
{
    match text_at(value, 0) {
        Some(name) => name == "recrawl",
        None => false,
    }
}

/// The request that a JSON value is.
fn server_request_in(alloc: Global, value: &Value) -> Result<ServerRequest, Refusal>
    ensures ok { IfOk result (λ r. server_request_of (view value.now) ≡ Ok r) }
    ensures refused { IfErr result (λ e. e ≢ Refusal.NoMemory → server_request_of (view value.now) ≡ Err e) }
{
    if is_recrawl(value) {
        return recrawl(alloc, value);
    }
    let request = request_in(alloc, value)?;
    Ok(ServerRequest::Common(request))
}

impl ServerRequest {
    /// The request that a line, with its newline, is: refused as [`Request::read`] refuses, and `recrawl`
    /// with `BadArguments` and then `BadPath`.
    pub fn read(alloc: Global, line: &[u8]) -> Result<ServerRequest, Refusal>
        ensures ok { IfOk result (λ r. server_request_of_line line.now ≡ Ok r) }
        ensures refused { IfErr result (λ e. e ≢ Refusal.NoMemory → server_request_of_line line.now ≡ Err e) }
    {
        let value = text_in(alloc, line)?;
        server_request_in(alloc, &value)
    }
}
