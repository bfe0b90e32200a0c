//! Which lines a session's thread answers itself: those that ask for a crawl, which it awaits without the session.
//! Definitions: specs/CrawlLines.antt. Tests: serve_tests/src/crawls.rt.
ghost use Rattle.std.specs.Prelude.{◌≡◌, ◌⊎◌, false, Ok, MatchOption};
ghost use Rattle.wm_lines.specs.RecrawlLines.{server_request_of_line};
ghost use Rattle.wm_lines.specs.declared.recrawl.ServerRequest.TheVariants.{Common as common};
ghost use Rattle.wm_lines.specs.declared.request.Request.{Request};
ghost use Rattle.wm_serve.specs.CrawlLines.{begins_crawl_word as begins_crawl_word_lem, may_ask_crawl as may_ask_crawl_lem};
ghost use Rattle.wm_serve.specs.CrawlOutcomes.{IsCrawlRead};

use std::alloc::Global;
use wm_disk::Refusal;
use wm_lines::ServerRequest;
use wm_names::{RootPath, Subtree};

/// Whether a backslash stands first, by which a name may be spelled, or `recrawl`.
fn begins_crawl_word(bytes: &[u8]) -> bool
    ensures { result ≡ begins_crawl_word_lem bytes.now }
{
    match bytes {
        [b'\\', ..] => true,
        [b'r', ..] => bytes.starts_with(b"recrawl"),
        _ => false,
    }
}

/// Whether a line may ask for a crawl: a backslash stands in it, or `recrawl`.
fn may_ask_crawl(line: &[u8]) -> bool
    ensures { result ≡ may_ask_crawl_lem line.now }
{
    for place in 0..line.len() {
        if begins_crawl_word(line.split_at(place).1) {
            return true;
        }
    }
    false
}

/// The crawl that a line asks for, or why that isn't begun; `None` if the session is to answer the line. A line that isn't read at all
/// may be refused here.
pub fn crawl_asked(alloc: Global, line: &[u8]) -> Option<Result<(RootPath, Subtree), Refusal>>
    ensures { MatchOption result
        ((may_ask_crawl_lem line.now ≡ false) ⊎ ((request : Request) × (server_request_of_line line.now ≡ Ok (common request))))
        (IsCrawlRead line.now) }
{
    if !may_ask_crawl(line) {
        return None;
    }
    match ServerRequest::read(alloc, line) {
        Ok(ServerRequest::Recrawl(root, subtree)) => Some(Ok((root, subtree))),
        Ok(ServerRequest::Common(request)) => {
            drop(request);
            None
        }
        Err(refusal) => Some(Err(refusal)),
    }
}
