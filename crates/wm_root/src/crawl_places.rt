//! The places of crawls in the list of those that were asked for.
//! Definitions: specs/AskedCrawls.antt. Tests: serve_tests/src/crawls.rt.
ghost use Rattle.std.specs.Prelude.{◌≡◌, ◌<◌, length, position};
ghost use Rattle.std.specs.List.{remove};
ghost use Rattle.wm_root.specs.AskedCrawls.{has_ticket, is_waiting, serves};

use crate::asked_crawl::AskedCrawl;
use wm_names::Subtree;

/// The place of the first crawl that serves the part.
pub(crate) fn place_to_join(crawls: &[AskedCrawl], subtree: &Subtree) -> Option<usize>
    ensures { result ≡ position (serves subtree.now) crawls.now }
{
    crawls.iter().position(|crawl| crawl.serves(subtree))
}

/// The place of the first crawl that hasn't begun.
pub(crate) fn place_waiting(crawls: &[AskedCrawl]) -> Option<usize>
    ensures { result ≡ position is_waiting crawls.now }
{
    crawls.iter().position(|crawl| crawl.stage.is_at_rest())
}

/// The place of the crawl of the ticket.
pub(crate) fn place_of(crawls: &[AskedCrawl], ticket: u64) -> Option<usize>
    ensures { result ≡ position (has_ticket ticket) crawls.now }
{
    crawls.iter().position(|crawl| crawl.ticket == ticket)
}

/// Takes out the crawl at a place.
pub(crate) fn remove_at(crawls: &mut Vec<AskedCrawl>, place: usize)
    requires { place < length crawls.old.items }
    ensures { crawls.new.items ≡ remove crawls.old.items place }
{
    crawls.remove(place);
}
