//! One watched root for many sessions at once: one keeper changes its view, and each session asks a viewer of its own.
//!
//! What [`WatchedRoot`] promises to its callers:
//! - An operation is published before it is answered, and the session's viewer has seen it then. One that is refused for want of memory isn't
//!   published by then: it may be before the next one ([`WatchedRoot::change`], specs/ChangeSeen.antt).
//! - A question is answered by the session's viewer, which waits for no operation: the answer is that of `wm_since` on the history of a list
//!   that begins with all that this session saw or asked for ([`WatchedRoot::inquire`], specs/Inquired.antt).
//! - A crawl reads without a lock. Of each path its listing has what was observed last since the reading began, and else what was read
//!   ([`WatchedRoot::read`], specs/ReadingSeen.antt, specs/Overlays.antt).
//! - Who asks for a crawl gets the end of one that began after that ([`WatchedRoot::crawl`]), and no trigger begins whose definition was
//!   deleted or replaced ([`WatchedRoot::begin_start`]).
//!
//! What lies under a lock is decided by functions that are lent it, with exact clauses: backlog.rt and locked_root.rt (operations),
//! reading.rt (readings), asked.rt (crawls), triggers.rt (starts of triggers), questions.rt (cursors). A function that takes a lock is
//! some five lines around one of them, and says what it did to the caller's own values. It isn't proved that such a function uses the lock's
//! content and no other, nor that it wakes all who wait: serve_tests tries that. Which moment an operation gets is up to [`Seconds`].
#![tactic(auto)]

mod asked;
mod asked_crawl;
mod backlog;
mod begun_crawl;
mod change;
mod crawl_places;
mod locked_root;
mod observed;
mod overlay;
mod questions;
mod reading;
mod retention;
mod starts;
mod triggers;
mod watched_root;
mod work;

pub use asked::Crawled;
pub use begun_crawl::BegunCrawl;
pub use change::{Change, Seconds};
pub use observed::{MAX_OBSERVED, Observed};
pub use reading::CrawlTools;
pub use retention::Retention;
pub use triggers::StartPermit;
pub use watched_root::WatchedRoot;
pub use work::Changed;
