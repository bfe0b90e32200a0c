//! Crawls that are waited for.

use crate::failure::{Failure, failed};
use crate::feeds::is_fed;
use crate::server::{Reply, Server};
use crate::unreadable::{Looks, root_seen, unreadable_below, unreadable_root};
use crate::waiting::Waiting;
use std::thread;
use std::time::Duration;
use wm_commands::{CrawlStep, RootSeen, crawl_step, root_line, unreadable_advice};
use wm_disk::Refusal;

/// How long a root that isn't ready is left alone, in milliseconds.
const PAUSE: u64 = 50;

/// After how many looks at a root that isn't ready it is asked for a crawl.
const LOOKS_BEFORE_CRAWL: u64 = 200;

/// Whether a root was crawled.
fn is_crawled(server: &Server<'_>, root: &str, waiting: &mut Waiting) -> Result<bool, Failure> {
    let json = root_line(server.rt.alloc(), "clock", root)?;
    match waiting.ask(server, root, &json)? {
        Reply::Line(_) => Ok(true),
        Reply::Refused(Some(Refusal::NotReady), _) => Ok(false),
        Reply::Refused(refusal, line) => Err(server.refused(root, refusal, &line)),
        Reply::NoSession => Err(server.no_session()),
    }
}

/// Waits until a root was crawled, and says meanwhile that this goes on. Fails at once if the root can't be read. A crawl that isn't done
/// after ten seconds may have been refused, so another one is asked for, which says why.
pub fn await_crawl(server: &Server<'_>, root: &str) -> Result<(), Failure> {
    let mut waiting = Waiting::for_crawl(server, "first crawl")?;
    for looks in 0..u64::MAX {
        let is_crawled = is_crawled(server, root, &mut waiting)?;
        let seen = root_seen(server.rt, root);
        match crawl_step(is_crawled, seen, looks == LOOKS_BEFORE_CRAWL) {
            CrawlStep::Done => break,
            CrawlStep::GiveUp => return Err(unreadable_root(server, root)?),
            CrawlStep::AskForCrawl => crawl_telling(server, root, &mut waiting)?,
            CrawlStep::LookAgain => {}
        }
        waiting.tell(server, root)?;
        thread::sleep(server.rt, Duration::from_millis(PAUSE));
    }
    Ok(())
}

/// Has a root crawled, and waits until that is done.
pub fn crawl(server: &Server<'_>, root: &str) -> Result<(), Failure> {
    let mut waiting = Waiting::for_crawl(server, "crawl")?;
    crawl_telling(server, root, &mut waiting)
}

/// Has a root crawled, and says meanwhile that this goes on.
fn crawl_telling(server: &Server<'_>, root: &str, waiting: &mut Waiting) -> Result<(), Failure> {
    let json = root_line(server.rt.alloc(), "recrawl", root)?;
    match waiting.ask(server, root, &json)? {
        Reply::Line(_) => Ok(()),
        Reply::Refused(Some(Refusal::DeviceFailed), _) => Err(uncrawled(server, root)?),
        Reply::Refused(refusal, line) => Err(server.refused(root, refusal, &line)),
        Reply::NoSession => Err(server.no_session()),
    }
}

/// The failure of a root that can't be crawled, since it or a folder in it can't be read.
fn uncrawled(server: &Server<'_>, root: &str) -> Result<Failure, Failure> {
    let alloc = server.rt.alloc();
    if root_seen(server.rt, root) == RootSeen::Unreadable {
        return unreadable_root(server, root);
    }
    let advice = unreadable_advice(is_fed(server.rt, server.socket, false)?);
    let mut looks = Looks::long(server)?;
    let mut waiting = Waiting::for_answer(server)?;
    let unread = unreadable_below(server, root, root, &mut looks, &mut waiting)?;
    let text = match unread.first() {
        Some(first) => {
            let (path, cause) = (first.path.as_str(), first.cause);
            format!(in alloc; "{path}: the folder can't be read ({cause}); {advice}")?
        }
        None => format!(in alloc;
            "{root}: a folder in it can't be read (13 DeviceFailed); {advice}"
        )?,
    };
    Ok(failed(1, text))
}
