//! What the workers of a root wait for: crawls that are asked for, and changes after which a trigger may be due.
//! The decisions are those of [`Asked`]. Definitions: specs/AskedCrawls.antt, specs/Forgotten.antt. Tests: serve_tests/src/crawls.rt.
ghost use Rattle.std.specs.Prelude.{◌≡◌, ◌⊎◌, IfErr, IfOk, IfSome};

use crate::asked::{Asked, Crawled};
use crate::begun_crawl::BegunCrawl;
use crate::locked_root::Kept;
use std::alloc::Global;
use std::marker::Model;
use std::sync::{Condvar, Mutex, Wait};
use wm_disk::{NoMemory, Refusal};
use wm_lines::Progress;
use wm_names::Subtree;

/// The work of a root's crawler and of the worker that runs its triggers.
#[derive(Drop)]
pub(crate) struct Work {
    asked: Mutex<Asked>,
    notified: Condvar,
}

/// An operation of the root of a number was performed or refused, and the root's workers were notified: [`Work::notify`] makes it. Nobody
/// can drop it: the sessions that wait for changes of the root are to be notified too. Contracts see the root's number, whether the operation
/// was published, and the floor of the view if that rose.
pub struct Changed {
    root: u64,
    is_published: bool,
    forgot: Option<u64>,
}

impl Model for Changed {
    ghost use Rattle.wm_root.specs.Forgotten.{RootChange};

    ghost Value = { RootChange };

    ghost view = { λ c. record { root = c.root; is_published = c.is_published; forgot = c.forgot } };
}

impl Changed {
    /// The number of the root.
    pub fn root(&self) -> u64
        ensures { result ≡ self.now.root }
    {
        self.root
    }

    /// The tick of the last deletion that was forgotten, if a later one was forgotten than before.
    pub fn into_forgot(self) -> Option<u64>
        ensures { result ≡ self.forgot }
    {
        let Changed {
            root: _,
            is_published: _,
            forgot,
        } = self;
        forgot
    }
}

impl Work {
    /// One crawl of the whole root is asked for. `NoMemory`.
    pub(crate) fn new(alloc: Global) -> Result<Work, NoMemory> {
        let asked = Asked::new(alloc)?;
        Ok(Work {
            asked: Mutex::new(asked),
            notified: Condvar::new(),
        })
    }

    /// The view or the triggers may have changed.
    pub(crate) fn wake<R: Wait>(&self, rt: &R) {
        let mut asked = self.asked.lock(rt);
        asked.note_change();
        drop(asked);
        self.notified.notify_all();
    }

    /// The view of the root of a number may have changed by an operation that was kept: how that ended.
    pub(crate) fn notify<R: Wait>(
        &self,
        rt: &R,
        root: u64,
        kept: Kept,
    ) -> (Result<Progress, Refusal>, Changed)
        ensures { (result.0 ≡ kept.ended) × (result.1 ≡ record { root = root; is_published = kept.is_published; forgot = kept.forgot }) }
    {
        let (ended, is_published, forgot) = kept.into_parts();
        self.wake(rt);
        let changed = Changed {
            root,
            is_published,
            forgot,
        };
        (ended, changed)
    }

    /// The root isn't watched any longer, or the server closes.
    pub(crate) fn end<R: Wait>(&self, rt: &R) {
        let mut asked = self.asked.lock(rt);
        asked.end_root();
        drop(asked);
        self.notified.notify_all();
    }

    /// Asks for a crawl of a part of the root, which has this number, and waits for the end of one that began after that. It ended as the
    /// crawl or the view refused it, and `NotWatched` if the root isn't watched any longer or the server closes. Not asked for are `NoMemory`,
    /// and `Exhausted` after 2^64 - 1 crawls.
    pub(crate) fn crawl<R: Wait>(
        &self,
        rt: &R,
        root: u64,
        subtree: &Subtree,
    ) -> Result<Crawled, Refusal>
        ensures asked { IfOk result (λ crawled. (crawled.root ≡ root) × (crawled.part ≡ subtree.now)) }
        ensures refused { IfErr result (λ e. (e ≡ Refusal.NoMemory) ⊎ (e ≡ Refusal.Exhausted)) }
    {
        let mut asked = self.asked.lock(rt);
        let ticket = asked.ask(subtree)?;
        self.notified.notify_all();
        let number = ticket.number();
        let mut asked = self.notified.wait_while(rt, asked, |asked| {
            asked.is_pending(number) && !asked.has_ended()
        });
        Ok(asked.collected(root, ticket))
    }

    /// Waits until a crawl of the root, which has this number, is asked for, which has begun then; `None` at the end.
    pub(crate) fn next_crawl<R: Wait>(&self, rt: &R, root: u64) -> Option<BegunCrawl>
        ensures { IfSome result (λ begun. begun.root ≡ root) }
    {
        let mut asked = self.notified.wait_while(rt, self.asked.lock(rt), |asked| {
            !asked.has_waiting() && !asked.has_ended()
        });
        asked.next_crawl(root)
    }

    /// A crawl that had begun has ended as it was tried last.
    pub(crate) fn crawled<R: Wait>(&self, rt: &R, begun: BegunCrawl) {
        let mut asked = self.asked.lock(rt);
        asked.crawled(begun);
        drop(asked);
        self.notified.notify_all();
    }

    /// Waits until something may have changed since it had so often, and returns how often it has now; `None` at the end.
    pub(crate) fn next_change<R: Wait>(&self, rt: &R, seen: Option<u64>) -> Option<u64> {
        let asked = self.notified.wait_while(rt, self.asked.lock(rt), |asked| {
            !asked.has_changed(seen) && !asked.has_ended()
        });
        asked.next_change()
    }
}
