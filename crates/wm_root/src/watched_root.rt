//! One watched root, shared by sessions and workers: its keeper, its viewers, its cursors and its triggers, each under a lock of
//! its own. Tests: serve_tests/src/halls.rt and sessions.rt; without memory tools/try/growths.py.
ghost use Rattle.std.specs.Prelude.{◌≡◌, ◌≢◌, ◌⊎◌, ◌≤◌, [], true, Err, IfOk, IfErr, IfNone, IfSome, vec_capacity};
ghost use Rattle.wm_crawler.specs.Crawls.{FailsIn, IsCrawl};
ghost use Rattle.wm_view.specs.Histories.{is_ready};
ghost use Rattle.wm_since.specs.Answers.{clock_of as clock_of_history};
ghost use Rattle.wm_since.specs.Cursors.{CursorList};
ghost use Rattle.wm_share.specs.PublishedLists.{Begins, history};
ghost use Rattle.wm_triggers.specs.Tables.{empty_table};
ghost use Rattle.wm_root.specs.ChangeSeen.{IsChangeSeen};
ghost use Rattle.wm_root.specs.Inquired.{IsInquired, IsViewRefused, start_among};
ghost use Rattle.wm_root.specs.ReadingSeen.{IsPartSeen, IsReadingSeen};

use crate::asked::Crawled;
use crate::begun_crawl::BegunCrawl;
use crate::change::{Change, Seconds};
use crate::locked_root::{LastPublished, LockedRoot};
use crate::questions::{Question, answer_at, answer_by_cursor, clock};
use crate::reading::{Begun, CrawlTools, Reading};
use crate::retention::Retention;
use crate::starts::{start_of, start_with};
use crate::triggers::{StartPermit, begin, end};
use crate::work::{Changed, Work};
use std::alloc::Global;
use std::sync::{Condvar, Mutex, Wait};
use std::thread::Threads;
use wm_clock::{ClockId, ClockSpec};
use wm_crawler::{Folders, Turnstile};
use wm_disk::{NoMemory, Refusal};
use wm_lines::{Inquiry, Progress};
use wm_names::{RootPath, Subtree};
use wm_registry::Trigger;
use wm_share::{Naming, Pool, RootKeeper, ShareId, Shown, Viewer};
use wm_since::{Cursors, Query, Since};
use wm_triggers::{DefinedTrigger, DefinedTriggers, TriggerTable};

/// One watched root.
#[derive(Drop)]
pub struct WatchedRoot<J: Naming, K: Wait + Drop> {
    pub path: RootPath,
    pub number: u64,
    /// The share that its keeper and its viewers are of.
    pub share: ShareId,
    /// When its deleted paths are forgotten.
    pub retention: Retention,
    work: Work,
    triggers: Mutex<TriggerTable>,
    /// The start of a trigger is over.
    started: Condvar,
    root: Mutex<LockedRoot<RootKeeper<J, Shown<J>, K>>>,
    pool: Mutex<Pool<J>>,
    /// It is taken under the root's lock, or by itself: so a viewer catches up without waiting for an operation.
    last: Mutex<LastPublished<J>>,
    cursors: Mutex<Cursors>,
}

impl<J: Naming, K: Wait + Drop> WatchedRoot<J, K> {
    /// A root over the keeper of a new view and its viewers. One crawl of it is asked for. `NoMemory` drops the
    /// keeper and the viewers.
    pub fn new(
        alloc: Global,
        path: &RootPath,
        number: u64,
        keeper: RootKeeper<J, Shown<J>, K>,
        pool: Pool<J>,
        retention: Retention,
    ) -> Result<WatchedRoot<J, K>, NoMemory>
        requires { pool.share ≡ keeper.published.share }
        ensures { IfOk result (λ root. (root.path ≡ path.now) × (root.number ≡ number) × (root.share ≡ keeper.published.share) × (root.retention ≡ retention)) }
    {
        let share = pool.share();
        let (path, work, cursors, triggers) = fittings(alloc, path)?;
        let (root, last) = LockedRoot::new(keeper, retention);
        Ok(WatchedRoot {
            path,
            number,
            share,
            retention,
            work,
            triggers: Mutex::new(triggers),
            started: Condvar::new(),
            root: Mutex::new(root),
            pool: Mutex::new(pool),
            last: Mutex::new(last),
            cursors: Mutex::new(cursors),
        })
    }

    /// Defines a trigger by the command of a number, as `TriggerTable::define`. The worker of the root's triggers is notified then. Refused
    /// only if the root has as many triggers as it may have.
    pub fn define<R: Wait>(&self, rt: &R, number: u64, trigger: Trigger) -> Result<(), NoMemory> {
        let defined = self.triggers.lock(rt).define(number, trigger);
        self.work.wake(rt);
        defined
    }

    /// Takes out the trigger of a name, if there is one.
    pub fn delete<R: Wait>(&self, rt: &R, name: &str) {
        self.triggers.lock(rt).remove(name);
    }

    /// The root isn't watched any longer, or the server closes: no trigger is started from now on, and its workers end.
    pub fn end<R: Wait>(&self, rt: &R) {
        self.triggers.lock(rt).end_root();
        self.work.end(rt);
    }

    /// Waits until no start is under way of a trigger that was deleted or replaced, or whose root has ended. No such trigger is
    /// started after that.
    pub fn await_starts<R: Wait>(&self, rt: &R) {
        let triggers = self.started.wait_while(
            rt,
            self.triggers.lock(rt),
            |triggers| !triggers.may_reply(),
        );
        drop(triggers);
    }

    /// The triggers as they are defined now. `NoMemory`.
    pub fn defined<R: Wait>(&self, rt: &R, alloc: Global) -> Result<DefinedTriggers, NoMemory> {
        self.triggers.lock(rt).defined().copy(alloc)
    }

    /// That a trigger may be started now: this definition is there, and the root is watched. Its start is under way then until the
    /// permit is given back.
    pub fn begin_start<R: Wait>(&self, rt: &R, one: DefinedTrigger) -> Option<StartPermit>
        ensures { IfSome result (λ permit. permit ≡ record { root = self.now.number; one = one }) }
    {
        begin(&mut *self.triggers.lock(rt), self.number, one)
    }

    /// The start that was permitted is over.
    pub fn end_start<R: Wait>(&self, rt: &R, permit: StartPermit)
        requires { permit.root ≡ self.now.number }
    {
        end(&mut *self.triggers.lock(rt), permit);
        self.started.notify_all();
    }

    /// Waits until something may have changed since it had so often, and returns how often it has now; `None` once the root has ended.
    pub fn next_change<R: Wait>(&self, rt: &R, seen: Option<u64>) -> Option<u64> {
        self.work.next_change(rt, seen)
    }

    /// Asks for a crawl of a part, and waits for the end of one that began after that, as [`Work::crawl`].
    pub fn crawl<R: Wait>(&self, rt: &R, subtree: &Subtree) -> Result<Crawled, Refusal>
        ensures asked { IfOk result (λ crawled. (crawled.root ≡ self.now.number) × (crawled.part ≡ subtree.now)) }
        ensures refused { IfErr result (λ e. (e ≡ Refusal.NoMemory) ⊎ (e ≡ Refusal.Exhausted)) }
    {
        self.work.crawl(rt, self.number, subtree)
    }

    /// Waits until a crawl of the root is asked for, which has begun then; `None` once the root has ended.
    pub fn next_crawl<R: Wait>(&self, rt: &R) -> Option<BegunCrawl>
        ensures { IfSome result (λ begun. begun.root ≡ self.now.number) }
    {
        self.work.next_crawl(rt, self.number)
    }

    /// A crawl of the root that had begun has ended as [`Self::read`] did last: `NoMemory` if it wasn't read.
    pub fn crawled<R: Wait>(&self, rt: &R, begun: BegunCrawl)
        requires { begun.root ≡ self.now.number }
    {
        self.work.crawled(rt, begun);
    }

    /// Begins a reading of the root: what is observed from now on is noted until the reading is handed in or given up.
    fn begin_reading<R: Wait>(&self, rt: &R, alloc: Global) -> Begun {
        let mut root = self.root.lock(rt);
        let begun = root.begin_reading(alloc, &self.last.lock(rt));
        drop(root);
        begun
    }

    /// Hands in what a reading found, and publishes it, as [`LockedRoot::take_in`].
    fn take_in<R: Wait, S: Seconds>(
        &self,
        rt: &R,
        alloc: Global,
        seconds: &S,
        found: Reading,
    ) -> (Result<Progress, Refusal>, Changed)
        ensures seen { IsReadingSeen (S.may_read seconds.now) found result.1.is_published result.0 }
        ensures changed { result.1.root ≡ self.now.number }
    {
        let mut root = self.root.lock(rt);
        let performed = root.take_in(alloc, seconds.second(), found);
        let kept = self.last.lock(rt).keep(performed);
        drop(root);
        self.work.notify(rt, self.number, kept)
    }

    /// Reads the part of a crawl that has begun, and publishes what was found, with what was observed meanwhile in place of what was read.
    /// The crawl knows then how it ended: `BadClock` if it has to be read again; and as [`Self::change`]. `None` if it was refused as
    /// `crawl_root` is: nothing was published then.
    pub fn read<R: Threads + Wait + Sync, F: Folders + Sync, G: Turnstile + Sync, S: Seconds>(
        &self,
        rt: &R,
        alloc: Global,
        tools: &CrawlTools<'_, F, G>,
        seconds: &S,
        crawl: &mut BegunCrawl,
    ) -> Option<Changed>
        requires { crawl.old.root ≡ self.now.number }
        ensures same { crawl.new ≡ record crawl.old { ended = crawl.new.ended } }
        ensures read { IfSome result (λ changed. IsPartSeen (S.may_read seconds.now) crawl.old.part (F.stays tools.now.folders.now) (IsCrawl (F.content tools.now.folders.now self.now.path) crawl.old.part) changed.is_published crawl.new.ended) }
        ensures changed { IfSome result (λ changed. changed.root ≡ self.now.number) }
        ensures refused { IfNone result ((e : Refusal) × (crawl.new.ended ≡ Err e) × (e ≢ Refusal.NoMemory → (e ≡ Refusal.DeviceFailed) × FailsIn (F.may_fail tools.now.folders.now self.now.path) crawl.old.part)) }
    {
        let begun = self.begin_reading(rt, alloc);
        match begun.crawl(rt, alloc, tools, &self.path, crawl.subtree()) {
            Ok(found) => {
                let (ended, changed) = self.take_in(rt, alloc, seconds, found);
                crawl.end(ended);
                Some(changed)
            }
            Err((refusal, begun)) => {
                self.root.lock(rt).give_up_reading(begun);
                crawl.end(Err(refusal));
                None
            }
        }
    }

    /// Performs a change of a session at its moment, which is read once the root is held, publishes it, and reports where the view is then.
    /// The session's viewer has caught up with it before that. What the view refuses, `Exhausted`, and `NoMemory`, after which it may still be
    /// published before the next one.
    pub fn change<R: Wait, S: Seconds>(
        &self,
        rt: &R,
        alloc: Global,
        seconds: &S,
        viewer: &mut Viewer<J>,
        change: Change,
    ) -> (Result<Progress, Refusal>, Changed)
        ensures seen { IsChangeSeen viewer.old (S.may_read seconds.now) change result.1.is_published result.0 viewer.new }
        ensures changed { result.1.root ≡ self.now.number }
    {
        let mut root = self.root.lock(rt);
        let performed = root.change(alloc, seconds.second(), change).seen_by(viewer);
        let kept = self.last.lock(rt).keep(performed);
        drop(root);
        self.work.notify(rt, self.number, kept)
    }

    /// A viewer, which has caught up with what was published last. `NoPlace` if the pool is empty.
    pub fn acquire_viewer<R: Wait>(&self, rt: &R) -> Result<Viewer<J>, Refusal>
        ensures { IfErr result (λ e. e ≡ Refusal.NoPlace) }
    {
        let mut viewer = self.pool.lock(rt).take()?;
        self.last.lock(rt).catch_up(&mut viewer);
        Ok(viewer)
    }

    /// Takes a viewer back.
    pub fn release_viewer<R: Wait>(&self, rt: &R, viewer: Viewer<J>) {
        self.pool.lock(rt).give(viewer);
    }

    /// A viewer catches up with what was published last.
    pub fn catch_up<R: Wait>(&self, rt: &R, viewer: &mut Viewer<J>)
        ensures seen { Begins viewer.old.list viewer.new.list }
        ensures connection { viewer.new.is_disconnected ≡ viewer.old.is_disconnected }
    {
        self.last.lock(rt).catch_up(viewer);
    }

    /// The clock of the root, as a viewer sees it. Refused as `questions::clock`.
    pub fn clock<R: Wait>(
        &self,
        rt: &R,
        alloc: Global,
        viewer: &mut Viewer<J>,
    ) -> Result<ClockId, Refusal>
        ensures seen { Begins viewer.old.list viewer.new.list }
        ensures clock { IfOk result (λ clock. (is_ready (history viewer.new.list) ≡ true) × (clock ≡ clock_of_history (history viewer.new.list))) }
        ensures refused { IfErr result (IsViewRefused viewer.old viewer.new) }
    {
        let last = self.last.lock(rt).clock();
        clock(alloc, viewer, last)
    }

    /// Since when is asked: by a cursor since its clock as it is now, and from nowhere if there is no such cursor.
    pub fn since<R: Wait>(&self, rt: &R, since: &Option<ClockSpec>) -> Option<Since>
        ensures { (cursors : CursorList) × (result ≡ start_among since.now cursors) }
    {
        match since {
            Some(ClockSpec::Cursor(_)) => start_with(&*self.cursors.lock(rt), since),
            Some(ClockSpec::Clock(_))
            | Some(ClockSpec::Seconds(_))
            | Some(ClockSpec::Another)
            | None => start_of(since),
        }
    }

    /// Appends the answer to what is asked, as a viewer sees the root. Questions by a cursor are answered one after the other.
    /// Refused as `answer`, and by a cursor as `answer_by_cursor`: nothing is appended then, and no cursor moves.
    pub fn inquire<R: Wait>(
        &self,
        rt: &R,
        alloc: Global,
        viewer: &mut Viewer<J>,
        inquiry: Inquiry,
        out: &mut Vec<u8>,
    ) -> Result<(), Refusal>
        ensures seen { Begins viewer.old.list viewer.new.list }
        ensures answered { (cursors : CursorList) × IsInquired inquiry cursors viewer.old out.old.items result viewer.new out.new.items }
        ensures room { vec_capacity out.old ≤ vec_capacity out.new }
    {
        let Inquiry {
            since,
            expression,
            fields,
            empty_on_fresh,
        } = inquiry;
        let query = Query {
            since: start_of(&since),
            test: expression,
            empty_on_fresh,
        };
        let question = Question { query, fields };
        match since {
            Some(ClockSpec::Cursor(name)) => {
                let mut cursors = self.cursors.lock(rt);
                answer_by_cursor(&mut *cursors, alloc, viewer, name, question, out)
            }
            Some(ClockSpec::Clock(_))
            | Some(ClockSpec::Seconds(_))
            | Some(ClockSpec::Another)
            | None => answer_at(alloc, viewer, question, out),
        }
    }
}

/// What a new root has beside its keeper and its viewers: its path, the crawl that is asked for, no cursor and no trigger.
fn fittings(
    alloc: Global,
    path: &RootPath,
) -> Result<(RootPath, Work, Cursors, TriggerTable), NoMemory>
    ensures path { IfOk result (λ made. made.0 ≡ path.now) }
    ensures cursors { IfOk result (λ made. made.2 ≡ []) }
    ensures triggers { IfOk result (λ made. made.3 ≡ empty_table) }
{
    let path = path.copy(alloc)?;
    let work = Work::new(alloc)?;
    let cursors = Cursors::new(alloc)?;
    let triggers = TriggerTable::new(alloc)?;
    Ok((path, work, cursors, triggers))
}
