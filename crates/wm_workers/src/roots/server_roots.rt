//! The watched roots of a server with what their workers and the sessions that wait for them share.
//! Definitions: specs/WatchedRoots.antt, specs/SubscribedRoots.antt. Tests: serve_tests/src/sessions.rt.
ghost use Rattle.std.specs.Prelude.{◌≡◌, IfOk, IfSome, MatchResult};
ghost use Rattle.std.specs.Arc.{arc_value};
ghost use Rattle.wm_workers.specs.BegunRoots.{root_id};
ghost use Rattle.wm_workers.specs.SubscribedRoots.{AddsBitsOf};

use super::found::root_numbered;
use super::state::RootsState;
use super::table::RootRow;
use crate::desk::ServerDesk;
use crate::log::EventLog;
use crate::supervisor::Workers;
use crate::unstarted::Worker;
use crate::wakes::{WakeFlags, with_bit};
use std::alloc::Global;
use std::sync::{Arc, Condvar, Mutex, Wait};
use std::time::Clock;
use wm_disk::{NoMemory, Refusal};
use wm_front::Roots;
use wm_names::RootPath;
use wm_root::{Retention, WatchedRoot};
use wm_share::{Naming, Shares};
use wm_subs::Subscribed;

/// The watched roots of a server.
pub struct ServerRoots<T: ServerDesk, J: Naming, K: Wait + Clock + Copy + Drop> {
    pub desk: T,
    /// What keepers wait with.
    pub keeping: K,
    /// What makes the keeper and the viewers of a root.
    pub(super) shares: Mutex<Shares<J>>,
    pub(super) state: Mutex<RootsState<Arc<WatchedRoot<J, K>>>>,
    /// A turn is over, a worker is to be started, or the server closes.
    pub(super) changed: Condvar,
    /// A flag for each connection slot.
    pub flags: WakeFlags,
    /// When deleted paths of a root are forgotten.
    retention: Retention,
    pub log: EventLog,
}

/// No root yet, and the flags of sessions without subscriptions.
fn fittings<J: Naming, K: Wait + Drop>(
    alloc: Global,
) -> Result<(RootsState<Arc<WatchedRoot<J, K>>>, WakeFlags), NoMemory> {
    let state = RootsState::new(alloc)?;
    let flags = WakeFlags::new(alloc)?;
    Ok((state, flags))
}

/// Ends each of these roots: its workers end.
fn end_each<R: Wait, J: Naming, K: Wait + Drop>(rt: &R, rows: &[RootRow<Arc<WatchedRoot<J, K>>>]) {
    for row in rows {
        if let Some(root) = &row.watched {
            root.end(rt);
        }
    }
}

impl<T: ServerDesk, J: Naming, K: Wait + Clock + Copy + Drop> ServerRoots<T, J, K> {
    /// No root, and no worker to start. `NoMemory` hands the desk back.
    pub fn new(
        alloc: Global,
        keeping: K,
        desk: T,
        shares: Shares<J>,
        retention: Retention,
    ) -> Result<ServerRoots<T, J, K>, (NoMemory, T)>
        ensures { MatchResult result (λ roots. roots.desk ≡ desk) (λ refused. refused.1 ≡ desk) }
    {
        let Ok((state, flags)) = fittings(alloc) else {
            return Err((NoMemory, desk));
        };
        Ok(ServerRoots {
            desk,
            keeping,
            shares: Mutex::new(shares),
            state: Mutex::new(state),
            changed: Condvar::new(),
            flags,
            retention,
            log: EventLog::new(alloc),
        })
    }

    /// The desk, once each thread has ended.
    pub fn into_desk(self) -> T
        ensures { result ≡ self.desk }
    {
        let ServerRoots {
            desk,
            keeping: _,
            shares: _,
            state: _,
            changed: _,
            flags: _,
            retention: _,
            log: _,
        } = self;
        desk
    }

    /// A root of the incarnation, with no triggers yet.
    pub(super) fn new_root<R: Wait>(
        &self,
        rt: &R,
        alloc: Global,
        path: &RootPath,
        incarnation: u64,
        number: u64,
    ) -> Result<Arc<WatchedRoot<J, K>>, NoMemory>
        ensures id { IfOk result (λ root. root_id (arc_value root) ≡ record { path = path.now; number = number; incarnation = incarnation }) }
        ensures retention { IfOk result (λ root. (arc_value root).retention ≡ self.now.retention) }
    {
        let mut shares = self.shares.lock(rt);
        let Ok((keeper, pool)) = shares.share(self.keeping, alloc, incarnation, number) else {
            return Err(NoMemory);
        };
        drop(shares);
        let root = WatchedRoot::new(alloc, path, number, keeper, pool, self.retention)?;
        Arc::new(alloc, root).map_err(|_| NoMemory)
    }

    /// The watched root of a number; none if it isn't watched, memory ran out for it, or it has too many owners.
    pub fn root_numbered<R: Wait>(&self, rt: &R, number: u64) -> Option<Arc<WatchedRoot<J, K>>>
        ensures { IfSome result (λ root. (arc_value root).number ≡ number) }
    {
        root_numbered(&self.state.lock(rt).table, number)
    }

    /// The roots of subscriptions, as their bits for a wake flag.
    #[tactic(auto, using(crate::proofs::Bits::one_more, crate::proofs::Bits::none_left))]
    pub fn subscribed_bits<R: Wait, E>(&self, rt: &R, subscriptions: &[Subscribed<E>]) -> u64
        ensures { AddsBitsOf 0 subscriptions.now result }
    {
        let mut roots = 0u64;
        for place in 0..subscriptions.len() {
            let number = self.number_of(rt, &subscriptions[place].root);
            roots = with_bit(roots, number);
        }
        roots
    }

    /// Commits what is submitted, until the workers are closed and nothing is left. `NoPlace` if another thread does.
    pub fn flush<R: Wait + Clock>(&self, rt: &R) -> Result<(), Refusal> {
        self.desk.flush(rt, &self.state)
    }

    /// No worker is started any longer, each root ends, and each thread that sends updates. The flusher ends once the desk is closed.
    pub fn close_workers<R: Wait>(&self, rt: &R) {
        let mut state = self.state.lock(rt);
        state.unstarted.close();
        end_each(rt, state.table.all());
        drop(state);
        self.changed.notify_all();
        self.flags.close(rt);
    }
}

impl<T: ServerDesk, J: Naming, K: Wait + Clock + Copy + Drop> Workers<J, K>
    for ServerRoots<T, J, K> {
    fn next_worker<R: Wait>(&self, rt: &R) -> Option<Worker> {
        let state = self.changed.wait_while(
            rt,
            self.state.lock(rt),
            |state| state.unstarted.must_wait(),
        );
        state.unstarted.next()
    }

    fn started<R: Wait>(&self, rt: &R) {
        self.state.lock(rt).unstarted.started();
    }

    fn root_numbered<R: Wait>(&self, rt: &R, number: u64) -> Option<Arc<WatchedRoot<J, K>>> {
        ServerRoots::root_numbered(self, rt, number)
    }

    fn log(&self) -> &EventLog {
        &self.log
    }
}
