//! The supervisor: it starts the workers of each root.
//! Tests: serve_tests/src/sessions.rt.
ghost use Rattle.std.specs.Prelude.{◌≡◌, IfSome};
ghost use Rattle.std.specs.Arc.{arc_value};

use crate::crawls::run_crawls;
use crate::log::EventLog;
use crate::triggers::{LoggedStarter, run_triggers};
use crate::unstarted::Worker;
use std::alloc::Global;
use std::marker::PhantomData;
use std::sync::{Arc, Wait};
use std::thread;
use std::thread::{Scope, Threads};
use std::time::{Clock, Duration};
use wm_crawler::{Folders, Turnstile};
use wm_front::Roots;
use wm_root::{CrawlTools, WatchedRoot};
use wm_share::Naming;
use wm_triggers::Starter;

/// What the threads of workers see of the watched roots: a bound in place of the type, so that little is proved of what crosses.
pub trait Workers<J: Naming, K: Wait + Drop>: Roots<J, K> {
    /// Waits for the worker that is to be started next; none once the server closes.
    fn next_worker<R: Wait>(&self, rt: &R) -> Option<Worker>;

    /// The worker that was to be started next was started.
    fn started<R: Wait>(&self, rt: &R);

    /// The watched root of a number; none if it isn't watched, memory ran out for it, or it has too many owners.
    fn root_numbered<R: Wait>(&self, rt: &R, number: u64) -> Option<Arc<WatchedRoot<J, K>>>
        ensures { IfSome result (λ root. (arc_value root).number ≡ number) };

    /// What happens is logged here.
    fn log(&self) -> &EventLog;
}

/// Does what a worker does, until its root isn't watched any longer.
fn run_worker<
    R: Threads + Wait + Clock + Sync,
    J: Naming,
    K: Wait + Drop,
    H: Workers<J, K>,
    F: Folders + Sync,
    G: Turnstile + Sync,
    S: Starter,
>(rt: &R, alloc: Global, workers: &H, tools: &CrawlTools<'_, F, G>, starter: &S, worker: Worker) {
    let Some(root) = workers.root_numbered(rt, worker.root()) else {
        return;
    };
    match worker {
        Worker::Crawler(_) => run_crawls(rt, alloc, workers, tools, &root),
        Worker::Triggers(_) => {
            let logged = LoggedStarter::new(starter, workers.log(), rt);
            run_triggers(rt, alloc, &root, &logged);
        }
    }
    drop(root);
}

/// Starts each worker that is to be started, until the server closes. One that finds no thread is tried again.
fn start_workers<
    's,
    E,
    R: Threads + Wait + Clock + Sync,
    J: Naming + Send + Sync,
    K: Wait + Drop + Send + Sync,
    H: Workers<J, K> + Sync,
    F: Folders + Sync,
    G: Turnstile + Sync,
    S: Starter + Sync,
>(
    scope: &Scope<'s, E>,
    rt: &'s R,
    alloc: Global,
    workers: &'s H,
    tools: &'s CrawlTools<'_, F, G>,
    starter: &'s S,
    of: &'s PhantomData<(J, K)>,
) {
    for _ in rt.forever() {
        let Some(worker) = workers.next_worker(rt) else {
            return;
        };
        let started = scope.spawn(move || {
            let _of = of;
            run_worker::<R, J, K, H, F, G, S>(rt, alloc, workers, tools, starter, worker)
        });
        if started.is_ok() {
            workers.started(rt);
        } else {
            thread::sleep(rt, Duration::from_millis(20));
        }
    }
    unreachable!()
}

/// Starts each worker that is to be started, until the server closes and each worker has ended.
pub fn supervise<
    'x,
    R: Threads + Wait + Clock + Sync,
    J: Naming + Send + Sync,
    K: Wait + Drop + Send + Sync,
    H: Workers<J, K> + Sync,
    F: Folders + Sync,
    G: Turnstile + Sync,
    S: Starter + Sync,
>(
    rt: &'x R,
    alloc: Global,
    workers: &'x H,
    tools: &'x CrawlTools<'x, F, G>,
    starter: &'x S,
    of: &'x PhantomData<(J, K)>,
) {
    thread::scope(thread::scope_env(), rt, |scope| {
        start_workers::<_, R, J, K, H, F, G, S>(scope, rt, alloc, workers, tools, starter, of)
    })
}
