//! How the threads of a server start and end.
//! Tests: serve_tests/src/sessions.rt, tools/try/log.py.
use crate::socket::admission::admit;
use crate::socket::admission_lines::report_ready;
use crate::socket::server_socket::ServerSocket;
use crate::threads::handle::{Handles, ServerHandle};
use std::alloc::Global;
use std::io::{Print, Write};
use std::sync::Wait;
use std::thread;
use std::thread::{Scope, Threads};
use std::time::Clock;
use wm_crawler::{Folders, Turnstile};
use wm_disk::{Disk, Refusal};
use wm_groupcommit::{ClosePermit, Closed, Desk};
use wm_log::What;
use wm_root::{CrawlTools, Retention};
use wm_share::Naming;
use wm_triggers::Starter;
use wm_workers::{EventLog, SLOTS, Workers, supervise, write_log};

/// What a server works with.
#[derive(Drop)]
pub struct Service<'a, F, G, P, L> {
    /// Where sessions come in.
    pub socket: &'a ServerSocket<'a>,
    /// After so many of them none comes any longer.
    pub sessions: u64,
    pub crawls: CrawlTools<'a, F, G>,
    pub starter: &'a P,
    pub retention: Retention,
    /// Where its log is written; `None` if none is.
    pub log: Option<&'a L>,
}

/// A desk, and the permit to close its store.
#[derive(Drop)]
pub struct Closing<'a, D: Disk + Drop> {
    pub desk: &'a Desk<D>,
    pub permit: ClosePermit,
}

/// Ends the workers, and closes the store: refused by what kept the server from serving sessions, and else as that is.
fn end<R: Wait, H: ServerHandle, D: Disk + Drop>(
    rt: &R,
    server: &H,
    closing: Closing<'_, D>,
    served: Result<(), Refusal>,
) -> Result<Closed<D>, Refusal> {
    server.close_workers(rt);
    let Closing { desk, permit } = closing;
    match (served, desk.close(rt, permit)) {
        (Err(refusal), _) => Err(refusal),
        (Ok(()), Ok(closed)) => Ok(closed),
        (Ok(()), Err(unclosed)) => Err(unclosed.refusal()),
    }
}

/// Starts a thread for each slot that sends what is due, until a thread is refused: how many slots have one.
fn start_updates<'s, E, R: Threads + Wait + Clock + Sync, H: ServerHandle + Sync>(
    scope: &Scope<'s, E>,
    rt: &'s R,
    alloc: Global,
    server: &'s H,
) -> u64 {
    for slot in 0..SLOTS {
        let started = scope.spawn(move || server.send_updates(rt, alloc, slot));
        if started.is_err() {
            return slot as u64;
        }
    }
    SLOTS as u64
}

/// Starts a thread for the sessions of each of so many slots, until a thread is refused: how many slots have one.
fn start_slots<'s, E, R: Threads + Wait + Clock + Sync, H: ServerHandle + Sync>(
    scope: &Scope<'s, E>,
    rt: &'s R,
    alloc: Global,
    server: &'s H,
    slots: u64,
) -> u64 {
    for slot in 0..slots {
        let started = scope.spawn(move || server.serve_sessions(rt, alloc, slot as usize));
        if started.is_err() {
            return slot;
        }
    }
    slots
}

/// Admits sessions to as many slots as have their threads, until so many have come.
fn serve_started<R: Wait + Clock, H: ServerHandle, W: Write>(
    rt: &R,
    server: &H,
    socket: &ServerSocket<'_>,
    sessions: u64,
    slots: u64,
    writer: &mut W,
) -> Result<(), Refusal> {
    server.open_slots(rt, slots);
    let ready = report_ready(slots, writer);
    if ready.is_ok() {
        admit(rt, server, socket, sessions);
    }
    server.close_slots(rt);
    ready
}

/// Serves the sessions by a thread for each of so many slots, until each session has ended. A slot that finds no thread stays empty.
fn serve_slots<R: Threads + Wait + Clock + Sync, H: ServerHandle + Sync, F, G, P, L, W: Write>(
    rt: &R,
    alloc: Global,
    server: &H,
    service: &Service<'_, F, G, P, L>,
    slots: u64,
    writer: &mut W,
) -> Result<(), Refusal> {
    let socket = service.socket;
    let sessions = service.sessions;
    thread::scope(thread::scope_env(), rt, |scope| {
        let slots = start_slots(scope, rt, alloc, server, slots);
        serve_started(rt, server, socket, sessions, slots, writer)
    })
}

/// Serves a socket that listens, until so many sessions have come and all have ended. `NoMemory` if a thread that every
/// session needs can't be started, and `DeviceFailed` if the writer fails: nobody was admitted then. What the close of the
/// store is refused comes last.
fn serve_on<
    R: Threads + Wait + Clock + Sync,
    J: Naming + Send + Sync,
    K: Wait + Drop + Send + Sync,
    H: ServerHandle + Sync,
    M: Workers<J, K> + Sync,
    D: Disk + Drop,
    F: Folders + Sync,
    G: Turnstile + Sync,
    P: Starter + Sync,
    L,
    W: Write,
>(
    rt: &R,
    alloc: Global,
    handles: &Handles<'_, H, M, J, K>,
    closing: Closing<'_, D>,
    service: &Service<'_, F, G, P, L>,
    writer: &mut W,
) -> Result<Closed<D>, Refusal> {
    let server = handles.server;
    let workers = handles.workers;
    let of = &handles.of;
    let crawls = &service.crawls;
    let starter = service.starter;
    thread::scope(thread::scope_env(), rt, |scope| {
        let flusher = scope.spawn(move || server.flush(rt));
        if flusher.is_err() {
            return end(rt, server, closing, Err(Refusal::NoMemory));
        }
        let supervisor = scope.spawn(move || {
            supervise::<R, J, K, M, F, G, P>(rt, alloc, workers, crawls, starter, of)
        });
        if supervisor.is_err() {
            return end(rt, server, closing, Err(Refusal::NoMemory));
        }
        let slots = start_updates(scope, rt, alloc, server);
        let served = serve_slots(rt, alloc, server, service, slots, writer);
        end(rt, server, closing, served)
    })
}

/// Notes that the socket was taken over, if it was.
fn note_socket<R: Wait + Clock>(rt: &R, alloc: Global, log: &EventLog, taken: Option<&str>) {
    if let Some(path) = taken {
        if let Ok(path) = String::from_str(alloc, path) {
            log.note(rt, None, What::TookSocket(path));
        }
    }
}

/// Serves as [`serve_on`] does, and writes the log, if it has a place: what waits at the end is written before this returns. `NoMemory`
/// too if no thread can be started for it.
pub fn serve_logged<
    R: Threads + Wait + Clock + Sync,
    J: Naming + Send + Sync,
    K: Wait + Drop + Send + Sync,
    H: ServerHandle + Sync,
    M: Workers<J, K> + Sync,
    D: Disk + Drop,
    F: Folders + Sync,
    G: Turnstile + Sync,
    P: Starter + Sync,
    L: Print + Sync,
    W: Write,
>(
    rt: &R,
    alloc: Global,
    handles: &Handles<'_, H, M, J, K>,
    closing: Closing<'_, D>,
    service: &Service<'_, F, G, P, L>,
    writer: &mut W,
) -> Result<Closed<D>, Refusal> {
    let Some(output) = service.log else {
        return serve_on(rt, alloc, handles, closing, service, writer);
    };
    let server = handles.server;
    server.log().open(rt);
    note_socket(rt, alloc, server.log(), service.socket.replaced());
    thread::scope(thread::scope_env(), rt, |scope| {
        let log = scope.spawn(move || write_log(rt, alloc, server.log(), output));
        if log.is_err() {
            return end(rt, server, closing, Err(Refusal::NoMemory));
        }
        let served = serve_on(rt, alloc, handles, closing, service, writer);
        server.log().close(rt);
        served
    })
}
