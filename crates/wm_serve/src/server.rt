//! `serve`: the whole server, from its state file and its socket to the close of the file.
//! Tests: serve_tests/src/restarts.rt.
ghost use Rattle.std.specs.Prelude.{◌≡◌, true, IfErr, IfOk};
ghost use Rattle.wm_file.specs.FileDisks.{IsJustOpened};
ghost use Rattle.wm_groupcommit.specs.Seats.{IsNewDesk};
ghost use Rattle.wm_lines.specs.KeptExpressions.{have_expressions as have_expressions_lem};
ghost use Rattle.wm_store.specs.Openings.{IsBegun};

use crate::socket::server_socket::ServerSocket;
use crate::threads::handle::Handles;
use crate::threads::server::Server;
use crate::threads::start::{Closing, Service, serve_logged};
use std::alloc::Global;
use std::fs::{File, Files};
use std::io::{Print, Write};
use std::marker::{Brand, PhantomData};
use std::net::Net;
use std::snapshot::Snapshot;
use std::sync::Wait;
use std::thread::Threads;
use std::time::Clock;
use wm_crawler::{Folders, Turnstile};
use wm_disk::{Disk, NoMemory, Refusal};
use wm_file::{FileDisk, Unknown};
use wm_groupcommit::{ClosePermit, Closed, Desk};
use wm_root::{CrawlTools, Retention};
use wm_session::open_file;
use wm_share::{Naming, Opened, Shares};
use wm_store::Store;
use wm_triggers::Starter;
use wm_workers::{ServerDesk, ServerRoots};

/// How a server is to serve.
#[derive(Clone, Copy)]
pub struct Settings {
    /// The threads of a crawl, 1 to 16.
    pub workers: usize,
    /// When deleted paths are forgotten.
    pub retention: Retention,
    /// After so many sessions it ends.
    pub sessions: u64,
    /// Whether it writes no log.
    pub is_quiet: bool,
}

/// Where a server stands.
#[derive(Clone, Copy)]
pub struct ServerPaths<'a> {
    /// Its state file.
    pub file: &'a str,
    /// Its socket.
    pub socket: &'a str,
}

/// What a server crawls the roots by, what starts their triggers' programs, and where its log is written.
#[derive(Drop)]
pub struct Tools<'a, F, G, P, L> {
    pub folders: &'a F,
    pub turnstile: &'a G,
    pub starter: &'a P,
    pub log: &'a L,
}

/// A server has served so many sessions over a desk, as that was then, and its store was closed.
#[derive(Drop)]
pub struct Served<D: Disk + Drop> {
    desk: Snapshot<Desk<D>>,
    closed: Closed<D>,
}

/// Serves a state file on a socket until so many sessions have ended. The socket is removed then, unless another file
/// stands at its path by now. What happens meanwhile that `wm_log` has a line for is logged, unless it is to be quiet; an output that fails
/// ends no server. What is served is a new desk over the store that was opened.
///
/// Refused before anybody is admitted: `DeviceFailed` if the file can't be opened, has another owner or fails, if a server listens on
/// the socket, something else stands there or it can't be made, and if the writer fails; `Damaged` if the file
/// means nothing, or a trigger in it has a text that is no expression; `Retired` and `Exhausted` as `Store::open` is; and `NoMemory`.
/// Behind the last session it is refused as the close of the store is. The file keeps what was accepted in each case.
pub fn serve<
    R: Threads + Wait + Clock + Net + Files<File = File> + Sync,
    F: Folders + Sync,
    G: Turnstile + Sync,
    P: Starter + Sync,
    L: Print + Sync,
    W: Write,
>(
    rt: &R,
    alloc: Global,
    paths: ServerPaths<'_>,
    tools: &Tools<'_, F, G, P, L>,
    settings: Settings,
    writer: &mut W,
) -> Result<Served<FileDisk<Unknown>>, Refusal>
    ensures { IfOk result (λ served. (disk : _) × (store : _) × IsJustOpened disk × (⟦<FileDisk<Unknown> as Disk>⟧.honest store.disk → IsBegun ⟦<FileDisk<Unknown> as Disk>⟧ disk store) × IsNewDesk served.desk.value store) }
{
    let store = open_file(rt, alloc, paths.file)?;
    let Ok(socket) = ServerSocket::listen(rt, paths.socket) else {
        drop(store);
        return Err(Refusal::DeviceFailed);
    };
    let service = Service {
        socket: &socket,
        sessions: settings.sessions,
        crawls: CrawlTools {
            folders: tools.folders,
            turnstile: tools.turnstile,
            workers: settings.workers,
        },
        starter: tools.starter,
        retention: settings.retention,
        log: (!settings.is_quiet).then_some(tools.log),
    };
    let served = serve_over::<FileDisk<Unknown>, Brand, R, F, G, P, L, W>(
        rt,
        alloc,
        store,
        Opened::new(),
        &service,
        writer,
    );
    socket.remove(rt);
    served
}

/// A desk over the store, which is dropped if memory runs out, and the permit to close it.
fn desk_over<D: Disk + Drop>(
    alloc: Global,
    store: Store<D>,
) -> Result<(Desk<D>, ClosePermit), Refusal>
    ensures ok { IfOk result (λ made. IsNewDesk made.0 store) }
    ensures refused { IfErr result (λ e. e ≡ Refusal.NoMemory) }
{
    match Desk::new(alloc, store) {
        Ok(made) => Ok(made),
        Err((refusal, store)) => {
            drop(store);
            Err(refusal)
        }
    }
}

/// What all threads share, over the desk, which is dropped if memory runs out.
fn roots_over<D: Disk + Drop, J: Naming, K: Wait + Clock + Copy + Drop>(
    alloc: Global,
    keeping: K,
    desk: Desk<D>,
    shares: Shares<J>,
    retention: Retention,
) -> Result<ServerRoots<Desk<D>, J, K>, NoMemory>
    ensures { IfOk result (λ roots. roots.desk ≡ desk) }
{
    match ServerRoots::new(alloc, keeping, desk, shares, retention) {
        Ok(roots) => Ok(roots),
        Err((NoMemory, desk)) => {
            drop(desk.into_store());
            Err(NoMemory)
        }
    }
}

/// Serves with the views' book that was opened.
fn serve_over<
    D: Disk + Drop + Send,
    J: Naming + Send + Sync,
    R: Threads + Wait + Clock + Net + Files<File = File> + Sync,
    F: Folders + Sync,
    G: Turnstile + Sync,
    P: Starter + Sync,
    L: Print + Sync,
    W: Write,
>(
    rt: &R,
    alloc: Global,
    store: Store<D>,
    opened: Opened,
    service: &Service<'_, F, G, P, L>,
    writer: &mut W,
) -> Result<Served<D>, Refusal>
    requires expressions { have_expressions_lem store.registry ≡ true }
    requires book { opened.seen.book ≡ J.book }
    ensures { IfOk result (λ served. IsNewDesk served.desk.value store) }
{
    let (desk, permit) = desk_over(alloc, store)?;
    let shares: Shares<J> = Shares::new(opened);
    let roots = roots_over(alloc, rt, desk, shares, service.retention)?;
    let desk = Snapshot::of(&roots.desk);
    let closing = Closing {
        desk: &roots.desk,
        permit,
    };
    let closed = serve_roots(rt, alloc, &roots, closing, service, writer);
    drop(roots.into_desk().into_store());
    match closed {
        Ok(closed) => Ok(Served { desk, closed }),
        Err(refusal) => Err(refusal),
    }
}

/// Begins each root, and serves the socket.
fn serve_roots<
    T: ServerDesk + Sync,
    D: Disk + Drop,
    J: Naming + Send + Sync,
    K: Wait + Clock + Copy + Drop + Send + Sync,
    R: Threads + Wait + Clock + Net + Files<File = File> + Sync,
    F: Folders + Sync,
    G: Turnstile + Sync,
    P: Starter + Sync,
    L: Print + Sync,
    W: Write,
>(
    rt: &R,
    alloc: Global,
    roots: &ServerRoots<T, J, K>,
    closing: Closing<'_, D>,
    service: &Service<'_, F, G, P, L>,
    writer: &mut W,
) -> Result<Closed<D>, Refusal> {
    roots.begin(rt, alloc)?;
    let server = Server::new(alloc, roots)?;
    let handles = Handles {
        server: &server,
        workers: roots,
        of: PhantomData::<(J, K)>,
    };
    let closed = serve_logged(rt, alloc, &handles, closing, service, writer);
    drop(handles);
    drop(server);
    closed
}
