//! The world itself: one call for each kind of event, and each call is one row of `Step`.
//! Definitions: specs/Steps.antt, specs/Refinement.antt. Tests: session_tests/src/world.
ghost use Rattle.std.specs.Prelude.{◌≡◌, ◌++◌, ◌∷◌, [], cond, map, option_map, IfOk, OnOk};
ghost use Rattle.wm_expr.specs.Meanings.{is_path_only};
ghost use Rattle.wm_expr.specs.Views.{term};
ghost use Rattle.wm_world.specs.Worlds.{connected, nothing_yet, nothing_yet_of_two, without_answer};
ghost use Rattle.wm_world.specs.Steps.{Crashed as IsCrashed, Step, asking, batch, checkpointed, opened, down, operated, receiving, with_client};
ghost use Rattle.wm_world.specs.Refinement.{Simulates, Refines, clients_of, disks_of_server, disks_of_world, number_at as number_at_lem, registry_of, replies_of, views_of};
ghost use Rattle.wm_world.specs.Passes.{Armed, Halted, Leaves, Opens, Passes, PowerLost, Switches};
ghost use Rattle.wm_world.specs.Headline.{IsFormatted, IsFormattedInVersion1};
ghost use Rattle.wm_world.specs.declared.other.Other.TheVariants.{Nothing, New};

use crate::connection::Connection;
use crate::event::Event;
use crate::other::Other;
use crate::{connection, starting, views};
use std::alloc::Global;
use wm_disk::{Crashed, NoMemory};
use wm_expr::Expr;
use wm_names::RootPath;
use wm_registry::{Command, MAX_BATCH, Registry, Reply, every_registry};
use wm_since::{Mirror, every_answer, every_client};
use wm_store::{Store, every_file};
use wm_view::{Op, View, every_operation};

/// A server that is up with its store, or down, and the disk beside the one in use.
#[derive(Drop)]
pub(crate) enum Server<D: Crashed + Drop> {
    Up(Store<D>, Other<D>),
    Down(D, Other<D>),
}

impl<D: Crashed + Drop> Server<D> {
    /// The number of the root that is watched at the path, while the server is up.
    fn number_at(&self, path: &RootPath) -> Option<u64>
        ensures { result ≡ number_at_lem self.now path.now }
    {
        let Server::Up(store, _) = self else {
            return None;
        };
        match store.registry().roots().get(path) {
            Some(root) => Some(root.number),
            None => None,
        }
    }

    fn into_disks(self) -> (D, Other<D>)
        ensures used { result.0 ≡ (disks_of_server D.Disk self).used }
        ensures other { result.1 ≡ (disks_of_server D.Disk self).other }
    {
        match self {
            Server::Up(store, other) => (store.into_disk(), other),
            Server::Down(disk, other) => (disk, other),
        }
    }
}

/// What a world shows beside its server.
#[derive(Drop)]
pub(crate) struct Shown {
    // those to the last batch that was done
    pub(crate) replies: Vec<Reply>,
    // while the server is up, one for each root that its start found or that was watched since
    pub(crate) views: Vec<View>,
    pub(crate) clients: Vec<Connection>,
}

/// A server on a disk, its views, and its clients with the answers on their way.
#[derive(Drop)]
pub struct World<D: Crashed + Drop> {
    pub(crate) server: Server<D>,
    pub(crate) shown: Shown,
}

impl<D: Crashed + Drop> World<D> {
    /// One on a disk as a `format` that succeeded left it, with the other disk beside it: down, with nothing
    /// accepted.
    pub(crate) fn new(alloc: Global, disk: D, other: Other<D>) -> World<D>
        ensures disks { disks_of_world D.Disk result ≡ record { used = disk; other = other } }
        ensures stands { IsFormatted D.Disk disk → other ≡ Nothing → Refines D.Disk result (nothing_yet (D.failures disk)) }
        ensures stands_on_two { IsFormattedInVersion1 D.Disk disk → (new : _) → other ≡ New new → Refines D.Disk result (nothing_yet_of_two (D.failures disk) (D.failures new)) }
    {
        World {
            server: Server::Down(disk, other),
            shown: Shown {
                replies: Vec::new(alloc),
                views: Vec::new(alloc),
                clients: Vec::new(alloc),
            },
        }
    }

    /// One event more.
    pub(crate) fn step(mut self, alloc: Global, event: Event) -> Result<World<D>, NoMemory>
        ensures { IfOk result (Simulates D.Disk (λ w v. Step w event v) (Passes D.Disk D.plan event) self) }
    {
        match event {
            Event::Open => self.open(alloc),
            Event::Commands(commands) => self.commands(alloc, commands),
            Event::Checkpoint => self.checkpoint(alloc),
            Event::Crash => Ok(self.crash()),
            Event::Stop => Ok(self.stop()),
            Event::Lose(n) => Ok(self.lose(n)),
            Event::Migrate => self.migrate(alloc),
            Event::Arm(calls) => {
                self.arm(calls);
                Ok(self)
            }
            Event::ArmOther(calls) => {
                self.arm_other(calls);
                Ok(self)
            }
            Event::Observe(path, moment, pairs) => {
                self.operate(alloc, &path, &Op::Observe(moment, pairs))
            }
            Event::Recrawl(path, moment, begun_at, listing) => {
                self.operate(alloc, &path, &Op::Recrawl(moment, begun_at, listing))
            }
            Event::AgeOut(path, time, age) => self.operate(alloc, &path, &Op::AgeOut(time, age)),
            Event::Client(path, test) => self.connect(alloc, path, test),
            Event::Ask(n) => self.ask(alloc, n),
            Event::Receive(n) => self.receive(alloc, n),
        }
    }

    /// The registry, while the server is up.
    pub fn registry(&self) -> Option<&Registry>
        ensures { option_map (λ r. r.now) result ≡ registry_of self.now }
    {
        match &self.server {
            Server::Up(store, _) => Some(store.registry()),
            Server::Down(_, _) => None,
        }
    }

    /// The replies to the last batch that was done.
    pub fn replies(&self) -> &[Reply]
        ensures { result.now ≡ replies_of self.now }
    {
        self.shown.replies.as_slice()
    }

    /// The clients, each with the answer on its way to it.
    pub fn clients(&self) -> &[Connection]
        ensures { result.now ≡ clients_of self.now }
    {
        self.shown.clients.as_slice()
    }

    /// The views, in order of their roots' numbers: of each root that the last start found, and of each that
    /// was watched since. None while the server is down.
    pub fn views(&self) -> &[View]
        ensures { result.now ≡ views_of self.now }
    {
        self.shown.views.as_slice()
    }

    /// Performs the operation on the view of the root at the path.
    fn perform(&mut self, alloc: Global, path: &RootPath, op: &Op) -> Result<(), NoMemory>
        ensures { OnOk result (Simulates D.Disk (λ w v. v ≡ cond w.up (operated path.now op.now w) w) (Leaves D.Disk) self.old self.new) }
    {
        every_operation();
        every_registry();
        let Some(number) = self.server.number_at(path) else {
            return Ok(());
        };
        views::perform(alloc, &mut self.shown.views, number, op)
    }

    /// Does the operation to the view of the root at the path.
    fn operate(mut self, alloc: Global, path: &RootPath, op: &Op) -> Result<World<D>, NoMemory>
        ensures { IfOk result (Simulates D.Disk (λ w v. v ≡ cond w.up (operated path.now op.now w) w) (Leaves D.Disk) self) }
    {
        self.perform(alloc, path, op)?;
        Ok(self)
    }

    /// A new client of the root at the path.
    fn connect(mut self, alloc: Global, path: RootPath, test: Expr) -> Result<World<D>, NoMemory>
        ensures { IfOk result (Simulates D.Disk (λ w v. v ≡ cond (is_path_only (term test)) (record w { clients = w.clients ++ connected path test ∷ [] }) w) (Leaves D.Disk) self) }
    {
        every_registry();
        let Ok(mirror) = Mirror::new(alloc, path, test) else {
            return Ok(self);
        };
        self.shown.clients.push(Connection {
            mirror,
            answer: None,
        })?;
        Ok(self)
    }

    /// Puts the question of the client with this number.
    fn put_question(&mut self, alloc: Global, n: usize) -> Result<(), NoMemory>
        ensures { OnOk result (Simulates D.Disk (λ w v. v ≡ cond w.up (with_client (asking w) n w) w) (Leaves D.Disk) self.old self.new) }
    {
        every_registry();
        let Server::Up(store, _) = &self.server else {
            return Ok(());
        };
        if n >= self.shown.clients.len() {
            return Ok(());
        }
        every_answer();
        connection::ask(
            alloc,
            store.registry(),
            &self.shown.views,
            &mut self.shown.clients[n],
        )
    }

    /// The client with this number asks.
    fn ask(mut self, alloc: Global, n: usize) -> Result<World<D>, NoMemory>
        ensures { IfOk result (Simulates D.Disk (λ w v. v ≡ cond w.up (with_client (asking w) n w) w) (Leaves D.Disk) self) }
    {
        self.put_question(alloc, n)?;
        Ok(self)
    }

    /// The answer on its way to the client with this number comes.
    fn receive(mut self, alloc: Global, n: usize) -> Result<World<D>, NoMemory>
        ensures { IfOk result (Simulates D.Disk (λ w v. v ≡ with_client receiving n w) (Leaves D.Disk) self) }
    {
        every_registry();
        if n >= self.shown.clients.len() {
            return Ok(self);
        }
        every_client();
        connection::receive(alloc, &mut self.shown.clients[n])?;
        Ok(self)
    }

    /// The answer on its way to the client with this number is lost.
    fn lose(mut self, n: usize) -> World<D>
        ensures { Simulates D.Disk (λ w v. v ≡ with_client without_answer n w) (Leaves D.Disk) self result }
    {
        every_registry();
        if n >= self.shown.clients.len() {
            return self;
        }
        connection::lose(&mut self.shown.clients[n]);
        self
    }

    /// So many calls of the disk pass, and then each fails.
    fn arm(&mut self, calls: u64)
        ensures { Simulates D.Disk (λ w v. v ≡ w) (Armed D.Disk D.plan calls) self.old self.new }
    {
        match &mut self.server {
            Server::Up(store, _other) => store.arm(calls),
            Server::Down(disk, _other) => disk.arm(calls),
        }
    }

    /// A batch of commands.
    fn commands(self, alloc: Global, commands: Vec<Command>) -> Result<World<D>, NoMemory>
        ensures { IfOk result (Simulates D.Disk (batch commands.items) (Leaves D.Disk) self) }
    {
        every_registry();
        if commands.len() > MAX_BATCH {
            return Ok(self);
        }
        let World { server, mut shown } = self;
        let (mut store, other) = match server {
            Server::Up(store, other) => (store, other),
            Server::Down(disk, other) => return Ok(World {
                server: Server::Down(disk, other),
                shown,
            }),
        };
        let next = store.registry().next_root();
        match store.commit_batch(alloc, commands) {
            Ok(replies) => {
                starting::show(alloc, store.registry(), next, &replies, &mut shown.views)?;
                shown.replies = replies;
                Ok(World {
                    server: Server::Up(store, other),
                    shown,
                })
            }
            Err(refusal) => {
                starting::unless_memory(refusal)?;
                Ok(fallen(store.into_disk(), other, shown))
            }
        }
    }

    /// The state goes into the other slot.
    fn checkpoint(self, alloc: Global) -> Result<World<D>, NoMemory>
        ensures { IfOk result (Simulates D.Disk checkpointed (Switches D.Disk) self) }
    {
        every_registry();
        let World { server, shown } = self;
        let (mut store, other) = match server {
            Server::Up(store, other) => (store, other),
            Server::Down(disk, other) => return Ok(World {
                server: Server::Down(disk, other),
                shown,
            }),
        };
        match store.checkpoint(alloc) {
            Ok(()) => Ok(World {
                server: Server::Up(store, other),
                shown,
            }),
            Err(refusal) => {
                if starting::takes_down(refusal)? {
                    return Ok(fallen(store.into_disk(), other, shown));
                }
                Ok(World {
                    server: Server::Up(store, other),
                    shown,
                })
            }
        }
    }

    /// A start.
    fn open(self, alloc: Global) -> Result<World<D>, NoMemory>
        ensures { IfOk result (Simulates D.Disk opened (Opens D.Disk) self) }
    {
        every_file();
        every_registry();
        let World { server, mut shown } = self;
        let (disk, other) = match server {
            Server::Up(store, other) => return Ok(World {
                server: Server::Up(store, other),
                shown,
            }),
            Server::Down(disk, other) => (disk, other),
        };
        match Store::open(alloc, disk) {
            Ok(store) => {
                shown.views = starting::first_views(alloc, store.registry())?;
                Ok(World {
                    server: Server::Up(store, other),
                    shown,
                })
            }
            Err((refusal, disk)) => {
                starting::unless_memory(refusal)?;
                Ok(World {
                    server: Server::Down(disk, other),
                    shown,
                })
            }
        }
    }

    /// A loss of power.
    fn crash(self) -> World<D>
        ensures { Simulates D.Disk IsCrashed (PowerLost D.Disk D.plan) self result }
    {
        every_registry();
        let (disk, other) = self.server.into_disks();
        let beside = other.crash();
        fallen(disk.crash(), beside, self.shown)
    }

    /// A stop of the process.
    fn stop(self) -> World<D>
        ensures { Simulates D.Disk (λ w v. v ≡ down w) (Halted D.Disk D.plan) self result }
    {
        let (disk, other) = self.server.into_disks();
        fallen(disk.stop(), other.stop(), self.shown)
    }
}

/// The world when its server has gone down.
fn fallen<D: Crashed + Drop>(disk: D, other: Other<D>, shown: Shown) -> World<D>
    ensures down { result.server ≡ Server.Down disk other }
    ensures views { result.shown.views.items ≡ [] }
    ensures replies { result.shown.replies ≡ shown.replies }
    ensures clients { result.shown.clients.items ≡ map without_answer shown.clients.items }
{
    let mut shown = shown;
    shown.views.clear();
    connection::lose_all(&mut shown.clients);
    World {
        server: Server::Down(disk, other),
        shown,
    }
}
