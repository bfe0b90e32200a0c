//! Worlds on a disk in memory, driven by lists of events.
use std::alloc::Global;
use std::process::Abort;
use wm_disk::{Crashed, MemDisk, Refusal};
use wm_names::{Kind, Meta, RelPath, RootPath, Subtree};
use wm_registry::{Command, Registry};
use wm_store::format;
use wm_view::{Listing, Pairs};
use wm_world::{Connection, Event, World, drive};

mod clients;
mod migrations;
mod restarts;
mod sweep;
mod two_files;

/// A world after these events on a new file.
fn driven<D: Crashed + Drop>(
    alloc: Global,
    disk: D,
    events: Vec<Event>,
) -> Result<World<D>, Refusal> {
    let mut disk = disk;
    format(alloc, &mut disk)?;
    drive(alloc, disk, events)
}

/// Appends an event.
fn put(rt: &impl Abort, event: Event, events: &mut Vec<Event>) {
    events.push(event).expect(rt, "memory");
}

fn root(rt: &impl Abort, alloc: Global) -> RootPath {
    RootPath::read(alloc, "/r").expect(rt, "a path")
}

/// Appends watches of these paths.
fn put_watches(rt: &impl Abort, alloc: Global, paths: &[&str], commands: &mut Vec<Command>) {
    for path in paths {
        let path = RootPath::read(alloc, path).expect(rt, "a path");
        commands.push(Command::Watch(path)).expect(rt, "memory");
    }
}

/// A batch that watches these paths.
fn watch_all(rt: &impl Abort, alloc: Global, paths: &[&str]) -> Event {
    let mut commands = Vec::new(alloc);
    put_watches(rt, alloc, paths, &mut commands);
    Event::Commands(commands)
}

fn watch(rt: &impl Abort, alloc: Global, path: &str) -> Event {
    watch_all(rt, alloc, &[path])
}

fn file(size: u64) -> Meta {
    Meta {
        kind: Kind::File,
        size,
        mtime_ms: 0,
    }
}

/// A reading of the whole of `/r` that finds these files, and began at a tick.
fn found(rt: &impl Abort, alloc: Global, moment: u64, begun_at: u64, names: &[&str]) -> Event {
    let mut listing = Listing::new(alloc, Subtree::Whole);
    for name in names {
        let path = RelPath::read(alloc, name).expect(rt, "a path");
        listing.add(path, file(1)).expect(rt, "a listing");
    }
    Event::Recrawl(root(rt, alloc), moment, begun_at, listing)
}

/// An observation of one file of `/r`: its size, and `None` where it is gone.
fn seen(rt: &impl Abort, alloc: Global, moment: u64, name: &str, size: Option<u64>) -> Event {
    let path = RelPath::read(alloc, name).expect(rt, "a path");
    let mut pairs = Vec::new(alloc);
    pairs.push((path, size.map(file))).expect(rt, "memory");
    Event::Observe(root(rt, alloc), moment, Pairs::new(pairs))
}

/// Appends the incarnation and the watches.
fn show_registry(rt: &impl Abort, registry: &Registry, text: &mut String) {
    write!(text, "{}", registry.incarnation()).expect(rt, "memory");
    for (path, _) in registry.roots().iter() {
        write!(text, " {}", path.as_str()).expect(rt, "memory");
    }
}

/// Appends the client's files at its clock.
fn show_client(rt: &impl Abort, alloc: Global, client: &Connection, text: &mut String) {
    text.push_str(";").expect(rt, "memory");
    for file in client.mirror.files() {
        write!(text, " {}", file.as_str()).expect(rt, "memory");
    }
    if let Some(clock) = client.mirror.clock() {
        let clock = clock.text(alloc).expect(rt, "memory");
        write!(text, " at {clock}").expect(rt, "memory");
        drop(clock);
    }
}

/// Appends the incarnation and the watches, and each client's files at its clock.
fn show(rt: &impl Abort, alloc: Global, world: &World<MemDisk>, text: &mut String) {
    if let Some(registry) = world.registry() {
        show_registry(rt, registry, text);
    }
    for client in world.clients() {
        show_client(rt, alloc, client, text);
    }
}

/// Whether the world shows that.
fn is_shown(rt: &impl Abort, alloc: Global, world: &World<MemDisk>, wanted: &str) -> bool {
    let mut text = String::new(alloc);
    show(rt, alloc, world, &mut text);
    let shows = text.as_str() == wanted;
    drop(text);
    shows
}

/// What a world shows after these events on a new file, where this choice says what a crash leaves.
fn shown_after(rt: &impl Abort, alloc: Global, choice: u64, events: Vec<Event>) -> String {
    let mut text = String::new(alloc);
    let world = driven(alloc, MemDisk::new(alloc, choice), events).expect(rt, "a world");
    show(rt, alloc, &world, &mut text);
    drop(world);
    text
}
