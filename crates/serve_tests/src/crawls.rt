//! Crawls of a server, and what happens while they run.
use crate::checks::check;
use crate::client::{Client, TRIES, ask_of};
use crate::places::{Place, path_of, sh};
use std::process::Abort;
use std::sync::atomic::{AtomicBool, AtomicU64, Ordering};
use std::time::Duration;
use std::{fs, thread};
use wm_crawler::{Open, Turnstile};

/// A gate that holds a crawl back at its second passing until it is opened.
#[derive(Drop)]
struct Held {
    passed: AtomicU64,
    is_open: AtomicBool,
    gave_up: AtomicBool,
}

/// So often the gate looks whether it is open.
const TURNS: u64 = 100_000_000;

impl Turnstile for Held {
    fn pass(&self) {
        if self.passed.fetch_add(1, Ordering::SeqCst) != 1 {
            return;
        }
        for _ in 0..TURNS {
            if self.is_open.load(Ordering::SeqCst) {
                return;
            }
        }
        self.gave_up.store(true, Ordering::SeqCst);
    }
}

/// Waits until the crawl is held.
fn await_held(rt: &HostRuntime, gate: &Held) {
    for _ in 0..TRIES {
        if gate.passed.load(Ordering::SeqCst) >= 2 {
            return;
        }
        thread::sleep(rt, Duration::from_millis(10));
    }
}

/// Observes a new path.
fn observe_new(rt: &HostRuntime, host: &impl Abort, client: &mut Client, root: &str) {
    let line = format!(in rt.alloc();
        "[\"observe\",\"{root}\",[[\"new\",{{\"mtime_ms\":0,\"size\":1,\"type\":\"f\"}}]]]"
    ).expect(host, "memory");
    client.ask(line.as_str()).expect(host, "a reply");
}

/// What is there once the root is ready.
fn names(rt: &HostRuntime, host: &impl Abort, client: &mut Client, root: &str) -> String {
    let line = format!(in rt.alloc(); "[\"query\",\"{root}\",{{\"fields\":[\"name\"]}}]");
    let line = line.expect(host, "memory");
    client.ask_ready(rt, host, line.as_str())
}

/// Watches the root, and has it crawled.
fn crawl_again(
    rt: &HostRuntime,
    host: &impl Abort,
    client: &mut Client,
    other: &mut Client,
    root: &str,
) {
    ask_of(host, client, "watch", root);
    names(rt, host, client, root);
    let line = format!(in rt.alloc(); "[\"recrawl\",\"{root}\"]").expect(host, "memory");
    other.send(line.as_str()).expect(host, "a request");
}

/// Observes a new path while a crawl is held, lets the crawl go on, and returns what is there after it.
fn observe_meanwhile(rt: &HostRuntime, host: &impl Abort, place: &Place, gate: &Held) -> String {
    let root = place.root.as_str();
    let mut client = Client::connect(rt, host, place.socket.as_str());
    let mut other = Client::connect(rt, host, place.socket.as_str());
    crawl_again(rt, host, &mut client, &mut other, root);
    await_held(rt, gate);
    observe_new(rt, host, &mut client, root);
    gate.is_open.store(true, Ordering::SeqCst);
    other.line().expect(host, "a reply");
    let told = names(rt, host, &mut client, root);
    drop(other);
    drop(client);
    told
}

/// What is observed while a crawl reads stays, though the crawl didn't find it.
#[test]
fn operation_in_crawl(rt: HostRuntime) {
    let alloc = rt.alloc();
    let place = Place::new(&rt, &rt, "serve_held");
    let gate = Held {
        passed: AtomicU64::new(0),
        is_open: AtomicBool::new(false),
        gave_up: AtomicBool::new(false),
    };
    let (served, told) = thread::join(
        &rt,
        || place.serve(&rt, alloc, &gate, 2),
        || observe_meanwhile(&rt, &rt, &place, &gate),
    );
    drop(place);
    check!(rt; served.is_ok());
    check!(rt; !gate.gave_up.load(Ordering::SeqCst));
    check!(rt; told.contains("\"files\":[\"new\",\"a\",\"d\",\"d/b\"]"));
}

/// Unwatches a root while its crawl is held, watches it again, and lets the held crawl go on. Returns the reply to the client that waits
/// for that crawl, and what is there then.
fn unwatch_meanwhile(
    rt: &HostRuntime,
    host: &impl Abort,
    place: &Place,
    gate: &Held,
) -> (String, String) {
    let root = place.root.as_str();
    let mut client = Client::connect(rt, host, place.socket.as_str());
    let mut other = Client::connect(rt, host, place.socket.as_str());
    crawl_again(rt, host, &mut client, &mut other, root);
    await_held(rt, gate);
    ask_of(host, &mut client, "watch-del", root);
    let reply = other.line().expect(host, "a reply");
    ask_of(host, &mut client, "watch", root);
    gate.is_open.store(true, Ordering::SeqCst);
    let there = names(rt, host, &mut client, root);
    drop(other);
    drop(client);
    (reply, there)
}

/// A client that waits for a crawl is refused at once if the root is unwatched, and the end of that crawl changes nothing.
#[test]
fn unwatched_in_crawl(rt: HostRuntime) {
    let alloc = rt.alloc();
    let place = Place::new(&rt, &rt, "serve_unwatched");
    let gate = Held {
        passed: AtomicU64::new(0),
        is_open: AtomicBool::new(false),
        gave_up: AtomicBool::new(false),
    };
    let (served, seen) = thread::join(
        &rt,
        || place.serve(&rt, alloc, &gate, 2),
        || unwatch_meanwhile(&rt, &rt, &place, &gate),
    );
    drop(place);
    let (reply, there) = seen;
    check!(rt; served.is_ok());
    check!(rt; !gate.gave_up.load(Ordering::SeqCst));
    check!(rt; reply.as_str() == "{\"error\":\"5 NotWatched\",\"version\":\"w1\"}", reply);
    check!(rt; there.contains("\"files\":[\"a\",\"d\",\"d/b\"],\"is_fresh_instance\":true"), there);
}

/// Observes what a path has, or that it isn't there, and gives the reply.
fn observe_as(
    rt: &HostRuntime,
    host: &impl Abort,
    client: &mut Client,
    root: &str,
    pair: &str,
) -> String {
    let line = format!(in rt.alloc(); "[\"observe\",\"{root}\",[{pair}]]").expect(host, "memory");
    client.ask(line.as_str()).expect(host, "a reply")
}

const KEPT: &str = "[\"a\",{\"mtime_ms\":0,\"size\":1,\"type\":\"f\"}]";

/// While a crawl is held that has read the root's top, `a` comes back and is observed as it was, and `short` is observed as gone.
/// Tells the clocks of both observations, and what is there after the crawl.
fn observe_what_was_misread(
    rt: &HostRuntime,
    host: &impl Abort,
    place: &Place,
    gate: &Held,
    client: &mut Client,
    other: &mut Client,
) -> (String, String, String) {
    let root = place.root.as_str();
    ask_of(host, client, "watch", root);
    names(rt, host, client, root);
    let before = observe_as(rt, host, client, root, KEPT);
    check!(host; sh(rt, host, "mv serve_misread/a serve_misread.away && : > serve_misread/short"));
    let line = format!(in rt.alloc(); "[\"recrawl\",\"{root}\"]").expect(host, "memory");
    other.send(line.as_str()).expect(host, "a request");
    await_held(rt, gate);
    check!(host; sh(rt, host, "mv serve_misread.away serve_misread/a && rm serve_misread/short"));
    observe_as(rt, host, client, root, KEPT);
    let after = observe_as(rt, host, client, root, "[\"short\",null]");
    gate.is_open.store(true, Ordering::SeqCst);
    other.line().expect(host, "a reply");
    (before, after, names(rt, host, client, root))
}

fn misread(
    rt: &HostRuntime,
    host: &impl Abort,
    place: &Place,
    gate: &Held,
) -> (String, String, String) {
    let mut client = Client::connect(rt, host, place.socket.as_str());
    let mut other = Client::connect(rt, host, place.socket.as_str());
    let told = observe_what_was_misread(rt, host, place, gate, &mut client, &mut other);
    drop(other);
    drop(client);
    told
}

/// A crawl doesn't undo what was observed while it read, though the observations changed nothing.
#[test]
fn unchanged_observation_in_crawl(rt: HostRuntime) {
    let alloc = rt.alloc();
    let place = Place::new(&rt, &rt, "serve_misread");
    let gate = Held {
        passed: AtomicU64::new(0),
        is_open: AtomicBool::new(false),
        gave_up: AtomicBool::new(false),
    };
    let (served, told) = thread::join(
        &rt,
        || place.serve(&rt, alloc, &gate, 2),
        || misread(&rt, &rt, &place, &gate),
    );
    drop(place);
    let (before, after, names) = told;
    check!(rt; served.is_ok());
    check!(rt; !gate.gave_up.load(Ordering::SeqCst));
    check!(rt; before.as_str() == "{\"clock\":\"c:1:1:2\",\"version\":\"w1\"}", before);
    check!(rt; after.as_str() == "{\"clock\":\"c:1:1:2\",\"version\":\"w1\"}", after);
    check!(rt; names.contains("\"files\":[\"a\",\"d\",\"d/b\"]"), names);
}

/// Makes a trigger that writes into a file what it is given.
fn make_trigger(rt: &HostRuntime, host: &impl Abort, client: &mut Client, root: &str, out: &str) {
    let line = format!(in rt.alloc();
        "[\"trigger\",\"{root}\",{{\"name\":\"t\",\"command\":[\"sh\",\"-c\",\"cat > {out}\"],\"stdin\":\"NAME_PER_LINE\",\"expression\":[\"suffix\",\"c\"]}}]"
    ).expect(host, "memory");
    client.ask(line.as_str()).expect(host, "a reply");
}

fn write_file(rt: &HostRuntime, host: &impl Abort, root: &str) {
    let path = format!(in rt.alloc(); "{root}/x.c").expect(host, "memory");
    fs::write(rt, path.as_str(), b"x".as_slice()).expect(host, "a file");
}

/// What a trigger was given; an empty text if nothing came.
fn given(rt: &HostRuntime, out: &str) -> String {
    for _ in 0..TRIES {
        if let Ok(told) = fs::read_to_string(rt, out)
            && !told.is_empty()
        {
            return told;
        }
        thread::sleep(rt, Duration::from_millis(10));
    }
    String::new(rt.alloc())
}

/// Crawls a new root, makes a trigger and a file, and has the root crawled once more. Returns what was there first.
fn crawl_twice(
    rt: &HostRuntime,
    host: &impl Abort,
    client: &mut Client,
    root: &str,
    out: &str,
) -> String {
    ask_of(host, client, "watch", root);
    let first = names(rt, host, client, root);
    make_trigger(rt, host, client, root, out);
    write_file(rt, host, root);
    ask_of(host, client, "recrawl", root);
    first
}

/// Crawls a new root, then once more for a trigger, and returns what was there first and what the trigger was given.
fn crawl_for_trigger(
    rt: &HostRuntime,
    host: &impl Abort,
    place: &Place,
    out: &str,
) -> (String, String) {
    let mut client = Client::connect(rt, host, place.socket.as_str());
    let first = crawl_twice(rt, host, &mut client, place.root.as_str(), out);
    let given = given(rt, out);
    drop(client);
    (first, given)
}

#[test]
fn crawls_and_triggers(rt: HostRuntime) {
    let alloc = rt.alloc();
    let place = Place::new(&rt, &rt, "serve_crawl");
    let out = path_of(&rt, &rt, "serve_crawl.out");
    let (served, told) = thread::join(
        &rt,
        || place.serve(&rt, alloc, &Open, 1),
        || crawl_for_trigger(&rt, &rt, &place, out.as_str()),
    );
    drop(place);
    let (first, given) = told;
    check!(rt; served.is_ok());
    check!(rt; first.contains("\"files\":[\"a\",\"d\",\"d/b\"],\"is_fresh_instance\":true"), first);
    check!(rt; first.starts_with("{\"clock\":\"c:1:1:1\""), first);
    check!(rt; given.as_str() == "x.c\n", given);
}
