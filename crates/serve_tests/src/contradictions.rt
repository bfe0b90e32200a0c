//! What a session is told of the watched roots while another one changes them: lists, questions and subscriptions agree.
use crate::checks::check;
use crate::client::{Client, TRIES, ask_of};
use crate::places::Place;
use std::process::Abort;
use std::sync::Wait;
use std::sync::atomic::{AtomicU64, Ordering};
use std::thread;
use std::thread::Threads;
use std::time::Duration;
use wm_crawler::Open;

/// So often one session watches the root and ends it again.
const CHANGES: u64 = 30;

/// Waits until the other session has seen so many changes.
fn await_seen(rt: &HostRuntime, seen: &AtomicU64, count: u64) {
    for _ in 0..TRIES {
        if seen.load(Ordering::SeqCst) >= count {
            return;
        }
        thread::sleep(rt, Duration::from_millis(10));
    }
}

/// Watches a root and ends it, again and again, each time once the other session has seen the change before.
fn change(rt: &HostRuntime, host: &impl Abort, place: &Place, seen: &AtomicU64) {
    let root = place.root.as_str();
    let mut client = Client::connect(rt, host, place.socket.as_str());
    for turn in 0..CHANGES {
        ask_of(host, &mut client, "watch", root);
        await_seen(rt, seen, 2 * turn + 1);
        ask_of(host, &mut client, "watch-del", root);
        await_seen(rt, seen, 2 * turn + 2);
    }
    drop(client);
}

/// Asks for the list and for the root's clock in one write, again and again, until the list shows whether the root is watched as
/// it is wanted: whether the clock behind it was answered so too, the root being watched or not ready yet.
fn agrees(
    host: &impl Abort,
    client: &mut Client,
    lines: &str,
    root: &str,
    is_watched: bool,
) -> bool {
    for _ in 0..1_000_000 {
        client.send(lines).expect(host, "a request");
        let list = client.line().expect(host, "a list");
        let clock = client.line().expect(host, "a clock");
        if list.contains(root) == is_watched {
            return clock.contains("5 NotWatched") != is_watched;
        }
    }
    false
}

/// Sees each change of the other session, and tells how often a list and the question behind it contradict each other.
fn compare(rt: &HostRuntime, host: &impl Abort, place: &Place, seen: &AtomicU64) -> u64 {
    let root = place.root.as_str();
    let lines = format!(in rt.alloc(); "[\"watch-list\"]\n[\"clock\",\"{root}\"]");
    let lines = lines.expect(host, "memory");
    let mut client = Client::connect(rt, host, place.socket.as_str());
    let mut contradictions: u64 = 0;
    for change in 0..2 * CHANGES {
        if !agrees(host, &mut client, lines.as_str(), root, change % 2 == 0) {
            contradictions = contradictions.saturating_add(1);
        }
        seen.store(change + 1, Ordering::SeqCst);
    }
    drop(client);
    contradictions
}

/// Has one session change the root while another one asks.
fn change_and_compare<R: Threads + Wait + Abort + Sync>(
    rt: &HostRuntime,
    host: &R,
    place: &Place,
) -> u64 {
    let seen = AtomicU64::new(0);
    let ((), contradictions) = thread::join(
        host,
        || change(rt, host, place, &seen),
        || compare(rt, host, place, &seen),
    );
    contradictions
}

/// Once a list shows that a root is watched no question about it is refused `5`, and once it shows that it isn't none is answered.
#[test]
fn lists_and_questions_agree(rt: HostRuntime) {
    let alloc = rt.alloc();
    let place = Place::new(&rt, &rt, "serve_agrees");
    let (served, contradictions) = thread::join(
        &rt,
        || place.serve(&rt, alloc, &Open, 2),
        || change_and_compare(&rt, &rt, &place),
    );
    drop(place);
    check!(rt; served.is_ok());
    assert_eq!(rt; contradictions, 0);
}

/// Subscribes to the root, ends it and watches it anew by another session, and observes a file. Tells what the first session is told
/// when it ends its subscription: nothing comes before that.
fn end_with_root(rt: &HostRuntime, host: &impl Abort, place: &Place) -> (String, String) {
    let root = place.root.as_str();
    let mut client = Client::connect(rt, host, place.socket.as_str());
    let mut other = Client::connect(rt, host, place.socket.as_str());
    ask_of(host, &mut client, "watch", root);
    let line = format!(in rt.alloc(); "[\"subscribe\",\"{root}\",\"s\",{{\"fields\":[\"name\"]}}]");
    let line = line.expect(host, "memory");
    client.ask_ready(rt, host, line.as_str());
    let first = client.line().expect(host, "a line");
    ask_of(host, &mut other, "watch-del", root);
    ask_of(host, &mut other, "watch", root);
    let line = format!(in rt.alloc(); "[\"observe\",\"{root}\",[[\"a\",null]]]");
    let line = line.expect(host, "memory");
    other.ask_ready(rt, host, line.as_str());
    let line = format!(in rt.alloc(); "[\"unsubscribe\",\"{root}\",\"s\"]");
    let line = line.expect(host, "memory");
    let last = client.ask(line.as_str()).expect(host, "a reply");
    drop(other);
    drop(client);
    (first, last)
}

/// A subscription ends with its root, also if the root is watched anew.
#[test]
fn subscription_ends_with_its_root(rt: HostRuntime) {
    let alloc = rt.alloc();
    let place = Place::new(&rt, &rt, "serve_ends");
    let (served, told) = thread::join(
        &rt,
        || place.serve(&rt, alloc, &Open, 2),
        || end_with_root(&rt, &rt, &place),
    );
    drop(place);
    let (first, last) = told;
    check!(rt; served.is_ok());
    check!(rt; first.starts_with("{\"clock\":\"c:1:1:1\",\"files\":[\"a\",\"d\",\"d/b\"],"), first);
    check!(rt; last.as_str() == "{\"deleted\":false,\"unsubscribe\":\"s\",\"version\":\"w1\"}", last);
}
