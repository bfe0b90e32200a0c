//! Sessions of one server: beside one another, with crawls, triggers and subscriptions.
use crate::checks::check;
use crate::client::{Client, TRIES, ask_of};
use crate::places::Place;
use std::alloc::{AllocError, Global};
use std::process::Abort;
use std::time::Duration;
use std::{io, thread};
use wm_crawler::Open;

const VERSION: &str = "{\"version\":\"w1\"}";

fn is_answered(client: &mut Client) -> io::Result<bool> {
    Ok(client.ask("[\"version\"]")?.as_str() == VERSION)
}

/// Whether a session that comes is answered.
fn is_served(rt: &HostRuntime, host: &impl Abort, place: &Place) -> io::Result<bool> {
    let mut client = Client::connect(rt, host, place.socket.as_str());
    let answered = is_answered(&mut client);
    drop(client);
    answered
}

/// Whether a second session is answered beside a first one, and then the first once more.
fn beside(rt: &HostRuntime, host: &impl Abort, place: &Place, first: &mut Client) -> bool {
    let mut second = Client::connect(rt, host, place.socket.as_str());
    let two = is_answered(&mut second).expect(host, "an answer");
    let three = is_answered(first).expect(host, "an answer");
    drop(second);
    two && three
}

/// Whether a first session is answered, then a second beside it, and then the first once more.
fn one_after_another(rt: &HostRuntime, host: &impl Abort, place: &Place) -> bool {
    let mut first = Client::connect(rt, host, place.socket.as_str());
    let one = is_answered(&mut first).expect(host, "an answer");
    let others = beside(rt, host, place, &mut first);
    drop(first);
    one && others
}

#[test]
fn one_session_after_another(rt: HostRuntime) {
    let alloc = rt.alloc();
    let place = Place::new(&rt, &rt, "serve_two");
    let (served, answered) = thread::join(
        &rt,
        || place.serve(&rt, alloc, &Open, 2),
        || one_after_another(&rt, &rt, &place),
    );
    drop(place);
    check!(rt; served.is_ok());
    check!(rt; answered);
}

/// Comes in once a slot is free.
fn come_in(rt: &HostRuntime, host: &impl Abort, place: &Place) -> bool {
    for _ in 0..TRIES {
        // a session that finds no slot may also be cut off
        if let Ok(true) = is_served(rt, host, place) {
            return true;
        }
        thread::sleep(rt, Duration::from_millis(10));
    }
    false
}

/// Lets one more session in, and tells whether it is answered.
fn sit_down(rt: &HostRuntime, host: &impl Abort, place: &Place, clients: &mut Vec<Client>) -> bool {
    let mut client = Client::connect(rt, host, place.socket.as_str());
    let is_answered = is_answered(&mut client).expect(host, "an answer");
    clients.push(client).expect(host, "memory");
    is_answered
}

/// Fills each slot, and tells how many sessions were answered.
fn sit_on_each(
    rt: &HostRuntime,
    host: &impl Abort,
    place: &Place,
    clients: &mut Vec<Client>,
) -> u64 {
    let mut answered: u64 = 0;
    for _ in 0..31 {
        if sit_down(rt, host, place, clients) {
            answered = answered.saturating_add(1);
        }
    }
    answered
}

/// What one session more is told, and a line later.
fn told_late(rt: &HostRuntime, host: &impl Abort, place: &Place) -> (String, String) {
    let mut late = Client::connect(rt, host, place.socket.as_str());
    let first = late.line().expect(host, "a line");
    let second = late.line().expect(host, "a line");
    drop(late);
    (first, second)
}

/// Fills each slot, tells what one session more is told and a line later, and lets one more in once another left.
fn too_many(rt: &HostRuntime, host: &impl Abort, place: &Place) -> (u64, String, String) {
    let mut clients = Vec::new(rt.alloc());
    let answered = sit_on_each(rt, host, place, &mut clients);
    let (first, second) = told_late(rt, host, place);
    drop(clients.pop());
    come_in(rt, host, place);
    drop(clients);
    (answered, first, second)
}

#[test]
fn one_session_too_many(rt: HostRuntime) {
    let alloc = rt.alloc();
    let place = Place::new(&rt, &rt, "serve_many");
    let (served, told) = thread::join(
        &rt,
        || place.serve(&rt, alloc, &Open, 32),
        || too_many(&rt, &rt, &place),
    );
    drop(place);
    let (answered, first, second) = told;
    check!(rt; served.is_ok());
    assert_eq!(rt; answered, 31);
    check!(rt; first.as_str() == "{\"error\":\"17 TooMany\",\"version\":\"w1\"}", first);
    check!(rt; second.is_empty());
}

/// Watches the root, and subscribes to it.
fn subscribe(rt: &HostRuntime, host: &impl Abort, client: &mut Client, root: &str) -> String {
    ask_of(host, client, "watch", root);
    let line = format!(in rt.alloc();
        "[\"subscribe\",\"{root}\",\"s\",{{\"fields\":[\"name\"]}}]"
    ).expect(host, "memory");
    client.ask_ready(rt, host, line.as_str())
}

/// Tells that `a` is gone.
fn observe(rt: &HostRuntime, host: &impl Abort, client: &mut Client, root: &str) {
    let line = format!(in rt.alloc(); "[\"observe\",\"{root}\",[[\"a\",null]]]");
    let line = line.expect(host, "memory");
    client.ask(line.as_str()).expect(host, "a reply");
}

/// The next line, and the one after it, before which a second session tells that `a` is gone.
fn told_by_another(
    rt: &HostRuntime,
    host: &impl Abort,
    client: &mut Client,
    second: &mut Client,
    root: &str,
) -> (String, String) {
    let told = client.line().expect(host, "a line");
    observe(rt, host, second, root);
    (told, client.line().expect(host, "a line"))
}

/// Subscribes in one session, observes in another, and gives the first three lines of the first.
fn tell_unasked(rt: &HostRuntime, host: &impl Abort, place: &Place) -> (String, String, String) {
    let root = place.root.as_str();
    let mut first = Client::connect(rt, host, place.socket.as_str());
    let mut second = Client::connect(rt, host, place.socket.as_str());
    let subscribed = subscribe(rt, host, &mut first, root);
    let (told, again) = told_by_another(rt, host, &mut first, &mut second, root);
    drop(second);
    drop(first);
    (subscribed, told, again)
}

/// The line of the root's subscription with this clock, these files and whether it begins anew.
fn due_line(
    alloc: Global,
    root: &str,
    clock: &str,
    files: &str,
    is_fresh: bool,
) -> Result<String, AllocError> {
    format!(in alloc;
        "{{\"clock\":\"{clock}\",\"files\":[{files}],\"is_fresh_instance\":{is_fresh},\"root\":\"{root}\",\"subscription\":\"s\",\"unilateral\":true,\"version\":\"w1\"}}"
    )
}

#[test]
fn told_unasked(rt: HostRuntime) {
    let alloc = rt.alloc();
    let place = Place::new(&rt, &rt, "serve_told");
    let (served, told) = thread::join(
        &rt,
        || place.serve(&rt, alloc, &Open, 2),
        || tell_unasked(&rt, &rt, &place),
    );
    check!(rt; served.is_ok());
    let (subscribed, first, second) = told;
    let root = place.root.as_str();
    check!(rt; subscribed.as_str() == "{\"clock\":\"c:1:1:1\",\"subscribe\":\"s\",\"version\":\"w1\"}");
    let fresh = due_line(alloc, root, "c:1:1:1", "\"a\",\"d\",\"d/b\"", true).expect(&rt, "memory");
    let gone = due_line(alloc, root, "c:1:1:2", "\"a\"", false).expect(&rt, "memory");
    check!(rt; first == fresh, first);
    check!(rt; second == gone, second);
    drop(place);
}
