//! A server that is killed, and the next one over its state file.
use crate::checks::check;
use crate::client::{Client, ask_of};
use crate::places::Place;
use std::process::Abort;
use std::{fs, thread};
use wm_crawler::Open;

/// Copies the state file: what a kill leaves now.
fn copy_state(rt: &HostRuntime, host: &impl Abort, place: &Place, copy: &str) {
    let left = fs::read(rt, place.state.as_str()).expect(host, "a state file");
    fs::write(rt, copy, left.as_slice()).expect(host, "a copy");
}

/// Observes a new file, once the root is ready.
fn observe(rt: &HostRuntime, host: &impl Abort, client: &mut Client, root: &str) -> String {
    let line = format!(in rt.alloc();
        "[\"observe\",\"{root}\",[[\"b.c\",{{\"mtime_ms\":0,\"size\":4,\"type\":\"f\"}}]]]"
    ).expect(host, "memory");
    client.ask_ready(rt, host, line.as_str())
}

/// Watches the root, and copies the state file once that was answered.
fn watch_and_copy(rt: &HostRuntime, host: &impl Abort, place: &Place, copy: &str) -> String {
    let root = place.root.as_str();
    let mut client = Client::connect(rt, host, place.socket.as_str());
    ask_of(host, &mut client, "watch", root);
    copy_state(rt, host, place, copy);
    let told = observe(rt, host, &mut client, root);
    drop(client);
    told
}

/// Asks what changed since a clock of the killed server.
fn ask_since(rt: &HostRuntime, host: &impl Abort, place: &Place, clock: &str) -> String {
    let root = place.root.as_str();
    let line = format!(in rt.alloc();
        "[\"query\",\"{root}\",{{\"fields\":[\"name\",\"size\"],\"since\":\"{clock}\",\"expression\":[\"type\",\"f\"]}}]"
    ).expect(host, "memory");
    let mut client = Client::connect(rt, host, place.socket.as_str());
    let told = client.ask_ready(rt, host, line.as_str());
    drop(client);
    told
}

/// The roots stand, and every older clock is answered as fresh.
#[test]
fn killed_server(rt: HostRuntime) {
    let alloc = rt.alloc();
    let mut place = Place::new(&rt, &rt, "serve_killed");
    let copy = "serve_killed.copy";
    let (served, told) = thread::join(
        &rt,
        || place.serve(&rt, alloc, &Open, 1),
        || watch_and_copy(&rt, &rt, &place, copy),
    );
    check!(rt; served.is_ok());
    check!(rt; told.as_str() == "{\"clock\":\"c:1:1:2\",\"version\":\"w1\"}");
    place.state = String::from_str(alloc, copy).expect(&rt, "memory");
    let (served, told) = thread::join(
        &rt,
        || place.serve(&rt, alloc, &Open, 1),
        || ask_since(&rt, &rt, &place, "c:1:1:2"),
    );
    drop(place);
    check!(rt; served.is_ok());
    let wanted =
        "{\"clock\":\"c:2:1:1\",\"files\":[{\"name\":\"a\",\"size\":3},{\"name\":\"d/b\",\"size\":0}],\"is_fresh_instance\":true,\"version\":\"w1\"}";
    check!(rt; told.as_str() == wanted, told);
}
