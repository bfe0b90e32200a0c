//! Triggers that are deleted and defined while another one runs.
use crate::checks::check;
use crate::client::{Client, TRIES, ask_of};
use crate::places::Place;
use std::process::Abort;
use std::time::Duration;
use std::{fs, thread};
use wm_crawler::Open;

/// Waits until a file has this text: whether it does.
fn await_text(rt: &HostRuntime, path: &str, text: &str) -> bool {
    for _ in 0..TRIES {
        if let Ok(found) = fs::read_to_string(rt, path)
            && found.as_str() == text
        {
            return true;
        }
        thread::sleep(rt, Duration::from_millis(10));
    }
    false
}

/// Defines a trigger for the file `a`, which runs a line of the shell with the names on its input, and gives the reply.
fn define(
    rt: &HostRuntime,
    host: &impl Abort,
    client: &mut Client,
    root: &str,
    name: &str,
    shell: &str,
) -> String {
    let line = format!(in rt.alloc();
        "[\"trigger\",\"{root}\",{{\"name\":\"{name}\",\"command\":[\"sh\",\"-c\",\"{shell}\"],\"stdin\":\"NAME_PER_LINE\",\"expression\":[\"name\",\"a\"]}}]"
    ).expect(host, "memory");
    client.ask(line.as_str()).expect(host, "a reply")
}

fn delete(
    rt: &HostRuntime,
    host: &impl Abort,
    client: &mut Client,
    root: &str,
    name: &str,
) -> String {
    let line = format!(in rt.alloc(); "[\"trigger-del\",\"{root}\",\"{name}\"]");
    let line = line.expect(host, "memory");
    client.ask(line.as_str()).expect(host, "a reply")
}

/// Watches the root until it is ready.
fn watch(rt: &HostRuntime, host: &impl Abort, client: &mut Client, root: &str) {
    ask_of(host, client, "watch", root);
    let line = format!(in rt.alloc(); "[\"clock\",\"{root}\"]").expect(host, "memory");
    client.ask_ready(rt, host, line.as_str());
}

/// Says that it has begun, waits until it may end, and says that it has ended. What it writes stands beside the root.
const SLOW: &str =
    "echo run >> ../NAME.slow; while ! [ -e ../NAME.go ]; do sleep 0.01; done; echo end >> ../NAME.slow";

/// The slow line for the root of a name.
fn slow(rt: &HostRuntime, host: &impl Abort, name: &str) -> String {
    let mut line = String::new(rt.alloc());
    for (i, part) in SLOW.split("NAME").enumerate() {
        if i > 0 {
            line.push_str(name).expect(host, "memory");
        }
        line.push_str(part).expect(host, "memory");
    }
    line
}

/// While a run of the first trigger goes on, deletes the second one, which is due. Tells the reply, and whether the run ended.
fn delete_meanwhile(rt: &HostRuntime, host: &impl Abort, place: &Place) -> (String, bool) {
    let root = place.root.as_str();
    let mut client = Client::connect(rt, host, place.socket.as_str());
    watch(rt, host, &mut client, root);
    let slow = slow(rt, host, "serve_deleted");
    define(rt, host, &mut client, root, "slow", slow.as_str());
    check!(host; await_text(rt, "serve_deleted.slow", "run\n"));
    define(rt, host, &mut client, root, "b", "cat > ../serve_deleted.b");
    let reply = delete(rt, host, &mut client, root, "b");
    fs::write(rt, "serve_deleted.go", b"".as_slice()).expect(host, "a file");
    let ended = await_text(rt, "serve_deleted.slow", "run\nend\n");
    define(rt, host, &mut client, root, "c", "cat > ../serve_deleted.c");
    let ended = ended && await_text(rt, "serve_deleted.c", "a\n");
    drop(client);
    (reply, ended)
}

/// A trigger that was deleted isn't started after the reply, also if it was due.
#[test]
fn deleted_trigger_isnt_started(rt: HostRuntime) {
    let alloc = rt.alloc();
    let place = Place::new(&rt, &rt, "serve_deleted");
    let (served, told) = thread::join(
        &rt,
        || place.serve(&rt, alloc, &Open, 1),
        || delete_meanwhile(&rt, &rt, &place),
    );
    drop(place);
    let (reply, ended) = told;
    check!(rt; served.is_ok());
    check!(rt; reply.as_str() == "{\"deleted\":true,\"trigger\":\"b\",\"version\":\"w1\"}", reply);
    check!(rt; ended);
    check!(rt; fs::metadata(&rt, "serve_deleted.b").is_err());
}

/// Defines a trigger that runs once, and while a run of another one goes on deletes it and defines it anew with the same words.
/// Tells the two last replies, and whether it has run for all files again.
fn define_anew(rt: &HostRuntime, host: &impl Abort, place: &Place) -> (String, String, bool) {
    let root = place.root.as_str();
    let kept = "cat >> ../serve_anew.b";
    let mut client = Client::connect(rt, host, place.socket.as_str());
    watch(rt, host, &mut client, root);
    define(rt, host, &mut client, root, "b", kept);
    check!(host; await_text(rt, "serve_anew.b", "a\n"));
    let slow = slow(rt, host, "serve_anew");
    define(rt, host, &mut client, root, "slow", slow.as_str());
    check!(host; await_text(rt, "serve_anew.slow", "run\n"));
    let deleted = delete(rt, host, &mut client, root, "b");
    let created = define(rt, host, &mut client, root, "b", kept);
    fs::write(rt, "serve_anew.go", b"".as_slice()).expect(host, "a file");
    let ran = await_text(rt, "serve_anew.b", "a\na\n");
    drop(client);
    (deleted, created, ran)
}

/// A trigger that is deleted and defined anew is a new one, also with the same words and while another one runs.
#[test]
fn trigger_defined_anew_has_its_first_run(rt: HostRuntime) {
    let alloc = rt.alloc();
    let place = Place::new(&rt, &rt, "serve_anew");
    let (served, told) = thread::join(
        &rt,
        || place.serve(&rt, alloc, &Open, 1),
        || define_anew(&rt, &rt, &place),
    );
    drop(place);
    let (deleted, created, ran) = told;
    check!(rt; served.is_ok());
    check!(rt; deleted.as_str() == "{\"deleted\":true,\"trigger\":\"b\",\"version\":\"w1\"}", deleted);
    check!(rt; created.as_str() == "{\"disposition\":\"created\",\"triggerid\":\"b\",\"version\":\"w1\"}", created);
    check!(rt; ran);
}
