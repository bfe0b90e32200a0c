//! What stands at the path of the socket.
use crate::checks::check;
use crate::client::Client;
use crate::places::{Place, sh};
use std::alloc::Global;
use std::fs::{File, Files};
use std::net::Net;
use std::os::unix::fs::PermissionsExt;
use std::os::unix::net::UnixListener;
use std::process::Abort;
use std::sync::Wait;
use std::thread::Threads;
use std::time::Clock;
use std::{fs, thread};
use wm_crawler::Open;
use wm_disk::Refusal;

/// The rights to the socket, seen once a session was answered.
fn mode_of(rt: &HostRuntime, host: &impl Abort, place: &Place) -> u32 {
    let mut client = Client::connect(rt, host, place.socket.as_str());
    client.ask("[\"version\"]").expect(host, "a reply");
    let socket = fs::metadata(rt, place.socket.as_str()).expect(host, "a socket");
    let mode = socket.permissions().mode() & 0o777;
    drop(client);
    mode
}

/// A socket that nobody listens on is taken over, and is this user's alone.
#[test]
fn left_socket(rt: HostRuntime) {
    let alloc = rt.alloc();
    let place = Place::new(&rt, &rt, "serve_left");
    let listener = UnixListener::bind(&rt, place.socket.as_str()).expect(&rt, "a listener");
    drop(listener);
    check!(rt; fs::metadata(&rt, place.socket.as_str()).is_ok());
    let (served, mode) = thread::join(
        &rt,
        || place.serve(&rt, alloc, &Open, 1),
        || mode_of(&rt, &rt, &place),
    );
    check!(rt; served.is_ok());
    assert_eq!(rt; mode, 0o600);
    check!(rt; fs::metadata(&rt, place.socket.as_str()).is_err());
    drop(place);
}

/// Whether a server of the place is refused for its socket or its state file.
fn is_refused<R: Threads + Wait + Clock + Net + Files<File = File> + Sync>(
    host: &R,
    alloc: Global,
    place: &Place,
) -> bool {
    place.serve(host, alloc, &Open, 0) == Err(Refusal::DeviceFailed)
}

/// Refused while somebody listens on its path, and for a file and a folder there.
fn is_refused_for_each<R: Threads + Wait + Clock + Net + Files<File = File> + Sync + Abort>(
    rt: &HostRuntime,
    host: &R,
    place: &Place,
) {
    let socket = place.socket.as_str();
    let listener = UnixListener::bind(rt, socket).expect(host, "a listener");
    check!(host; is_refused(host, rt.alloc(), place));
    check!(host; fs::metadata(rt, socket).is_ok());
    drop(listener);
    fs::remove_file(rt, socket).expect(host, "a socket");
    fs::write(rt, socket, b"mine".as_slice()).expect(host, "a file");
    check!(host; is_refused(host, rt.alloc(), place));
    let left = fs::read_to_string(rt, socket).expect(host, "a file");
    check!(host; left.as_str() == "mine");
    fs::remove_file(rt, socket).expect(host, "a file");
    check!(host; sh(rt, host, "mkdir serve_refused.socket"));
    check!(host; is_refused(host, rt.alloc(), place));
    fs::remove_dir(rt, socket).expect(host, "a folder");
}

/// One that somebody listens on isn't, nor is a file or a folder, and a state file that isn't there is refused.
#[test]
fn refused_sockets(rt: HostRuntime) {
    let alloc = rt.alloc();
    let mut place = Place::new(&rt, &rt, "serve_refused");
    is_refused_for_each(&rt, &rt, &place);
    check!(rt; place.serve(&rt, alloc, &Open, 0).is_ok());
    place.state = String::from_str(alloc, "serve_refused.none").expect(&rt, "memory");
    check!(rt; is_refused(&rt, alloc, &place));
    drop(place);
}

/// Has another socket stand at the path before the only session ends, and tells whether the session was answered.
fn replace_socket(rt: &HostRuntime, host: &impl Abort, place: &Place) -> bool {
    let socket = place.socket.as_str();
    let mut client = Client::connect(rt, host, socket);
    let answered = client.ask("[\"version\"]").is_ok();
    fs::remove_file(rt, socket).expect(host, "a socket");
    let listener = UnixListener::bind(rt, socket).expect(host, "a listener");
    drop(client);
    drop(listener);
    answered
}

/// A server that ends leaves the socket of another one that stands at its path by then.
#[test]
fn socket_of_another_server_stays(rt: HostRuntime) {
    let alloc = rt.alloc();
    let place = Place::new(&rt, &rt, "serve_other");
    let (served, answered) = thread::join(
        &rt,
        || place.serve(&rt, alloc, &Open, 1),
        || replace_socket(&rt, &rt, &place),
    );
    check!(rt; served.is_ok());
    check!(rt; answered);
    check!(rt; fs::metadata(&rt, place.socket.as_str()).is_ok());
    drop(place);
}
