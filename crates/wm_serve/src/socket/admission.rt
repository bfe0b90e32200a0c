//! Who is admitted to a server.
//! Tests: serve_tests/src/sessions.rt.
use crate::socket::server_socket::ServerSocket;
use crate::threads::handle::ServerHandle;
use std::os::unix::net::UnixStream;
use std::sync::Wait;
use std::thread;
use std::time::{Clock, Duration};
use wm_log::What;

/// Whether the session of a stream is admitted. If it isn't, it is sent why not, and that is logged.
fn admit_one<R: Wait + Clock, H: ServerHandle>(rt: &R, server: &H, stream: UnixStream) -> bool {
    match server.admit(rt, stream) {
        Ok(()) => true,
        Err(turned_away) => {
            server
                .log()
                .note(rt, None, What::SessionRefused(turned_away.refusal()));
            let _sent = turned_away.send();
            false
        }
    }
}

/// Admits sessions until so many have come.
pub fn admit<R: Wait + Clock, H: ServerHandle>(
    rt: &R,
    server: &H,
    socket: &ServerSocket<'_>,
    sessions: u64,
) {
    let mut admitted = 0u64;
    for _ in rt.forever() {
        if admitted >= sessions {
            return;
        }
        let Ok(stream) = socket.accept() else {
            // No descriptor is left, or the like: others may end meanwhile.
            thread::sleep(rt, Duration::from_millis(20));
            continue;
        };
        if admit_one(rt, server, stream) {
            admitted += 1;
        }
    }
    unreachable!()
}
