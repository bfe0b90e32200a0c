//! A client of the socket that a test serves.
use std::alloc::Global;
use std::io::{BufRead, BufReader, Write};
use std::os::unix::net::UnixStream;
use std::process::Abort;
use std::time::Duration;
use std::{io, thread};

/// So often a client tries again before it gives up, 10 ms apart.
pub const TRIES: u64 = 3000;

/// One session.
#[derive(Drop)]
pub struct Client {
    stream: UnixStream,
    replies: BufReader<UnixStream>,
    alloc: Global,
}

impl Client {
    /// A session on the socket of a path, once somebody serves it.
    pub fn connect(rt: &HostRuntime, host: &impl Abort, path: &str) -> Client {
        for _ in 0..TRIES {
            if let Ok(stream) = UnixStream::connect(rt, path) {
                return Client::over(host, rt.alloc(), stream);
            }
            thread::sleep(rt, Duration::from_millis(10));
        }
        panic!(host; "nobody serves {path}")
    }

    fn over(host: &impl Abort, alloc: Global, stream: UnixStream) -> Client {
        let twin = stream.try_clone().expect(host, "a stream");
        let replies = BufReader::new(alloc, twin).expect(host, "memory");
        Client {
            stream,
            replies,
            alloc,
        }
    }

    /// The next line that comes, without its newline; an empty text where the session has ended.
    pub fn line(&mut self) -> io::Result<String> {
        let mut line = String::new(self.alloc);
        self.replies.read_line(&mut line)?;
        if line.ends_with("\n") {
            line.pop();
        }
        Ok(line)
    }

    /// Sends a request.
    pub fn send(&mut self, request: &str) -> io::Result<()> {
        (&self.stream).write_all(request.as_bytes())?;
        (&self.stream).write_all(b"\n")
    }

    /// Sends a request, and gives the reply.
    pub fn ask(&mut self, request: &str) -> io::Result<String> {
        self.send(request)?;
        self.line()
    }

    /// Asks again and again while the root isn't ready, and gives the first other reply.
    pub fn ask_ready(&mut self, rt: &HostRuntime, host: &impl Abort, request: &str) -> String {
        for _ in 0..TRIES {
            let reply = self.ask(request).expect(host, "a reply");
            if reply.as_str() != "{\"error\":\"6 NotReady\",\"version\":\"w1\"}" {
                return reply;
            }
            thread::sleep(rt, Duration::from_millis(10));
        }
        panic!(host; "the root isn't ready")
    }
}

/// Asks by a command of one argument, a root.
pub fn ask_of(host: &impl Abort, client: &mut Client, command: &str, root: &str) -> String {
    let line = format!(in client.alloc; "[\"{command}\",\"{root}\"]").expect(host, "memory");
    client.ask(line.as_str()).expect(host, "a reply")
}
