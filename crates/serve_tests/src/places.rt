//! Where a test's server stands: its files, and what it serves them with.
use std::alloc::Global;
use std::fs::{File, Files};
use std::net::Net;
use std::process::{Abort, Command};
use std::sync::Wait;
use std::thread::Threads;
use std::time::Clock;
use std::{env, io};
use wm_crawler::{SystemFolders, Turnstile};
use wm_disk::Refusal;
use wm_file::{FileDisk, Unknown};
use wm_root::Retention;
use wm_serve::{ServerPaths, Settings, Tools, serve};
use wm_triggers::SystemStarter;

/// The files of a test's server.
#[derive(Drop)]
pub struct Place {
    pub state: String,
    pub socket: String,
    /// The absolute path of a folder that it may watch.
    pub root: String,
    folders: SystemFolders<HostRuntime>,
    starter: SystemStarter<HostRuntime>,
    log: io::Stderr,
}

/// A path in the folder where the tests run.
pub fn path_of(rt: &HostRuntime, host: &impl Abort, name: &str) -> String {
    let folder = env::current_dir(rt).expect(host, "a folder");
    let folder = folder.as_str();
    format!(in rt.alloc(); "{folder}/{name}").expect(host, "memory")
}

/// Whether a command line of the shell succeeded.
pub fn sh(rt: &HostRuntime, host: &impl Abort, line: &str) -> bool {
    let mut command = Command::new(rt.alloc(), "sh").expect(host, "memory");
    command.arg("-c").expect(host, "memory");
    command.arg(line).expect(host, "memory");
    command.status(rt).expect(host, "a status").success()
}

/// Makes a state file.
fn format_file(rt: &HostRuntime, host: &impl Abort, path: &str) {
    let mut disk = FileDisk::<Unknown>::create(rt, path).expect(host, "a state file");
    wm_store::format(rt.alloc(), &mut disk).expect(host, "a format");
}

impl Place {
    /// A place of a name, with a new state file, a folder that has `a` (3 bytes) and `d/b`, and no socket yet.
    pub fn new(rt: &HostRuntime, host: &impl Abort, name: &str) -> Place {
        let alloc = rt.alloc();
        let root = path_of(rt, host, name);
        let line = format!(in alloc;
            "rm -rf {name}* && mkdir -p {name}/d && printf abc > {name}/a && : > {name}/d/b"
        ).expect(host, "memory");
        sh(rt, host, line.as_str());
        let state = format!(in alloc; "{name}.state").expect(host, "memory");
        let socket = format!(in alloc; "{name}.socket").expect(host, "memory");
        format_file(rt, host, state.as_str());
        Place {
            state,
            socket,
            root,
            folders: SystemFolders::new(rt.clone().expect(host, "a handle")),
            starter: SystemStarter::new(rt.clone().expect(host, "a handle")),
            log: rt.stderr(),
        }
    }

    /// Serves it until so many sessions have ended.
    pub fn serve<R: Threads + Wait + Clock + Net + Files<File = File> + Sync, G: Turnstile + Sync>(
        &self,
        rt: &R,
        alloc: Global,
        gate: &G,
        sessions: u64,
    ) -> Result<(), Refusal> {
        let settings = Settings {
            workers: 2,
            retention: Retention {
                age_seconds: 43_200,
                interval_seconds: 86_400,
            },
            sessions,
            is_quiet: true,
        };
        let mut printed = Vec::new(alloc);
        let paths = ServerPaths {
            file: self.state.as_str(),
            socket: self.socket.as_str(),
        };
        let tools = Tools {
            folders: &self.folders,
            turnstile: gate,
            starter: &self.starter,
            log: &self.log,
        };
        match serve(rt, alloc, paths, &tools, settings, &mut printed) {
            Ok(served) => {
                drop(served);
                Ok(())
            }
            Err(refusal) => Err(refusal),
        }
    }
}
