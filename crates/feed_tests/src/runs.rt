//! Runs of `wmfeed` on a system in memory.
use crate::checks::check;
use crate::done::Done;
use crate::memory::{Coming, Memory, Ready};
use std::alloc::Global;
use std::process::Abort;
use wm_client::wmfeed;
use wm_names::Kind;

/// What inotifywait says until each folder is watched.
pub const ESTABLISHED: &[u8] =
    b"Setting up watches.  Beware: since -r was given, this may take a while!\nWatches established.\n";

/// An inotifywait that watches at once.
pub const AT_ONCE: Coming = &[(0, ESTABLISHED)];

/// A system whose root holds a file and a folder, which is watched, and whose server isn't there.
pub const READY: Ready = Ready {
    sessions: &[],
    is_deaf: false,
    slow: 0,
    starts: 20,
    records: &[],
    repeated: None,
    words: &[AT_ONCE],
    watched: &[&[5]],
    paths: &[
        ("/r/a.c", Kind::File, 3, 17),
        ("/r/d", Kind::Folder, 4_096, 18),
        ("/r/d/b", Kind::File, 0, 19),
        ("/r/l", Kind::Link, 1, 20),
        ("/r/l/c", Kind::File, 2, 21),
    ],
    folders: &[("/r/d", 5)],
    closed: &[],
    roots: &[],
    has_syncs: true,
    syncs: &[],
};

/// What a feed of one root does first, until it has seen 35 ms after its begin that each folder is watched.
pub const BEGINS: &str = r#"["watch","/r"]
["clock","/r"]
watch 1 socket.sync/1 /r/
["clock","/r"]
["recrawl","/r"]
["observe","/r",[]]
["query","/r",{"expression":["allof","exists",["type","d"]],"fields":["name"]}]
"#;

/// What that is answered.
pub const BEGUN: &str = r#"{"version":"w1","watch":"/r"}
{"clock":"c:1:1:1","version":"w1"}
{"clock":"c:1:1:1","version":"w1"}
{"clock":"c:1:1:1","version":"w1"}
{"clock":"c:1:1:1","version":"w1"}
{"clock":"c:1:1:1","files":["d"],"is_fresh_instance":true,"version":"w1"}
"#;

/// The question for all folders of the root.
pub const FOLDERS: &str =
    r#"["query","/r",{"expression":["allof","exists",["type","d"]],"fields":["name"]}]
"#;

/// The question a second after the last request, and the end that a refusal of it leads to if one inotifywait watches.
pub const ENDS: &str = r#"["clock","/r"]
end 1
remove socket.sync/1
"#;

/// What `wmfeed` reports of a root that isn't watched any longer.
pub const WATCH_GONE: &str = "wmfeed: the root isn't watched any longer\n";

/// A run of `wmfeed`: what is ready, what is done, and the end.
#[derive(Clone, Copy)]
pub struct Run {
    pub what: &'static str,
    /// The words behind the program's name.
    pub words: &'static [&'static str],
    pub ready: Ready,
    /// What is sent to the server and done to the system, part by part: each request, `watch NUMBER FOLDER..` for a start of inotifywait,
    /// `end NUMBER` for its end, and `remove PATH`.
    pub log: &'static [&'static str],
    pub status: u8,
    /// All that is reported to the user, with `(PATH)` behind a line that is explained.
    pub reported: &'static str,
    /// When it ends, in milliseconds, if that is part of the row.
    pub took: Option<u64>,
}

/// A run of one root that isn't watched any longer at last.
pub const ONE_ROOT: Run = Run {
    what: "",
    words: &["socket", "/r"],
    ready: READY,
    log: &[],
    status: 0,
    reported: WATCH_GONE,
    took: None,
};

/// Runs `wmfeed` on a system, and fails the test if it does or reports anything else.
pub fn check_run(rt: &impl Abort, alloc: Global, run: &Run) {
    let done = Done::new(alloc);
    let memory = Memory {
        ready: run.ready,
        done: &done,
    };
    let mut printed = Vec::new(alloc);
    let mut reported = Vec::new(alloc);
    let status = wmfeed(alloc, &memory, run.words, &mut printed, &mut reported);
    done.report(&reported);
    let log = done.log().expect(rt, "memory");
    let mut wanted = String::new(alloc);
    for part in run.log {
        wanted.push_str(part).expect(rt, "memory");
    }
    check!(*rt; log.as_str() == wanted.as_str(), (run.what, log));
    let reported = done.reported().expect(rt, "memory");
    check!(*rt; reported.as_str() == run.reported, (run.what, reported));
    check!(*rt; status == run.status && printed.is_empty(), run.what);
    let took = done.now();
    check!(*rt; run.took.is_none() || run.took == Some(took), (run.what, took));
}

/// Runs each row of a table.
pub fn check_runs(rt: &impl Abort, alloc: Global, runs: &[Run]) {
    for run in runs {
        check_run(rt, alloc, run);
    }
}
