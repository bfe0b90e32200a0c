//! A feed of all watched roots. It never ends but by a signal: here, as the stream of records ends.
use crate::memory::Ready;
use crate::runs::{FOLDERS, ONE_ROOT, READY, Run, check_runs};
use wm_names::Kind;

/// A run of all roots that ends with the stream of records.
const ALL: Run = Run {
    words: &["socket"],
    status: 1,
    reported: "wmfeed: inotifywait couldn't be started\n",
    ..ONE_ROOT
};

/// What a server that watches `/r` and `/s` says until both are seen to be watched, 35 ms behind the begin.
const BEGUN_BOTH: &str = r#"{"roots":["/r","/s"],"version":"w1"}
{"clock":"c:1:1:1","version":"w1"}
{"clock":"c:1:2:1","version":"w1"}
{"clock":"c:1:1:1","version":"w1"}
{"clock":"c:1:1:2","version":"w1"}
{"clock":"c:1:1:2","version":"w1"}
{"clock":"c:1:2:1","version":"w1"}
{"clock":"c:1:2:2","version":"w1"}
{"clock":"c:1:2:2","version":"w1"}
{"clock":"c:1:1:2","files":["d"],"is_fresh_instance":true,"version":"w1"}
{"clock":"c:1:2:2","files":[],"is_fresh_instance":true,"version":"w1"}
"#;

/// What a feed does then.
const BEGINS_BOTH: &str = r#"["watch-list"]
["clock","/r"]
watch 1 socket.sync/1 /r/
["clock","/s"]
watch 2 socket.sync/2 /s/
["clock","/r"]
["recrawl","/r"]
["observe","/r",[]]
["clock","/s"]
["recrawl","/s"]
["observe","/s",[]]
["query","/r",{"expression":["allof","exists",["type","d"]],"fields":["name"]}]
["query","/s",{"expression":["allof","exists",["type","d"]],"fields":["name"]}]
"#;

const RUNS: &[Run] = &[
    Run {
        what: "each watched root is fed, and within a second one that is watched later, and one that isn't any longer isn't",
        ready: Ready {
            sessions: &[Some([
                BEGUN_BOTH,
                r#"{"clock":"c:1:2:3","version":"w1"}
{"roots":["/s","/t"],"version":"w1"}
{"clock":"c:1:3:1","version":"w1"}
{"clock":"c:1:3:1","version":"w1"}
{"clock":"c:1:3:2","version":"w1"}
{"clock":"c:1:3:2","version":"w1"}
{"clock":"c:1:3:2","files":[],"is_fresh_instance":true,"version":"w1"}
"#,
            ])],
            records: &[
                (
                    100,
                    b"2\0/s/\0MODIFY\00\0/x\0\n1\0socket.sync/1/\0CREATE\00\0/7\0\n2\0socket.sync/2/\0CREATE\00\0/8\0\n",
                ),
                (700, b""),
            ],
            paths: &[("/r/x", Kind::File, 1, 30), ("/s/x", Kind::File, 2, 31)],
            ..READY
        },
        log: &[
            BEGINS_BOTH,
            r#"remove socket.sync/1/7
["observe","/s",[["x",{"mtime_ms":31,"size":2,"type":"f"}]]]
remove socket.sync/2/8
["watch-list"]
end 1
remove socket.sync/1
["clock","/t"]
watch 3 socket.sync/3 /t/
["clock","/t"]
["recrawl","/t"]
["observe","/t",[]]
["query","/t",{"expression":["allof","exists",["type","d"]],"fields":["name"]}]
"#,
        ],
        took: Some(700),
        ..ALL
    },
    Run {
        what: "the folder of a root that isn't watched any longer is removed, also if a request was refused before the list lacked the root",
        ready: Ready {
            sessions: &[Some([
                BEGUN_BOTH,
                r#"{"error":"5 NotWatched","version":"w1"}
{"roots":["/s"],"version":"w1"}
"#,
            ])],
            records: &[(100, b"1\0/r/\0MODIFY\00\0/a.c\0\n"), (700, b"")],
            ..READY
        },
        log: &[
            BEGINS_BOTH,
            r#"["observe","/r",[["a.c",{"mtime_ms":17,"size":3,"type":"f"}]]]
end 1
["watch-list"]
remove socket.sync/1
"#,
        ],
        ..ALL
    },
    Run {
        what: "lost events of one root leave the other alone, and records of its ended watch are ignored",
        ready: Ready {
            sessions: &[Some([
                BEGUN_BOTH,
                r#"{"clock":"c:1:2:2","version":"w1"}
{"clock":"c:1:2:2","version":"w1"}
{"clock":"c:1:2:3","version":"w1"}
{"clock":"c:1:2:3","version":"w1"}
{"clock":"c:1:2:3","files":[],"is_fresh_instance":true,"version":"w1"}
{"clock":"c:1:1:3","version":"w1"}
"#,
            ])],
            records: &[
                (100, b"2\0\0Q_OVERFLOW\00\0/\0\n"),
                (
                    150,
                    b"1\0/r/\0MODIFY\00\0/a.c\0\n2\0\0Q_OVERFLOW\00\0/\0\n2\0/s/\0MODIFY\00\0/x\0\n",
                ),
                (200, b""),
            ],
            ..READY
        },
        log: &[
            BEGINS_BOTH,
            r#"end 2
["clock","/s"]
watch 3 socket.sync/2 /s/
["clock","/s"]
["recrawl","/s"]
["observe","/s",[]]
["query","/s",{"expression":["allof","exists",["type","d"]],"fields":["name"]}]
["observe","/r",[["a.c",{"mtime_ms":17,"size":3,"type":"f"}]]]
"#,
        ],
        ..ALL
    },
    Run {
        what: "a root that can't be fed rests for a second, which is reported once, while another one is fed",
        ready: Ready {
            sessions: &[Some([
                r#"{"roots":["/r","/s"],"version":"w1"}
{"error":"14 Damaged","version":"w1"}
{"clock":"c:1:2:1","version":"w1"}
{"clock":"c:1:2:1","version":"w1"}
{"clock":"c:1:2:2","version":"w1"}
{"clock":"c:1:2:2","version":"w1"}
{"clock":"c:1:2:2","files":[],"is_fresh_instance":true,"version":"w1"}
"#,
                r#"{"roots":["/r","/s"],"version":"w1"}
{"error":"14 Damaged","version":"w1"}
"#,
            ])],
            records: &[(1_020, b"")],
            ..READY
        },
        log: &[
            r#"["watch-list"]
["clock","/r"]
["clock","/s"]
watch 1 socket.sync/2 /s/
["clock","/s"]
["recrawl","/s"]
["observe","/s",[]]
["query","/s",{"expression":["allof","exists",["type","d"]],"fields":["name"]}]
["watch-list"]
["clock","/r"]
"#,
        ],
        reported: "wmfeed: /r: 14 Damaged
(/r)
wmfeed: inotifywait couldn't be started
",
        ..ALL
    },
    // the list is asked for at 535 ms, and the server is looked for at 600 and 800
];

const SERVERS: &[Run] = &[
    Run {
        what: "a server that ends and is back has its roots crawled, by the inotifywaits that watch them, and then syncs are removed",
        ready: Ready {
            sessions: &[
                Some([
                    r#"{"roots":["/r"],"version":"w1"}
{"clock":"c:1:1:1","version":"w1"}
{"clock":"c:1:1:1","version":"w1"}
{"clock":"c:1:1:2","version":"w1"}
{"clock":"c:1:1:2","version":"w1"}
{"clock":"c:1:1:2","files":["d"],"is_fresh_instance":true,"version":"w1"}
"#,
                    "",
                ]),
                None,
                Some([
                    r#"{"roots":["/r"],"version":"w1"}
{"clock":"c:2:1:3","version":"w1"}
{"clock":"c:2:1:4","version":"w1"}
{"clock":"c:2:1:4","version":"w1"}
"#,
                    "{\"clock\":\"c:2:1:5\",\"version\":\"w1\"}\n",
                ]),
            ],
            records: &[
                (
                    600,
                    b"1\0/r/\0MODIFY\00\0/a.c\0\n1\0socket.sync/1/\0CREATE\00\0/7\0\n",
                ),
                (900, b"1\0/r/\0MODIFY\00\0/a.c\0\n"),
                (1_000, b""),
            ],
            syncs: &[(600, "socket.sync/1/7")],
            ..READY
        },
        log: &[
            r#"["watch-list"]
["clock","/r"]
watch 1 socket.sync/1 /r/
["clock","/r"]
["recrawl","/r"]
["observe","/r",[]]
["query","/r",{"expression":["allof","exists",["type","d"]],"fields":["name"]}]
["watch-list"]
["watch-list"]
["clock","/r"]
["recrawl","/r"]
["observe","/r",[]]
remove socket.sync/1/7
["observe","/r",[["a.c",{"mtime_ms":17,"size":3,"type":"f"}]]]
"#,
        ],
        reported: "wmfeed: socket: the server ended
(socket)
wmfeed: inotifywait couldn't be started
",
        ..ALL
    },
    Run {
        what: "a folder that can be read since the server went is watched once the server is back",
        ready: Ready {
            sessions: &[
                Some([
                    r#"{"roots":["/r"],"version":"w1"}
{"clock":"c:1:1:1","version":"w1"}
{"clock":"c:1:1:1","version":"w1"}
{"error":"13 DeviceFailed","version":"w1"}
{"clock":"c:1:1:2","version":"w1"}
{"error":"13 DeviceFailed","version":"w1"}
{"clock":"c:1:1:2","files":["a.c","d","l"],"is_fresh_instance":true,"version":"w1"}
{"clock":"c:1:1:2","version":"w1"}
{"clock":"c:1:1:2","files":["d"],"is_fresh_instance":true,"version":"w1"}
"#,
                    "",
                ]),
                None,
                Some([
                    r#"{"roots":["/r"],"version":"w1"}
{"clock":"c:2:1:3","version":"w1"}
{"clock":"c:2:1:4","version":"w1"}
{"clock":"c:2:1:4","version":"w1"}
"#,
                    "{\"clock\":\"c:2:1:5\",\"version\":\"w1\"}\n{\"clock\":\"c:2:1:5\",\"version\":\"w1\"}\n",
                ]),
            ],
            records: &[(600, b"1\0/r/\0ATTRIB,ISDIR\00\0/d\0\n"), (890, b"")],
            watched: &[&[], &[5]],
            closed: &[(590, "/r/d")],
            ..READY
        },
        log: &[
            r#"["watch-list"]
["clock","/r"]
watch 1 socket.sync/1 /r/
["clock","/r"]
["recrawl","/r"]
["observe","/r",[["d",{"mtime_ms":18,"size":4096,"type":"d"}],["a.c",{"mtime_ms":17,"size":3,"type":"f"}],["l",{"mtime_ms":20,"size":1,"type":"l"}]]]
["recrawl","/r","d"]
["query","/r",{"expression":"exists","fields":["name"]}]
["observe","/r",[]]
"#,
            FOLDERS,
            r#"["watch-list"]
["watch-list"]
["clock","/r"]
["recrawl","/r"]
["observe","/r",[]]
watch 2 socket.sync/1 /r/d
["recrawl","/r","d"]
["observe","/r",[["d",{"mtime_ms":18,"size":4096,"type":"d"}]]]
"#,
        ],
        reported: "wmfeed: /r/d: the folder can't be read
wmfeed: socket: the server ended
(socket)
wmfeed: inotifywait couldn't be started
",
        ..ALL
    },
    Run {
        what: "a server that isn't there is waited for, which is reported once",
        ready: Ready {
            sessions: &[
                None,
                None,
                Some(["{\"roots\":[],\"version\":\"w1\"}\n", ""]),
            ],
            records: &[(450, b"")],
            ..READY
        },
        log: &["[\"watch-list\"]\n"],
        reported: "wmfeed: socket: no server answers
(socket)
wmfeed: inotifywait couldn't be started
",
        ..ALL
    },
    Run {
        what: "so is one whose list of roots can't be read",
        ready: Ready {
            sessions: &[
                Some(["{\"version\":\"w1\"}\n", ""]),
                Some(["{\"roots\":[\"r\"],\"version\":\"w1\"}\n", ""]),
            ],
            records: &[(300, b"")],
            ..READY
        },
        log: &["[\"watch-list\"]\n[\"watch-list\"]\n"],
        reported: "wmfeed: socket: a reply can't be read
(socket)
wmfeed: inotifywait couldn't be started
",
        ..ALL
    },
    Run {
        what: "without inotifywait it ends at once",
        ready: Ready { starts: 0, ..READY },
        ..ALL
    },
];

#[test]
fn runs_of_all_roots(rt: HostRuntime) {
    check_runs(&rt, rt.alloc(), RUNS);
}

#[test]
fn servers_that_go(rt: HostRuntime) {
    check_runs(&rt, rt.alloc(), SERVERS);
}
