//! Syncs: when a feed removes the file that a client made.
use crate::memory::Ready;
use crate::runs::{
    AT_ONCE, BEGINS, BEGUN, ENDS, ESTABLISHED, FOLDERS, ONE_ROOT, READY, Run, check_runs,
};

/// What a new watch is answered that begins with a crawl, and the last question.
const BEGUN_ANEW: &str = r#"{"clock":"c:1:1:4","version":"w1"}
{"clock":"c:1:1:4","version":"w1"}
{"clock":"c:1:1:5","version":"w1"}
{"clock":"c:1:1:5","version":"w1"}
{"clock":"c:1:1:5","files":["d"],"is_fresh_instance":true,"version":"w1"}
{"error":"5 NotWatched","version":"w1"}
"#;

/// Each ends as the root isn't watched any longer.
const RUNS: &[Run] = &[
    Run {
        what: "a file is removed once the server knows what was reported before it, and at once if nothing was",
        ready: Ready {
            sessions: &[Some([
                BEGUN,
                r#"{"clock":"c:1:1:2","version":"w1"}
{"error":"5 NotWatched","version":"w1"}
"#,
            ])],
            records: &[
                (
                    100,
                    b"1\0/r/\0MODIFY\00\0/a.c\0\n1\0socket.sync/1/\0CREATE\00\0/7\0\n",
                ),
                (
                    110,
                    b"1\0socket.sync/1/\0CLOSE_WRITE,CLOSE\00\0/7\0\n1\0socket.sync/1/\0DELETE\00\0/7\0\n",
                ),
                (200, b"1\0socket.sync/1/\0MOVED_TO\08a1\0/8\0\n"),
            ],
            ..READY
        },
        log: &[
            BEGINS,
            r#"["observe","/r",[["a.c",{"mtime_ms":17,"size":3,"type":"f"}]]]
remove socket.sync/1/7
remove socket.sync/1/8
"#,
            ENDS,
        ],
        took: Some(1_200),
        ..ONE_ROOT
    },
    Run {
        what: "one that stood there before inotifywait did is removed once the root is crawled and each folder is seen to be watched",
        ready: Ready {
            sessions: &[Some([BEGUN, "{\"error\":\"5 NotWatched\",\"version\":\"w1\"}\n"])],
            syncs: &[(0, "socket.sync/1/7")],
            ..READY
        },
        log: &[BEGINS, "remove socket.sync/1/7\n", ENDS],
        // crawled at 15 ms, and looked for 2 ms later
        took: Some(1_017),
        ..ONE_ROOT
    },
    Run {
        what: "one behind a folder that moved waits until all folders are seen to be watched",
        ready: Ready {
            sessions: &[Some([
                BEGUN,
                r#"{"clock":"c:1:1:2","version":"w1"}
{"clock":"c:1:1:3","version":"w1"}
{"clock":"c:1:1:4","version":"w1"}
{"clock":"c:1:1:4","files":["d"],"is_fresh_instance":true,"version":"w1"}
{"error":"5 NotWatched","version":"w1"}
"#,
            ])],
            records: &[(
                100,
                b"1\0/r/\0MOVED_FROM,ISDIR\08a1\0/o\0\n1\0/r/\0MODIFY\00\0/a.c\0\n1\0/r/\0MOVED_TO,ISDIR\08a1\0/d\0\n1\0socket.sync/1/\0CREATE\00\0/7\0\n",
            )],
            ..READY
        },
        log: &[
            BEGINS,
            r#"["recrawl","/r","d"]
["recrawl","/r","o"]
["observe","/r",[["a.c",{"mtime_ms":17,"size":3,"type":"f"}],["d",{"mtime_ms":18,"size":4096,"type":"d"}],["o",null]]]
"#,
            FOLDERS,
            "remove socket.sync/1/7\n",
            ENDS,
        ],
        took: Some(1_100),
        ..ONE_ROOT
    },
    Run {
        what: "one behind a record by a name at which no folder is waits for a new watch and its crawl",
        ready: Ready {
            sessions: &[Some([
                r#"{"version":"w1","watch":"/r"}
{"clock":"c:1:1:1","version":"w1"}
{"clock":"c:1:1:1","version":"w1"}
{"clock":"c:1:1:1","version":"w1"}
{"clock":"c:1:1:1","version":"w1"}
{"clock":"c:1:1:1","files":["d"],"is_fresh_instance":true,"version":"w1"}
{"clock":"c:1:1:2","version":"w1"}
"#,
                BEGUN_ANEW,
            ])],
            records: &[(
                100,
                b"1\0/r/o/\0MODIFY\00\0/b\0\n1\0socket.sync/1/\0CREATE\00\0/7\0\n",
            )],
            syncs: &[(100, "socket.sync/1/7")],
            ..READY
        },
        log: &[
            BEGINS,
            r#"["observe","/r",[["o/b",null]]]
end 1
["clock","/r"]
watch 2 socket.sync/1 /r/
["clock","/r"]
["recrawl","/r"]
["observe","/r",[]]
"#,
            FOLDERS,
            r#"remove socket.sync/1/7
["clock","/r"]
end 2
remove socket.sync/1
"#,
        ],
        // a doubt at 160 ms, begun anew at 161, crawled at 176
        took: Some(1_178),
        ..ONE_ROOT
    },
    Run {
        what: "one behind lost events too, though the watch that reported it ended",
        ready: Ready {
            sessions: &[Some([BEGUN, BEGUN_ANEW])],
            records: &[(
                100,
                b"1\0\0Q_OVERFLOW\00\0/\0\n1\0socket.sync/1/\0CREATE\00\0/7\0\n",
            )],
            syncs: &[(100, "socket.sync/1/7")],
            ..READY
        },
        log: &[
            BEGINS,
            r#"end 1
["clock","/r"]
watch 2 socket.sync/1 /r/
["clock","/r"]
["recrawl","/r"]
["observe","/r",[]]
"#,
            FOLDERS,
            r#"remove socket.sync/1/7
["clock","/r"]
end 2
remove socket.sync/1
"#,
        ],
        took: Some(1_118),
        ..ONE_ROOT
    },
    Run {
        what: "one behind a new folder waits too if inotifywait says that it couldn't watch the folder",
        ready: Ready {
            sessions: &[Some([
                r#"{"version":"w1","watch":"/r"}
{"clock":"c:1:1:1","version":"w1"}
{"clock":"c:1:1:1","version":"w1"}
{"clock":"c:1:1:1","version":"w1"}
{"clock":"c:1:1:1","version":"w1"}
{"clock":"c:1:1:1","files":[],"is_fresh_instance":true,"version":"w1"}
"#,
                r#"{"clock":"c:1:1:2","version":"w1"}
{"clock":"c:1:1:2","version":"w1"}
{"clock":"c:1:1:2","files":["d"],"is_fresh_instance":true,"version":"w1"}
{"clock":"c:1:1:2","files":["d"],"is_fresh_instance":true,"version":"w1"}
{"clock":"c:1:1:2","files":["d"],"is_fresh_instance":true,"version":"w1"}
{"clock":"c:1:1:2","files":["d"],"is_fresh_instance":true,"version":"w1"}
{"clock":"c:1:1:3","version":"w1"}
{"clock":"c:1:1:3","version":"w1"}
{"clock":"c:1:1:3","files":["d"],"is_fresh_instance":true,"version":"w1"}
{"error":"5 NotWatched","version":"w1"}
"#,
            ])],
            records: &[
                (90, b"1\0/r/\0CREATE,ISDIR\00\0/d\0\n"),
                (95, b"1\0socket.sync/1/\0CREATE\00\0/7\0\n"),
            ],
            words: &[
                &[
                    (0, ESTABLISHED),
                    (
                        90,
                        b"Couldn't watch new directory /r/d: No space left on device\n",
                    ),
                ],
                AT_ONCE,
            ],
            watched: &[&[], &[5]],
            syncs: &[(95, "socket.sync/1/7")],
            ..READY
        },
        log: &[
            BEGINS,
            r#"["recrawl","/r","d"]
["observe","/r",[["d",{"mtime_ms":18,"size":4096,"type":"d"}]]]
"#,
            FOLDERS,
            FOLDERS,
            FOLDERS,
            FOLDERS,
            r#"watch 2 socket.sync/1 /r/d
["recrawl","/r","d"]
["observe","/r",[["d",{"mtime_ms":18,"size":4096,"type":"d"}]]]
"#,
            FOLDERS,
            r#"remove socket.sync/1/7
["clock","/r"]
end 1
end 2
remove socket.sync/1
"#,
        ],
        reported: "wmfeed: inotifywait: Couldn't watch new directory /r/d: No space left on device
wmfeed: the root isn't watched any longer
",
        ..ONE_ROOT
    },
];

#[test]
fn syncs_of_the_runs(rt: HostRuntime) {
    check_runs(&rt, rt.alloc(), RUNS);
}
