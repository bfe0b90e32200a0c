//! Syncs of a root that several inotifywaits watch.
use crate::memory::Ready;
use crate::runs::{BEGINS, BEGUN, ONE_ROOT, READY, Run, check_runs};

/// Each ends as the root isn't watched any longer.
const RUNS: &[Run] = &[
    Run {
        what: "a file behind a new folder waits until a folder in it that was missed is watched and crawled; and then each inotifywait has to report it",
        ready: Ready {
            sessions: &[Some([
                BEGUN,
                r#"{"clock":"c:1:1:2","version":"w1"}
{"clock":"c:1:1:3","version":"w1"}
{"clock":"c:1:1:4","version":"w1"}
{"clock":"c:1:1:5","version":"w1"}
{"clock":"c:1:1:6","version":"w1"}
{"error":"5 NotWatched","version":"w1"}
"#,
            ])],
            records: &[
                (
                    100,
                    b"1\0/r/\0CREATE,ISDIR\00\0/d\0\n1\0socket.sync/1/\0CREATE\00\0/7\0\n",
                ),
                (200, b"1\0socket.sync/1/\0CREATE\00\0/8\0\n"),
                (205, b"2\0/r/d/e/\0MODIFY\00\0/x\0\n"),
                (210, b"2\0socket.sync/1/\0CREATE\00\0/8\0\n"),
            ],
            folders: &[("/r/d", 5), ("/r/d/e", 6)],
            watched: &[&[5], &[6]],
            syncs: &[(100, "socket.sync/1/7"), (200, "socket.sync/1/8")],
            ..READY
        },
        log: &[
            BEGINS,
            r#"["recrawl","/r","d"]
["observe","/r",[["d",{"mtime_ms":18,"size":4096,"type":"d"}]]]
watch 2 socket.sync/1 /r/d/e
["recrawl","/r","d/e"]
["observe","/r",[["d/e",{"mtime_ms":22,"size":4096,"type":"d"}]]]
remove socket.sync/1/7
["observe","/r",[["d/e/x",null]]]
remove socket.sync/1/8
["clock","/r"]
end 1
end 2
remove socket.sync/1
"#,
        ],
        took: Some(1_210),
        ..ONE_ROOT
    },
    Run {
        what: "a file that stands there when an inotifywait more begins is reported by that one alone, and not by those that began before",
        ready: Ready {
            sessions: &[Some([
                BEGUN,
                r#"{"clock":"c:1:1:2","version":"w1"}
{"clock":"c:1:1:2","version":"w1"}
{"clock":"c:1:1:3","version":"w1"}
{"clock":"c:1:1:3","version":"w1"}
{"clock":"c:1:1:4","version":"w1"}
{"clock":"c:1:1:4","version":"w1"}
{"clock":"c:1:1:5","version":"w1"}
{"clock":"c:1:1:5","version":"w1"}
{"clock":"c:1:1:6","version":"w1"}
{"error":"5 NotWatched","version":"w1"}
"#,
            ])],
            records: &[
                (100, b"1\0/r/\0CREATE,ISDIR\00\0/d\0\n"),
                (300, b"1\0/r/\0CREATE,ISDIR\00\0/g\0\n"),
                (362, b"1\0socket.sync/1/\0CREATE\00\0/8\0\n"),
                (
                    370,
                    b"2\0/r/d/e/\0MODIFY\00\0/x\0\n2\0socket.sync/1/\0CREATE\00\0/8\0\n",
                ),
            ],
            folders: &[("/r/d", 5), ("/r/d/e", 6), ("/r/g", 7), ("/r/g/h", 8)],
            watched: &[&[5, 7], &[6], &[8]],
            syncs: &[(362, "socket.sync/1/8")],
            ..READY
        },
        log: &[
            BEGINS,
            r#"["recrawl","/r","d"]
["observe","/r",[["d",{"mtime_ms":18,"size":4096,"type":"d"}]]]
watch 2 socket.sync/1 /r/d/e
["recrawl","/r","d/e"]
["observe","/r",[["d/e",{"mtime_ms":22,"size":4096,"type":"d"}]]]
["recrawl","/r","g"]
["observe","/r",[["g",{"mtime_ms":22,"size":4096,"type":"d"}]]]
watch 3 socket.sync/1 /r/g/h
["recrawl","/r","g/h"]
["observe","/r",[["g/h",{"mtime_ms":22,"size":4096,"type":"d"}]]]
["observe","/r",[["d/e/x",null]]]
remove socket.sync/1/8
["clock","/r"]
end 1
end 2
end 3
remove socket.sync/1
"#,
        ],
        ..ONE_ROOT
    },
    Run {
        what: "a file that its client took away before an inotifywait more began is forgotten, and the next batches are gathered",
        ready: Ready {
            sessions: &[Some([
                BEGUN,
                r#"{"clock":"c:1:1:2","version":"w1"}
{"clock":"c:1:1:2","version":"w1"}
{"clock":"c:1:1:2","version":"w1"}
{"clock":"c:1:1:2","version":"w1"}
{"clock":"c:1:1:2","version":"w1"}
{"clock":"c:1:1:2","version":"w1"}
{"clock":"c:1:1:2","version":"w1"}
{"clock":"c:1:1:2","version":"w1"}
{"clock":"c:1:1:2","version":"w1"}
{"clock":"c:1:1:2","version":"w1"}
{"error":"5 NotWatched","version":"w1"}
"#,
            ])],
            records: &[
                (
                    100,
                    b"1\0/r/\0CREATE,ISDIR\00\0/d\0\n1\0socket.sync/1/\0CREATE\00\0/7\0\n",
                ),
                (109, b"1\0socket.sync/1/\0DELETE\00\0/7\0\n"),
                (200, b"1\0/r/\0DELETE\00\0/0\0\n"),
                (201, b"1\0/r/\0DELETE\00\0/1\0\n"),
                (202, b"1\0/r/\0DELETE\00\0/2\0\n"),
                (203, b"1\0/r/\0DELETE\00\0/3\0\n"),
                (204, b"1\0/r/\0DELETE\00\0/4\0\n"),
                (205, b"1\0/r/\0DELETE\00\0/5\0\n"),
                (206, b"1\0/r/\0DELETE\00\0/6\0\n"),
            ],
            folders: &[("/r/d", 5), ("/r/d/e", 6)],
            watched: &[&[5], &[6]],
            ..READY
        },
        log: &[
            BEGINS,
            r#"["recrawl","/r","d"]
["observe","/r",[["d",{"mtime_ms":18,"size":4096,"type":"d"}]]]
watch 2 socket.sync/1 /r/d/e
["recrawl","/r","d/e"]
["observe","/r",[["d/e",{"mtime_ms":22,"size":4096,"type":"d"}]]]
["observe","/r",[["0",null]]]
["observe","/r",[["1",null]]]
["observe","/r",[["2",null]]]
["observe","/r",[["3",null]]]
["observe","/r",[["4",null]]]
["observe","/r",[["5",null],["6",null]]]
["clock","/r"]
end 1
end 2
remove socket.sync/1
"#,
        ],
        ..ONE_ROOT
    },
];

#[test]
fn syncs_of_several_watches(rt: HostRuntime) {
    check_runs(&rt, rt.alloc(), RUNS);
}
