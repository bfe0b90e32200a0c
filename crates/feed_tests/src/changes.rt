//! What a feed sends of changes.
use crate::memory::Ready;
use crate::runs::{BEGINS, BEGUN, ENDS, FOLDERS, ONE_ROOT, READY, Run, check_runs};

/// Each ends as the root isn't watched any longer.
const RUNS: &[Run] = &[
    Run {
        what: "a file that was written is observed with what it has, and one that was made with its folder",
        ready: Ready {
            sessions: &[Some([
                BEGUN,
                r#"{"clock":"c:1:1:2","version":"w1"}
{"clock":"c:1:1:3","version":"w1"}
{"error":"5 NotWatched","version":"w1"}
"#,
            ])],
            records: &[
                (
                    100,
                    b"1\0/r/d/\0CLOSE_WRITE,CLOSE\00\0/b\0\n1\0/r/\0ATTRIB\00\0/a.c\0\n",
                ),
                (200, b"1\0/r/d/\0CREATE\00\0/b\0\n"),
            ],
            ..READY
        },
        log: &[
            BEGINS,
            r#"["observe","/r",[["a.c",{"mtime_ms":17,"size":3,"type":"f"}],["d/b",{"mtime_ms":19,"size":0,"type":"f"}]]]
["observe","/r",[["d",{"mtime_ms":18,"size":4096,"type":"d"}],["d/b",{"mtime_ms":19,"size":0,"type":"f"}]]]
"#,
            ENDS,
        ],
        took: Some(1_200),
        ..ONE_ROOT
    },
    Run {
        what: "a path that is deleted is observed as null, with its folder",
        ready: Ready {
            sessions: &[Some([
                BEGUN,
                r#"{"clock":"c:1:1:2","version":"w1"}
{"error":"5 NotWatched","version":"w1"}
"#,
            ])],
            records: &[(100, b"1\0/r/d/\0DELETE\00\0/gone\0\n")],
            ..READY
        },
        log: &[
            BEGINS,
            r#"["observe","/r",[["d",{"mtime_ms":18,"size":4096,"type":"d"}],["d/gone",null]]]
"#,
            ENDS,
        ],
        ..ONE_ROOT
    },
    Run {
        what: "what is reached through a link only isn't there; the link, which stands in a folder's place, is",
        ready: Ready {
            sessions: &[Some([
                BEGUN,
                r#"{"clock":"c:1:1:2","version":"w1"}
{"clock":"c:1:1:2","version":"w1"}
{"clock":"c:1:1:2","version":"w1"}
{"error":"5 NotWatched","version":"w1"}
"#,
            ])],
            records: &[
                (100, b"1\0/r/l/\0MODIFY\00\0/c\0\n"),
                (110, b"1\0/r/\0DELETE,ISDIR\00\0/l\0\n"),
            ],
            ..READY
        },
        log: &[
            BEGINS,
            r#"["observe","/r",[["l/c",null]]]
["recrawl","/r","l"]
["observe","/r",[["l",{"mtime_ms":20,"size":1,"type":"l"}]]]
"#,
            ENDS,
        ],
        ..ONE_ROOT
    },
    Run {
        what: "records that come in pieces, and the same path again, are one observation",
        ready: Ready {
            sessions: &[Some([
                BEGUN,
                r#"{"clock":"c:1:1:2","version":"w1"}
{"error":"5 NotWatched","version":"w1"}
"#,
            ])],
            records: &[
                (100, b"1\0/r/\0CREATE\00\0/x\0\n1\0/r/\0MOD"),
                (100, b"IFY\00\0/a.c\0\n"),
                (100, b"1\0/r/\0MODIFY\00\0/a.c\0\n1\0/r/\0DELETE\00\0/x\0\n"),
            ],
            ..READY
        },
        log: &[
            BEGINS,
            r#"["observe","/r",[["a.c",{"mtime_ms":17,"size":3,"type":"f"}],["x",null]]]
"#,
            ENDS,
        ],
        ..ONE_ROOT
    },
    // the fifth is sent at 104 ms, so that the sixth waits until 107
    Run {
        what: "behind five batches in a row what comes in 3 ms is sent together, unless a client waits",
        ready: Ready {
            sessions: &[Some([
                BEGUN,
                r#"{"clock":"c:1:1:2","version":"w1"}
{"clock":"c:1:1:3","version":"w1"}
{"clock":"c:1:1:4","version":"w1"}
{"clock":"c:1:1:5","version":"w1"}
{"clock":"c:1:1:6","version":"w1"}
{"clock":"c:1:1:7","version":"w1"}
{"clock":"c:1:1:8","version":"w1"}
{"error":"5 NotWatched","version":"w1"}
"#,
            ])],
            records: &[
                (100, b"1\0/r/\0DELETE\00\0/0\0\n"),
                (101, b"1\0/r/\0DELETE\00\0/1\0\n"),
                (102, b"1\0/r/\0DELETE\00\0/2\0\n"),
                (103, b"1\0/r/\0DELETE\00\0/3\0\n"),
                (104, b"1\0/r/\0DELETE\00\0/4\0\n"),
                (105, b"1\0/r/\0DELETE\00\0/5\0\n"),
                (106, b"1\0/r/\0DELETE\00\0/6\0\n"),
                (107, b"1\0/r/\0DELETE\00\0/7\0\n"),
                (
                    108,
                    b"1\0/r/\0DELETE\00\0/8\0\n1\0socket.sync/1/\0CREATE\00\0/s\0\n",
                ),
            ],
            ..READY
        },
        log: &[
            BEGINS,
            r#"["observe","/r",[["0",null]]]
["observe","/r",[["1",null]]]
["observe","/r",[["2",null]]]
["observe","/r",[["3",null]]]
["observe","/r",[["4",null]]]
["observe","/r",[["5",null],["6",null],["7",null]]]
["observe","/r",[["8",null]]]
remove socket.sync/1/s
"#,
            ENDS,
        ],
        took: Some(1_108),
        ..ONE_ROOT
    },
    Run {
        what: "lost events lead to a new watch and a crawl of the root, and records of the ended watch are ignored",
        ready: Ready {
            sessions: &[Some([
                BEGUN,
                r#"{"clock":"c:1:1:1","version":"w1"}
{"clock":"c:1:1:1","version":"w1"}
{"clock":"c:1:1:4","version":"w1"}
{"clock":"c:1:1:4","version":"w1"}
{"clock":"c:1:1:4","files":["d"],"is_fresh_instance":true,"version":"w1"}
{"error":"5 NotWatched","version":"w1"}
"#,
            ])],
            records: &[
                (
                    100,
                    b"1\0/r/\0MODIFY\00\0/a.c\0\n1\0\0Q_OVERFLOW\00\0/\0\n1\0/r/\0CREATE\00\0/x\0\n",
                ),
                (150, b"1\0/r/\0MODIFY\00\0/a.c\0\n1\0\0Q_OVERFLOW\00\0/\0\n"),
            ],
            ..READY
        },
        log: &[
            BEGINS,
            r#"end 1
["clock","/r"]
watch 2 socket.sync/1 /r/
["clock","/r"]
["recrawl","/r"]
["observe","/r",[]]
"#,
            FOLDERS,
            r#"["clock","/r"]
end 2
remove socket.sync/1
"#,
        ],
        // begun anew at 101 ms, since it is no fault
        took: Some(1_150),
        ..ONE_ROOT
    },
    Run {
        what: "so does a record without the number of its watch, which another one may have torn apart",
        ready: Ready {
            sessions: &[Some([
                BEGUN,
                r#"{"clock":"c:1:1:1","version":"w1"}
{"error":"5 NotWatched","version":"w1"}
"#,
            ])],
            records: &[(100, b"/r/\0MODIFY\00\0/a.c\0\n1\0/r/\0CREATE\00\0/x\0\n")],
            ..READY
        },
        log: &[
            BEGINS,
            r#"end 1
["clock","/r"]
watch 2 socket.sync/1 /r/
["clock","/r"]
end 2
remove socket.sync/1
"#,
        ],
        took: Some(116),
        ..ONE_ROOT
    },
];

#[test]
fn changes_of_the_table(rt: HostRuntime) {
    check_runs(&rt, rt.alloc(), RUNS);
}
