//! What a feed sends of folders that move, and of names at which no folder is.
use crate::memory::Ready;
use crate::runs::{BEGINS, BEGUN, ENDS, FOLDERS, ONE_ROOT, READY, Run, check_runs};
use wm_names::Kind;

/// Each ends as the root isn't watched any longer.
const RUNS: &[Run] = &[
    Run {
        what: "a folder that is renamed is crawled at both names, and its watch goes on; what is reported by the old name may be at the new one",
        ready: Ready {
            sessions: &[Some([
                BEGUN,
                r#"{"clock":"c:1:1:2","version":"w1"}
{"clock":"c:1:1:3","version":"w1"}
{"clock":"c:1:1:4","version":"w1"}
{"clock":"c:1:1:5","version":"w1"}
{"error":"5 NotWatched","version":"w1"}
"#,
            ])],
            records: &[
                (
                    100,
                    b"1\0/r/\0MOVED_FROM,ISDIR\08a1\0/o\0\n1\0/r/\0MOVED_TO,ISDIR\08a1\0/d\0\n1\0/r/d/\0MOVE_SELF\00\0/\0\n",
                ),
                (200, b"1\0/r/o/\0MODIFY\00\0/b\0\n"),
            ],
            ..READY
        },
        log: &[
            BEGINS,
            r#"["recrawl","/r","d"]
["recrawl","/r","o"]
["observe","/r",[["d",{"mtime_ms":18,"size":4096,"type":"d"}],["o",null]]]
["observe","/r",[["d/b",{"mtime_ms":19,"size":0,"type":"f"}],["o/b",null]]]
"#,
            ENDS,
        ],
        ..ONE_ROOT
    },
    Run {
        what: "if another record parts its arrival from its departure, all folders are checked in a quiet second",
        ready: Ready {
            sessions: &[Some([
                BEGUN,
                r#"{"clock":"c:1:1:2","version":"w1"}
{"clock":"c:1:1:3","version":"w1"}
{"clock":"c:1:1:4","version":"w1"}
{"clock":"c:1:1:4","files":["d"],"is_fresh_instance":true,"version":"w1"}
{"error":"5 NotWatched","version":"w1"}
"#,
            ])],
            records: &[(
                100,
                b"1\0/r/\0MOVED_FROM,ISDIR\08a1\0/o\0\n1\0/r/\0MODIFY\00\0/a.c\0\n1\0/r/\0MOVED_TO,ISDIR\08a1\0/d\0\n",
            )],
            ..READY
        },
        log: &[
            BEGINS,
            r#"["recrawl","/r","d"]
["recrawl","/r","o"]
["observe","/r",[["a.c",{"mtime_ms":17,"size":3,"type":"f"}],["d",{"mtime_ms":18,"size":4096,"type":"d"}],["o",null]]]
"#,
            FOLDERS,
            ENDS,
        ],
        ..ONE_ROOT
    },
    Run {
        what: "so they are if a folder leaves the root, whose watch inotifywait may keep",
        ready: Ready {
            sessions: &[Some([
                BEGUN,
                r#"{"clock":"c:1:1:2","version":"w1"}
{"clock":"c:1:1:3","version":"w1"}
{"clock":"c:1:1:4","files":["d"],"is_fresh_instance":true,"version":"w1"}
{"error":"5 NotWatched","version":"w1"}
"#,
            ])],
            records: &[(100, b"1\0/r/\0MOVED_FROM,ISDIR\08a1\0/o\0\n")],
            ..READY
        },
        log: &[
            BEGINS,
            r#"["recrawl","/r","o"]
["observe","/r",[["o",null]]]
"#,
            FOLDERS,
            ENDS,
        ],
        ..ONE_ROOT
    },
    Run {
        what: "a folder that comes from elsewhere after one left leads to a new watch, which is no fault",
        ready: Ready {
            sessions: &[Some([
                BEGUN,
                r#"{"clock":"c:1:1:2","version":"w1"}
{"clock":"c:1:1:2","version":"w1"}
{"clock":"c:1:1:2","version":"w1"}
{"clock":"c:1:1:2","version":"w1"}
{"clock":"c:1:1:2","files":["d"],"is_fresh_instance":true,"version":"w1"}
{"error":"5 NotWatched","version":"w1"}
"#,
            ])],
            records: &[(
                100,
                b"1\0/r/\0MOVED_FROM,ISDIR\08a1\0/o\0\n1\0/r/\0MOVED_TO,ISDIR\08a2\0/d\0\n",
            )],
            ..READY
        },
        log: &[
            BEGINS,
            r#"end 1
["clock","/r"]
watch 2 socket.sync/1 /r/
["clock","/r"]
["recrawl","/r"]
["observe","/r",[]]
"#,
            FOLDERS,
            r#"["clock","/r"]
end 2
remove socket.sync/1
"#,
        ],
        // begun anew at 101 ms, crawled at 116, seen at 136
        took: Some(1_136),
        ..ONE_ROOT
    },
    Run {
        what: "a record by a name at which no folder is for 60 ms, and none was, leads to a new watch",
        ready: Ready {
            sessions: &[Some([
                BEGUN,
                r#"{"clock":"c:1:1:1","version":"w1"}
{"error":"5 NotWatched","version":"w1"}
"#,
            ])],
            records: &[(100, b"1\0/r/o/\0MODIFY\00\0/b\0\n")],
            ..READY
        },
        log: &[
            BEGINS,
            r#"["observe","/r",[["o/b",null]]]
end 1
["clock","/r"]
remove socket.sync/1
"#,
        ],
        // looked for at 120 ms, and again until 180
        took: Some(181),
        ..ONE_ROOT
    },
    Run {
        what: "but one that was removed doesn't",
        ready: Ready {
            sessions: &[Some([
                BEGUN,
                r#"{"clock":"c:1:1:1","version":"w1"}
{"clock":"c:1:1:1","version":"w1"}
{"clock":"c:1:1:1","version":"w1"}
{"error":"5 NotWatched","version":"w1"}
"#,
            ])],
            records: &[
                (100, b"1\0/r/o/p/\0DELETE\00\0/b\0\n"),
                (110, b"1\0/r/\0DELETE,ISDIR\00\0/o\0\n"),
            ],
            ..READY
        },
        log: &[
            BEGINS,
            r#"["observe","/r",[["o/p",null],["o/p/b",null]]]
["recrawl","/r","o"]
["observe","/r",[["o",null]]]
"#,
            ENDS,
        ],
        ..ONE_ROOT
    },
];

/// What a feed does as an inotifywait more watches the folder `d/e`.
const WATCHES_MORE: &str = r#"["recrawl","/r","d"]
["observe","/r",[["d",{"mtime_ms":18,"size":4096,"type":"d"}]]]
watch 2 socket.sync/1 /r/d/e
["recrawl","/r","d/e"]
["observe","/r",[["d/e",{"mtime_ms":22,"size":4096,"type":"d"}]]]
"#;

/// Moves from the folder of one inotifywait to that of another one, which reports the arrival first.
const EARLY: &[Run] = &[
    Run {
        what: "a folder whose arrival is reported before its departure is known by both names from then on",
        ready: Ready {
            sessions: &[Some([
                BEGUN,
                r#"{"clock":"c:1:1:2","version":"w1"}
{"clock":"c:1:1:2","version":"w1"}
{"clock":"c:1:1:2","version":"w1"}
{"clock":"c:1:1:2","version":"w1"}
{"clock":"c:1:1:3","version":"w1"}
{"clock":"c:1:1:3","version":"w1"}
{"clock":"c:1:1:4","version":"w1"}
{"clock":"c:1:1:4","version":"w1"}
{"clock":"c:1:1:4","version":"w1"}
{"clock":"c:1:1:5","version":"w1"}
{"clock":"c:1:1:5","files":["d"],"is_fresh_instance":true,"version":"w1"}
{"error":"5 NotWatched","version":"w1"}
"#,
            ])],
            records: &[
                (100, b"1\0/r/\0CREATE,ISDIR\00\0/d\0\n"),
                (300, b"1\0/r/\0MOVED_TO,ISDIR\08a1\0/y\0\n"),
                (350, b"2\0/r/d/e/\0MOVED_FROM,ISDIR\08a1\0/o\0\n"),
                (400, b"2\0/r/d/e/o/\0MODIFY\00\0/b\0\n"),
            ],
            paths: &[
                ("/r/d", Kind::Folder, 4_096, 18),
                ("/r/y", Kind::Folder, 4_096, 23),
                ("/r/y/b", Kind::File, 6, 24),
            ],
            folders: &[("/r/d", 5), ("/r/d/e", 6), ("/r/y", 7)],
            watched: &[&[5], &[6, 7]],
            ..READY
        },
        log: &[
            BEGINS,
            WATCHES_MORE,
            r#"["recrawl","/r","y"]
["observe","/r",[["y",{"mtime_ms":23,"size":4096,"type":"d"}]]]
["recrawl","/r","d/e/o"]
["recrawl","/r","y"]
["observe","/r",[["d/e",{"mtime_ms":22,"size":4096,"type":"d"}],["d/e/o",null],["y",{"mtime_ms":23,"size":4096,"type":"d"}]]]
["observe","/r",[["d/e/o/b",null],["y/b",{"mtime_ms":24,"size":6,"type":"f"}]]]
"#,
            FOLDERS,
            r#"["clock","/r"]
end 1
end 2
remove socket.sync/1
"#,
        ],
        ..ONE_ROOT
    },
    Run {
        what: "one of more than 1,024 arrivals whose departures weren't reported leads to a new watch once its departure is reported",
        ready: Ready {
            sessions: &[Some([
                BEGUN,
                r#"{"clock":"c:1:1:2","version":"w1"}
{"clock":"c:1:1:2","version":"w1"}
{"clock":"c:1:1:2","version":"w1"}
{"clock":"c:1:1:2","version":"w1"}
{"clock":"c:1:1:3","version":"w1"}
{"clock":"c:1:1:3","version":"w1"}
{"clock":"c:1:1:4","version":"w1"}
{"clock":"c:1:1:4","version":"w1"}
{"clock":"c:1:1:4","version":"w1"}
{"clock":"c:1:1:4","version":"w1"}
{"clock":"c:1:1:5","version":"w1"}
{"clock":"c:1:1:5","version":"w1"}
{"clock":"c:1:1:5","files":["d"],"is_fresh_instance":true,"version":"w1"}
{"error":"5 NotWatched","version":"w1"}
"#,
            ])],
            records: &[
                (100, b"1\0/r/\0CREATE,ISDIR\00\0/d\0\n"),
                (300, b"1\0/r/\0MOVED_TO,ISDIR\08a1\0/y\0\n"),
                (350, b"1\0/r/\0MOVED_TO,ISDIR\08a3\0/z\0\n"),
                (
                    400,
                    b"2\0/r/d/e/\0MOVED_FROM,ISDIR\08a1\0/o\0\n2\0/r/d/e/o/\0MODIFY\00\0/b\0\n",
                ),
            ],
            repeated: Some((2, 1_024)),
            paths: &[
                ("/r/d", Kind::Folder, 4_096, 18),
                ("/r/y", Kind::Folder, 4_096, 23),
                ("/r/y/b", Kind::File, 6, 24),
                ("/r/z", Kind::Folder, 4_096, 25),
            ],
            folders: &[("/r/d", 5), ("/r/d/e", 6), ("/r/y", 7), ("/r/z", 8)],
            watched: &[&[5, 8], &[6, 7], &[5, 6, 7, 8]],
            ..READY
        },
        log: &[
            BEGINS,
            WATCHES_MORE,
            r#"["recrawl","/r","y"]
["observe","/r",[["y",{"mtime_ms":23,"size":4096,"type":"d"}]]]
["recrawl","/r","z"]
["observe","/r",[["z",{"mtime_ms":25,"size":4096,"type":"d"}]]]
end 1
end 2
["clock","/r"]
watch 3 socket.sync/1 /r/
["clock","/r"]
["recrawl","/r"]
["observe","/r",[]]
"#,
            FOLDERS,
            r#"["clock","/r"]
end 3
remove socket.sync/1
"#,
        ],
        ..ONE_ROOT
    },
];

#[test]
fn early_arrivals(rt: HostRuntime) {
    check_runs(&rt, rt.alloc(), EARLY);
}

#[test]
fn moves_of_the_table(rt: HostRuntime) {
    check_runs(&rt, rt.alloc(), RUNS);
}
