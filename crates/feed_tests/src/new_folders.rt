//! What a feed does of folders that are made.
use crate::memory::Ready;
use crate::runs::{BEGINS, BEGUN, ENDS, ESTABLISHED, FOLDERS, ONE_ROOT, READY, Run, check_runs};

/// What the beginning is answered if the server knows no folder yet.
const BEGUN_EMPTY: &str = r#"{"version":"w1","watch":"/r"}
{"clock":"c:1:1:1","version":"w1"}
{"clock":"c:1:1:1","version":"w1"}
{"clock":"c:1:1:1","version":"w1"}
{"clock":"c:1:1:1","version":"w1"}
{"clock":"c:1:1:1","files":[],"is_fresh_instance":true,"version":"w1"}
"#;

/// Each ends as the root isn't watched any longer.
const RUNS: &[Run] = &[
    Run {
        what: "a new folder is crawled before its path is sent, and its watch isn't checked, since its making was reported",
        ready: Ready {
            sessions: &[Some([
                BEGUN_EMPTY,
                r#"{"clock":"c:1:1:2","version":"w1"}
{"clock":"c:1:1:3","version":"w1"}
{"error":"5 NotWatched","version":"w1"}
"#,
            ])],
            records: &[(
                100,
                b"1\0/r/\0CREATE,ISDIR\00\0/d\0\n1\0/r/d/\0CREATE\00\0/b\0\n",
            )],
            watched: &[&[]],
            ..READY
        },
        log: &[
            BEGINS,
            r#"["recrawl","/r","d"]
["observe","/r",[["d",{"mtime_ms":18,"size":4096,"type":"d"}]]]
"#,
            ENDS,
        ],
        ..ONE_ROOT
    },
    Run {
        what: "a folder in a new one whose making isn't reported is watched besides, though it is as it was",
        ready: Ready {
            sessions: &[Some([
                BEGUN,
                r#"{"clock":"c:1:1:1","version":"w1"}
{"clock":"c:1:1:1","version":"w1"}
{"clock":"c:1:1:1","version":"w1"}
{"clock":"c:1:1:1","version":"w1"}
{"error":"5 NotWatched","version":"w1"}
"#,
            ])],
            records: &[(100, b"1\0/r/\0CREATE,ISDIR\00\0/d\0\n")],
            folders: &[("/r/d", 5), ("/r/d/e", 6)],
            watched: &[&[5], &[6]],
            ..READY
        },
        log: &[
            BEGINS,
            r#"["recrawl","/r","d"]
["observe","/r",[["d",{"mtime_ms":18,"size":4096,"type":"d"}]]]
watch 2 socket.sync/1 /r/d/e
["recrawl","/r","d/e"]
["observe","/r",[["d/e",{"mtime_ms":22,"size":4096,"type":"d"}]]]
["clock","/r"]
end 1
end 2
remove socket.sync/1
"#,
        ],
        // missed from 120 to 180 ms, watched at 185
        took: Some(1_185),
        ..ONE_ROOT
    },
    Run {
        what: "so is one of a name whose making was reported before the folder around it was removed and made anew",
        ready: Ready {
            sessions: &[Some([
                BEGUN,
                r#"{"clock":"c:1:1:1","version":"w1"}
{"clock":"c:1:1:1","version":"w1"}
{"clock":"c:1:1:1","version":"w1"}
{"clock":"c:1:1:1","version":"w1"}
{"error":"5 NotWatched","version":"w1"}
"#,
            ])],
            records: &[(
                100,
                b"1\0/r/\0CREATE,ISDIR\00\0/d\0\n1\0/r/d/\0CREATE,ISDIR\00\0/e\0\n1\0/r/d/\0DELETE,ISDIR\00\0/e\0\n1\0/r/\0DELETE,ISDIR\00\0/d\0\n1\0/r/\0CREATE,ISDIR\00\0/d\0\n",
            )],
            folders: &[("/r/d", 5), ("/r/d/e", 6)],
            watched: &[&[5], &[6]],
            ..READY
        },
        log: &[
            BEGINS,
            r#"["recrawl","/r","d"]
["observe","/r",[["d",{"mtime_ms":18,"size":4096,"type":"d"}]]]
watch 2 socket.sync/1 /r/d/e
["recrawl","/r","d/e"]
["observe","/r",[["d/e",{"mtime_ms":22,"size":4096,"type":"d"}]]]
["clock","/r"]
end 1
end 2
remove socket.sync/1
"#,
        ],
        ..ONE_ROOT
    },
    Run {
        what: "a folder whose making is reported later is watched",
        ready: Ready {
            sessions: &[Some([
                BEGUN,
                r#"{"clock":"c:1:1:1","version":"w1"}
{"clock":"c:1:1:1","version":"w1"}
{"clock":"c:1:1:1","version":"w1"}
{"clock":"c:1:1:1","version":"w1"}
{"error":"5 NotWatched","version":"w1"}
"#,
            ])],
            records: &[
                (100, b"1\0/r/\0CREATE,ISDIR\00\0/d\0\n"),
                (130, b"1\0/r/d/\0CREATE,ISDIR\00\0/e\0\n"),
            ],
            folders: &[("/r/d", 5), ("/r/d/e", 6)],
            ..READY
        },
        log: &[
            BEGINS,
            r#"["recrawl","/r","d"]
["observe","/r",[["d",{"mtime_ms":18,"size":4096,"type":"d"}]]]
["recrawl","/r","d/e"]
["observe","/r",[["d",{"mtime_ms":18,"size":4096,"type":"d"}],["d/e",{"mtime_ms":22,"size":4096,"type":"d"}]]]
"#,
            ENDS,
        ],
        took: Some(1_150),
        ..ONE_ROOT
    },
];

/// Folders that are made at five moments, each with one in it that is missed.
const MANY: Run = Run {
    what: "behind four inotifywaits more one takes the place of all of them",
    ready: Ready {
        sessions: &[Some([
            BEGUN,
            r#"{"clock":"c:1:1:1","version":"w1"}
{"clock":"c:1:1:1","version":"w1"}
{"clock":"c:1:1:1","version":"w1"}
{"clock":"c:1:1:1","version":"w1"}
{"clock":"c:1:1:1","version":"w1"}
{"clock":"c:1:1:1","version":"w1"}
{"clock":"c:1:1:1","version":"w1"}
{"clock":"c:1:1:1","version":"w1"}
{"clock":"c:1:1:1","version":"w1"}
{"clock":"c:1:1:1","version":"w1"}
{"clock":"c:1:1:1","version":"w1"}
{"clock":"c:1:1:1","version":"w1"}
{"clock":"c:1:1:1","version":"w1"}
{"clock":"c:1:1:1","version":"w1"}
{"clock":"c:1:1:1","version":"w1"}
{"clock":"c:1:1:1","version":"w1"}
{"clock":"c:1:1:1","version":"w1"}
{"clock":"c:1:1:1","version":"w1"}
{"clock":"c:1:1:1","version":"w1"}
{"clock":"c:1:1:1","version":"w1"}
{"clock":"c:1:1:1","version":"w1"}
{"clock":"c:1:1:1","version":"w1"}
{"clock":"c:1:1:1","version":"w1"}
{"clock":"c:1:1:1","version":"w1"}
{"error":"5 NotWatched","version":"w1"}
"#,
        ])],
        records: &[
            (100, b"1\0/r/\0CREATE,ISDIR\00\0/a\0\n"),
            (300, b"1\0/r/\0CREATE,ISDIR\00\0/b\0\n"),
            (500, b"1\0/r/\0CREATE,ISDIR\00\0/c\0\n"),
            (700, b"1\0/r/\0CREATE,ISDIR\00\0/e\0\n"),
            (900, b"1\0/r/\0CREATE,ISDIR\00\0/f\0\n"),
        ],
        folders: &[
            ("/r/d", 5),
            ("/r/a", 10),
            ("/r/a/x", 20),
            ("/r/b", 11),
            ("/r/b/x", 21),
            ("/r/c", 12),
            ("/r/c/x", 22),
            ("/r/e", 13),
            ("/r/e/x", 23),
            ("/r/f", 14),
            ("/r/f/x", 24),
        ],
        watched: &[
            &[5, 10, 11, 12, 13, 14],
            &[20],
            &[21],
            &[22],
            &[23],
            &[20, 21, 22, 23, 24],
        ],
        ..READY
    },
    log: &[
        BEGINS,
        r#"["recrawl","/r","a"]
["observe","/r",[["a",{"mtime_ms":22,"size":4096,"type":"d"}]]]
watch 2 socket.sync/1 /r/a/x
["recrawl","/r","a/x"]
["observe","/r",[["a/x",{"mtime_ms":22,"size":4096,"type":"d"}]]]
"#,
        r#"["recrawl","/r","b"]
["observe","/r",[["b",{"mtime_ms":22,"size":4096,"type":"d"}]]]
watch 3 socket.sync/1 /r/b/x
["recrawl","/r","b/x"]
["observe","/r",[["b/x",{"mtime_ms":22,"size":4096,"type":"d"}]]]
"#,
        r#"["recrawl","/r","c"]
["observe","/r",[["c",{"mtime_ms":22,"size":4096,"type":"d"}]]]
watch 4 socket.sync/1 /r/c/x
["recrawl","/r","c/x"]
["observe","/r",[["c/x",{"mtime_ms":22,"size":4096,"type":"d"}]]]
"#,
        r#"["recrawl","/r","e"]
["observe","/r",[["e",{"mtime_ms":22,"size":4096,"type":"d"}]]]
watch 5 socket.sync/1 /r/e/x
["recrawl","/r","e/x"]
["observe","/r",[["e/x",{"mtime_ms":22,"size":4096,"type":"d"}]]]
"#,
        r#"["recrawl","/r","f"]
["observe","/r",[["f",{"mtime_ms":22,"size":4096,"type":"d"}]]]
watch 6 socket.sync/1 /r/a/x /r/b/x /r/c/x /r/e/x /r/f/x
end 2
end 3
end 4
end 5
["recrawl","/r","a/x"]
["recrawl","/r","b/x"]
["recrawl","/r","c/x"]
["recrawl","/r","e/x"]
["recrawl","/r","f/x"]
["observe","/r",[["a/x",{"mtime_ms":22,"size":4096,"type":"d"}],["b/x",{"mtime_ms":22,"size":4096,"type":"d"}],["c/x",{"mtime_ms":22,"size":4096,"type":"d"}],["e/x",{"mtime_ms":22,"size":4096,"type":"d"}],["f/x",{"mtime_ms":22,"size":4096,"type":"d"}]]]
["clock","/r"]
end 1
end 6
remove socket.sync/1
"#,
    ],
    ..ONE_ROOT
};

const COMPLAINT: Run = Run {
    what: "what inotifywait says for a user is reported, and all folders are checked",
    ready: Ready {
        sessions: &[Some([
            BEGUN,
            r#"{"clock":"c:1:1:1","files":["d"],"is_fresh_instance":true,"version":"w1"}
{"error":"5 NotWatched","version":"w1"}
"#,
        ])],
        words: &[&[
            (0, ESTABLISHED),
            (
                150,
                b"Couldn't watch new directory /r/x: Permission denied\nCouldn't watch new directory /r/y: No such file or directory\n",
            ),
        ]],
        ..READY
    },
    log: &[BEGINS, FOLDERS, ENDS],
    reported: "wmfeed: inotifywait: Couldn't watch new directory /r/x: Permission denied
wmfeed: the root isn't watched any longer
",
    ..ONE_ROOT
};

const VANISHED: Run = Run {
    what: "a new folder that inotifywait couldn't watch, since a file in it went while it was read, is watched besides",
    ready: Ready {
        sessions: &[Some([
            BEGUN_EMPTY,
            r#"{"clock":"c:1:1:2","version":"w1"}
{"clock":"c:1:1:3","version":"w1"}
{"clock":"c:1:1:3","files":["d"],"is_fresh_instance":true,"version":"w1"}
{"clock":"c:1:1:3","files":["d"],"is_fresh_instance":true,"version":"w1"}
{"clock":"c:1:1:3","files":["d"],"is_fresh_instance":true,"version":"w1"}
{"clock":"c:1:1:3","files":["d"],"is_fresh_instance":true,"version":"w1"}
{"clock":"c:1:1:3","version":"w1"}
{"clock":"c:1:1:3","version":"w1"}
{"clock":"c:1:1:3","files":["d"],"is_fresh_instance":true,"version":"w1"}
{"error":"5 NotWatched","version":"w1"}
"#,
        ])],
        words: &[&[
            (0, ESTABLISHED),
            (
                100,
                b"Couldn't watch new directory /r/d/: No such file or directory\n",
            ),
        ]],
        records: &[(100, b"1\0/r/\0CREATE,ISDIR\00\0/d\0\n")],
        folders: &[("/r/d", 5)],
        watched: &[&[], &[5]],
        ..READY
    },
    log: &[
        BEGINS,
        r#"["recrawl","/r","d"]
["observe","/r",[["d",{"mtime_ms":18,"size":4096,"type":"d"}]]]
"#,
        // missed at 120, 140, 160 and 180 ms
        FOLDERS,
        FOLDERS,
        FOLDERS,
        FOLDERS,
        r#"watch 2 socket.sync/1 /r/d
["recrawl","/r","d"]
["observe","/r",[["d",{"mtime_ms":18,"size":4096,"type":"d"}]]]
"#,
        FOLDERS,
        r#"["clock","/r"]
end 1
end 2
remove socket.sync/1
"#,
    ],
    ..ONE_ROOT
};

const BESIDES: &[Run] = &[MANY, COMPLAINT, VANISHED];

#[test]
fn new_folders_of_the_table(rt: HostRuntime) {
    check_runs(&rt, rt.alloc(), RUNS);
    check_runs(&rt, rt.alloc(), BESIDES);
}
