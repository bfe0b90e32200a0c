//! Roots that move or are watched anew, and folders that can't be read.
use crate::memory::Ready;
use crate::runs::{BEGINS, BEGUN, ENDS, FOLDERS, ONE_ROOT, READY, Run, check_runs};

const MOVED: &[Run] = &[
    Run {
        what: "another folder at the root's path is watched anew, within two seconds",
        ready: Ready {
            sessions: &[Some([
                BEGUN,
                r#"{"clock":"c:1:1:1","version":"w1"}
{"clock":"c:1:1:1","version":"w1"}
{"clock":"c:1:1:2","version":"w1"}
{"clock":"c:1:1:2","version":"w1"}
{"clock":"c:1:1:2","files":["d"],"is_fresh_instance":true,"version":"w1"}
{"error":"5 NotWatched","version":"w1"}
"#,
            ])],
            roots: &[(500, Some((1, 3)))],
            ..READY
        },
        log: &[
            BEGINS,
            r#"end 1
["clock","/r"]
watch 2 socket.sync/1 /r/
["clock","/r"]
["recrawl","/r"]
["observe","/r",[]]
"#,
            FOLDERS,
            r#"["clock","/r"]
end 2
remove socket.sync/1
"#,
        ],
        // looked at 1,035 ms behind the begin, begun anew a millisecond later, seen 35 later, and asked a second later
        took: Some(2_071),
        ..ONE_ROOT
    },
    Run {
        what: "so is one on another device, though records come all the time",
        ready: Ready {
            sessions: &[Some([
                BEGUN,
                r#"{"clock":"c:1:1:1","version":"w1"}
{"clock":"c:1:1:2","version":"w1"}
{"error":"5 NotWatched","version":"w1"}
"#,
            ])],
            records: &[
                (600, b"1\0/r/\0MODIFY\00\0/a.c\0\n"),
                (900, b"1\0/r/\0MODIFY\00\0/a.c\0\n"),
                (1_200, b"1\0/r/\0MODIFY\00\0/a.c\0\n"),
            ],
            roots: &[(500, Some((2, 1)))],
            ..READY
        },
        log: &[
            BEGINS,
            r#"["observe","/r",[["a.c",{"mtime_ms":17,"size":3,"type":"f"}]]]
["observe","/r",[["a.c",{"mtime_ms":17,"size":3,"type":"f"}]]]
end 1
["clock","/r"]
remove socket.sync/1
"#,
        ],
        took: Some(1_201),
        ..ONE_ROOT
    },
    Run {
        what: "a root that is gone is crawled once, and looked for each 200 ms",
        ready: Ready {
            sessions: &[Some([
                BEGUN,
                r#"{"clock":"c:1:1:1","version":"w1"}
{"clock":"c:1:1:2","version":"w1"}
{"clock":"c:1:1:2","version":"w1"}
{"clock":"c:1:1:2","version":"w1"}
{"clock":"c:1:1:2","version":"w1"}
{"clock":"c:1:1:2","version":"w1"}
{"error":"5 NotWatched","version":"w1"}
"#,
            ])],
            roots: &[(500, None), (1_500, Some((1, 3)))],
            ..READY
        },
        log: &[
            BEGINS,
            r#"end 1
["clock","/r"]
["recrawl","/r"]
["clock","/r"]
["clock","/r"]
["clock","/r"]
watch 2 socket.sync/1 /r/
["clock","/r"]
["recrawl","/r"]
end 2
remove socket.sync/1
"#,
        ],
        // gone at 1,035 ms, looked for at 1,036, 1,236, 1,436 and 1,636
        took: Some(1_651),
        ..ONE_ROOT
    },
    Run {
        what: "a root that the server has another number of, since it was watched anew, is watched anew here too, and the folder of the old number is removed",
        ready: Ready {
            sessions: &[Some([
                BEGUN,
                r#"{"clock":"c:1:2:1","version":"w1"}
{"clock":"c:1:2:1","version":"w1"}
{"clock":"c:1:3:1","version":"w1"}
{"clock":"c:1:3:1","version":"w1"}
{"clock":"c:1:3:1","version":"w1"}
{"error":"5 NotWatched","version":"w1"}
"#,
            ])],
            ..READY
        },
        log: &[
            BEGINS,
            r#"["clock","/r"]
end 1
["clock","/r"]
remove socket.sync/1
watch 2 socket.sync/2 /r/
["clock","/r"]
end 2
["clock","/r"]
remove socket.sync/2
watch 3 socket.sync/3 /r/
["clock","/r"]
["recrawl","/r"]
end 3
remove socket.sync/3
"#,
        ],
        // asked at 1,035 ms, again when watch 2 is there at 1,051, and crawled at 1,067
        took: Some(1_067),
        ..ONE_ROOT
    },
    Run {
        what: "a folder of an old number in which a client waits is removed later, within a second",
        ready: Ready {
            sessions: &[Some([
                BEGUN,
                r#"{"clock":"c:1:2:1","version":"w1"}
{"clock":"c:1:2:1","version":"w1"}
{"clock":"c:1:2:1","version":"w1"}
{"clock":"c:1:2:2","version":"w1"}
{"clock":"c:1:2:2","version":"w1"}
{"clock":"c:1:2:2","files":["d"],"is_fresh_instance":true,"version":"w1"}
{"error":"5 NotWatched","version":"w1"}
"#,
            ])],
            folders: &[("/r/d", 5), ("socket.sync/1", 9)],
            ..READY
        },
        log: &[
            BEGINS,
            r#"["clock","/r"]
end 1
["clock","/r"]
remove socket.sync/1
watch 2 socket.sync/2 /r/
["clock","/r"]
["recrawl","/r"]
["observe","/r",[]]
"#,
            FOLDERS,
            r#"remove socket.sync/1
["clock","/r"]
end 2
remove socket.sync/1
remove socket.sync/2
"#,
        ],
        ..ONE_ROOT
    },
];

/// What a beginning is answered if the folder `d` can't be read, and `gone` was there before.
const BEGUN_CLOSED: &str = r#"{"version":"w1","watch":"/r"}
{"clock":"c:1:1:1","version":"w1"}
{"clock":"c:1:1:1","version":"w1"}
{"error":"13 DeviceFailed","version":"w1"}
{"clock":"c:1:1:2","version":"w1"}
{"error":"13 DeviceFailed","version":"w1"}
{"clock":"c:1:1:2","files":["a.c","d","d/b","gone","l"],"is_fresh_instance":true,"version":"w1"}
{"clock":"c:1:1:3","version":"w1"}
{"clock":"c:1:1:3","version":"w1"}
{"clock":"c:1:1:3","files":["d"],"is_fresh_instance":true,"version":"w1"}
"#;

/// What a feed does then.
const BEGINS_CLOSED: &str = r#"["watch","/r"]
["clock","/r"]
watch 1 socket.sync/1 /r/
["clock","/r"]
["recrawl","/r"]
["observe","/r",[["d",{"mtime_ms":18,"size":4096,"type":"d"}],["a.c",{"mtime_ms":17,"size":3,"type":"f"}],["l",{"mtime_ms":20,"size":1,"type":"l"}]]]
["recrawl","/r","d"]
["query","/r",{"expression":"exists","fields":["name"]}]
["observe","/r",[["gone",null]]]
["observe","/r",[]]
["query","/r",{"expression":["allof","exists",["type","d"]],"fields":["name"]}]
"#;

const CLOSED: &[Run] = &[
    Run {
        what: "a folder that can't be read is named once, and what stands beside it is sent, and what is gone there",
        ready: Ready {
            sessions: &[Some([
                BEGUN_CLOSED,
                r#"{"error":"13 DeviceFailed","version":"w1"}
{"clock":"c:1:1:3","files":["a.c","d","d/b","l"],"is_fresh_instance":true,"version":"w1"}
{"clock":"c:1:1:3","version":"w1"}
{"error":"5 NotWatched","version":"w1"}
"#,
            ])],
            records: &[(100, b"1\0/r/\0ATTRIB,ISDIR\00\0/d\0\n")],
            watched: &[&[]],
            closed: &[(u64::MAX, "/r/d")],
            ..READY
        },
        log: &[
            BEGINS_CLOSED,
            r#"["recrawl","/r","d"]
["query","/r",{"expression":"exists","fields":["name"]}]
["observe","/r",[["d",{"mtime_ms":18,"size":4096,"type":"d"}]]]
"#,
            ENDS,
        ],
        reported: "wmfeed: /r/d: the folder can't be read
wmfeed: the root isn't watched any longer
",
        ..ONE_ROOT
    },
    Run {
        what: "once something happened to it and it can be read, it is crawled and watched",
        ready: Ready {
            sessions: &[Some([
                BEGUN_CLOSED,
                r#"{"clock":"c:1:1:4","version":"w1"}
{"clock":"c:1:1:4","version":"w1"}
{"clock":"c:1:1:4","version":"w1"}
{"clock":"c:1:1:4","version":"w1"}
{"error":"5 NotWatched","version":"w1"}
"#,
            ])],
            records: &[(100, b"1\0/r/\0ATTRIB,ISDIR\00\0/d\0\n")],
            watched: &[&[], &[5]],
            closed: &[(90, "/r/d")],
            ..READY
        },
        log: &[
            BEGINS_CLOSED,
            r#"["recrawl","/r","d"]
["observe","/r",[["d",{"mtime_ms":18,"size":4096,"type":"d"}]]]
watch 2 socket.sync/1 /r/d
["recrawl","/r","d"]
["observe","/r",[["d",{"mtime_ms":18,"size":4096,"type":"d"}]]]
["clock","/r"]
end 1
end 2
remove socket.sync/1
"#,
        ],
        reported: "wmfeed: /r/d: the folder can't be read
wmfeed: the root isn't watched any longer
",
        ..ONE_ROOT
    },
];

#[test]
fn roots_of_the_tables(rt: HostRuntime) {
    check_runs(&rt, rt.alloc(), MOVED);
    check_runs(&rt, rt.alloc(), CLOSED);
}
