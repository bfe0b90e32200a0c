//! How a feed ends, with what status, and what `wmfeed` reports.
use crate::memory::Ready;
use crate::runs::{BEGINS, BEGUN, ENDS, ONE_ROOT, READY, Run, check_run, check_runs};

const WATCH: &str = "[\"watch\",\"/r\"]\n";

const WATCHED: &str = "{\"version\":\"w1\",\"watch\":\"/r\"}\n";

const TOO_MANY: &str = "{\"error\":\"17 TooMany\",\"version\":\"w1\"}\n";

/// Ends that come at once.
const REFUSED: &[Run] = &[
    Run {
        what: "a session for which no place is left is refused by its first line",
        ready: Ready {
            sessions: &[Some([TOO_MANY, ""])],
            ..READY
        },
        log: &[WATCH],
        status: 1,
        reported: "wmfeed: 17 TooMany\n",
        ..ONE_ROOT
    },
    Run {
        what: "and is reported though its request can't be sent any longer",
        ready: Ready {
            is_deaf: true,
            sessions: &[Some([TOO_MANY, ""])],
            ..READY
        },
        status: 1,
        reported: "wmfeed: 17 TooMany\n",
        ..ONE_ROOT
    },
    Run {
        what: "a request that can't be sent, and half a line",
        ready: Ready {
            is_deaf: true,
            sessions: &[Some(["{\"error\":\"17 TooMany\",", ""])],
            ..READY
        },
        status: 3,
        reported: "wmfeed: the server ended\n",
        ..ONE_ROOT
    },
    Run {
        what: "a request that can't be sent, and a line that is no refusal",
        ready: Ready {
            is_deaf: true,
            sessions: &[Some([WATCHED, ""])],
            ..READY
        },
        status: 3,
        reported: "wmfeed: the server ended\n",
        ..ONE_ROOT
    },
    Run {
        what: "a refusal that this version doesn't know",
        ready: Ready {
            sessions: &[Some(["{\"error\":\"21 Unheard\",\"version\":\"w1\"}\n", ""])],
            ..READY
        },
        log: &[WATCH],
        status: 1,
        reported: "wmfeed: a reply can't be read\n",
        ..ONE_ROOT
    },
    Run {
        what: "no folder is at the root's path: the server isn't asked to watch it",
        ready: Ready {
            sessions: &[Some([WATCHED, ""])],
            roots: &[(0, None)],
            ..READY
        },
        status: 1,
        reported: "wmfeed: no folder is at ROOT\n",
        ..ONE_ROOT
    },
    Run {
        what: "a watch that is refused",
        ready: Ready {
            sessions: &[Some(["{\"error\":\"12 StoreFailed\",\"version\":\"w1\"}\n", ""])],
            ..READY
        },
        log: &[WATCH],
        status: 1,
        reported: "wmfeed: 12 StoreFailed\n",
        ..ONE_ROOT
    },
    Run {
        what: "a socket that nobody serves",
        status: 3,
        reported: "wmfeed: no server answers\n",
        ..ONE_ROOT
    },
    Run {
        what: "no inotifywait",
        ready: Ready {
            sessions: &[Some([WATCHED, ""])],
            starts: 0,
            ..READY
        },
        log: &[WATCH],
        status: 1,
        reported: "wmfeed: inotifywait couldn't be started\n",
        ..ONE_ROOT
    },
    Run {
        what: "a clock without the root's number",
        ready: Ready {
            sessions: &[Some([WATCHED, "{\"clock\":\"n:cursor\",\"version\":\"w1\"}\n"])],
            ..READY
        },
        log: &[WATCH, "[\"clock\",\"/r\"]\n"],
        status: 1,
        reported: "wmfeed: a reply can't be read\n",
        ..ONE_ROOT
    },
];

/// Ends of a feed that has begun. Its folder of syncs is removed, but not a file in it, which would say that the server knows everything.
const LATER: &[Run] = &[
    Run {
        what: "the root isn't watched any longer",
        ready: Ready {
            sessions: &[Some([BEGUN, "{\"error\":\"5 NotWatched\",\"version\":\"w1\"}\n"])],
            ..READY
        },
        log: &[BEGINS, ENDS],
        took: Some(1_035),
        ..ONE_ROOT
    },
    Run {
        what: "an observation that is refused",
        ready: Ready {
            sessions: &[Some([BEGUN, "{\"error\":\"15 Exhausted\",\"version\":\"w1\"}\n"])],
            records: &[(
                100,
                b"1\0/r/\0MODIFY\00\0/a.c\0\n1\0socket.sync/1/\0CREATE\00\0/7\0\n",
            )],
            syncs: &[(100, "socket.sync/1/7")],
            ..READY
        },
        log: &[
            BEGINS,
            r#"["observe","/r",[["a.c",{"mtime_ms":17,"size":3,"type":"f"}]]]
end 1
remove socket.sync/1
"#,
        ],
        status: 1,
        reported: "wmfeed: 15 Exhausted\n",
        ..ONE_ROOT
    },
    Run {
        what: "the server ends",
        ready: Ready {
            sessions: &[Some([BEGUN, ""])],
            syncs: &[(100, "socket.sync/1/7")],
            ..READY
        },
        log: &[BEGINS, ENDS],
        status: 3,
        reported: "wmfeed: the server ended\n",
        ..ONE_ROOT
    },
    Run {
        what: "the folders that the server knows can't be read",
        ready: Ready {
            sessions: &[Some([
                r#"{"version":"w1","watch":"/r"}
{"clock":"c:1:1:1","version":"w1"}
{"clock":"c:1:1:1","version":"w1"}
{"clock":"c:1:1:1","version":"w1"}
{"clock":"c:1:1:1","version":"w1"}
"#,
                "{\"clock\":\"c:1:1:1\"}\n",
            ])],
            ..READY
        },
        log: &[BEGINS, "end 1\nremove socket.sync/1\n"],
        status: 1,
        reported: "wmfeed: a reply can't be read\n",
        ..ONE_ROOT
    },
    Run {
        what: "inotifywait can't be started again",
        ready: Ready {
            sessions: &[Some([BEGUN, "{\"clock\":\"c:1:1:1\",\"version\":\"w1\"}\n"])],
            starts: 1,
            records: &[(100, b"1\0\0Q_OVERFLOW\00\0/\0\n")],
            ..READY
        },
        log: &[BEGINS, "end 1\n[\"clock\",\"/r\"]\nremove socket.sync/1\n"],
        status: 1,
        reported: "wmfeed: inotifywait couldn't be started\n",
        ..ONE_ROOT
    },
];

/// Each inotifywait ends before it watches each folder.
const ENDS_AGAIN: Run = Run {
    what: "an inotifywait that ends again and again ends the feed after ten, and the root is crawled once more",
    ready: Ready {
        sessions: &[Some([
            r#"{"version":"w1","watch":"/r"}
{"clock":"c:1:1:1","version":"w1"}
{"clock":"c:1:1:1","version":"w1"}
{"clock":"c:1:1:1","version":"w1"}
{"clock":"c:1:1:1","version":"w1"}
{"clock":"c:1:1:1","version":"w1"}
"#,
            r#"{"clock":"c:1:1:1","version":"w1"}
{"clock":"c:1:1:1","version":"w1"}
{"clock":"c:1:1:1","version":"w1"}
{"clock":"c:1:1:1","version":"w1"}
{"clock":"c:1:1:1","version":"w1"}
{"clock":"c:1:1:1","version":"w1"}
"#,
        ])],
        words: &[&[
            (
                0,
                b"Setting up watches.\nFailed to watch /r/; upper limit on inotify watches reached!\n",
            ),
            (0, b""),
        ]],
        ..READY
    },
    log: &[
        WATCH,
        r#"["clock","/r"]
watch 1 socket.sync/1 /r/
end 1
["clock","/r"]
watch 2 socket.sync/1 /r/
end 2
["clock","/r"]
watch 3 socket.sync/1 /r/
end 3
["clock","/r"]
watch 4 socket.sync/1 /r/
end 4
["clock","/r"]
watch 5 socket.sync/1 /r/
end 5
["clock","/r"]
watch 6 socket.sync/1 /r/
end 6
["clock","/r"]
watch 7 socket.sync/1 /r/
end 7
["clock","/r"]
watch 8 socket.sync/1 /r/
end 8
["clock","/r"]
watch 9 socket.sync/1 /r/
end 9
["clock","/r"]
watch 10 socket.sync/1 /r/
end 10
["recrawl","/r"]
remove socket.sync/1
"#,
    ],
    status: 1,
    reported: "wmfeed: inotifywait: Failed to watch /r/; upper limit on inotify watches reached!
wmfeed: inotifywait ends, or folders stay without a watch
",
    // each is heard after 5 ms, and the next one waits 50 ms more than the one before
    took: Some(2_300),
    ..ONE_ROOT
};

const CRAWL_REFUSED: Run = Run {
    what: "a crawl that is refused ten times ends the feed by that refusal, if the root itself can't be read",
    ready: Ready {
        sessions: &[Some([
            r#"{"version":"w1","watch":"/r"}
{"clock":"c:1:1:1","version":"w1"}
{"clock":"c:1:1:1","version":"w1"}
{"error":"13 DeviceFailed","version":"w1"}
{"clock":"c:1:1:1","version":"w1"}
{"clock":"c:1:1:1","version":"w1"}
{"error":"13 DeviceFailed","version":"w1"}
{"clock":"c:1:1:1","version":"w1"}
{"clock":"c:1:1:1","version":"w1"}
{"error":"13 DeviceFailed","version":"w1"}
{"clock":"c:1:1:1","version":"w1"}
{"clock":"c:1:1:1","version":"w1"}
{"error":"13 DeviceFailed","version":"w1"}
{"clock":"c:1:1:1","version":"w1"}
{"clock":"c:1:1:1","version":"w1"}
{"error":"13 DeviceFailed","version":"w1"}
"#,
            r#"{"clock":"c:1:1:1","version":"w1"}
{"clock":"c:1:1:1","version":"w1"}
{"error":"13 DeviceFailed","version":"w1"}
{"clock":"c:1:1:1","version":"w1"}
{"clock":"c:1:1:1","version":"w1"}
{"error":"13 DeviceFailed","version":"w1"}
{"clock":"c:1:1:1","version":"w1"}
{"clock":"c:1:1:1","version":"w1"}
{"error":"13 DeviceFailed","version":"w1"}
{"clock":"c:1:1:1","version":"w1"}
{"clock":"c:1:1:1","version":"w1"}
{"error":"13 DeviceFailed","version":"w1"}
{"clock":"c:1:1:1","version":"w1"}
{"clock":"c:1:1:1","version":"w1"}
{"error":"13 DeviceFailed","version":"w1"}
{"error":"13 DeviceFailed","version":"w1"}
"#,
        ])],
        closed: &[(u64::MAX, "/r")],
        ..READY
    },
    log: &[
        WATCH,
        r#"["clock","/r"]
watch 1 socket.sync/1 /r/
["clock","/r"]
["recrawl","/r"]
end 1
["clock","/r"]
watch 2 socket.sync/1 /r/
["clock","/r"]
["recrawl","/r"]
end 2
["clock","/r"]
watch 3 socket.sync/1 /r/
["clock","/r"]
["recrawl","/r"]
end 3
["clock","/r"]
watch 4 socket.sync/1 /r/
["clock","/r"]
["recrawl","/r"]
end 4
["clock","/r"]
watch 5 socket.sync/1 /r/
["clock","/r"]
["recrawl","/r"]
end 5
"#,
        r#"["clock","/r"]
watch 6 socket.sync/1 /r/
["clock","/r"]
["recrawl","/r"]
end 6
["clock","/r"]
watch 7 socket.sync/1 /r/
["clock","/r"]
["recrawl","/r"]
end 7
["clock","/r"]
watch 8 socket.sync/1 /r/
["clock","/r"]
["recrawl","/r"]
end 8
["clock","/r"]
watch 9 socket.sync/1 /r/
["clock","/r"]
["recrawl","/r"]
end 9
["clock","/r"]
watch 10 socket.sync/1 /r/
["clock","/r"]
["recrawl","/r"]
end 10
["recrawl","/r"]
remove socket.sync/1
"#,
    ],
    status: 1,
    reported: "wmfeed: 13 DeviceFailed\n",
    ..ONE_ROOT
};

#[test]
fn ends_of_the_tables(rt: HostRuntime) {
    check_runs(&rt, rt.alloc(), REFUSED);
    check_runs(&rt, rt.alloc(), LATER);
    check_run(&rt, rt.alloc(), &ENDS_AGAIN);
    check_run(&rt, rt.alloc(), &CRAWL_REFUSED);
}
