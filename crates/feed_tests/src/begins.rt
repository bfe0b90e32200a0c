//! How a feed begins.
use crate::memory::Ready;
use crate::runs::{AT_ONCE, BEGINS, BEGUN, ENDS, FOLDERS, ONE_ROOT, READY, Run, check_runs};

const UNREADY: Run = Run {
    what: "a feed waits until the root's first crawl has ended, and asks each 10 ms",
    ready: Ready {
        sessions: &[Some([
            r#"{"version":"w1","watch":"/r"}
{"error":"6 NotReady","version":"w1"}
{"error":"13 DeviceFailed","version":"w1"}
"#,
            r#"{"clock":"c:1:1:1","version":"w1"}
{"clock":"c:1:1:1","version":"w1"}
{"error":"5 NotWatched","version":"w1"}
"#,
        ])],
        ..READY
    },
    log: &[
        r#"["watch","/r"]
["clock","/r"]
["clock","/r"]
["clock","/r"]
watch 1 socket.sync/1 /r/
["clock","/r"]
["recrawl","/r"]
end 1
remove socket.sync/1
"#,
    ],
    // 20 ms until it was ready, 5 until inotifywait was heard, and 10
    took: Some(35),
    ..ONE_ROOT
};

/// Each request takes half a second.
const UNCRAWLED: Run = Run {
    what: "a root that isn't ready after a second is crawled, and listed around a folder that can't be read",
    ready: Ready {
        sessions: &[Some([
            r#"{"version":"w1","watch":"/r"}
{"error":"6 NotReady","version":"w1"}
{"error":"6 NotReady","version":"w1"}
{"error":"6 NotReady","version":"w1"}
{"error":"13 DeviceFailed","version":"w1"}
{"clock":"c:1:1:1","version":"w1"}
{"clock":"c:1:1:2","version":"w1"}
{"error":"13 DeviceFailed","version":"w1"}
{"clock":"c:1:1:2","files":["a.c","d","l"],"is_fresh_instance":true,"version":"w1"}
"#,
            r#"{"clock":"c:1:1:2","version":"w1"}
{"error":"5 NotWatched","version":"w1"}
"#,
        ])],
        slow: 500,
        closed: &[(u64::MAX, "/r/d")],
        ..READY
    },
    log: &[
        r#"["watch","/r"]
["clock","/r"]
["clock","/r"]
["clock","/r"]
["recrawl","/r"]
["listing","/r",0,"",[]]
["observe","/r",[["d",{"mtime_ms":18,"size":4096,"type":"d"}],["a.c",{"mtime_ms":17,"size":3,"type":"f"}],["l",{"mtime_ms":20,"size":1,"type":"l"}]]]
["recrawl","/r","d"]
["query","/r",{"expression":"exists","fields":["name"]}]
["clock","/r"]
watch 1 socket.sync/1 /r/
["clock","/r"]
end 1
remove socket.sync/1
"#,
    ],
    reported: "wmfeed: /r/d: the folder can't be read
wmfeed: the root isn't watched any longer
",
    ..ONE_ROOT
};

const PIECES: Run = Run {
    what: "a feed begins once inotifywait says that each folder is watched",
    ready: Ready {
        sessions: &[Some([BEGUN, "{\"error\":\"5 NotWatched\",\"version\":\"w1\"}\n"])],
        words: &[&[
            (
                0,
                b"Setting up watches.\nCouldn't watch /r/x: No such file or directory\nWatches estab",
            ),
            (12, b"lished.\n"),
        ]],
        ..READY
    },
    log: &[BEGINS, ENDS],
    // crawled after 15 ms, and asked a second later
    took: Some(1_035),
    ..ONE_ROOT
};

const SYNCLESS: Run = Run {
    what: "if no folder of syncs can be made the root is fed without one",
    ready: Ready {
        sessions: &[Some([
            r#"{"version":"w1","watch":"/r"}
{"clock":"c:1:1:1","version":"w1"}
{"clock":"c:1:1:1","version":"w1"}
"#,
            "{\"error\":\"5 NotWatched\",\"version\":\"w1\"}\n",
        ])],
        has_syncs: false,
        ..READY
    },
    log: &[
        r#"["watch","/r"]
["clock","/r"]
watch 1 /r/
["clock","/r"]
["recrawl","/r"]
end 1
"#,
    ],
    ..ONE_ROOT
};

/// A folder without a watch is looked for until it has none for 60 ms, and then an inotifywait more is started on it.
const MISSED: Run = Run {
    what: "a folder that stays without a watch is watched besides and crawled, and a folder that nobody may read isn't",
    ready: Ready {
        sessions: &[Some([
            r#"{"version":"w1","watch":"/r"}
{"clock":"c:1:1:1","version":"w1"}
{"clock":"c:1:1:1","version":"w1"}
{"clock":"c:1:1:1","version":"w1"}
{"clock":"c:1:1:1","version":"w1"}
{"clock":"c:1:1:1","files":["closed","d","new","new/e"],"is_fresh_instance":true,"version":"w1"}
{"clock":"c:1:1:1","files":["closed","d","new","new/e"],"is_fresh_instance":true,"version":"w1"}
{"clock":"c:1:1:1","files":["closed","d","new","new/e"],"is_fresh_instance":true,"version":"w1"}
{"clock":"c:1:1:1","files":["closed","d","new","new/e"],"is_fresh_instance":true,"version":"w1"}
"#,
            r#"{"clock":"c:1:1:1","version":"w1"}
{"clock":"c:1:1:2","version":"w1"}
{"clock":"c:1:1:1","files":["closed","d","new","new/e"],"is_fresh_instance":true,"version":"w1"}
{"error":"5 NotWatched","version":"w1"}
"#,
        ])],
        folders: &[
            ("/r/closed", 6),
            ("/r/d", 5),
            ("/r/new", 7),
            ("/r/new/e", 8),
        ],
        watched: &[&[5], &[7, 8]],
        closed: &[(u64::MAX, "/r/closed")],
        ..READY
    },
    log: &[
        BEGINS,
        FOLDERS,
        FOLDERS,
        FOLDERS,
        r#"watch 2 socket.sync/1 /r/new
["recrawl","/r","new"]
["observe","/r",[["new",{"mtime_ms":22,"size":4096,"type":"d"}]]]
"#,
        FOLDERS,
        r#"["clock","/r"]
end 1
end 2
remove socket.sync/1
"#,
    ],
    // found after 35, 55, 75 and 95 ms; watched after 100
    took: Some(1_100),
    ..ONE_ROOT
};

/// Each request takes 60 ms.
const UNWATCHABLE: Run = Run {
    what: "an inotifywait more that ends at once ends alone, and three in a row are a fault",
    ready: Ready {
        sessions: &[Some([
            r#"{"version":"w1","watch":"/r"}
{"clock":"c:1:1:1","version":"w1"}
{"clock":"c:1:1:1","version":"w1"}
{"clock":"c:1:1:1","version":"w1"}
{"clock":"c:1:1:1","version":"w1"}
{"clock":"c:1:1:1","files":["d","new"],"is_fresh_instance":true,"version":"w1"}
{"clock":"c:1:1:1","files":["d","new"],"is_fresh_instance":true,"version":"w1"}
{"clock":"c:1:1:1","files":["d","new"],"is_fresh_instance":true,"version":"w1"}
{"clock":"c:1:1:1","files":["d","new"],"is_fresh_instance":true,"version":"w1"}
{"clock":"c:1:1:1","files":["d","new"],"is_fresh_instance":true,"version":"w1"}
"#,
            "{\"error\":\"5 NotWatched\",\"version\":\"w1\"}\n",
        ])],
        slow: 60,
        words: &[AT_ONCE, &[(0, b"")]],
        folders: &[("/r/d", 5), ("/r/new", 7)],
        ..READY
    },
    log: &[
        BEGINS,
        FOLDERS,
        "watch 2 socket.sync/1 /r/new\nend 2\n",
        FOLDERS,
        "watch 3 socket.sync/1 /r/new\nend 3\n",
        FOLDERS,
        "watch 4 socket.sync/1 /r/new\nend 4\n",
        FOLDERS,
        "end 1\n[\"clock\",\"/r\"]\nremove socket.sync/1\n",
    ],
    ..ONE_ROOT
};

const CRAWLED_AGAIN: Run = Run {
    what: "a crawl that was overtaken, or found no memory, is done again under a new watch",
    ready: Ready {
        sessions: &[Some([
            r#"{"version":"w1","watch":"/r"}
{"clock":"c:1:1:1","version":"w1"}
{"clock":"c:1:1:1","version":"w1"}
{"error":"7 BadClock","version":"w1"}
{"clock":"c:1:1:1","version":"w1"}
{"clock":"c:1:1:1","version":"w1"}
{"error":"16 NoMemory","version":"w1"}
"#,
            r#"{"clock":"c:1:1:1","version":"w1"}
{"clock":"c:1:1:1","version":"w1"}
{"clock":"c:1:1:1","version":"w1"}
{"clock":"c:1:1:1","version":"w1"}
{"clock":"c:1:1:1","files":["d"],"is_fresh_instance":true,"version":"w1"}
{"error":"5 NotWatched","version":"w1"}
"#,
        ])],
        ..READY
    },
    log: &[
        r#"["watch","/r"]
["clock","/r"]
watch 1 socket.sync/1 /r/
["clock","/r"]
["recrawl","/r"]
end 1
["clock","/r"]
watch 2 socket.sync/1 /r/
["clock","/r"]
["recrawl","/r"]
end 2
["clock","/r"]
watch 3 socket.sync/1 /r/
["clock","/r"]
["recrawl","/r"]
["observe","/r",[]]
"#,
        FOLDERS,
        r#"["clock","/r"]
end 3
remove socket.sync/1
"#,
    ],
    // begun anew 50 ms behind the first and 100 behind the second, crawled 15 after each begin
    took: Some(1_215),
    ..ONE_ROOT
};

const RUNS: &[Run] = &[
    UNREADY,
    UNCRAWLED,
    PIECES,
    SYNCLESS,
    MISSED,
    UNWATCHABLE,
    CRAWLED_AGAIN,
];

#[test]
fn begins_of_the_table(rt: HostRuntime) {
    check_runs(&rt, rt.alloc(), RUNS);
}
