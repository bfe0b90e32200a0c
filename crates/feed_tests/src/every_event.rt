//! A feed that also reports a path if its event shows nothing new.
use crate::memory::Ready;
use crate::runs::{BEGINS, BEGUN, ENDS, ONE_ROOT, READY, Run, check_runs};

const WORDS: &[&str] = &["socket", "/r", "--every-event"];

/// Each ends as the root isn't watched any longer.
const RUNS: &[Run] = &[
    Run {
        what: "a file of which nothing new is known is sent as gone and as there again",
        words: WORDS,
        ready: Ready {
            sessions: &[Some([
                BEGUN,
                r#"{"clock":"c:1:1:2","version":"w1"}
{"clock":"c:1:1:3","version":"w1"}
{"clock":"c:1:1:3","files":["gone"],"is_fresh_instance":false,"version":"w1"}
{"clock":"c:1:1:4","version":"w1"}
{"clock":"c:1:1:5","version":"w1"}
{"clock":"c:1:1:5","version":"w1"}
{"clock":"c:1:1:6","version":"w1"}
{"clock":"c:1:1:6","files":["a.c"],"is_fresh_instance":false,"version":"w1"}
{"error":"5 NotWatched","version":"w1"}
"#,
            ])],
            records: &[
                (
                    100,
                    b"1\0/r/\0ATTRIB\00\0/a.c\0\n1\0/r/\0DELETE\00\0/gone\0\n",
                ),
                (
                    200,
                    b"1\0/r/\0MODIFY\00\0/a.c\0\n1\0socket.sync/1/\0CREATE\00\0/7\0\n",
                ),
            ],
            ..READY
        },
        log: &[
            BEGINS,
            r#"["clock","/r"]
["observe","/r",[["a.c",{"mtime_ms":17,"size":3,"type":"f"}],["gone",null]]]
["query","/r",{"fields":["name"],"since":"c:1:1:2"}]
["observe","/r",[["a.c",null]]]
["observe","/r",[["a.c",{"mtime_ms":17,"size":3,"type":"f"}]]]
["clock","/r"]
["observe","/r",[["a.c",{"mtime_ms":17,"size":3,"type":"f"}]]]
["query","/r",{"fields":["name"],"since":"c:1:1:5"}]
remove socket.sync/1/7
"#,
            ENDS,
        ],
        ..ONE_ROOT
    },
    Run {
        what: "a clock that is refused for now leads to a new watch",
        words: WORDS,
        ready: Ready {
            sessions: &[Some([
                BEGUN,
                r#"{"error":"16 NoMemory","version":"w1"}
{"error":"5 NotWatched","version":"w1"}
"#,
            ])],
            records: &[(100, b"1\0/r/\0ATTRIB\00\0/a.c\0\n")],
            ..READY
        },
        log: &[
            BEGINS,
            r#"["clock","/r"]
end 1
["clock","/r"]
remove socket.sync/1
"#,
        ],
        ..ONE_ROOT
    },
];

#[test]
fn every_event_of_the_table(rt: HostRuntime) {
    check_runs(&rt, rt.alloc(), RUNS);
}
