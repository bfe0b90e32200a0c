//! Roots that the server never crawled, since its crawl is refused.
use crate::memory::Ready;
use crate::runs::{ONE_ROOT, READY, Run, check_runs};

/// Each request takes half a second, so a clock is asked for at 500 ms and a millisecond behind each answer, or a second behind the
/// question before if the last crawl was refused.
const RUNS: &[Run] = &[
    Run {
        what: "a root that can't be read is named once, and crawled behind pauses of a second, two and four",
        ready: Ready {
            sessions: &[Some([
                r#"{"version":"w1","watch":"/r"}
{"error":"6 NotReady","version":"w1"}
{"error":"6 NotReady","version":"w1"}
{"error":"6 NotReady","version":"w1"}
{"error":"13 DeviceFailed","version":"w1"}
{"error":"6 NotReady","version":"w1"}
{"error":"13 DeviceFailed","version":"w1"}
"#,
                r#"{"error":"6 NotReady","version":"w1"}
{"error":"6 NotReady","version":"w1"}
{"error":"13 DeviceFailed","version":"w1"}
{"error":"6 NotReady","version":"w1"}
{"error":"6 NotReady","version":"w1"}
{"error":"6 NotReady","version":"w1"}
{"error":"6 NotReady","version":"w1"}
{"error":"5 NotWatched","version":"w1"}
"#,
            ])],
            slow: 500,
            closed: &[(u64::MAX, "/r")],
            ..READY
        },
        log: &[
            r#"["watch","/r"]
["clock","/r"]
["clock","/r"]
["clock","/r"]
["recrawl","/r"]
["clock","/r"]
["recrawl","/r"]
["clock","/r"]
["clock","/r"]
["recrawl","/r"]
["clock","/r"]
["clock","/r"]
["clock","/r"]
["clock","/r"]
["recrawl","/r"]
"#,
        ],
        reported: "wmfeed: /r: 13 DeviceFailed
(/r)
wmfeed: the root isn't watched any longer
",
        // clocks were told at 1,000, 1,501, 2,002, 3,003, 4,004, 5,004, 6,005, 7,005, 8,005 and 9,005
        took: Some(9_505),
        ..ONE_ROOT
    },
    Run {
        what: "a crawl that succeeds ends the pauses: the next one that is refused is followed by a second again",
        ready: Ready {
            sessions: &[Some([
                r#"{"version":"w1","watch":"/r"}
{"error":"6 NotReady","version":"w1"}
{"error":"6 NotReady","version":"w1"}
{"error":"6 NotReady","version":"w1"}
{"error":"13 DeviceFailed","version":"w1"}
{"error":"6 NotReady","version":"w1"}
{"clock":"c:1:1:1","version":"w1"}
"#,
                r#"{"error":"6 NotReady","version":"w1"}
{"error":"16 NoMemory","version":"w1"}
{"error":"6 NotReady","version":"w1"}
{"error":"5 NotWatched","version":"w1"}
"#,
            ])],
            slow: 500,
            closed: &[(u64::MAX, "/r")],
            ..READY
        },
        log: &[
            r#"["watch","/r"]
["clock","/r"]
["clock","/r"]
["clock","/r"]
["recrawl","/r"]
["clock","/r"]
["recrawl","/r"]
["clock","/r"]
["recrawl","/r"]
["clock","/r"]
["recrawl","/r"]
"#,
        ],
        reported: "wmfeed: /r: 13 DeviceFailed
(/r)
wmfeed: /r: 16 NoMemory
(/r)
wmfeed: the root isn't watched any longer
",
        // clocks were told at 1,000, 1,501, 2,002, 3,003, 4,004 and 5,005
        took: Some(5_505),
        ..ONE_ROOT
    },
];

#[test]
fn crawls_that_are_refused(rt: HostRuntime) {
    check_runs(&rt, rt.alloc(), RUNS);
}
