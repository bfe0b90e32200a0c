//! The limits of lines, paths, roots, pairs, cursors, subscriptions, expressions and triggers, each
//! with the last input that is taken and the first that isn't.
use super::expressions::FILES;
use crate::disks::new_file;
use crate::ends::{Row, assert_serves, texts};
use std::alloc::Global;
use std::process::Abort;

/// Bytes that stand once for each number from the first to before the last, with the number in place of
/// a `#`.
type Part<'a> = (&'a [u8], u32, u32);

/// A limit: its name, rows that come first, and then what a session is told and answers, and how the
/// journal begins.
type Limit<'a> = (
    &'a str,
    &'a [Row<'a>],
    &'a [Part<'a>],
    &'a [Part<'a>],
    &'a [Part<'a>],
);

const VERSION: &[u8] = b"{\"version\":\"w1\"}\n";

const BAD_LINE: &[u8] = b"{\"error\":\"1 BadLine\",\"version\":\"w1\"}\n";

const TOO_MANY: &[u8] = b"{\"error\":\"17 TooMany\",\"version\":\"w1\"}\n";

/// The journal after a first start without an accepted command.
const BEGUN: &[Part<'static>] = &[(b"\xa5\x00\x00", 0, 1)];

/// How each journal begins after a start and an accepted command.
const ACCEPTED: &[Part<'static>] = &[(b"\xa5\x00\xa5\x01", 0, 1)];

/// A line of 1,048,576 bytes with its newline, and one of a byte more; lists nested to 127 and to 128.
const LINES: &[Limit<'static>] = &[
    (
        "the longest line",
        &[],
        &[
            (b"[\"version\"]", 0, 1),
            (b" ", 0, 1_048_564),
            (b"\n[\"version\"]\n", 0, 1),
        ],
        &[(VERSION, 0, 2)],
        BEGUN,
    ),
    (
        "a longer line",
        &[],
        &[
            (b"[\"version\"]", 0, 1),
            (b" ", 0, 1_048_565),
            (b"\n[\"version\"]\n", 0, 1),
        ],
        &[(BAD_LINE, 0, 1), (VERSION, 0, 1)],
        BEGUN,
    ),
    (
        "lists nested to 127",
        &[],
        &[
            (b"[\"version\",", 0, 1),
            (b"[", 0, 126),
            (b"]", 0, 127),
            (b"\n[\"version\"]\n", 0, 1),
        ],
        &[
            (b"{\"error\":\"3 BadArguments\",\"version\":\"w1\"}\n", 0, 1),
            (VERSION, 0, 1),
        ],
        BEGUN,
    ),
    (
        "lists nested to 128",
        &[],
        &[
            (b"[\"version\",", 0, 1),
            (b"[", 0, 127),
            (b"]", 0, 128),
            (b"\n[\"version\"]\n", 0, 1),
        ],
        &[(BAD_LINE, 0, 1), (VERSION, 0, 1)],
        BEGUN,
    ),
];

/// Paths of 1,024 and 1,025 bytes, and 257 roots.
const ROOTS: &[Limit<'static>] = &[
    (
        "the longest path",
        &[],
        &[(b"[\"watch\",\"/", 0, 1), (b"a", 0, 1023), (b"\"]\n", 0, 1)],
        &[
            (b"{\"version\":\"w1\",\"watch\":\"/", 0, 1),
            (b"a", 0, 1023),
            (b"\"}\n", 0, 1),
        ],
        &[
            (b"\xa5\x00\xa5\x01\x00\x00\x04\x00/", 0, 1),
            (b"a", 0, 1023),
            (b"\x00", 0, 1),
        ],
    ),
    (
        "a longer path",
        &[],
        &[(b"[\"watch\",\"/", 0, 1), (b"a", 0, 1024), (b"\"]\n", 0, 1)],
        &[(b"{\"error\":\"4 BadPath\",\"version\":\"w1\"}\n", 0, 1)],
        BEGUN,
    ),
    (
        "257 roots",
        &[],
        &[
            (b"[\"watch\",\"/#\"]\n", 100, 356),
            (b"[\"watch\",\"/356\"]\n", 0, 1),
        ],
        &[
            (b"{\"version\":\"w1\",\"watch\":\"/#\"}\n", 100, 356),
            (TOO_MANY, 0, 1),
        ],
        &[
            (b"\xa5\x00", 0, 1),
            (b"\xa5\x01\x00\x00\x00\x04/#", 100, 356),
            (b"\x00", 0, 1),
        ],
    ),
];

/// A root whose first listing found nothing.
const LISTED: &[Row<'static>] = &[
    (r#"["watch","/r"]"#, r#"{"version":"w1","watch":"/r"}"#),
    (
        r#"["listing","/r",0,"",[]]"#,
        r#"{"clock":"c:1:1:1","version":"w1"}"#,
    ),
];

const WATCHES_R: &[Part<'static>] = &[(b"\xa5\x00\xa5\x01\x00\x00\x00\x02/r\x00", 0, 1)];

const SUBSCRIBE: &[u8] = b"[\"subscribe\",\"/r\",\"#\",{\"since\":\"c:1:1:1\"}]\n";

/// The reply to a subscription, and its first answer.
const TOLD: &[u8] =
    b"{\"clock\":\"c:1:1:1\",\"subscribe\":\"#\",\"version\":\"w1\"}\n{\"clock\":\"c:1:1:1\",\"files\":[],\"is_fresh_instance\":false,\"root\":\"/r\",\"subscription\":\"#\",\"unilateral\":true,\"version\":\"w1\"}\n";

/// Observations of one path so many times. The 256th cursor has room and the next has none; one that is
/// there still moves. So with the 32nd subscription; one that is there is replaced.
const VIEWS: &[Limit<'static>] = &[
    (
        "65,536 pairs",
        LISTED,
        &[
            (b"[\"observe\",\"/r\",[[\"a\",null]", 0, 1),
            (b",[\"a\",null]", 1, 65_536),
            (b"]]\n", 0, 1),
        ],
        &[(b"{\"clock\":\"c:1:1:1\",\"version\":\"w1\"}\n", 0, 1)],
        WATCHES_R,
    ),
    (
        "65,537 pairs",
        LISTED,
        &[
            (b"[\"observe\",\"/r\",[[\"a\",null]", 0, 1),
            (b",[\"a\",null]", 1, 65_537),
            (b"]]\n", 0, 1),
        ],
        &[(TOO_MANY, 0, 1)],
        WATCHES_R,
    ),
    (
        "257 cursors",
        LISTED,
        &[
            (b"[\"since\",\"/r\",\"n:#\"]\n", 0, 257),
            (b"[\"since\",\"/r\",\"n:255\"]\n", 0, 1),
        ],
        &[
            (
                b"{\"clock\":\"c:1:1:1\",\"files\":[],\"is_fresh_instance\":true,\"version\":\"w1\"}\n",
                0,
                256,
            ),
            (TOO_MANY, 0, 1),
            (
                b"{\"clock\":\"c:1:1:1\",\"files\":[],\"is_fresh_instance\":false,\"version\":\"w1\"}\n",
                0,
                1,
            ),
        ],
        &[(b"\xa5\x00", 0, 1)],
    ),
    (
        "33 subscriptions",
        LISTED,
        &[(SUBSCRIBE, 100, 133), (SUBSCRIBE, 131, 132)],
        &[(TOLD, 100, 132), (TOO_MANY, 0, 1), (TOLD, 131, 132)],
        WATCHES_R,
    ),
];

/// How a question with an expression begins.
const QUESTION: Part<'static> = (b"[\"query\",\"/r\",{\"expression\":", 0, 1);

const NO_FILES: &[Part<'static>] = &[(
    b"{\"clock\":\"c:1:1:3\",\"files\":[],\"is_fresh_instance\":true,\"version\":\"w1\"}\n",
    0,
    1,
)];

const NO_EXPRESSION: &[Part<'static>] = &[(
    b"{\"error\":\"8 BadExpression\",\"version\":\"w1\"}\n",
    0,
    1,
)];

/// So many terms inside one another, terms beside one another, and bytes of a pattern.
const EXPRESSIONS: &[Limit<'static>] = &[
    (
        "32 terms inside one another",
        FILES,
        &[
            QUESTION,
            (b"[\"not\",", 0, 31),
            (b"\"true\"", 0, 1),
            (b"]", 0, 31),
            (b"}]\n", 0, 1),
        ],
        NO_FILES,
        ACCEPTED,
    ),
    (
        "33 terms inside one another",
        FILES,
        &[
            QUESTION,
            (b"[\"not\",", 0, 32),
            (b"\"true\"", 0, 1),
            (b"]", 0, 32),
            (b"}]\n", 0, 1),
        ],
        NO_EXPRESSION,
        ACCEPTED,
    ),
    (
        "1,024 terms",
        FILES,
        &[
            QUESTION,
            (b"[\"allof\"", 0, 1),
            (b",\"false\"", 0, 1_023),
            (b"]}]\n", 0, 1),
        ],
        NO_FILES,
        ACCEPTED,
    ),
    (
        "1,025 terms",
        FILES,
        &[
            QUESTION,
            (b"[\"allof\"", 0, 1),
            (b",\"false\"", 0, 1_024),
            (b"]}]\n", 0, 1),
        ],
        NO_EXPRESSION,
        ACCEPTED,
    ),
    (
        "a pattern of 1,024 bytes",
        FILES,
        &[
            QUESTION,
            (b"[\"match\",\"", 0, 1),
            (b"a", 0, 1_024),
            (b"\"]}]\n", 0, 1),
        ],
        NO_FILES,
        ACCEPTED,
    ),
    (
        "a pattern of 1,025 bytes",
        FILES,
        &[
            QUESTION,
            (b"[\"match\",\"", 0, 1),
            (b"a", 0, 1_025),
            (b"\"]}]\n", 0, 1),
        ],
        NO_EXPRESSION,
        ACCEPTED,
    ),
];

/// The trigger up to the text in its expression.
const TRIGGER: Part<'static> = (
    b"[\"watch\",\"/r\"]\n[\"trigger\",\"/r\",{\"command\":[\"true\"],\"name\":\"t\",\"expression\":[ \"name\", \"",
    0,
    1,
);

const WATCHED: Part<'static> = (b"{\"version\":\"w1\",\"watch\":\"/r\"}\n", 0, 1);

/// An expression of so many bytes as it is kept, of which `["name",""]` has 11, and how a trigger with it
/// is met.
const TRIGGERS: &[Limit<'static>] = &[
    (
        "a trigger with an expression of 4,096 bytes",
        &[],
        &[TRIGGER, (b"a", 0, 4_085), (b"\" ]}]\n", 0, 1)],
        &[
            WATCHED,
            (
                b"{\"disposition\":\"created\",\"triggerid\":\"t\",\"version\":\"w1\"}\n",
                0,
                1,
            ),
        ],
        ACCEPTED,
    ),
    (
        "a trigger with an expression of 4,097 bytes",
        &[],
        &[TRIGGER, (b"a", 0, 4_086), (b"\" ]}]\n", 0, 1)],
        &[
            WATCHED,
            (b"{\"error\":\"10 BadTrigger\",\"version\":\"w1\"}\n", 0, 1),
        ],
        ACCEPTED,
    ),
];

fn put(rt: &impl Abort, alloc: Global, bytes: &[u8], number: u32, out: &mut Vec<u8>) {
    for byte in bytes {
        if *byte == b'#' {
            let digits = format!(in alloc; "{number}").expect(rt, "memory");
            out.extend_from_slice(digits.as_bytes())
                .expect(rt, "memory");
        } else {
            out.push(*byte).expect(rt, "memory");
        }
    }
}

/// A text, and the parts behind it.
fn written(rt: &impl Abort, alloc: Global, front: &str, parts: &[Part<'_>]) -> Vec<u8> {
    let mut all = Vec::from_slice(alloc, front.as_bytes()).expect(rt, "memory");
    for (bytes, first, end) in parts {
        for number in *first..*end {
            put(rt, alloc, bytes, number, &mut all);
        }
    }
    all
}

fn assert_limit(rt: &impl Abort, alloc: Global, limit: &Limit<'_>) {
    let (about, rows, lines, replies, used) = *limit;
    let (line, reply) = texts(rt, alloc, &[rows]);
    let input = written(rt, alloc, &line, lines);
    let output = String::from_utf8(written(rt, alloc, &reply, replies)).expect(rt, "a text");
    let used = written(rt, alloc, "", used);
    let wanted = (0, output.as_str(), "", used.as_slice());
    assert_serves(rt, alloc, new_file(rt, alloc), &input, wanted, about);
}

fn assert_limits(rt: &impl Abort, alloc: Global, limits: &[Limit<'_>]) {
    for limit in limits {
        assert_limit(rt, alloc, limit);
    }
}

#[test]
fn keeps_the_limits_of_lines(rt: HostRuntime) {
    assert_limits(&rt, rt.alloc(), LINES);
}

#[test]
fn keeps_the_limits_of_roots(rt: HostRuntime) {
    assert_limits(&rt, rt.alloc(), ROOTS);
}

#[test]
fn keeps_the_limits_of_views(rt: HostRuntime) {
    assert_limits(&rt, rt.alloc(), VIEWS);
}

#[test]
fn keeps_the_limits_of_expressions(rt: HostRuntime) {
    assert_limits(&rt, rt.alloc(), EXPRESSIONS);
}

#[test]
fn keeps_the_limits_of_triggers(rt: HostRuntime) {
    assert_limits(&rt, rt.alloc(), TRIGGERS);
}
