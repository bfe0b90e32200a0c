//! What is shown of a reply, and the status.
use crate::checks::check;
use wm_commands::{Style, shown_of};

const NAMES: Style = Style {
    is_json: false,
    is_nul: false,
    is_clock: false,
};

const NUL: Style = Style {
    is_json: false,
    is_nul: true,
    is_clock: true,
};

const CLOCK: Style = Style {
    is_json: false,
    is_nul: false,
    is_clock: true,
};

const JSON: Style = Style {
    is_json: true,
    is_nul: false,
    is_clock: false,
};

const ANSWER: &str =
    "{\"clock\":\"c:1:1:4\",\"files\":[\"x/a.c\",\"xy.c\",\"b.c\",\"x/d/e\",\"x\"],\"is_fresh_instance\":true,\"version\":\"w1\"}\n";

/// A style, a folder of the root `/r`, a line, what is shown of it and the status.
const SHOWN: &[(Style, &str, &str, &str, u8)] = &[
    (NAMES, "/r", ANSWER, "x/a.c\nxy.c\nb.c\nx/d/e\nx\n", 0),
    (NAMES, "/r/x", ANSWER, "a.c\nd/e\n", 0),
    (CLOCK, "/r/x", ANSWER, "a.c\nd/e\nc:1:1:4\n", 0),
    (NUL, "/r/x", ANSWER, "a.c\0d/e\0c:1:1:4\0", 0),
    (JSON, "/r/x", ANSWER, ANSWER, 0),
    (
        NAMES,
        "/r",
        "{\"error\":\"5 NotWatched\",\"version\":\"w1\"}\n",
        "",
        1,
    ),
    (
        JSON,
        "/r",
        "{\"error\":\"5 NotWatched\",\"version\":\"w1\"}\n",
        "",
        1,
    ),
    (
        NAMES,
        "/r",
        "{\"error\":\"99 NewOne\",\"version\":\"w2\"}\n",
        "",
        1,
    ),
    (NAMES, "/r", "{\"version\":\"w1\"}\n", "", 3),
    (
        NAMES,
        "/r",
        "{\"clock\":\"c:1:1:4\",\"files\":[1],\"is_fresh_instance\":true}\n",
        "",
        3,
    ),
    (NAMES, "/r", "half", "", 3),
    (JSON, "/r", "half", "", 3),
];

#[test]
fn shown_of_the_table(rt: HostRuntime) {
    let alloc = rt.alloc();
    for (style, dir, line, wanted, status) in SHOWN {
        let shown = shown_of(alloc, *style, "/r", dir, line).expect(&rt, "memory");
        check!(rt; shown.text.as_str() == *wanted, (line, shown.text));
        check!(rt; shown.status == *status, (line, dir));
    }
}
