//! The further lines of refusals by what the server says of them, of patterns, and of syncs that no feed answered.
use crate::checks::check;
use std::alloc::Global;
use std::process::Abort;
use wm_disk::Refusal;
use wm_parts::{
    RequestKind, advice_line, braces_hint, log_line, no_feed_line, refusal_line, request_kind,
    root_asked,
};

/// Requests, the kind of each, and the root about which it is; an empty one if there is none.
const REQUESTS: &[(&str, RequestKind, &str)] = &[
    ("[\"watch\",\"/r\"]", RequestKind::Watch, "/r"),
    ("[\"recrawl\",\"/r/s\"]", RequestKind::Recrawl, "/r/s"),
    ("[\"recrawl\",\"/r\",\"s\"]", RequestKind::Recrawl, "/r"),
    ("[\"query\",\"/r\",{}]", RequestKind::Query, "/r"),
    ("[\"since\",\"/r\",\"c:1:1:1\"]", RequestKind::Query, "/r"),
    (
        "[\"subscribe\",\"/r\",\"n\",{}]",
        RequestKind::Subscribe,
        "/r",
    ),
    ("[\"clock\",\"/r\"]", RequestKind::Other, "/r"),
    (
        "[\"trigger\",\"/r\",{\"name\":\"n\",\"command\":[\"make\"]}]",
        RequestKind::Trigger,
        "",
    ),
    ("[\"observe\",\"/r\",[]]", RequestKind::Observe, ""),
    ("[\"watch-del\",\"/r\"]", RequestKind::Other, ""),
    ("[\"watch\",\"r\"]", RequestKind::Other, ""),
    ("[watch", RequestKind::Other, ""),
];

/// Whether a request is of this kind, and about this root.
fn is_about(
    rt: &impl Abort,
    alloc: Global,
    json: &str,
    wanted_kind: RequestKind,
    wanted_root: &str,
) -> bool {
    let kind = request_kind(alloc, json).expect(rt, "memory");
    let is_root = match root_asked(alloc, json).expect(rt, "memory") {
        Some(root) => root.as_str() == wanted_root,
        None => wanted_root.is_empty(),
    };
    kind == wanted_kind && is_root
}

#[test]
fn kinds_and_roots_of_requests(rt: HostRuntime) {
    for (json, kind, root) in REQUESTS {
        check!(rt; is_about(&rt, rt.alloc(), json, *kind, root), json);
    }
}

/// What is said of a session for which no place is left.
const NO_SESSION: &str =
    "all of the server's 31 sessions are taken: try later, or end what holds them, as 'wm run' and feeds do\n";

/// Kinds of requests for which the server has no place, and the line of each.
const FULL: &[(RequestKind, &str)] = &[
    (RequestKind::Other, NO_SESSION),
    (
        RequestKind::Watch,
        "the server watches 256 roots, or all of its 31 sessions are taken: 'wm unwatch' what nobody needs, or try later\n",
    ),
];

/// What is said of a state file that can't be written.
const NO_STORE: &str =
    "the server can't write its state file: look at the disk and at the server's log, start it again, and ask what is there by watch-list or trigger-list\n";

/// What is said of a refusal that isn't to come.
const TWO_VERSIONS: &str =
    "this wmctl and the server may be of two versions: 'wm down' and 'wm up' start the new one\n";

/// Refusals of a server, the request of each, and the line.
const REFUSED: &[(Refusal, &str, &str)] = &[
    (
        Refusal::BadLine,
        "[\"version\"]",
        "a request is one line of JSON of at most 1,048,576 bytes\n",
    ),
    (
        Refusal::BadLine,
        "[version",
        "the request is no JSON text, as '[\"watch-list\"]' is in a shell: look at column 2\n",
    ),
    (
        Refusal::BadCommand,
        "{\"a\":1}",
        "a request is a list that begins with the name of a command, as [\"watch-list\"]\n",
    ),
    (
        Refusal::BadCommand,
        "[\"wach\"]",
        "'wach' is no command: these are version, watch, watch-del, watch-list, clock, since, query, subscribe, unsubscribe, trigger, trigger-list, trigger-del, recrawl, observe, listing and age-out\n",
    ),
    (
        Refusal::BadArguments,
        "[\"watch\"]",
        "such a request is written [\"watch\",\"/proj\"]\n",
    ),
    (
        Refusal::BadPath,
        "[\"recrawl\",\"/r\",\"/s\"]",
        "the path of a file or a folder in a root has no / at its ends, and no part that is empty, . or ..\n",
    ),
    (
        Refusal::NotWatched,
        "[\"clock\",\"/r\"]",
        "the root isn't watched: 'wm watch ROOT' or [\"watch\",ROOT] watches it, and [\"watch-list\"] has those that are\n",
    ),
    (
        Refusal::NotWatched,
        "[\"wach\"]",
        "the root isn't watched: 'wm watch ROOT' or [\"watch\",ROOT] watches it, and [\"watch-list\"] has those that are\n",
    ),
    (
        Refusal::NotReady,
        "[\"clock\",\"/r\"]",
        "the root isn't crawled yet: try again, or send [\"recrawl\",ROOT], which waits\n",
    ),
    (
        Refusal::BadClock,
        "[\"listing\",\"/r\",7,\"\",[]]",
        "the listing began at a tick that isn't the root's, or is no longer good: ask for the clock, and read the folder again\n",
    ),
    (
        Refusal::Full,
        "[\"watch\",\"/r\"]",
        "the state file has no space left: 'wm unwatch' what nobody needs, or end triggers by trigger-del\n",
    ),
    (
        Refusal::StoreFailed,
        "[\"watch\",\"/r\"]",
        "the state file failed before: look at the disk and at the server's log, and start it again\n",
    ),
    (Refusal::DeviceFailed, "[\"watch\",\"/r\"]", NO_STORE),
    (
        Refusal::DeviceFailed,
        "[\"recrawl\",\"/r\"]",
        "a folder of the root can't be read, which 'wm status' and the server's log name: give the server's user the right to it, or watch a folder below\n",
    ),
    (
        Refusal::Exhausted,
        "[\"watch\",\"/r\"]",
        "a counter of the state file is at its end: make a new state file\n",
    ),
    (
        Refusal::NoMemory,
        "[\"query\",\"/r\",{}]",
        "the server has no memory left: ask for fewer files, or later\n",
    ),
    (Refusal::TooMany, "[\"watch-list\"]", NO_SESSION),
    (Refusal::TooMany, "[\"recrawl\",\"/r\"]", NO_SESSION),
    (
        Refusal::TooMany,
        "[\"watch\",\"/r\"]",
        "the server watches 256 roots, or all of its 31 sessions are taken: 'wm unwatch' what nobody needs, or try later\n",
    ),
    (
        Refusal::TooMany,
        "[\"trigger\",\"/r\",{\"name\":\"n\",\"command\":[\"make\"]}]",
        "the root has 64 triggers, or all of the server's 31 sessions are taken: end a trigger by trigger-del, or try later\n",
    ),
    (
        Refusal::TooMany,
        "[\"query\",\"/r\",{\"since\":\"n:a\"}]",
        "the root has 256 cursors, or all of the server's 31 sessions are taken: ask by a clock, or try later\n",
    ),
    (
        Refusal::TooMany,
        "[\"observe\",\"/r\",[]]",
        "it has over 65,536 pairs, or all of the server's 31 sessions are taken: send fewer at once, or try later\n",
    ),
    (
        Refusal::NoPlace,
        "[\"query\",\"/r\",{}]",
        "the root is no longer watched, or too many sessions ask about it: try again\n",
    ),
    (
        Refusal::OldVersion,
        "[\"trigger\",\"/r\",{\"name\":\"n\",\"command\":[\"make\"],\"max_files_stdin\":1}]",
        "max_files_stdin needs a state file of version 2: leave it out, or 'watchmand migrate' the file\n",
    ),
    (Refusal::BadField, "[\"version\"]", TWO_VERSIONS),
    (Refusal::Retired, "[\"version\"]", TWO_VERSIONS),
];

#[test]
fn says_what_to_do_at_a_refusal(rt: HostRuntime) {
    for (refusal, json, line) in REFUSED {
        let said = refusal_line(rt.alloc(), *refusal, json).expect(&rt, "memory");
        check!(rt; said.as_str() == *line, (refusal, json, said));
    }
}

/// Requests, and the pattern with braces that is named; an empty one if none is.
const PATTERNS: &[(&str, &str)] = &[
    (
        "[\"query\",\"/r\",{\"expression\":[\"match\",\"*.{c,md}\"]}]",
        "*.{c,md}",
    ),
    (
        "[\"subscribe\",\"/r\",\"n\",{\"expression\":[\"not\",[\"allof\",[\"name\",\"{\"],[\"match\",\"a\"],[\"match\",\"{b}\",\"wholename\"],[\"match\",\"{c}\"]]]}]",
        "{b}",
    ),
    (
        "[\"trigger\",\"/r\",{\"name\":\"n\",\"command\":[\"make\"],\"expression\":[\"match\",\"{a,b}\"]}]",
        "{a,b}",
    ),
    (
        "[\"query\",\"/r\",{\"expression\":[\"match\",\"*.c\"]}]",
        "",
    ),
    (
        "[\"query\",\"/r\",{\"expression\":[\"name\",\"a{b}\"]}]",
        "",
    ),
    ("[\"query\",\"/r\",{\"expression\":\"{\"}]", ""),
    ("[\"query\",\"/r\",{}]", ""),
    ("[\"version\"]", ""),
    ("[version", ""),
];

/// Whether this pattern of a request is named.
fn names_pattern(rt: &impl Abort, alloc: Global, json: &str, pattern: &str) -> bool {
    let Some(said) = braces_hint(alloc, json).expect(rt, "memory") else {
        return pattern.is_empty();
    };
    let line = format!(in alloc;
        "'{pattern}' has braces, which stand for themselves in a pattern: for a choice write a pattern each, as [\"anyof\",[\"match\",\"*.c\"],[\"match\",\"*.md\"]]\n"
    ).expect(rt, "memory");
    said.as_str() == line.as_str()
}

#[test]
fn names_a_pattern_with_braces(rt: HostRuntime) {
    for (json, pattern) in PATTERNS {
        check!(rt; names_pattern(&rt, rt.alloc(), json, pattern), json);
    }
}

#[test]
fn says_what_to_do_by_the_kind(rt: HostRuntime) {
    for (kind, line) in FULL {
        let said = advice_line(rt.alloc(), Refusal::TooMany, *kind).expect(&rt, "memory");
        check!(rt; said.as_str() == *line, line);
    }
}

#[test]
fn says_that_no_feed_answers(rt: HostRuntime) {
    let said = no_feed_line(rt.alloc(), "s").expect(&rt, "memory");
    let line =
        "no feed answered in time: 'wm up' or 'wmfeed s' starts one, and --sync-timeout gives it more time; without one send [\"recrawl\",ROOT], and then ask\n";
    check!(rt; said.as_str() == line, said);
}

#[test]
fn says_where_the_log_is(rt: HostRuntime) {
    let said = log_line(rt.alloc(), "/s\n/watchmand/log").expect(&rt, "memory");
    let line = "the log of a server that 'wm up' started is /s\\x0a/watchmand/log\n";
    check!(rt; said.as_str() == line, said);
}
