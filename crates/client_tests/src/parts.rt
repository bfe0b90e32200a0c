//! The line that says for which part a request is refused.
use crate::checks::check;
use std::alloc::Global;
use std::process::Abort;
use wm_parts::{explanation, root_explanation};

/// Requests, and the line of each; an empty one if there is none.
const ROWS: &[(&str, &str)] = &[
    (
        "[\"query\",\"/r\",{\"expression\":[\"sufix\",\"c\"]}]",
        "[\"sufix\",\"c\"] is no term of an expression: the words of terms are true, false, exists, empty, name, suffix, type, size, match, not, allof and anyof\n",
    ),
    (
        "[\"query\",\"/r\",{\"expression\":[\"allof\",[\"suffix\",\"c\"],[\"imatch\",\"x\"],7]}]",
        "[\"imatch\",\"x\"] is no term of an expression: the words of terms are true, false, exists, empty, name, suffix, type, size, match, not, allof and anyof\n",
    ),
    (
        "[\"subscribe\",\"/r\",\"n\",{\"expression\":[\"not\",[\"anyof\",\"exists\",[\"type\",\"b\"]]]}]",
        "'b' is no type of a file: these are f (a file), d (a folder), l (a link) and o (all else)\n",
    ),
    (
        "[\"query\",\"/r\",{\"expression\":[\"match\",\"[ab].c\"]}]",
        "'[ab].c' is no pattern of match: this has at most 1,024 bytes, and neither [ nor \\; * fits any bytes of a name, ? one byte, and ** any folders\n",
    ),
    (
        "[\"query\",\"/r\",{\"expression\":[\"match\",\"*.c\",\"path\"]}]",
        "[\"match\",\"*.c\",\"path\"] is no term of an expression: such a term is written [\"match\",\"*.c\"] or [\"match\",\"src/*.c\",\"wholename\"]\n",
    ),
    (
        "[\"trigger\",\"/r\",{\"command\":[\"true\"],\"expression\":[\"not\"],\"name\":\"n\"}]",
        "[\"not\"] is no term of an expression: such a term is written [\"not\",[\"suffix\",\"c\"]]\n",
    ),
    (
        "[\"query\",\"/r\",{\"expression\":[\"suffix\"]}]",
        "[\"suffix\"] is no term of an expression: such a term is written [\"suffix\",\"c\"] or [\"suffix\",[\"c\",\"h\"]]\n",
    ),
    (
        "[\"query\",\"/r\",{\"expression\":[\"size\",\"gt\",\"10\"]}]",
        "[\"size\",\"gt\",\"10\"] is no term of an expression: such a term is written [\"size\",\"gt\",10], with eq, ne, gt, ge, lt or le\n",
    ),
    (
        "[\"query\",\"/r\",{\"expression\":[\"type\",[\"f\"]]}]",
        "[\"type\",[\"f\"]] is no term of an expression: such a term is written [\"type\",\"f\"]\n",
    ),
    (
        "[\"query\",\"/r\",{\"expression\":[\"name\"]}]",
        "[\"name\"] is no term of an expression: such a term is written [\"name\",\"a.c\"] or [\"name\",\"src/a.c\",\"wholename\"]\n",
    ),
    (
        "[\"query\",\"/r\",{\"expression\":[\"exists\",1]}]",
        "[\"exists\",1] is no term of an expression: such a term is written \"exists\"\n",
    ),
    (
        "[\"query\",\"/r\",{\"expression\":\"exist\"}]",
        "\"exist\" is no term of an expression: the words of terms are true, false, exists, empty, name, suffix, type, size, match, not, allof and anyof\n",
    ),
    (
        "[\"query\",\"/r\",{\"fields\":[\"name\",\"mtime\",\"mode\"]}]",
        "\"mtime\" is no field: these are name, exists, new, size, type, mtime_ms, cclock and oclock\n",
    ),
    (
        "[\"query\",\"/r\",{\"fields\":[7]}]",
        "7 is no field: these are name, exists, new, size, type, mtime_ms, cclock and oclock\n",
    ),
    (
        "[\"query\",\"/r\",{\"fields\":[\"name\",\"name\"]}]",
        "[\"name\",\"name\"] can't be 'fields': this is a list of one or more fields, none of them twice, as [\"name\",\"size\"]\n",
    ),
    (
        "[\"subscribe\",\"/r\",\"n\",{\"fields\":[]}]",
        "[] can't be 'fields': this is a list of one or more fields, none of them twice, as [\"name\",\"size\"]\n",
    ),
    (
        "[\"query\",\"/r\",{\"fields\":\"name\",\"sync_timeout\":-1}]",
        "\"name\" can't be 'fields': this is a list of one or more fields, none of them twice, as [\"name\",\"size\"]\n",
    ),
    (
        "[\"query\",\"/r\",{\"fields\":[\"name\"],\"sync_timeout\":-1}]",
        "-1 can't be 'sync_timeout': this is a whole number of milliseconds, as 1000\n",
    ),
    (
        "[\"query\",\"/r\",{\"empty_on_fresh_instance\":1}]",
        "1 can't be 'empty_on_fresh_instance': this is true or false\n",
    ),
    (
        "[\"query\",\"/r\",{\"since\":\"yesterday\"}]",
        "\"yesterday\" can't be 'since': this is a clock, a cursor or a time in seconds, as \"c:1:2:3\", \"n:build\" or 1700000000\n",
    ),
    (
        "[\"query\",\"/r\",{\"since\":[]}]",
        "[] can't be 'since': this is a clock, a cursor or a time in seconds, as \"c:1:2:3\", \"n:build\" or 1700000000\n",
    ),
    (
        "[\"since\",\"/r\",\"yesterday\"]",
        "such a request is written [\"since\",\"/proj\",\"c:1:2:3\"]\n",
    ),
    (
        "[\"trigger\",\"/r\",{\"command\":\"make\",\"name\":\"n\"}]",
        "\"make\" can't be 'command': this is a list of texts, as [\"make\",\"all\"]\n",
    ),
    (
        "[\"trigger\",\"/r\",{\"command\":[\"make\"],\"name\":\"n\",\"stdin\":\"NAMES\"}]",
        "\"NAMES\" can't be 'stdin': this is \"/dev/null\" or \"NAME_PER_LINE\"\n",
    ),
    (
        "[\"trigger\",\"/r\",{\"command\":[\"make\"],\"max_files_stdin\":4294967296,\"name\":\"n\"}]",
        "4294967296 can't be 'max_files_stdin': this is a whole number from 1 to 4294967295\n",
    ),
    (
        "[\"trigger\",\"/r\",{\"append_files\":\"yes\",\"command\":[\"make\"],\"name\":\"n\"}]",
        "\"yes\" can't be 'append_files': this is true or false\n",
    ),
    (
        "[\"trigger\",\"/r\",{\"command\":[\"make\"],\"name\":7}]",
        "7 can't be 'name': this is a text, as \"build\"\n",
    ),
    (
        "[\"trigger\",\"/r\",{\"name\":\"n\"}]",
        "such a request is written [\"trigger\",\"/proj\",{\"name\":\"n\",\"command\":[\"make\"]}]\n",
    ),
    (
        "[\"query\",\"/r\",{\"since\":\"n:a\",\"expresion\":\"exists\"}]",
        "'expresion' is no key of such a request: these are since, expression, fields, empty_on_fresh_instance and sync_timeout\n",
    ),
    (
        "[\"trigger\",\"/r\",{\"chdir\":\"/\",\"command\":[\"true\"],\"name\":\"n\"}]",
        "'chdir' is no key of a trigger: these are name, command, expression, append_files, stdin and max_files_stdin\n",
    ),
    (
        "[\"wa\\u001bch\",\"/r\"]",
        "'wa\\x1bch' is no command: these are version, watch, watch-del, watch-list, clock, since, query, subscribe, unsubscribe, trigger, trigger-list, trigger-del, recrawl, observe, listing and age-out\n",
    ),
    (
        "[\"watch\",\"proj\"]",
        "'proj' is no root's path: it begins with / and has no part that is empty, . or ..; realpath prints such a path\n",
    ),
    (
        "[\"watch\",\"/\"]",
        "'/' can't be watched: a root is a folder below it\n",
    ),
    (
        "[watch",
        "the request is no JSON text, as '[\"watch-list\"]' is in a shell: look at column 2\n",
    ),
    (
        "[\"query\",\"/r\",{'fields':[]}]",
        "the request is no JSON text, as '[\"watch-list\"]' is in a shell: look at column 16\n",
    ),
    (
        "[\"watch\",\"/r\"",
        "the request is no JSON text, as '[\"watch-list\"]' is in a shell: look at column 13\n",
    ),
    (
        "[\"query\",\"/r\"]",
        "such a request is written [\"query\",\"/proj\",{\"fields\":[\"name\"]}]\n",
    ),
    (
        "[\"watch\"]",
        "such a request is written [\"watch\",\"/proj\"]\n",
    ),
    (
        "[\"recrawl\",\"/r\",7]",
        "such a request is written [\"recrawl\",\"/proj\"]\n",
    ),
    (
        "[\"observe\",\"/r\"]",
        "such a request is written [\"observe\",\"/proj\",[[\"gone.c\",null]]]\n",
    ),
    (
        "[\"listing\",\"/r\"]",
        "such a request is written [\"listing\",\"/proj\",0,\"\",[]]\n",
    ),
    (
        "[\"age-out\",\"/r\"]",
        "such a request is written [\"age-out\",\"/proj\",3600]\n",
    ),
    ("[\"recrawl\",\"/r\"]", ""),
    ("[\"watch-list\"]", ""),
    ("{\"a\":1}", ""),
];

/// Whether this is said of a request.
fn says(rt: &impl Abort, alloc: Global, json: &str, line: &str) -> bool {
    match explanation(alloc, json).expect(rt, "memory") {
        Some(said) => said.as_str() == line,
        None => line.is_empty(),
    }
}

#[test]
fn says_the_part_that_is_refused(rt: HostRuntime) {
    for (json, line) in ROWS {
        check!(rt; says(&rt, rt.alloc(), json, line), json);
    }
}

#[test]
fn says_that_a_path_is_no_roots(rt: HostRuntime) {
    let line =
        "'./r' is no root's path: it begins with / and has no part that is empty, . or ..; realpath prints such a path\n";
    let said = root_explanation(rt.alloc(), "./r").expect(&rt, "memory");
    check!(rt; said.is_some_and(|text| text.as_str() == line), "./r");
    let said = root_explanation(rt.alloc(), "/r").expect(&rt, "memory");
    check!(rt; said.is_none(), "/r");
}

/// Requests that have each term, field and key that a further line names: a server takes them.
const TAKEN: &[&str] = &[
    "[\"query\",\"/r\",{\"expression\":[\"allof\",\"true\",\"false\",\"exists\",\"empty\",[\"name\",\"a.c\"],[\"name\",\"src/a.c\",\"wholename\"],[\"suffix\",\"c\"],[\"suffix\",[\"c\",\"h\"]],[\"type\",\"f\"]]}]",
    "[\"query\",\"/r\",{\"expression\":[\"anyof\",[\"size\",\"gt\",10],[\"size\",\"eq\",10],[\"size\",\"ne\",10],[\"size\",\"ge\",10],[\"size\",\"lt\",10],[\"size\",\"le\",10]]}]",
    "[\"query\",\"/r\",{\"expression\":[\"not\",[\"allof\",[\"match\",\"*.c\"],[\"match\",\"src/*.c\",\"wholename\"]]]}]",
    "[\"query\",\"/r\",{\"fields\":[\"name\",\"exists\",\"new\",\"size\",\"type\",\"mtime_ms\",\"cclock\",\"oclock\"]}]",
    "[\"query\",\"/r\",{\"since\":\"n:a\",\"expression\":\"exists\",\"fields\":[\"name\"],\"empty_on_fresh_instance\":true,\"sync_timeout\":1}]",
    "[\"trigger\",\"/r\",{\"name\":\"n\",\"command\":[\"make\"],\"expression\":\"exists\",\"append_files\":true,\"stdin\":\"/dev/null\",\"max_files_stdin\":1}]",
    "[\"version\"]",
    "[\"watch\",\"/proj\"]",
    "[\"watch-del\",\"/proj\"]",
    "[\"watch-list\"]",
    "[\"clock\",\"/proj\"]",
    "[\"since\",\"/proj\",\"c:1:2:3\"]",
    "[\"query\",\"/proj\",{\"fields\":[\"name\"]}]",
    "[\"subscribe\",\"/proj\",\"n\",{\"fields\":[\"name\"]}]",
    "[\"unsubscribe\",\"/proj\",\"n\"]",
    "[\"trigger\",\"/proj\",{\"name\":\"n\",\"command\":[\"make\"]}]",
    "[\"trigger-list\",\"/proj\"]",
    "[\"trigger-del\",\"/proj\",\"n\"]",
    "[\"recrawl\",\"/proj\"]",
    "[\"observe\",\"/proj\",[[\"gone.c\",null]]]",
    "[\"listing\",\"/proj\",0,\"\",[]]",
    "[\"age-out\",\"/proj\",3600]",
];

#[test]
fn names_what_a_server_takes(rt: HostRuntime) {
    for json in TAKEN {
        check!(rt; says(&rt, rt.alloc(), json, ""), json);
    }
}
