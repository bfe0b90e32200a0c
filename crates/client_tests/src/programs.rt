//! Which program a trigger's request names, and what is said if it isn't there.
use crate::checks::check;
use std::alloc::Global;
use std::process::Abort;
use wm_parts::{ProgramFound, program_line, program_sought};

/// Requests, and the program that is looked for; an empty one if none is.
const PROGRAMS: &[(&str, &str)] = &[
    (
        "[\"trigger\",\"/r\",{\"name\":\"n\",\"command\":[\"make\",\"all\"]}]",
        "make",
    ),
    (
        "[\"trigger\",\"/r\",{\"name\":\"n\",\"command\":[\"/bin/sh\"]}]",
        "/bin/sh",
    ),
    (
        "[\"trigger\",\"/r/s\",{\"name\":\"n\",\"command\":[\"./a\"]}]",
        "/r/s/./a",
    ),
    (
        "[\"trigger\",\"/r\",{\"name\":\"n\",\"command\":[\"b/a\",\"c/d\"]}]",
        "/r/b/a",
    ),
    (
        "[\"trigger\",\"/r\",{\"name\":\"n\",\"command\":[\"a/\"]}]",
        "/r/a/",
    ),
    ("[\"trigger\",\"/r\",{\"name\":\"n\",\"command\":[]}]", ""),
    (
        "[\"trigger\",\"/r\",{\"name\":\"n\",\"command\":\"make\"}]",
        "",
    ),
    ("[\"trigger\",\"/r\",{\"name\":\"n\"}]", ""),
    ("[\"trigger-del\",\"/r\",\"n\"]", ""),
    ("[\"query\",\"/r\",{\"command\":[\"make\"]}]", ""),
    ("[\"version\"]", ""),
    ("[version", ""),
];

/// Whether this program is looked for by a request.
fn seeks(rt: &impl Abort, alloc: Global, json: &str, wanted: &str) -> bool {
    match program_sought(alloc, json).expect(rt, "memory") {
        Some(program) => program.as_str() == wanted,
        None => wanted.is_empty(),
    }
}

#[test]
fn finds_the_program_of_a_trigger(rt: HostRuntime) {
    for (json, wanted) in PROGRAMS {
        check!(rt; seeks(&rt, rt.alloc(), json, wanted), json);
    }
}

/// What was found in place of a program, and the line that says so.
const FOUND: &[(&str, ProgramFound, &str)] = &[
    (
        "a\x1bb",
        ProgramFound::OffPath,
        "'a\\x1bb' is no program on this PATH: the server looks on its own PATH, and its log says if a run couldn't be started\n",
    ),
    (
        "/r/a",
        ProgramFound::Missing,
        "'/r/a' isn't there: no run of the trigger can be started until it is\n",
    ),
    (
        "/r",
        ProgramFound::Unmarked,
        "'/r' is no file that is marked as a program (chmod +x): no run of the trigger can be started until it is\n",
    ),
];

#[test]
fn says_that_a_program_is_not_there(rt: HostRuntime) {
    for (program, found, line) in FOUND {
        let said = program_line(rt.alloc(), program, *found).expect(&rt, "memory");
        check!(rt; said.as_str() == *line, (program, said));
    }
}
