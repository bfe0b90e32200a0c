//! What the command-line words ask of `wmctl`.
use crate::checks::check;
use std::alloc::{AllocError, Global};
use wm_client::{Words, negative_said};

/// Lists of words, and what they ask for.
const ASKED: &[(&[&str], &str)] = &[
    (&["s", "[]"], "talk s [] 0"),
    (&["s", "[]", "--follow", "3"], "talk s [] 3"),
    (&["--follow=4294967295", "s", "[]"], "talk s [] 4294967295"),
    (&["s", "--", "-1"], "talk s -1 0"),
    (&["s", ""], "talk s  0"),
    (&["s", "[]", "--sync", "/r"], "talk s [] 0 /r 1000"),
    (
        &["--sync=/r", "--sync-timeout", "0", "s", "[]", "--follow=1"],
        "talk s [] 1 /r 0",
    ),
    (
        &["s", "[]", "--sync", "/r", "--sync-timeout=4294967295"],
        "talk s [] 0 /r 4294967295",
    ),
    (&["s", "[]", "--sync", ""], "talk s [] 0  1000"),
    (&["--help"], "shown 0"),
    (&["s", "-V"], "shown 0"),
    (&[], "shown 2"),
    (&["s"], "shown 2"),
    (&["s", "[]", "t"], "shown 2"),
    (&["s", "[\n]"], "shown 2"),
    (&["s", "-1"], "shown 2"),
    (&["s", "[]", "--follow"], "shown 2"),
    (&["s", "[]", "--follow", "4294967296"], "shown 2"),
    (&["s", "[]", "--follow=-1"], "shown 2"),
    (&["s", "[]", "--follow=1", "--follow=2"], "shown 2"),
    (&["s", "[]", "--sync"], "shown 2"),
    (&["s", "[]", "--sync-timeout", "5"], "shown 2"),
    (&["s", "[]", "--sync=/r", "--sync-timeout="], "shown 2"),
    (&["s", "[]", "--sync=/r", "--sync-timeout=-1"], "shown 2"),
    (
        &["s", "[]", "--sync=/r", "--sync-timeout=4294967296"],
        "shown 2",
    ),
    (&["s", "[]", "--sync=/r", "--sync=/q"], "shown 2"),
    (&["s", "--sync", "/r"], "shown 2"),
];

fn asked(alloc: Global, words: &Words) -> Result<String, AllocError> {
    match words {
        Words::Talk(request) => {
            let (socket, json, follow) = (&request.socket, &request.json, request.follow);
            match &request.sync {
                Some(sync) => {
                    let (root, timeout) = (&sync.root, sync.timeout);
                    format!(in alloc; "talk {socket} {json} {follow} {root} {timeout}")
                }
                None => format!(in alloc; "talk {socket} {json} {follow}"),
            }
        }
        Words::Shown { text: _, status } => format!(in alloc; "shown {status}"),
    }
}

#[test]
fn words_of_the_table(rt: HostRuntime) {
    let alloc = rt.alloc();
    for (words, wanted) in ASKED {
        let read = Words::read(alloc, words).expect(&rt, "words");
        let told = asked(alloc, &read).expect(&rt, "memory");
        check!(rt; told.as_str() == *wanted, (words, told));
    }
}

/// Lists of words, and what is said of the negative number in them; an empty text if there is none.
const NEGATIVE: &[(&[&str], &str)] = &[
    (
        &["s", "[]", "--follow", "-1"],
        "error: N isn't a whole number from 0 to 4294967295\n\nFor more information, try '--help'.\n",
    ),
    (
        &[
            "--follow",
            "1",
            "s",
            "[]",
            "--sync",
            "/r",
            "--sync-timeout",
            "-20",
        ],
        "error: MS isn't a whole number from 0 to 4294967295\n\nFor more information, try '--help'.\n",
    ),
    (
        &["--sync-timeout", "-1", "--follow", "-1"],
        "error: MS isn't a whole number from 0 to 4294967295\n\nFor more information, try '--help'.\n",
    ),
    (&["s", "[]", "--follow", "-x"], ""),
    (&["s", "[]", "--follow", "--follow"], ""),
    (&["s", "[]", "--sync", "-1"], ""),
    (&["s", "-1"], ""),
    (&["s", "[]", "--follow"], ""),
    (&["-1", "--follow"], ""),
    (&[], ""),
];

#[test]
fn names_a_negative_number(rt: HostRuntime) {
    for (words, wanted) in NEGATIVE {
        let said = negative_said(words).unwrap_or("");
        check!(rt; said == *wanted, (words, said));
    }
}
