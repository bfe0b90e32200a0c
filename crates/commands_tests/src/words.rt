//! What the command-line words ask of `wm`.
use crate::checks::check;
use std::alloc::{AllocError, Global};
use wm_commands::arguments::{Order, Words};

/// Lists of words, and what they ask for.
const ASKED: &[(&[&str], &str)] = &[
    (&["up"], "Up"),
    (&["down", "--socket", "s"], "Down socket=s"),
    (&["watch"], "Watch"),
    (&["watch", "d"], "Watch dir=d"),
    (&["unwatch", "d"], "Unwatch dir=d"),
    (&["list"], "List"),
    (&["status"], "Status"),
    (&["sync", "d"], "Sync dir=d"),
    (&["files"], "Files"),
    (&["files", "d", "*.c", "*.h"], "Files dir=d *.c *.h"),
    (
        &["files", "-0", "d", "--json", "--clock", "--no-sync"],
        "Files dir=d json nul clock unsynced",
    ),
    (&["changes", "--since", "@x"], "Changes since=n:x"),
    (
        &["changes", "d", "*.c", "--since", "c:1:1:2"],
        "Changes dir=d *.c since=c:1:1:2",
    ),
    (&["wait", "d"], "Wait dir=d"),
    (&["run", "--", "make", "-j4"], "Run run:make run:-j4"),
    (
        &["run", "d", "*.c", "--settle", "7", "--", "make"],
        "Run dir=d *.c run:make settle=7",
    ),
    (&["--help"], "shown 0"),
    (&["-V"], "shown 0"),
    (&["files", "--help"], "shown 0"),
    (&[], "shown 2"),
    (&["fles"], "shown 2"),
    (&["changes"], "shown 2"),
    (&["run", "d"], "shown 2"),
    (&["run", "d", "--json", "--", "make"], "shown 2"),
    (&["run", "d", "--settle", "x", "--", "make"], "shown 2"),
    (&["run", "d", "--settle", "-1", "--", "make"], "shown 2"),
    (&["changes", "--since", "-1"], "Changes since=-1"),
    (&["files", "--expr", "[x"], "shown 2"),
    (&["files", "d", "[a]"], "shown 2"),
    (&["files", "d", "a\\b"], "shown 2"),
    (&["watch", "d", "e"], "shown 2"),
];

fn told(alloc: Global, order: &Order) -> Result<String, AllocError> {
    let verb = order.verb;
    let mut text = format!(in alloc; "{verb:?}")?;
    if let Some(dir) = &order.target.dir {
        text.push_str(" dir=")?;
        text.push_str(dir)?;
    }
    for pattern in &order.question.patterns {
        text.push_str(" ")?;
        text.push_str(pattern)?;
    }
    if let Some(socket) = &order.target.socket {
        text.push_str(" socket=")?;
        text.push_str(socket)?;
    }
    if let Some(since) = &order.question.since {
        text.push_str(" since=")?;
        text.push_str(since)?;
    }
    for word in &order.program.words {
        text.push_str(" run:")?;
        text.push_str(word)?;
    }
    let flags = [
        (order.style.is_json, " json"),
        (order.style.is_nul, " nul"),
        (order.style.is_clock, " clock"),
        (order.question.is_unsynced, " unsynced"),
        (order.program.settle == 7, " settle=7"),
    ];
    for (is_set, name) in flags {
        if is_set {
            text.push_str(name)?;
        }
    }
    Ok(text)
}

fn asked(alloc: Global, words: &Words) -> Result<String, AllocError> {
    match words {
        Words::Ordered(order) => told(alloc, order),
        Words::Shown { text: _, status } => format!(in alloc; "shown {status}"),
    }
}

/// A pattern that the server refuses, and how the fault that is shown begins.
const REFUSED: &[(&str, &str)] = &[
    ("[ab].c", "error: '[ab].c': [ can't stand in a PATTERN"),
    ("a\\b", "error: 'a\\b': \\ can't stand in a PATTERN"),
];

#[test]
fn refused_patterns_are_named(rt: HostRuntime) {
    let alloc = rt.alloc();
    for (pattern, wanted) in REFUSED {
        let words = Words::read(alloc, &["files", ".", "*.h", pattern]).expect(&rt, "words");
        let is_named = match &words {
            Words::Shown { text, status } => *status == 2 && text.as_str().starts_with(*wanted),
            Words::Ordered(_) => false,
        };
        check!(rt; is_named, pattern);
    }
}

/// Words with a negative number, and how the fault that is shown begins.
const NEGATIVE: &[(&[&str], &str)] = &[
    (
        &["run", "--settle", "-1", "--", "make"],
        "error: MS isn't a whole number from 0",
    ),
    (
        &["run", "--settle=-1", "--", "make"],
        "error: MS isn't a whole number from 0",
    ),
];

#[test]
fn negative_numbers_are_told(rt: HostRuntime) {
    let alloc = rt.alloc();
    for (words, wanted) in NEGATIVE {
        let is_told = match &Words::read(alloc, words).expect(&rt, "words") {
            Words::Shown { text, status } => *status == 2 && text.as_str().starts_with(*wanted),
            Words::Ordered(_) => false,
        };
        check!(rt; is_told, words);
    }
}

#[test]
fn words_of_the_table(rt: HostRuntime) {
    let alloc = rt.alloc();
    for (words, wanted) in ASKED {
        let read = Words::read(alloc, words).expect(&rt, "words");
        let told = asked(alloc, &read).expect(&rt, "memory");
        check!(rt; told.as_str() == *wanted, (words, told));
    }
}
