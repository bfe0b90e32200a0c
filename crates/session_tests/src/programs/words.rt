//! What the command-line words ask of `watchmand`.
use crate::checks::check;
use std::alloc::{AllocError, Global};
use std::process::Abort;
use wm_server::words::Words;

/// Lists of words, and what they ask for.
const ASKED: &[(&[&str], &str)] = &[
    (&["format", "a.state"], "format a.state"),
    (&["lines", "a.state"], "lines a.state"),
    (&["format", "lines"], "format lines"),
    (&["lines", ""], "lines "),
    (&["lines", "-"], "lines -"),
    (&["lines", "--", "a.state"], "lines a.state"),
    (&["lines", "a.state", "--"], "lines a.state"),
    (&["format", "--", "--help"], "format --help"),
    (&["format", "--", "--"], "format --"),
    (
        &["migrate", "a.state", "b.state"],
        "migrate a.state b.state",
    ),
    (&["migrate", "", "-"], "migrate  -"),
    (&["migrate", "lines", "format"], "migrate lines format"),
    (&["migrate", "--", "-a", "--"], "migrate -a --"),
    (&["migrate", "a", "--", "-b"], "migrate a -b"),
    (&["migrate", "a", "b", "--"], "migrate a b"),
    (&["--help"], "shown 0"),
    (&["-h"], "shown 0"),
    (&["-hx", "format"], "shown 0"),
    (&["format", "--help"], "shown 0"),
    (&["lines", "a.state", "-h"], "shown 0"),
    (&["--version"], "shown 0"),
    (&["-V"], "shown 0"),
    (&["format", "--version"], "shown 0"),
    (&["lines", "a.state", "-V"], "shown 0"),
    (&["migrate", "-h"], "shown 0"),
    (&["migrate", "a", "--help"], "shown 0"),
    (&["migrate", "a", "b", "-V"], "shown 0"),
    (&[], "shown 2"),
    (&["--"], "shown 2"),
    (&["format"], "shown 2"),
    (&["lines", "--"], "shown 2"),
    (&["lines", "a.state", "b.state"], "shown 2"),
    (&["lines", "a.state", "--", "b.state"], "shown 2"),
    (&["lines", "-a.state"], "shown 2"),
    (&["format", "--help=yes"], "shown 2"),
    (&["--version=1"], "shown 2"),
    (&["-v"], "shown 2"),
    (&["help"], "shown 2"),
    (&["--", "format", "a.state"], "shown 2"),
    (&["migrate"], "shown 2"),
    (&["migrate", "a"], "shown 2"),
    (&["migrate", "--"], "shown 2"),
    (&["migrate", "--", "a"], "shown 2"),
    (&["migrate", "a", "--"], "shown 2"),
    (&["migrate", "a", "b", "c"], "shown 2"),
    (&["migrate", "--", "a", "b", "c"], "shown 2"),
    (&["migrate", "a", "--", "b", "c"], "shown 2"),
    (&["migrate", "a", "b", "--", "c"], "shown 2"),
    (&["migrate", "-a", "b"], "shown 2"),
    (&["migrate", "a", "-b"], "shown 2"),
];

fn asked(alloc: Global, words: &Words) -> Result<String, AllocError> {
    match words {
        Words::Format { file } => format!(in alloc; "format {file}"),
        Words::Lines { file } => format!(in alloc; "lines {file}"),
        Words::Migrate { old, new } => format!(in alloc; "migrate {old} {new}"),
        Words::Shown { text: _, status } => format!(in alloc; "shown {status}"),
    }
}

/// What these words ask for, as the table tells it.
fn told_of(rt: &impl Abort, alloc: Global, words: &'static [&'static str]) -> String {
    let words = Words::read(alloc, words).expect(rt, "memory");
    let told = asked(alloc, &words).expect(rt, "memory");
    drop(words);
    told
}

#[test]
fn words_of_the_table(rt: HostRuntime) {
    for (words, wanted) in ASKED {
        let told = told_of(&rt, rt.alloc(), words);
        check!(rt; told.as_str() == *wanted, (words, told.as_str()));
        drop(told);
    }
}

/// Words for which a text is shown, and what it says.
const SHOWN: &[(&[&str], &str)] = &[
    (&["--help"], "Usage: watchmand <COMMAND>"),
    (
        &["--help"],
        "A file watch server whose answers can be trusted",
    ),
    (
        &["--help"],
        "format   Makes a state file; FILE must not be there yet",
    ),
    (
        &["--help"],
        "lines    Answers request lines from standard input over a state file",
    ),
    (
        &["--help"],
        "migrate  Moves all watches and triggers from OLD into NEW, which is written over, and retires OLD",
    ),
    (&["format", "--help"], "Usage: watchmand format <FILE>"),
    (
        &["migrate", "--help"],
        "Usage: watchmand migrate <OLD> <NEW>",
    ),
    (&["format", "--help"], "<FILE>  The path of the state file"),
    (&["--help"], "-V, --version  Print version"),
    (
        &["--help"],
        "  1  refused, or the input or the output failed; standard error says why",
    ),
    (&["--version"], "watchmand w1\n"),
    (&["watch"], "error: unrecognized subcommand 'watch'"),
    (&[], "Usage: watchmand <COMMAND>"),
    (&["lines"], "<FILE>"),
    (&["lines", "a", "b"], "unexpected argument 'b'"),
];

fn text_of(rt: &impl Abort, alloc: Global, words: &'static [&'static str]) -> String {
    match Words::read(alloc, words).expect(rt, "memory") {
        Words::Shown { text, status: _ } => text,
        _ => panic!(rt; "no text is shown"),
    }
}

#[test]
fn shows_help_and_faults(rt: HostRuntime) {
    for (words, part) in SHOWN {
        let text = text_of(&rt, rt.alloc(), words);
        check!(rt; text.contains(*part), (words, part));
        drop(text);
    }
}
