//! What the command-line words ask of `watchmand`, `serve` among them.
use crate::checks::check;
use std::alloc::{AllocError, Global};
use wm_program::Words;

/// Lists of words, and what they ask for.
const ASKED: &[(&[&str], &str)] = &[
    (
        &["serve", "f", "s"],
        "serve f s 4 43200 86400 18446744073709551615 false",
    ),
    (
        &["serve", "f", "--quiet", "s"],
        "serve f s 4 43200 86400 18446744073709551615 true",
    ),
    (
        &[
            "serve",
            "--workers",
            "16",
            "f",
            "--gc-age=0",
            "s",
            "--gc-interval",
            "4294967295",
            "--sessions",
            "2",
        ],
        "serve f s 16 0 4294967295 2 false",
    ),
    (
        &["serve", "--workers=1", "--", "-f", "-s"],
        "serve -f -s 1 43200 86400 18446744073709551615 false",
    ),
    (&["format", "f"], "plain"),
    (&["lines", "f"], "plain"),
    (&["migrate", "f", "g"], "plain"),
    (&["--help"], "shown 0"),
    (&["serve", "--help"], "shown 0"),
    (&["serve", "-V"], "shown 0"),
    (&[], "shown 2"),
    (&["serve"], "shown 2"),
    (&["serve", "f"], "shown 2"),
    (&["serve", "f", "s", "t"], "shown 2"),
    (&["serve", "f", "s", "--workers"], "shown 2"),
    (&["serve", "f", "s", "--workers", "0"], "shown 2"),
    (&["serve", "f", "s", "--workers", "17"], "shown 2"),
    (&["serve", "f", "s", "--workers", "x"], "shown 2"),
    (&["serve", "f", "s", "--gc-age=-1"], "shown 2"),
    (&["serve", "f", "s", "--gc-age", "-1"], "shown 2"),
    (&["serve", "f", "s", "--gc-age", "4294967296"], "shown 2"),
    (&["serve", "f", "s", "--gc-interval", ""], "shown 2"),
    (
        &["serve", "f", "s", "--sessions", "1", "--sessions", "2"],
        "shown 2",
    ),
    (&["serve", "f", "s", "--quiet=true"], "shown 2"),
    (&["serve", "f", "s", "--quiet", "--quiet"], "shown 2"),
    (&["lines", "f", "--quiet"], "shown 2"),
    (&["server", "f", "s"], "shown 2"),
    (&["lines", "f", "--sessions", "1"], "shown 2"),
    (&["migrate", "f"], "shown 2"),
];

fn asked(alloc: Global, words: &Words) -> Result<String, AllocError> {
    match words {
        Words::Serve {
            file,
            socket,
            settings,
        } => {
            let (workers, sessions) = (settings.workers, settings.sessions);
            let age = settings.retention.age_seconds;
            let interval = settings.retention.interval_seconds;
            let is_quiet = settings.is_quiet;
            format!(in alloc;
                "serve {file} {socket} {workers} {age} {interval} {sessions} {is_quiet}"
            )
        }
        Words::Plain => String::from_str(alloc, "plain"),
        Words::Shown { text: _, status } => format!(in alloc; "shown {status}"),
    }
}

/// Words with a number that isn't one, or is none of those that are taken.
const NO_NUMBERS: &[&[&str]] = &[
    &["serve", "f", "s", "--workers", "-1"],
    &["serve", "--gc-age", "-43200", "f", "s"],
    &["serve", "f", "--gc-interval", "-0", "s"],
    &["serve", "f", "s", "--quiet", "--sessions", "-1"],
    &["serve", "f", "s", "--sessions=-1"],
    &["serve", "f", "s", "--workers", "17"],
];

#[test]
fn says_which_numbers_there_are(rt: HostRuntime) {
    let wanted =
        "error: N and S are whole numbers from 0 to 4294967295, and the workers are 1 to 16\n\n\
        For more information, try '--help'.\n";
    for words in NO_NUMBERS {
        let read = Words::read(rt.alloc(), words).expect(&rt, "words");
        let is_told = match &read {
            Words::Shown { text, status: 2 } => text.as_str() == wanted,
            _ => false,
        };
        check!(rt; is_told, words);
    }
}

#[test]
fn words_of_the_table(rt: HostRuntime) {
    let alloc = rt.alloc();
    for (words, wanted) in ASKED {
        let read = Words::read(alloc, words).expect(&rt, "words");
        let told = asked(alloc, &read).expect(&rt, "memory");
        check!(rt; told.as_str() == *wanted, (words, told));
    }
}
