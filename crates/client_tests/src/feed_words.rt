//! What the command-line words ask of `wmfeed`.
use crate::checks::check;
use std::alloc::{AllocError, Global};
use wm_client::FeedWords;

/// Lists of words, and what they ask for.
const ASKED: &[(&[&str], &str)] = &[
    (&["s", "/r"], "feed s /r"),
    (&["s"], "feed s"),
    (&["s", "--every-event"], "feed s every"),
    (&["--every-event", "s", "/r"], "feed s /r every"),
    (&["s", "/r", "--every-event"], "feed s /r every"),
    (&["--", "-s", "/r"], "feed -s /r"),
    (&["s", "--", "--every-event"], "feed s --every-event"),
    (&["--help"], "shown 0"),
    (&["s", "-V"], "shown 0"),
    (&[], "shown 2"),
    (&["--every-event"], "shown 2"),
    (&["s", "/r", "t"], "shown 2"),
    (&["s", "-r"], "shown 2"),
    (&["s", "--every-event=true"], "shown 2"),
    (&["s", "--every-event", "--every-event"], "shown 2"),
];

fn asked(alloc: Global, words: &FeedWords) -> Result<String, AllocError> {
    match words {
        FeedWords::Feed {
            socket,
            root,
            is_every_event,
        } => {
            let every = if *is_every_event { " every" } else { "" };
            match root {
                Some(root) => format!(in alloc; "feed {socket} {root}{every}"),
                None => format!(in alloc; "feed {socket}{every}"),
            }
        }
        FeedWords::Shown { text: _, status } => format!(in alloc; "shown {status}"),
    }
}

#[test]
fn words_of_the_table(rt: HostRuntime) {
    let alloc = rt.alloc();
    for (words, wanted) in ASKED {
        let read = FeedWords::read(alloc, words).expect(&rt, "words");
        let told = asked(alloc, &read).expect(&rt, "memory");
        check!(rt; told.as_str() == *wanted, (words, told));
    }
}
