//! What inotifywait says beside its records.
use crate::checks::check;
use wm_feed::{Words, is_for_user};

#[test]
fn lines_for_a_user(rt: HostRuntime) {
    let alloc = rt.alloc();
    let mut words = Words::new(alloc);
    words
        .push(
            b"Setting up watches.  Beware: since -r was given, this may take a while!\nWatches estab",
        )
        .expect(&rt, "memory");
    check!(rt; !words.take_established());
    words
        .push(b"lished.\nFailed to watch /r/; upper limit on inotify watches reached!\nPlease")
        .expect(&rt, "memory");
    check!(rt; words.take_established() && !words.take_established());
    let line = words
        .take_line(alloc)
        .expect(&rt, "memory")
        .expect(&rt, "a line");
    check!(rt; line.as_str() == "Failed to watch /r/; upper limit on inotify watches reached!");
    check!(rt; words.take_line(alloc).expect(&rt, "memory").is_none());
    words.push(b" wait\n").expect(&rt, "memory");
    let line = words
        .take_line(alloc)
        .expect(&rt, "memory")
        .expect(&rt, "a line");
    check!(rt; line.as_str() == "Please wait");
    words
        .push(b"Couldn't watch new directory /r/d/: No such file or directory\n")
        .expect(&rt, "memory");
    check!(rt; words.take_line(alloc).expect(&rt, "memory").is_some());
    check!(rt; !is_for_user(b"Couldn't watch new directory /r/d: No such file or directory"));
    check!(rt; is_for_user(b"Couldn't watch new directory /r/d: Permission denied"));
}
