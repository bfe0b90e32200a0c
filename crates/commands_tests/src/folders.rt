//! Which root holds a folder, and the names of its files from there.
use crate::checks::check;
use wm_commands::{HomeWord, holder_of, name_in, named_root, reported_name};
use wm_names::RootPath;

/// A folder, and which of `/a`, `/a/b`, `/a/b/c` and `/ab` holds it.
const HOLDERS: &[(&str, Option<&str>)] = &[
    ("/a", Some("/a")),
    ("/a/x", Some("/a")),
    ("/a/b", Some("/a/b")),
    ("/a/bc", Some("/a")),
    ("/a/b/d/e", Some("/a/b")),
    ("/a/b/c/d", Some("/a/b/c")),
    ("/ab", Some("/ab")),
    ("/ab/c", Some("/ab")),
    ("/abc", None),
    ("/", None),
    ("/b", None),
];

#[test]
fn holders_of_the_table(rt: HostRuntime) {
    let alloc = rt.alloc();
    let mut roots = Vec::new(alloc);
    for text in ["/a/b", "/a", "/ab", "/a/b/c"] {
        roots
            .push(RootPath::read(alloc, text).expect(&rt, "root"))
            .expect(&rt, "memory");
    }
    for (dir, wanted) in HOLDERS {
        let found = holder_of(&roots, dir).map(|root| root.as_str());
        check!(rt; found == *wanted, dir);
    }
}

/// A path, the folder to which it leads, and which of `/a`, `/link` and `/a/b` is meant, or the folder.
const NAMED: &[(&str, &str, &str)] = &[
    ("/a", "/a", "/a"),
    ("/a/", "/a", "/a"),
    ("/link", "/a", "/link"),
    ("/link//", "/a", "/link"),
    ("/a/b", "/real/b", "/a/b"),
    ("/a/b/../b", "/a/b", "/a/b"),
    ("/other", "/a", "/a"),
    ("/links", "/c", "/c"),
    ("/link/x", "/a/x", "/a/x"),
    ("/", "/", "/"),
];

#[test]
fn named_of_the_table(rt: HostRuntime) {
    let alloc = rt.alloc();
    let mut roots = Vec::new(alloc);
    for text in ["/a", "/link", "/a/b"] {
        roots
            .push(RootPath::read(alloc, text).expect(&rt, "root"))
            .expect(&rt, "memory");
    }
    for (path, folder, wanted) in NAMED {
        check!(rt; named_root(&roots, path, folder) == *wanted, (path, folder));
    }
}

/// A root, a folder, a file of the root, and its name from the folder.
const NAMES: &[(&str, &str, &str, Option<&str>)] = &[
    ("/a", "/a", "x/y.c", Some("x/y.c")),
    ("/a", "/a/x", "x/y.c", Some("y.c")),
    ("/a", "/a/x", "x/z/y.c", Some("z/y.c")),
    ("/a", "/a/x", "x", None),
    ("/a", "/a/x", "xy.c", None),
    ("/a", "/a/x", "xy/z", None),
    ("/a", "/a/x", "y/x/z", None),
    ("/a", "/b", "x", None),
];

#[test]
fn names_of_the_table(rt: HostRuntime) {
    let alloc = rt.alloc();
    for (root, dir, name, wanted) in NAMES {
        let found = reported_name(alloc, root, dir, name).expect(&rt, "memory");
        let found = found.as_ref().map(|text| text.as_str());
        check!(rt; found == *wanted, (root, dir, name));
    }
}

/// A root, a folder, and its path below the root.
const BELOW: &[(&str, &str, Option<&str>)] = &[
    ("/a", "/a", None),
    ("/a", "/a/b", Some("b")),
    ("/a", "/a/b/c", Some("b/c")),
    ("/a", "/ab", None),
];

#[test]
fn below_of_the_table(rt: HostRuntime) {
    for (root, dir, wanted) in BELOW {
        let found = name_in(rt.alloc(), root, dir).expect(&rt, "memory");
        check!(rt; found == *wanted, (root, dir));
    }
}

/// A word, and what a shell would have replaced at its start.
const HOME: &[(&str, Option<HomeWord>)] = &[
    ("~", Some(HomeWord::Tilde)),
    ("~/a", Some(HomeWord::Tilde)),
    ("~a", None),
    ("a/~", None),
    ("/~", None),
    ("", None),
    ("$HOME", Some(HomeWord::Variable)),
    ("$HOME/a/b", Some(HomeWord::Variable)),
    ("$HOMER", None),
    ("$HOM", None),
    ("/$HOME", None),
];

#[test]
fn home_words_of_the_table(rt: HostRuntime) {
    for (word, wanted) in HOME {
        check!(rt; HomeWord::of(word) == *wanted, word);
    }
}
