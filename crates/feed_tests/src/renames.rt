//! The places that the name of a folder may stand for once folders were renamed.
use crate::checks::check;
use std::alloc::Global;
use std::process::Abort;
use wm_feed::{Change, Renames, Told};
use wm_names::RelPath;

/// A folder that left a folder of the root, or came to it, by a move of this word.
#[derive(Clone, Copy, Debug)]
enum Step {
    Left(&'static str, &'static str, &'static str),
    Came(&'static str, &'static str, &'static str),
}

use Step::{Came, Left};

fn told(step: Step) -> Told<'static> {
    match step {
        Left(folder, name, word) => Told::Entry {
            folder,
            name,
            change: Change::Left(word.as_bytes()),
        },
        Came(folder, name, word) => Told::Entry {
            folder,
            name,
            change: Change::Came(word.as_bytes()),
        },
    }
}

/// Follows steps, and tells whether each could be followed.
fn follow(rt: &impl Abort, alloc: Global, renames: &mut Renames, steps: &[Step]) -> bool {
    for step in steps {
        if !renames.follow(alloc, told(*step)).expect(rt, "memory") {
            return false;
        }
    }
    true
}

/// Moves, a name, and the places that it may stand for.
const PLACES: &[(&[Step], &str, &str)] = &[
    (&[], "a/x", "a/x "),
    (
        &[Left("", "a", "1"), Came("d", "b", "1")],
        "a/x",
        "a/x d/b/x ",
    ),
    (&[Left("", "a", "1"), Came("d", "b", "1")], "d/b", "d/b a "),
    (&[Left("", "a", "1"), Came("d", "b", "1")], "d", "d "),
    (&[Left("", "a", "1"), Came("d", "b", "1")], "ab/x", "ab/x "),
    // a move that another one parts
    (
        &[
            Left("", "a", "1"),
            Left("", "c", "2"),
            Came("", "b", "1"),
            Came("", "d", "2"),
        ],
        "c/x",
        "c/x d/x ",
    ),
    // there and back again
    (
        &[
            Left("", "a", "1"),
            Came("", "b", "1"),
            Left("", "b", "2"),
            Came("", "a", "2"),
        ],
        "a",
        "a b ",
    ),
    // a folder in one that moved before
    (
        &[
            Left("", "a", "1"),
            Came("", "b", "1"),
            Left("b", "x", "2"),
            Came("", "y", "2"),
        ],
        "a/x/z",
        "a/x/z b/x/z y/z ",
    ),
    // a folder that left stands for itself
    (&[Left("", "a", "1")], "a/x", "a/x "),
    (&[Came("", "a", "1")], "a/x", "a/x "),
];

#[test]
fn places_of_the_table(rt: HostRuntime) {
    let alloc = rt.alloc();
    for (steps, name, wanted) in PLACES {
        let mut renames = Renames::new(alloc);
        check!(rt; follow(&rt, alloc, &mut renames, steps), steps);
        let name = RelPath::read(alloc, name).expect(&rt, "a path");
        let places = renames.places(alloc, &name).expect(&rt, "memory");
        let mut text = String::new(alloc);
        for place in &places.expect(&rt, "few places") {
            text.push_str(place.as_str()).expect(&rt, "memory");
            text.push(' ').expect(&rt, "memory");
        }
        check!(rt; text.as_str() == *wanted, (steps, text));
    }
}

/// Moves that can't be followed.
const LOST: &[&[Step]] = &[
    // a folder came after another one had left
    &[Left("", "a", "1"), Came("", "b", "2")],
    // a name that is no path
    &[Left("", "..", "1")],
    &[Left("", "a", "1"), Came("", ".", "1")],
];

#[test]
fn tells_what_it_cannot_follow(rt: HostRuntime) {
    for steps in LOST {
        let mut renames = Renames::new(rt.alloc());
        check!(rt; !follow(&rt, rt.alloc(), &mut renames, steps), steps);
    }
    let mut renames = Renames::new(rt.alloc());
    let parted = [Left("", "a", "1"), Came("", "b", "1"), Came("", "c", "2")];
    check!(rt; follow(&rt, rt.alloc(), &mut renames, &parted) && renames.are_any());
    check!(rt; !renames.has_departed(b"1") && !renames.has_departed(b"2"));
    check!(rt; follow(&rt, rt.alloc(), &mut renames, &[Left("", "a", "3")]));
    check!(rt; renames.has_departed(b"3") && !renames.has_departed(b"2"));
}
