//! Metadata compared part by part, and the letters of kinds.
use crate::checks::check;
use wm_names::{Kind, Meta};

const META: Meta = Meta {
    kind: Kind::File,
    size: 5,
    mtime_ms: 7,
};

// Each is another in one part.
const OTHERS: &[Meta] = &[
    Meta {
        kind: Kind::Folder,
        size: 5,
        mtime_ms: 7,
    },
    Meta {
        kind: Kind::Link,
        size: 5,
        mtime_ms: 7,
    },
    Meta {
        kind: Kind::Other,
        size: 5,
        mtime_ms: 7,
    },
    Meta {
        kind: Kind::File,
        size: 6,
        mtime_ms: 7,
    },
    Meta {
        kind: Kind::File,
        size: 5,
        mtime_ms: 8,
    },
];

const LETTERS: &[(&str, Kind)] = &[
    ("f", Kind::File),
    ("d", Kind::Folder),
    ("l", Kind::Link),
    ("o", Kind::Other),
];

// Whether two are the same, as each of them says.
fn are_same(first: &Meta, second: &Meta) -> (bool, bool) {
    (first.same(second), second.same(first))
}

#[test]
fn is_the_same_where_each_part_is(rt: HostRuntime) {
    check!(rt; META.same(&META));
    for other in OTHERS {
        check!(rt; other.same(other), other);
        check!(rt; are_same(&META, other) == (false, false), other);
    }
}

#[test]
fn each_kind_has_one_letter(rt: HostRuntime) {
    for (letter, kind) in LETTERS {
        check!(rt; kind.letter() == *letter, letter);
        check!(rt; Kind::from_letter(letter) == Some(*kind), letter);
    }
    for other in &["", "F", "ff", "x"] {
        check!(rt; Kind::from_letter(other).is_none(), other);
    }
}

#[test]
fn each_kind_is_the_same_as_itself_alone(rt: HostRuntime) {
    for (i, (_, first)) in LETTERS.iter().enumerate() {
        for (k, (_, second)) in LETTERS.iter().enumerate() {
            check!(rt; first.same(*second) == (i == k), (first, second));
        }
    }
}
