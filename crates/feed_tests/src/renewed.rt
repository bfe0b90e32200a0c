//! Paths at which an event showed nothing new.
use crate::checks::check;
use std::collections::BTreeSet;
use wm_feed::unshown;
use wm_names::{Kind, Meta, RelPath};

const fn meta(kind: Kind) -> Option<Meta> {
    Some(Meta {
        kind,
        size: 3,
        mtime_ms: 5,
    })
}

#[test]
fn what_is_there_and_did_not_change(rt: HostRuntime) {
    let alloc = rt.alloc();
    let found = [
        ("e", meta(Kind::File)),
        ("gone", None),
        ("d", meta(Kind::Folder)),
        ("new", meta(Kind::File)),
        ("b", meta(Kind::Link)),
        ("d/o", meta(Kind::Other)),
    ];
    let mut pairs = Vec::new(alloc);
    for (path, state) in found {
        let path = RelPath::read(alloc, path).expect(&rt, "a path");
        pairs.push((path, state)).expect(&rt, "memory");
    }
    let mut changed = BTreeSet::new(alloc);
    for path in ["new", "other"] {
        let path = RelPath::read(alloc, path).expect(&rt, "a path");
        changed.insert(path).expect(&rt, "memory");
    }
    let left = unshown(alloc, &pairs, &changed).expect(&rt, "memory");
    let wanted = [
        ("e", meta(Kind::File)),
        ("b", meta(Kind::Link)),
        ("d/o", meta(Kind::Other)),
    ];
    check!(rt; left.len() == wanted.len());
    for (pair, (path, state)) in left.iter().zip(wanted.iter()) {
        check!(rt; pair.0.as_str() == *path && pair.1 == *state, path);
    }
}
