//! What was found twice.
use crate::checks::check;
use std::alloc::Global;
use std::collections::BTreeSet;
use std::process::Abort;
use wm_feed::Lasting;
use wm_names::RelPath;

fn paths(rt: &impl Abort, alloc: Global, texts: &[&str]) -> BTreeSet<RelPath> {
    let mut found = BTreeSet::new(alloc);
    for text in texts {
        let path = RelPath::read(alloc, text).expect(rt, "a path");
        found.insert(path).expect(rt, "memory");
    }
    found
}

/// What is found at a moment, and how much of it lasts for 60.
const FOUND: &[(u64, &[&str], usize)] = &[
    (100, &["a", "b"], 0),
    (110, &["a", "b"], 0),
    (159, &["c"], 0),
    (160, &["b", "c"], 1),
    (161, &["c"], 0),
    (220, &["c"], 1),
    (230, &[], 0),
    (400, &["c"], 0),
    (500, &["c"], 1),
];

#[test]
fn what_was_found_before(rt: HostRuntime) {
    let alloc = rt.alloc();
    let mut lasting = Lasting::new(alloc);
    for (now, found, wanted) in FOUND {
        let found = paths(&rt, alloc, found);
        let both = lasting.take(alloc, found, *now, 60).expect(&rt, "memory");
        check!(rt; both.len() == *wanted, now);
    }
}
