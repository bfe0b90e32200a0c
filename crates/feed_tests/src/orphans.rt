//! Names at which no folder is.
use crate::checks::check;
use std::alloc::Global;
use std::process::Abort;
use wm_feed::Orphans;
use wm_names::RelPath;

fn path(rt: &impl Abort, alloc: Global, text: &str) -> RelPath {
    RelPath::read(alloc, text).expect(rt, "a path")
}

#[test]
fn names_that_nothing_explains(rt: HostRuntime) {
    let alloc = rt.alloc();
    let mut orphans = Orphans::new(alloc);
    // what happened before is no cause
    orphans.end(&path(&rt, alloc, "a")).expect(&rt, "memory");
    for name in ["a/b", "c", "d/e", "f"] {
        orphans.add(path(&rt, alloc, name)).expect(&rt, "memory");
    }
    orphans.end(&path(&rt, alloc, "d")).expect(&rt, "memory");
    orphans.end(&path(&rt, alloc, "f")).expect(&rt, "memory");
    orphans.end(&path(&rt, alloc, "c/x")).expect(&rt, "memory");
    check!(rt; orphans.are_any());
    let left = orphans.unexplained(alloc).expect(&rt, "memory");
    check!(rt; left.len() == 2);
    for name in ["a/b", "c"] {
        check!(rt; left.contains(&path(&rt, alloc, name)), name);
    }
    orphans.clear();
    check!(rt; !orphans.are_any() && orphans.unexplained(alloc).expect(&rt, "memory").is_empty());
}
