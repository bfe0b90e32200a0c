//! Which roots are to be fed from now on, and which no longer.
use crate::checks::check;
use std::alloc::Global;
use std::process::Abort;
use wm_feed::{is_listed, to_begin};
use wm_names::RootPath;

fn roots(rt: &impl Abort, alloc: Global, texts: &[&str]) -> Vec<RootPath> {
    let mut roots = Vec::new(alloc);
    for text in texts {
        let root = RootPath::read(alloc, text).expect(rt, "a root");
        roots.push(root).expect(rt, "memory");
    }
    roots
}

fn texts(rt: &impl Abort, alloc: Global, roots: &[RootPath]) -> String {
    let mut text = String::new(alloc);
    for root in roots {
        text.push_str(root.as_str()).expect(rt, "memory");
        text.push(' ').expect(rt, "memory");
    }
    text
}

/// The roots that are fed, those that are listed, and those to begin with.
const LISTS: &[(&[&str], &[&str], &str)] = &[
    (&[], &[], ""),
    (&[], &["/b", "/a"], "/b /a "),
    (&["/b", "/a"], &[], ""),
    (&["/a"], &["/a"], ""),
    (&["/a", "/b"], &["/c", "/b", "/d"], "/c /d "),
    (&["/a"], &["/a/b"], "/a/b "),
    // each once
    (&["/a", "/a"], &["/c", "/c", "/b", "/c"], "/c /b "),
];

#[test]
fn lists_of_the_table(rt: HostRuntime) {
    let alloc = rt.alloc();
    for (fed, listed, begin) in LISTS {
        let is_fed = roots(&rt, alloc, fed);
        let is_in_list = roots(&rt, alloc, listed);
        let begins = to_begin(alloc, &is_fed, &is_in_list).expect(&rt, "memory");
        check!(rt; texts(&rt, alloc, &begins).as_str() == *begin, (fed, listed));
    }
}

#[test]
fn finds_a_root_in_a_list(rt: HostRuntime) {
    let alloc = rt.alloc();
    let listed = roots(&rt, alloc, &["/a", "/b/c"]);
    for (text, wanted) in [("/a", true), ("/b/c", true), ("/b", false), ("/a/b", false)] {
        let root = RootPath::read(alloc, text).expect(&rt, "a root");
        check!(rt; is_listed(&root, &listed) == wanted, text);
    }
}
