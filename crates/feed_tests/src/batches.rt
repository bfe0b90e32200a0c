//! What records ask for together.
use crate::checks::check;
use std::alloc::Global;
use std::collections::BTreeSet;
use std::process::Abort;
use wm_feed::{Batch, Change, Told};
use wm_names::RelPath;

fn texts(rt: &impl Abort, alloc: Global, paths: &BTreeSet<RelPath>) -> String {
    let mut text = String::new(alloc);
    for path in paths {
        text.push_str(path.as_str()).expect(rt, "memory");
        text.push(' ').expect(rt, "memory");
    }
    text
}

fn entry<'a>(folder: &'a str, name: &'a str, change: Change<'a>) -> Told<'a> {
    Told::Entry {
        folder,
        name,
        change,
    }
}

#[test]
fn has_each_path_once(rt: HostRuntime) {
    let alloc = rt.alloc();
    let mut batch = Batch::new(alloc);
    batch
        .add(alloc, entry("d", "b", Change::File))
        .expect(&rt, "memory");
    batch
        .add(alloc, entry("", "a", Change::File))
        .expect(&rt, "memory");
    batch
        .add(alloc, entry("d", "b", Change::File))
        .expect(&rt, "memory");
    batch
        .add(alloc, entry("d", "n", Change::Made))
        .expect(&rt, "memory");
    batch
        .add(alloc, entry("d", "o", Change::Removed))
        .expect(&rt, "memory");
    // its folder stays the same
    batch
        .add(alloc, entry("f", "c", Change::Content))
        .expect(&rt, "memory");
    batch
        .add(alloc, Told::Folder { folder: "e" })
        .expect(&rt, "memory");
    batch.add(alloc, Told::Nothing).expect(&rt, "memory");
    check!(rt; texts(&rt, alloc, batch.paths()).as_str() == "a d d/b d/n d/o e f/c ");
    check!(rt; texts(&rt, alloc, batch.folders()).as_str() == "d/n d/o ");
    check!(rt; !batch.is_whole());
}

#[test]
fn asks_for_the_whole_by_a_doubt(rt: HostRuntime) {
    let mut batch = Batch::new(rt.alloc());
    batch.add(rt.alloc(), Told::Doubt).expect(&rt, "memory");
    check!(rt; batch.is_whole() && batch.paths().is_empty());
}

#[test]
fn leaves_out_what_is_too_long(rt: HostRuntime) {
    let alloc = rt.alloc();
    let long = vec![in alloc; b'x'; 1_025].expect(&rt, "memory");
    let long = str::from_utf8(&long).expect(&rt, "a text");
    let mut batch = Batch::new(alloc);
    batch
        .add(alloc, entry("d", long, Change::Made))
        .expect(&rt, "memory");
    check!(rt; texts(&rt, alloc, batch.paths()).as_str() == "d ");
    check!(rt; batch.folders().is_empty() && !batch.is_whole());
}
