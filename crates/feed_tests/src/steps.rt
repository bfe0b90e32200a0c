//! The order in which a batch is told.
use crate::checks::check;
use std::alloc::Global;
use std::process::Abort;
use wm_feed::{Batch, Change, MAX_CRAWLS, MAX_OBSERVED, Step, Told, steps_of};
use wm_names::{RelPath, Subtree};

/// What an entry is in a batch: a file that changed, or a folder that was made.
#[derive(Clone, Copy, Debug)]
enum Entry {
    File(&'static str),
    Made(&'static str),
}

use Entry::{File, Made};

fn put(rt: &impl Abort, alloc: Global, batch: &mut Batch, path: &str, change: Change<'_>) {
    let (folder, name) = match path.rsplit_once('/') {
        Some(parts) => parts,
        None => ("", path),
    };
    let told = Told::Entry {
        folder,
        name,
        change,
    };
    batch.add(alloc, told).expect(rt, "memory");
}

fn add_paths(rt: &impl Abort, text: &mut String, paths: &[RelPath]) {
    text.push_str("look").expect(rt, "memory");
    for path in paths {
        text.push(' ').expect(rt, "memory");
        text.push_str(path.as_str()).expect(rt, "memory");
    }
}

fn texts(rt: &impl Abort, alloc: Global, batch: &Batch) -> String {
    let mut text = String::new(alloc);
    for step in &steps_of(alloc, batch).expect(rt, "memory") {
        match step {
            Step::Crawl(Subtree::Whole) => text.push_str("crawl all").expect(rt, "memory"),
            Step::Crawl(Subtree::Below(top)) => {
                text.push_str("crawl ").expect(rt, "memory");
                text.push_str(top.as_str()).expect(rt, "memory");
            }
            Step::Observe(paths) => add_paths(rt, &mut text, paths),
        }
        text.push_str("; ").expect(rt, "memory");
    }
    text
}

/// What is in a batch, and what is asked of the server for it.
const STEPS: &[(&[Entry], &str)] = &[
    (&[], ""),
    (&[File("a")], "look a; "),
    (&[File("d/b"), File("a")], "look a d d/b; "),
    // a folder is crawled before anything is looked up, and its own path is looked up then
    (&[File("a"), Made("d")], "crawl d; look a d; "),
    (
        &[Made("d"), File("d/x"), File("d/e/y")],
        "crawl d; look d; ",
    ),
    // one below another one, also with a name between them
    (
        &[Made("d"), Made("d/e"), Made("d/e/f")],
        "crawl d; look d; ",
    ),
    (
        &[Made("d/e"), Made("d-e"), Made("d")],
        "crawl d; crawl d-e; look d d-e; ",
    ),
    (
        &[Made("d/e"), Made("f/g/h"), File("d/x")],
        "crawl d/e; crawl f/g/h; look d d/e d/x f/g f/g/h; ",
    ),
    (&[Made("de"), File("d/x")], "crawl de; look d d/x de; "),
];

#[test]
fn steps_of_the_table(rt: HostRuntime) {
    let alloc = rt.alloc();
    for (entries, wanted) in STEPS {
        let mut batch = Batch::new(alloc);
        for entry in *entries {
            match entry {
                File(path) => put(&rt, alloc, &mut batch, path, Change::File),
                Made(path) => put(&rt, alloc, &mut batch, path, Change::Made),
            }
        }
        let is = texts(&rt, alloc, &batch);
        check!(rt; is.as_str() == *wanted, (entries, is));
    }
}

#[test]
fn crawls_all_for_a_doubt(rt: HostRuntime) {
    let alloc = rt.alloc();
    let mut batch = Batch::new(alloc);
    put(&rt, alloc, &mut batch, "a", Change::Made);
    batch.add(alloc, Told::Doubt).expect(&rt, "memory");
    check!(rt; texts(&rt, alloc, &batch).as_str() == "crawl all; ");
}

/// A batch of so many entries, told as this.
fn many(rt: &impl Abort, alloc: Global, count: usize, change: Change<'_>) -> Batch {
    let mut batch = Batch::new(alloc);
    for number in 0..count {
        let name = format!(in alloc; "{number}").expect(rt, "memory");
        put(rt, alloc, &mut batch, name.as_str(), change);
    }
    batch
}

#[test]
fn crawls_all_for_many_folders(rt: HostRuntime) {
    let alloc = rt.alloc();
    let mut batch = many(&rt, alloc, MAX_CRAWLS, Change::Made);
    put(&rt, alloc, &mut batch, "0/below", Change::Made);
    let steps = steps_of(alloc, &batch).expect(&rt, "memory");
    check!(rt; steps.len() == MAX_CRAWLS + 1);
    put(&rt, alloc, &mut batch, "other", Change::Made);
    check!(rt; texts(&rt, alloc, &batch).as_str() == "crawl all; ");
}

#[test]
fn looks_at_many_paths_in_lists(rt: HostRuntime) {
    let alloc = rt.alloc();
    let batch = many(&rt, alloc, MAX_OBSERVED * 2 + 1, Change::File);
    let steps = steps_of(alloc, &batch).expect(&rt, "memory");
    let wanted = [MAX_OBSERVED, MAX_OBSERVED, 1];
    check!(rt; steps.len() == wanted.len());
    for (step, count) in steps.iter().zip(wanted.iter()) {
        let is = match step {
            Step::Observe(paths) => paths.len(),
            Step::Crawl(_) => 0,
        };
        check!(rt; is == *count, count);
    }
}
