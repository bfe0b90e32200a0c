//! Which folders are to be checked for a watch.
use crate::checks::check;
use std::alloc::Global;
use std::process::Abort;
use wm_feed::{Change, Checks, Told};
use wm_names::RelPath;

/// Adds what happened to a name in the folder `d`, whose place is certain or not.
fn add(
    rt: &impl Abort,
    alloc: Global,
    checks: &mut Checks,
    name: &str,
    change: Change<'_>,
    is_certain: bool,
) {
    let told = Told::Entry {
        folder: "d",
        name,
        change,
    };
    checks.add(alloc, told, is_certain).expect(rt, "memory");
}

fn parts(rt: &impl Abort, alloc: Global, checks: &Checks) -> String {
    let mut text = String::new(alloc);
    for path in checks.parts() {
        text.push_str(path.as_str()).expect(rt, "memory");
        text.push(if checks.is_made(path) { '!' } else { ' ' })
            .expect(rt, "memory");
    }
    text
}

#[test]
fn begins_with_all_folders(rt: HostRuntime) {
    let mut checks = Checks::all(rt.alloc());
    check!(rt; checks.are_any() && checks.is_all());
    checks.clear();
    check!(rt; !checks.are_any() && !checks.is_all());
    checks.ask_for_all();
    check!(rt; checks.are_any() && checks.is_all());
}

#[test]
fn has_folders_that_were_made_or_came(rt: HostRuntime) {
    let alloc = rt.alloc();
    let mut checks = Checks::all(alloc);
    checks.clear();
    add(&rt, alloc, &mut checks, "f", Change::File, true);
    add(&rt, alloc, &mut checks, "f", Change::Content, true);
    add(&rt, alloc, &mut checks, "x", Change::Removed, true);
    add(&rt, alloc, &mut checks, "o", Change::Folder, true);
    check!(rt; !checks.are_any());
    add(&rt, alloc, &mut checks, "a", Change::Made, true);
    add(&rt, alloc, &mut checks, "b", Change::Made, false);
    check!(rt; parts(&rt, alloc, &checks).as_str() == "d/a!d/b ");
    // what moves takes others with it
    add(&rt, alloc, &mut checks, "c", Change::Came(b"1"), true);
    check!(rt; parts(&rt, alloc, &checks).as_str() == "d/a d/b d/c ");
    // what is removed may be made anew with others in it
    add(&rt, alloc, &mut checks, "a", Change::Made, true);
    check!(rt; parts(&rt, alloc, &checks).as_str() == "d/a!d/b d/c ");
    add(&rt, alloc, &mut checks, "x", Change::Removed, true);
    check!(rt; parts(&rt, alloc, &checks).as_str() == "d/a d/b d/c ");
    checks.clear();
    let path = RelPath::read(alloc, "d/a").expect(&rt, "a path");
    check!(rt; !checks.are_any() && !checks.is_made(&path));
}
