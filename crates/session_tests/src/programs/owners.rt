//! A state file has one owner at a time.
use crate::checks::check;
use std::alloc::Global;
use std::fs;
use std::fs::{File, Files};
use std::process::Abort;
use wm_file::{FileDisk, Unknown};
use wm_server::program::watchmand;
use wm_server::system::Host;
use wm_session::{Input, Output};

fn opens(files: &impl Files<File = File>, path: &str) -> bool {
    let opened = FileDisk::<Unknown>::open(files, path);
    let is_opened = opened.is_ok();
    drop(opened);
    is_opened
}

/// What `lines` on a path ends with and tells of faults.
fn served(
    rt: &impl Abort,
    alloc: Global,
    files: &impl Files<File = File>,
    path: &str,
) -> (u8, String) {
    let mut output = Vec::new(alloc);
    let mut faults = Vec::new(alloc);
    let words = ["lines", path];
    let mut reader = Input::new(b"".as_slice());
    let mut writer = Output::new(&mut output);
    let mut told = Output::new(&mut faults);
    let mut system = Host::new(files);
    let status = watchmand(
        alloc,
        &mut system,
        &words,
        &mut reader,
        &mut writer,
        &mut told,
    );
    (status, String::from_utf8(faults).expect(rt, "a text"))
}

/// Asserts that a file that another has is neither opened nor served, and keeps its text.
fn assert_owned<R: Files<File = File> + AllocGlobal + Abort>(rt: &R, path: &str, text: &str) {
    check!(rt; !opens(rt, path));
    let (status, faults) = served(rt, rt.alloc(), rt, path);
    check!(rt; status == 1 && faults.as_str() == "watchmand: 13 DeviceFailed\n");
    drop(faults);
    let whole = fs::read_to_string(rt, path).expect(rt, "a text");
    check!(rt; whole.as_str() == text);
    drop(whole);
}

#[test]
fn opens_no_file_that_another_has(rt: HostRuntime) {
    const PATH: &str = "wm_server_owner_opened";
    fs::write(&rt, PATH, b"abc".as_slice()).expect(&rt, "a write");
    let first = FileDisk::<Unknown>::open(&rt, PATH).expect(&rt, "a disk");
    assert_owned(&rt, PATH, "abc");
    drop(first);
    check!(rt; opens(&rt, PATH));
    fs::remove_file(&rt, PATH).expect(&rt, "a removal");
}

#[test]
fn opens_no_file_that_another_makes(rt: HostRuntime) {
    const PATH: &str = "wm_server_owner_made";
    drop(fs::remove_file(&rt, PATH));
    let first = FileDisk::<Unknown>::create(&rt, PATH).expect(&rt, "a disk");
    check!(rt; !opens(&rt, PATH));
    drop(first);
    check!(rt; opens(&rt, PATH));
    fs::remove_file(&rt, PATH).expect(&rt, "a removal");
}
