//! Calls of the program over a real file.
use super::read_only::ReadOnly;
use crate::checks::check;
use crate::disks::journal;
use std::alloc::Global;
use std::fs;
use std::fs::{File, Files};
use std::process::Abort;
use wm_server::program::watchmand;
use wm_server::system::Host;
use wm_session::{Input, Output};

pub(super) const DEVICE_FAILED: &str = "watchmand: 13 DeviceFailed\n";

const PATH: &str = "wm_server_program";

/// A call: words of the program, its input, and its status, replies and faults.
pub(super) type Call<'a> = (&'a [&'a str], &'a str, u8, &'a str, &'a str);

/// One call after the other.
const CALLS: &[Call<'static>] = &[
    (&["format", PATH], "", 0, "formatted\n", ""),
    (&["format", PATH], "", 1, "", DEVICE_FAILED),
    (
        &["lines", PATH],
        "[\"watch\",\"/r\"]\n[\"watch-list\"]\n",
        0,
        "{\"version\":\"w1\",\"watch\":\"/r\"}\n{\"roots\":[\"/r\"],\"version\":\"w1\"}\n",
        "",
    ),
    (
        &["lines", PATH],
        "[\"watch-list\"]\n",
        0,
        "{\"roots\":[\"/r\"],\"version\":\"w1\"}\n",
        "",
    ),
    (
        &["lines", "wm_server_program_missing"],
        "[\"version\"]\n",
        1,
        "",
        DEVICE_FAILED,
    ),
    (&["lines", "."], "[\"version\"]\n", 1, "", DEVICE_FAILED),
];

/// Calls the program, and gives its status, replies and faults.
fn called(
    rt: &impl Abort,
    alloc: Global,
    files: &impl Files<File = File>,
    words: &[&str],
    input: &str,
) -> (u8, String, String) {
    let mut output = Vec::new(alloc);
    let mut faults = Vec::new(alloc);
    let mut reader = Input::new(input.as_bytes());
    let mut writer = Output::new(&mut output);
    let mut told = Output::new(&mut faults);
    let mut system = Host::new(files);
    let status = watchmand(
        alloc,
        &mut system,
        words,
        &mut reader,
        &mut writer,
        &mut told,
    );
    (
        status,
        String::from_utf8(output).expect(rt, "a text"),
        String::from_utf8(faults).expect(rt, "a text"),
    )
}

pub(super) fn answers(
    rt: &impl Abort,
    alloc: Global,
    files: &impl Files<File = File>,
    call: &Call<'_>,
) -> bool {
    let (words, input, status, output, faults) = *call;
    let (told_status, told_output, told_faults) = called(rt, alloc, files, words, input);
    let is_told = told_output.as_str() == output && told_faults.as_str() == faults;
    drop(told_output);
    drop(told_faults);
    is_told && told_status == status
}

/// A start and a watch, and another start.
const USED: &[u8] = b"\xa5\x00\xa5\x01\x00\x00\x00\x02/r\xa5\x00\x00";

#[test]
fn calls_the_program(rt: HostRuntime) {
    drop(fs::remove_file(&rt, PATH));
    for call in CALLS {
        check!(rt; answers(&rt, rt.alloc(), &rt, call), (call.0, call.1));
    }
    let content = fs::read(&rt, PATH).expect(&rt, "a file");
    fs::remove_file(&rt, PATH).expect(&rt, "a removal");
    check!(rt; journal(&content, USED.len()) == USED);
    drop(content);
}

/// A `format` that fails leaves nothing that it made, and all that was there before.
#[test]
fn takes_away_what_it_made(rt: HostRuntime) {
    const MADE: &str = "wm_server_program_unformatted";
    drop(fs::remove_file(&rt, MADE));
    let files = ReadOnly(&rt);
    let call = (["format", MADE].as_slice(), "", 1, "", DEVICE_FAILED);
    check!(rt; answers(&rt, rt.alloc(), &files, &call));
    check!(rt; fs::metadata(&rt, MADE).is_err());
    fs::write(&rt, MADE, b"abc".as_slice()).expect(&rt, "a write");
    check!(rt; answers(&rt, rt.alloc(), &files, &call));
    drop(files);
    let text = fs::read_to_string(&rt, MADE).expect(&rt, "a text");
    check!(rt; text.as_str() == "abc");
    drop(text);
    fs::remove_file(&rt, MADE).expect(&rt, "a removal");
}

const USAGE: &str = "Usage: watchmand <COMMAND>";

/// Help goes to the writer with the replies, and is no fault.
#[test]
fn shows_help(rt: HostRuntime) {
    let (status, output, faults) = called(&rt, rt.alloc(), &rt, &["--help"], "");
    check!(rt; output.contains(USAGE) && faults.is_empty() && status == 0);
    drop(output);
    drop(faults);
}

#[test]
fn tells_a_fault_of_the_words(rt: HostRuntime) {
    let (status, output, faults) = called(&rt, rt.alloc(), &rt, &[], "");
    check!(rt; output.is_empty() && faults.contains(USAGE) && status == 2);
    drop(output);
    drop(faults);
}
