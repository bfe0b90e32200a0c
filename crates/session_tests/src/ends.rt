//! How sessions end: their replies, what they tell of faults, and what they leave in their files.
use crate::checks::check;
use crate::disks::{content_of, file_after, journal, new_file};
use std::alloc::Global;
use std::io::BufRead;
use std::process::Abort;
use wm_disk::{MemDisk, OneFault};
use wm_server::lines::lines_on;
use wm_session::{Input, Output};

/// A line and its reply. What a function's proof costs goes by the square of the bytes of the tables that
/// it names: a long table has a function of its own.
pub(crate) type Row<'a> = (&'a str, &'a str);

/// The journal after a first start without an accepted command.
pub(crate) const BEGUN: &[u8] = b"\xa5\x00\x00";

/// How each journal begins after a start and an accepted command.
pub(crate) const ACCEPTED: &[u8] = b"\xa5\x00\xa5\x01";

/// How the journal begins after a start and a watch of `/r`.
pub(crate) const WATCHES_R: &[u8] = b"\xa5\x00\xa5\x01\x00\x00\x00\x02/r\x00";

/// How a session ended: its status, its replies and what it told of faults as texts, and what the disk
/// holds.
#[derive(Drop)]
pub(crate) struct End {
    pub(crate) status: u8,
    pub(crate) output: String,
    pub(crate) faults: String,
    pub(crate) content: Vec<u8>,
}

pub(crate) fn end_of<R: BufRead>(
    rt: &impl Abort,
    alloc: Global,
    disk: MemDisk,
    reader: &mut R,
) -> End {
    let mut output = Vec::new(alloc);
    let mut faults = Vec::new(alloc);
    let mut reader = Input::new(reader);
    let mut writer = Output::new(&mut output);
    let mut told = Output::new(&mut faults);
    let (status, disk) = lines_on(alloc, disk, &mut reader, &mut writer, &mut told);
    end_with(rt, alloc, status, output, faults, disk)
}

/// How a session ended on a disk of which one call fails.
pub(crate) fn end_of_one_fault<R: BufRead>(
    rt: &impl Abort,
    alloc: Global,
    disk: OneFault<MemDisk>,
    reader: &mut R,
) -> End {
    let mut output = Vec::new(alloc);
    let mut faults = Vec::new(alloc);
    let mut reader = Input::new(reader);
    let mut writer = Output::new(&mut output);
    let mut told = Output::new(&mut faults);
    let (status, disk) = lines_on(alloc, disk, &mut reader, &mut writer, &mut told);
    end_with(rt, alloc, status, output, faults, disk.disk)
}

fn end_with(
    rt: &impl Abort,
    alloc: Global,
    status: u8,
    output: Vec<u8>,
    faults: Vec<u8>,
    disk: MemDisk,
) -> End {
    End {
        status,
        output: String::from_utf8(output).expect(rt, "a text"),
        faults: String::from_utf8(faults).expect(rt, "a text"),
        content: content_of(rt, alloc, disk),
    }
}

/// How a session must end: its status, its replies, what it tells of faults, and how the journal begins.
pub(crate) type Wanted<'a> = (u8, &'a str, &'a str, &'a [u8]);

pub(crate) fn assert_ends(rt: &impl Abort, end: &End, wanted: Wanted<'_>, about: &str) {
    let (status, output, faults, used) = wanted;
    let is_output = end.output.as_str() == output;
    let is_rest = end.faults.as_str() == faults && end.status == status;
    let is_journal = journal(&end.content, used.len()) == used;
    let told = (about, end.status, end.faults.as_str(), end.output.as_str());
    check!(rt; is_output && is_rest && is_journal, told);
}

/// The lines of a session, and their replies.
pub(crate) fn texts(rt: &impl Abort, alloc: Global, tables: &[&[Row<'_>]]) -> (String, String) {
    let mut input = String::new(alloc);
    let mut output = String::new(alloc);
    for rows in tables {
        for (line, reply) in *rows {
            put_row(rt, line, reply, &mut input, &mut output);
        }
    }
    (input, output)
}

/// A line more, and its reply.
pub(crate) fn put_row(
    rt: &impl Abort,
    line: &str,
    reply: &str,
    input: &mut String,
    output: &mut String,
) {
    put_line(rt, line, input);
    put_line(rt, reply, output);
}

fn put_line(rt: &impl Abort, line: &str, text: &mut String) {
    text.push_str(line).expect(rt, "memory");
    text.push('\n').expect(rt, "memory");
}

/// A session over a disk with these lines, which must end so.
pub(crate) fn assert_serves(
    rt: &impl Abort,
    alloc: Global,
    disk: MemDisk,
    input: &[u8],
    wanted: Wanted<'_>,
    about: &str,
) {
    let mut reader = input;
    let end = end_of(rt, alloc, disk, &mut reader);
    assert_ends(rt, &end, wanted, about);
    drop(end);
}

/// A session over a new file with lines of which some are accepted, which must be answered so.
pub(crate) fn assert_answers(
    rt: &impl Abort,
    alloc: Global,
    input: &str,
    output: &str,
    about: &str,
) {
    let wanted = (0, output, "", ACCEPTED);
    let disk = new_file(rt, alloc);
    assert_serves(rt, alloc, disk, input.as_bytes(), wanted, about);
}

/// A session over a disk with the rows of these tables, one after the other.
pub(crate) fn assert_rows(
    rt: &impl Abort,
    alloc: Global,
    disk: MemDisk,
    tables: &[&[Row<'_>]],
    used: &[u8],
    about: &str,
) {
    let (input, output) = texts(rt, alloc, tables);
    let wanted = (0, output.as_str(), "", used);
    assert_serves(rt, alloc, disk, input.as_bytes(), wanted, about);
    drop(input);
    drop(output);
}

/// A session with the rows of these tables over a new file, or over one that earlier sessions left.
pub(crate) fn assert_session(
    rt: &impl Abort,
    alloc: Global,
    earlier: &[&str],
    tables: &[&[Row<'_>]],
    used: &[u8],
    about: &str,
) {
    let disk = file_after(rt, alloc, earlier);
    assert_rows(rt, alloc, disk, tables, used, about);
}
