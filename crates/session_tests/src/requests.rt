//! Lines with paths, metadata and clocks, and what is read of them.
mod clocks;
mod listed;
mod observed;
mod queries;
mod shown;
mod subscriptions;
mod triggers;

use self::shown::show;
use crate::checks::check;
use crate::ends::Row;
use std::alloc::Global;
use std::process::Abort;
use wm_lines::Request;

const ARGUMENTS: &str = "3 BadArguments";

const PATH: &str = "4 BadPath";

const CLOCK: &str = "7 BadClock";

const EXPRESSION: &str = "8 BadExpression";

const FIELD: &str = "9 BadField";

/// Appends what was read.
fn show_read(rt: &impl Abort, request: Request, text: &mut String) {
    show(rt, &request, text);
    drop(request);
}

/// What is read of a line, or the refusal.
fn read(rt: &impl Abort, alloc: Global, line: &str) -> String {
    let mut bytes = Vec::from_slice(alloc, line.as_bytes()).expect(rt, "memory");
    bytes.push(b'\n').expect(rt, "memory");
    let mut text = String::new(alloc);
    match Request::read(alloc, &bytes) {
        Ok(request) => show_read(rt, request, &mut text),
        Err(refusal) => text.push_str(refusal.text()).expect(rt, "memory"),
    }
    drop(bytes);
    text
}

/// Each line is read as what stands beside it.
fn assert_reads(rt: &impl Abort, alloc: Global, table: &[Row<'_>]) {
    for (line, wanted) in table {
        let text = read(rt, alloc, line);
        check!(rt; text.as_str() == *wanted, (line, text.as_str()));
        drop(text);
    }
}

#[test]
fn reads_requests(rt: HostRuntime) {
    assert_reads(&rt, rt.alloc(), observed::rows());
    assert_reads(&rt, rt.alloc(), observed::bad_pairs());
    assert_reads(&rt, rt.alloc(), listed::rows());
    assert_reads(&rt, rt.alloc(), listed::bad_paths());
    assert_reads(&rt, rt.alloc(), clocks::rows());
    assert_reads(&rt, rt.alloc(), clocks::since());
}

#[test]
fn reads_queries_and_subscriptions(rt: HostRuntime) {
    assert_reads(&rt, rt.alloc(), queries::rows());
    assert_reads(&rt, rt.alloc(), queries::refused());
    assert_reads(&rt, rt.alloc(), subscriptions::rows());
    assert_reads(&rt, rt.alloc(), subscriptions::in_order());
}

#[test]
fn reads_triggers(rt: HostRuntime) {
    assert_reads(&rt, rt.alloc(), triggers::ended());
    assert_reads(&rt, rt.alloc(), triggers::defined());
    assert_reads(&rt, rt.alloc(), triggers::refused());
    assert_reads(&rt, rt.alloc(), triggers::bad_triggers());
}

/// A line that lists so many paths, the last first.
fn long_line(rt: &impl Abort, alloc: Global, front: &str, count: usize, back: &str) -> String {
    let mut line = String::from_str(alloc, front).expect(rt, "memory");
    for number in (0..count).rev() {
        let comma = if number == 0 { "" } else { "," };
        write!(line, "[\"{number:05}\",{back}]{comma}").expect(rt, "memory");
    }
    line.push_str("]]\n").expect(rt, "memory");
    line
}

/// How many pairs the request observes, and how many files it lists.
fn counts(request: &Request) -> (usize, usize) {
    match request {
        Request::Observe(_, pairs) => (pairs.as_slice().len(), 0),
        Request::Listing(_, _, listing) => (0, listing.files().len()),
        _ => (0, 0),
    }
}

/// How many pairs are observed by a line, and how many files are listed.
fn counts_read(rt: &impl Abort, alloc: Global, line: &str) -> (usize, usize) {
    let request = Request::read(alloc, line.as_bytes()).expect(rt, "a request");
    let counted = counts(&request);
    drop(request);
    counted
}

#[test]
fn reads_long_lines(rt: HostRuntime) {
    let alloc = rt.alloc();
    let line = long_line(&rt, alloc, "[\"observe\",\"/r\",[", 65_537, "null");
    let (pairs, _) = counts_read(&rt, alloc, &line);
    drop(line);
    check!(rt; pairs == 65_537);
    let meta = "{\"type\":\"f\",\"size\":0,\"mtime_ms\":0}";
    let line = long_line(&rt, alloc, "[\"listing\",\"/r\",0,\"\",[", 2_000, meta);
    let (_, files) = counts_read(&rt, alloc, &line);
    drop(line);
    check!(rt; files == 2_000);
}
