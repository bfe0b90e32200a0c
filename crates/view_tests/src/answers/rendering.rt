//! Answers as JSON, field by field.
use super::{answer_since, clock, rendered_by};
use crate::checks::check;
use crate::making::{Observed, observed};
use std::alloc::Global;
use std::process::Abort;
use wm_disk::Refusal;
use wm_names::{Entry, Kind, Meta, RelPath};
use wm_since::{Answer, Every, Field, Fields, Listed, ListedFiles};

/// A file that came into being at tick 9 and changed last at tick 104.
fn changed(rt: &impl Abort, alloc: Global, kind: Kind) -> Listed {
    Listed {
        entry: Entry {
            path: RelPath::read(alloc, "a/b.c").expect(rt, "a path"),
            exists: true,
            meta: Meta {
                kind,
                size: 9_223_372_036_854_775_807,
                mtime_ms: 1_700_000_000_123,
            },
        },
        is_new: false,
        last: 104,
        created: 9,
    }
}

/// An answer at tick 105 of root 2 in incarnation 7, with a file of each of these kinds.
fn told(rt: &impl Abort, alloc: Global, kinds: &[Kind]) -> Answer {
    let mut files = Vec::new(alloc);
    for kind in kinds {
        files.push(changed(rt, alloc, *kind)).expect(rt, "memory");
    }
    Answer {
        clock: clock(7, 2, 105),
        fresh: false,
        files: ListedFiles::new(files),
    }
}

/// The kinds of the files of an answer, the names of fields, and what is shown of the files.
type Row = (&'static [Kind], &'static [&'static str], &'static str);

const LINK: &[Kind] = &[Kind::Link];

const RENDERED: &[Row] = &[
    (
        LINK,
        &[
            "type", "name", "oclock", "new", "mtime_ms", "cclock", "size", "exists",
        ],
        "[{\"cclock\":\"c:7:2:9\",\"exists\":true,\"mtime_ms\":1700000000123,\"name\":\"a/b.c\",\"new\":false,\"oclock\":\"c:7:2:104\",\"size\":9223372036854775807,\"type\":\"l\"}]",
    ),
    (
        LINK,
        &["name", "exists", "new", "size"],
        "[{\"exists\":true,\"name\":\"a/b.c\",\"new\":false,\"size\":9223372036854775807}]",
    ),
    (
        LINK,
        &["type", "name"],
        "[{\"name\":\"a/b.c\",\"type\":\"l\"}]",
    ),
    (
        LINK,
        &["oclock", "cclock"],
        "[{\"cclock\":\"c:7:2:9\",\"oclock\":\"c:7:2:104\"}]",
    ),
    (LINK, &["name"], "[\"a/b.c\"]"),
    (LINK, &["exists"], "[true]"),
    (LINK, &["new"], "[false]"),
    (LINK, &["size"], "[9223372036854775807]"),
    (LINK, &["type"], "[\"l\"]"),
    (LINK, &["mtime_ms"], "[1700000000123]"),
    (LINK, &["cclock"], "[\"c:7:2:9\"]"),
    (LINK, &["oclock"], "[\"c:7:2:104\"]"),
    (
        &[Kind::File, Kind::Folder, Kind::Link, Kind::Other],
        &["type"],
        "[\"f\",\"d\",\"l\",\"o\"]",
    ),
    (&[], &["name", "size"], "[]"),
    (&[], &["name"], "[]"),
];

/// Whether an answer is rendered as told.
fn renders_so(rt: &impl Abort, alloc: Global, row: &Row) -> bool {
    let (kinds, names, wanted) = *row;
    let answer = told(rt, alloc, kinds);
    let text = rendered_by(rt, alloc, &answer, names);
    drop(answer);
    let is_so = text.as_str() == wanted;
    drop(text);
    is_so
}

#[test]
fn renders_fields_of_files(rt: HostRuntime) {
    for (i, row) in RENDERED.iter().enumerate() {
        check!(rt; renders_so(&rt, rt.alloc(), row), i);
    }
}

/// A file is of 3 bytes at tick 2 and of 4 at tick 3.
const GROWN: Observed = &[(10, &[("a.c", Some(3))]), (10, &[("a.c", Some(4))])];

/// Its clocks since tick 1.
fn clocks(rt: &impl Abort, alloc: Global) -> String {
    let view = observed(rt, alloc, &[], GROWN);
    let answer = answer_since(rt, alloc, &view, Some(1), Every);
    drop(view);
    let text = rendered_by(rt, alloc, &answer, &["oclock", "name", "cclock"]);
    drop(answer);
    text
}

const CLOCKS: &str = "[{\"cclock\":\"c:1:1:2\",\"name\":\"a.c\",\"oclock\":\"c:1:1:3\"}]";

#[test]
fn renders_the_clocks_of_a_view(rt: HostRuntime) {
    check!(rt; clocks(&rt, rt.alloc()).as_str() == CLOCKS);
}

const DEFAULT: &[Field] = &[Field::Exists, Field::Name, Field::New, Field::Size];

#[test]
fn has_default_fields(rt: HostRuntime) {
    let fields = Fields::default_fields(rt.alloc()).expect(&rt, "memory");
    check!(rt; fields.as_slice() == DEFAULT);
    drop(fields);
}

const REFUSED: &[&[&str]] = &[
    &[],
    &[""],
    &["bogus"],
    &["Name"],
    &["name "],
    &["name", "name"],
    &["size", "name", "size"],
    &["name", "exists", "new", "size", "kind"],
];

/// Whether these names are refused as those of fields.
fn is_refused(alloc: Global, names: &[&str]) -> bool {
    Fields::read(alloc, names).err() == Some(Refusal::BadField)
}

#[test]
fn refuses_lists_of_fields(rt: HostRuntime) {
    for (i, names) in REFUSED.iter().enumerate() {
        check!(rt; is_refused(rt.alloc(), names), i);
    }
}
