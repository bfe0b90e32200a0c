//! Questions and mirrors with expressions.
use super::{answer_since, ask, clock, names, read, rendered_by};
use crate::checks::check;
use crate::making::{Found, Observed, observed, ready_with};
use std::alloc::Global;
use std::process::Abort;
use wm_disk::Refusal;
use wm_expr::Expr;
use wm_names::RootPath;
use wm_since::{Answer, Mirror, Test, answer};
use wm_view::View;

/// `big` is of 20 bytes at tick 2 and of 5 at tick 3.
const SHRUNK: Observed = &[(10, &[("big", Some(20))]), (10, &[("big", Some(5))])];

/// An expression, and of how many files since tick 2 it holds.
const COUNTS: &[(&str, usize)] = &[
    ("[\"size\",\"gt\",10]", 0),
    ("[\"size\",\"lt\",10]", 1),
    ("\"exists\"", 1),
    ("[\"name\",\"small\"]", 0),
];

/// Whether an answer since tick 2 lists so many files up to tick 3.
fn lists_so_many(rt: &impl Abort, alloc: Global, view: &View, text: &str, count: usize) -> bool {
    let answer = answer_since(rt, alloc, view, Some(2), read(rt, alloc, text));
    let is_at_3 = answer.clock == clock(1, 1, 3) && !answer.fresh;
    let is_so = is_at_3 && answer.files.as_slice().len() == count;
    drop(answer);
    is_so
}

#[test]
fn a_file_that_fails_the_expression_is_left_out(rt: HostRuntime) {
    let view = observed(&rt, rt.alloc(), &[], SHRUNK);
    for (text, count) in COUNTS {
        check!(rt; lists_so_many(&rt, rt.alloc(), &view, text, *count), text);
    }
    drop(view);
}

/// Whether an expression reads more than the path, and makes no mirror.
fn makes_no_mirror(rt: &impl Abort, alloc: Global, text: &str) -> bool {
    let expr = read(rt, alloc, text);
    let is_path_only = Test::is_path_only(&expr);
    let root = RootPath::read(alloc, "/r").expect(rt, "a root path");
    let refused = Mirror::new(alloc, root, expr).err();
    !is_path_only && refused == Some(Refusal::BadExpression)
}

/// Whether a mirror takes the answer to its question, and lists these files then.
fn takes(
    rt: &impl Abort,
    alloc: Global,
    mirror: &mut Mirror<Expr>,
    answer: &Answer,
    files: &str,
) -> bool {
    mirror.apply(alloc, answer).expect(rt, "an answer");
    let names = names(rt, alloc, mirror);
    let is_so = names.as_str() == files;
    drop(names);
    is_so
}

/// Whether a mirror with no open question asks a view, and lists these files then.
fn mirrors(
    rt: &impl Abort,
    alloc: Global,
    mirror: &mut Mirror<Expr>,
    view: &View,
    files: &str,
) -> bool {
    match ask(rt, alloc, mirror) {
        Some(query) => {
            let answer = answer(alloc, view, &query).expect(rt, "an answer");
            drop(query);
            let is_so = takes(rt, alloc, mirror, &answer, files);
            drop(answer);
            is_so
        }
        None => false,
    }
}

/// A root with three files.
const THREE: Found = &[("a.c", 1), ("b.h", 1), ("x.c", 1)];

/// Whether a mirror by an expression lists these files of such a root.
fn mirrors_by(rt: &impl Abort, alloc: Global, text: &str, files: &str) -> bool {
    let root = RootPath::read(alloc, "/r").expect(rt, "a root path");
    let mut mirror = Mirror::new(alloc, root, read(rt, alloc, text)).expect(rt, "a mirror");
    let view = ready_with(rt, alloc, THREE);
    let is_so = mirrors(rt, alloc, &mut mirror, &view, files);
    drop(view);
    drop(mirror);
    is_so
}

#[test]
fn a_mirror_takes_expressions_of_paths_alone(rt: HostRuntime) {
    check!(rt; makes_no_mirror(&rt, rt.alloc(), "[\"size\",\"gt\",10]"));
    check!(rt; mirrors_by(&rt, rt.alloc(), "[\"suffix\",\"c\"]", "a.c x.c "));
}

/// `a.c` is of 3 bytes since tick 2, and `b.c` of 4 since tick 3.
const GROWN: Observed = &[(10, &[("a.c", Some(3))]), (10, &[("b.c", Some(4))])];

/// A question: the tick that it starts from, its expression, and its fields; and the answer's files.
type Row = (
    Option<u64>,
    &'static str,
    &'static [&'static str],
    &'static str,
);

const QUESTIONS: &[Row] = &[
    (
        None,
        "[\"allof\",[\"suffix\",\"C\"],[\"not\",[\"name\",\"a.c\"]]]",
        &["name", "cclock", "oclock"],
        "[{\"cclock\":\"c:1:1:3\",\"name\":\"b.c\",\"oclock\":\"c:1:1:3\"}]",
    ),
    (Some(1), "\"true\"", &["name"], "[\"b.c\",\"a.c\"]"),
    (Some(2), "\"true\"", &["name"], "[\"b.c\"]"),
    (Some(3), "\"true\"", &["name"], "[]"),
    (
        Some(1),
        "[\"size\",\"lt\",4]",
        &["size", "new", "oclock"],
        "[{\"new\":true,\"oclock\":\"c:1:1:2\",\"size\":3}]",
    ),
];

/// Whether a question is answered at tick 3, afresh where it starts from no tick, with these files.
fn is_answered(rt: &impl Abort, alloc: Global, view: &View, row: &Row) -> bool {
    let (since, text, fields, files) = *row;
    let answer = answer_since(rt, alloc, view, since, read(rt, alloc, text));
    let is_at_3 = answer.clock == clock(1, 1, 3) && answer.fresh == since.is_none();
    let text = rendered_by(rt, alloc, &answer, fields);
    drop(answer);
    let is_so = is_at_3 && text.as_str() == files;
    drop(text);
    is_so
}

#[test]
fn tells_the_chosen_fields_of_what_passes(rt: HostRuntime) {
    let view = observed(&rt, rt.alloc(), &[], GROWN);
    for row in QUESTIONS {
        check!(rt; is_answered(&rt, rt.alloc(), &view, row), row.3);
    }
    drop(view);
}
