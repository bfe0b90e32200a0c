//! What is answered about a view, and what a client makes of such answers.
ghost use Rattle.std.specs.Prelude.{true, false, nat_lt};
ghost use Rattle.std.proofs.Common.{sym, true≢false};

use serde_json::Value;
use std::alloc::Global;
use std::process::Abort;
use wm_clock::ClockId;
use wm_disk::NoMemory;
use wm_expr::Expr;
use wm_names::Entry;
use wm_since::{Answer, Fields, Mirror, Query, Since, Test, answer, render};
use wm_view::View;

mod cursors;
mod expressions;
mod mirrors;
mod moments;
mod rendering;
mod since;

/// The test that a file of fewer bytes passes.
#[derive(Clone, Copy)]
struct Smaller {
    size: u64,
}

impl Test for Smaller {
    ghost passes = { λ test entry. nat_lt entry.meta.size test.size };

    ghost path_only = { λ test. false };

    fn holds(&self, entry: &Entry) -> bool {
        entry.meta.size < self.size
    }

    fn is_path_only(&self) -> bool {
        false
    }

    fn copy(&self, _alloc: Global) -> Result<Smaller, NoMemory> {
        Ok(*self)
    }

    ghost by_path = { λ test is a b same. absurd (true≢false (sym is)) };
}

/// The expression that a JSON text is.
fn read(rt: &impl Abort, alloc: Global, text: &str) -> Expr {
    let value = Value::from_slice(alloc, text.as_bytes()).expect(rt, "JSON");
    let expr = Expr::read(alloc, &value).expect(rt, "an expression");
    drop(value);
    expr
}

fn clock(incarnation: u64, root: u64, tick: u64) -> ClockId {
    ClockId {
        incarnation,
        root,
        tick,
    }
}

/// The clock at a tick of root 1 in incarnation 1.
fn clock_at(tick: Option<u64>) -> Option<ClockId> {
    match tick {
        Some(tick) => Some(clock(1, 1, tick)),
        None => None,
    }
}

/// What is answered since a tick of root 1 in incarnation 1, and since no clock where there is none.
fn answer_since<T: Test>(
    rt: &impl Abort,
    alloc: Global,
    view: &View,
    since: Option<u64>,
    test: T,
) -> Answer {
    let query = Query {
        since: Since::from_clock(clock_at(since)),
        test,
        empty_on_fresh: false,
    };
    let answer = answer(alloc, view, &query).expect(rt, "an answer");
    drop(query);
    answer
}

/// The answer's files as a text.
fn rendered(rt: &impl Abort, alloc: Global, answer: &Answer, fields: &Fields) -> String {
    let mut text = Vec::new(alloc);
    render(alloc, answer, fields, &mut text).expect(rt, "memory");
    String::from_utf8(text).expect(rt, "a text")
}

/// The same, with the fields of these names.
fn rendered_by(rt: &impl Abort, alloc: Global, answer: &Answer, names: &[&str]) -> String {
    let fields = Fields::read(alloc, names).expect(rt, "fields");
    let text = rendered(rt, alloc, answer, &fields);
    drop(fields);
    text
}

/// What a mirror asks; nothing where a question is open already.
fn ask<T: Test>(rt: &impl Abort, alloc: Global, mirror: &mut Mirror<T>) -> Option<Query<T>> {
    if mirror.open() {
        return None;
    }
    Some(mirror.ask(alloc).expect(rt, "memory"))
}

/// The paths of a mirror's files, each followed by a space.
fn names<T: Test>(rt: &impl Abort, alloc: Global, mirror: &Mirror<T>) -> String {
    let mut names = String::new(alloc);
    for path in mirror.files() {
        names.push_str(path.as_str()).expect(rt, "memory");
        names.push(' ').expect(rt, "memory");
    }
    names
}
