//! Answers a question from a view: what changed since a clock or a moment, or afresh all that exists.
//! Definitions: specs/Answers.antt.
//! Tests: view_tests/src/answers/since.rt, view_tests/src/answers/moments.rt.
ghost use Rattle.std.specs.Prelude.{◌≡◌, ◌≢◌, ◌↔◌, true, false, IfOk, IfErr, IsErrOf};
ghost use Rattle.wm_view.specs.Histories.{History, IsMade};
ghost use Rattle.wm_view.specs.Summaries.{summary};
ghost use Rattle.wm_since.specs.Answers.{answer_by, answer_to, answerable_since, changed_in, files_by, is_after, is_new, listed_all, listed_in, question, tells_from};

use crate::laws::every_answer;
use crate::listed::{Listed, ListedFiles};
use crate::query::{Answer, Query, Since};
use crate::test::Test;
use std::alloc::Global;
use wm_clock::ClockId;
use wm_disk::{NoMemory, Refusal};
use wm_names::{Entry, RelPath};
use wm_view::{Known, View};

fn is_new(since: Option<Since>, known: &Known) -> bool
    ensures { result ≡ is_new since known.now }
{
    match since {
        Some(Since::Clock(clock)) => clock.tick < known.created,
        Some(Since::Moment(moment)) => moment <= known.created_moment,
        None => true,
    }
}

/// What is known of a path, as an answer lists it.
fn listed_in(since: Option<Since>, path: RelPath, known: Known) -> Listed
    ensures { result ≡ listed_in since (path, known) }
{
    Listed {
        entry: Entry {
            path,
            exists: known.exists,
            meta: known.meta(),
        },
        is_new: is_new(since, &known),
        last: known.last,
        created: known.created,
    }
}

/// What is known of some paths, as an answer lists those that pass.
fn listed_all<T: Test>(
    alloc: Global,
    test: &T,
    since: Option<Since>,
    known: Vec<(RelPath, Known)>,
) -> Result<Vec<Listed>, NoMemory>
    ensures { IfOk result (λ v. v.items ≡ listed_all (T.passes test.now) since known.items) }
{
    let mut files = Vec::new(alloc);
    for (path, known) in known {
        let file = listed_in(since, path, known);
        if test.holds(&file.entry) {
            files.push(file)?;
        }
    }
    Ok(files)
}

/// Whether the moment is later than the other, if there is another.
fn is_after(moment: u64, other: Option<u64>) -> bool
    ensures { result ≡ is_after moment other }
{
    match other {
        Some(other) => other < moment,
        None => true,
    }
}

/// Whether the view can tell what changed at the moment or later.
fn tells_from(view: &View, moment: u64) -> bool
    ensures { result ≡ tells_from view.now moment }
{
    view.ready_moment() <= moment && is_after(moment, view.moment_floor())
}

/// Where the question starts, if the view can tell what changed since then.
fn told(view: &View, since: Option<Since>) -> Option<Since>
    ensures { result ≡ answerable_since view.now since }
{
    match since {
        Some(Since::Clock(clock)) => {
            if clock.incarnation == view.incarnation()
                && clock.root == view.root()
                && view.floor() <= clock.tick
                && clock.tick <= view.tick()
            {
                since
            } else {
                None
            }
        }
        Some(Since::Moment(moment)) => {
            if tells_from(view, moment) {
                since
            } else {
                None
            }
        }
        None => None,
    }
}

/// What changed since the start.
fn changed(alloc: Global, view: &View, since: Since) -> Result<Vec<(RelPath, Known)>, NoMemory>
    ensures { IfOk result (λ v. v.items ≡ changed_in view.now since) }
{
    match since {
        Since::Clock(clock) => view.changed_after(alloc, clock.tick),
        Since::Moment(moment) => view.changed_from_moment(alloc, moment),
    }
}

/// The files of an answer.
fn files_by<T: Test>(
    alloc: Global,
    view: &View,
    query: &Query<T>,
    since: Option<Since>,
) -> Result<Vec<Listed>, NoMemory>
    ensures { IfOk result (λ v. v.items ≡ files_by (T.passes query.now.test) view.now query.now.empty_on_fresh since) }
{
    match since {
        Some(start) => listed_all(alloc, &query.test, since, changed(alloc, view, start)?),
        None if query.empty_on_fresh => Ok(Vec::new(alloc)),
        None => listed_all(alloc, &query.test, since, view.existing(alloc)?),
    }
}

/// What changed since the query's clock or moment. `NotReady` exactly where the view isn't ready, and
/// `NoMemory`.
pub fn answer<T: Test>(alloc: Global, view: &View, query: &Query<T>) -> Result<Answer, Refusal>
    ensures histories { IfOk result (λ a. (h : History) → IsMade h → summary h ≡ view.now → a ≡ answer_to (T.passes query.now.test) h (question query.now)) }
    ensures by_summary { IfOk result (λ a. a ≡ answer_by (T.passes query.now.test) view.now (question query.now)) }
    ensures refused { IsErrOf result Refusal.NotReady ↔ (view.now.ready ≡ false) }
    ensures kinds { IfErr result (λ e. e ≢ Refusal.NoMemory → e ≡ Refusal.NotReady) }
{
    every_answer();
    if !view.ready() {
        return Err(Refusal::NotReady);
    }
    let since = told(view, query.since);
    let files = files_by(alloc, view, query, since)?;
    Ok(Answer {
        clock: ClockId {
            incarnation: view.incarnation(),
            root: view.root(),
            tick: view.tick(),
        },
        fresh: since.is_none(),
        files: ListedFiles::new(files),
    })
}
