//! Questions of a root, as a viewer answers them: the replies of `query`, `since` and `clock`.
//! Definitions: `answer_to` of wm_since, `history` of wm_share. Tests: serve_tests/src/halls.rt and sessions.rt.
ghost use Rattle.std.specs.Prelude.{◌≡◌, ◌++◌, ◌≤◌, true, IfOk, IfErr, OnErr, vec_capacity};
ghost use Rattle.wm_view.specs.Histories.{is_ready};
ghost use Rattle.wm_since.specs.Answers.{clock_of as clock_of_history, question, from_clock};
ghost use Rattle.wm_since.specs.Cursors.{cursor_at, has_room, moved_to};
ghost use Rattle.wm_share.specs.PublishedLists.{Begins, history};
ghost use Rattle.wm_root.specs.Inquired.{answer_line, IsRefusedBy, IsViewRefused};

use std::alloc::Global;
use wm_clock::{ClockId, CursorName};
use wm_disk::Refusal;
use wm_lines::{Expression, reply};
use wm_share::{Naming, Viewer};
use wm_since::{Cursors, Every, Fields, Query, Since};

/// A question, and which fields of each file are reported.
#[derive(Drop)]
pub(crate) struct Question {
    pub(crate) query: Query<Expression>,
    pub(crate) fields: Fields,
}

/// Appends the answer to a question, and gives its clock. `NotReady` before the first whole listing, `NoPlace` if the root is
/// gone, and `NoMemory`; nothing is appended then.
fn answer<J: Naming>(
    alloc: Global,
    viewer: &mut Viewer<J>,
    asked: &Question,
    out: &mut Vec<u8>,
) -> Result<ClockId, Refusal>
    ensures seen { Begins viewer.old.list viewer.new.list }
    ensures ready { IfOk result (λ _. is_ready (history viewer.new.list) ≡ true) }
    ensures clock { IfOk result (λ clock. clock ≡ clock_of_history (history viewer.new.list)) }
    ensures answered { IfOk result (λ _. out.new.items ≡ out.old.items ++ answer_line asked.now.fields asked.now.query.test (question asked.now.query) viewer.new) }
    ensures refused { IfErr result (IsViewRefused viewer.old viewer.new) }
    ensures err { OnErr result (out.new.items ≡ out.old.items) }
    ensures room { vec_capacity out.old ≤ vec_capacity out.new }
{
    let answer = viewer.answer(alloc, &asked.query)?;
    reply::put_answer(alloc, &answer, &asked.fields, out)?;
    Ok(answer.clock)
}

/// Appends the answer to a question since a cursor's clock, and moves the cursor to the answer's. It is refused as `answer` is, and
/// `TooMany` if a new cursor is one too many; no cursor is moved then.
pub(crate) fn answer_by_cursor<J: Naming>(
    cursors: &mut Cursors,
    alloc: Global,
    viewer: &mut Viewer<J>,
    name: CursorName,
    mut asked: Question,
    out: &mut Vec<u8>,
) -> Result<(), Refusal>
    ensures seen { Begins viewer.old.list viewer.new.list }
    ensures answered { IfOk result (λ _. out.new.items ≡ out.old.items ++ answer_line asked.fields asked.query.test (record { since = from_clock (cursor_at name cursors.old); empty_on_fresh = asked.query.empty_on_fresh }) viewer.new) }
    ensures ready { IfOk result (λ _. (is_ready (history viewer.new.list) ≡ true) × (has_room name cursors.old ≡ true)) }
    ensures moved { IfOk result (λ _. cursors.new ≡ moved_to name (clock_of_history (history viewer.new.list)) cursors.old) }
    ensures refused { IfErr result (IsRefusedBy (has_room name cursors.old) viewer.old viewer.new) }
    ensures err { OnErr result ((out.new.items ≡ out.old.items) × (cursors.new ≡ cursors.old)) }
    ensures room { vec_capacity out.old ≤ vec_capacity out.new }
{
    asked.query.since = Since::from_clock(cursors.clock(&name));
    let has_room = cursors.has_room(&name);
    let clock = answer_with_room(alloc, viewer, has_room, &asked, out)?;
    cursors.moved(name, clock);
    Ok(())
}

/// Appends the answer to a question by a cursor, and gives its clock. It is refused as `answer` is, and `TooMany` if a new
/// cursor is one too many.
fn answer_with_room<J: Naming>(
    alloc: Global,
    viewer: &mut Viewer<J>,
    has_room: bool,
    asked: &Question,
    out: &mut Vec<u8>,
) -> Result<ClockId, Refusal>
    ensures seen { Begins viewer.old.list viewer.new.list }
    ensures ok { IfOk result (λ clock. (is_ready (history viewer.new.list) ≡ true) × (has_room ≡ true) × (clock ≡ clock_of_history (history viewer.new.list))) }
    ensures answered { IfOk result (λ _. out.new.items ≡ out.old.items ++ answer_line asked.now.fields asked.now.query.test (question asked.now.query) viewer.new) }
    ensures refused { IfErr result (IsRefusedBy has_room viewer.old viewer.new) }
    ensures err { OnErr result (out.new.items ≡ out.old.items) }
    ensures room { vec_capacity out.old ≤ vec_capacity out.new }
{
    if !has_room {
        // a root that isn't ready says so first
        viewer.answer(alloc, &asked.query)?;
        return Err(Refusal::TooMany);
    }
    answer(alloc, viewer, asked, out)
}

/// The clock of the root, as the viewer sees it. It costs what changed since the last clock that is known. `NotReady` before the
/// first whole listing, `NoPlace` if the root is gone, and `NoMemory`.
pub(crate) fn clock<J: Naming>(
    alloc: Global,
    viewer: &mut Viewer<J>,
    last: Option<ClockId>,
) -> Result<ClockId, Refusal>
    ensures seen { Begins viewer.old.list viewer.new.list }
    ensures clock { IfOk result (λ clock. (is_ready (history viewer.new.list) ≡ true) × (clock ≡ clock_of_history (history viewer.new.list))) }
    ensures refused { IfErr result (IsViewRefused viewer.old viewer.new) }
{
    let query = Query {
        since: Since::from_clock(last),
        test: Every,
        empty_on_fresh: true,
    };
    let answer = viewer.answer(alloc, &query)?;
    Ok(answer.clock)
}

/// Appends the answer to a question that no cursor begins. It is refused as `answer` is.
pub(crate) fn answer_at<J: Naming>(
    alloc: Global,
    viewer: &mut Viewer<J>,
    asked: Question,
    out: &mut Vec<u8>,
) -> Result<(), Refusal>
    ensures seen { Begins viewer.old.list viewer.new.list }
    ensures ready { IfOk result (λ _. is_ready (history viewer.new.list) ≡ true) }
    ensures answered { IfOk result (λ _. out.new.items ≡ out.old.items ++ answer_line asked.fields asked.query.test (question asked.query) viewer.new) }
    ensures refused { IfErr result (IsViewRefused viewer.old viewer.new) }
    ensures err { OnErr result (out.new.items ≡ out.old.items) }
    ensures room { vec_capacity out.old ≤ vec_capacity out.new }
{
    answer(alloc, viewer, &asked, out)?;
    Ok(())
}
