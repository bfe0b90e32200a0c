//! What holds of every answer, client and cursor: functions there for their contracts alone.
//! Definitions: specs/Laws.antt, specs/Cursors.antt.
ghost use Rattle.wm_since.specs.Cursors.{IsMoved, OthersStay};
ghost use Rattle.wm_since.specs.Laws.{AnswersApply, AnswersBySummary};

use wm_view::every_operation;

/// What holds of every history that operations made: an answer from its summary is the answer about it.
pub fn every_answer()
    ensures { AnswersBySummary }
{
    every_operation();
}

/// What holds of every client that asks since its last clock: if its list had just the matching files at
/// that clock, it has just those at the answer's clock once it has applied the answer.
pub fn every_client()
    ensures { AnswersApply }
{}

/// The laws of cursors: a cursor that is moved stands where it was moved to, and the others stay.
pub fn cursor_laws()
    ensures moved { IsMoved }
    ensures others { OthersStay }
{}
