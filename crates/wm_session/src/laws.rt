//! What holds of every line and of every part of a state: laws of specs/session, without code.
ghost use Rattle.std.specs.Prelude.{◌≡◌, ℕ, List, true, false, Some, Ok, Err};
ghost use Rattle.wm_disk.specs.declared.refusal.Refusal.TheVariants.{NotReady, TooMany};
ghost use Rattle.wm_view.specs.declared.op.Op.{Op};
ghost use Rattle.wm_view.specs.Histories.{History, IsMade, after_operation, is_ready, refusal};
ghost use Rattle.wm_since.specs.Answers.{answer_to};
ghost use Rattle.wm_since.specs.Cursors.{CursorList};
ghost use Rattle.wm_expr.specs.Meanings.{holds};
ghost use Rattle.wm_expr.specs.Terms.{Term};
ghost use Rattle.wm_subs.specs.Subscribers.{Subscriber, due_answer};
ghost use Rattle.wm_session.specs.session.Dues.{due_by};
ghost use Rattle.wm_lines.specs.declared.query.Inquiry.{Inquiry};
ghost use Rattle.wm_session.specs.session.Inquiries.{has_place, inquired, question_in};
ghost use Rattle.wm_session.specs.session.PartLaws.{MeetsOnPart};
ghost use Rattle.wm_session.specs.session.Watched.{AreOfHistories, first_views, of_history, unless, view_after};
ghost use Rattle.wm_session.specs.session.Sessions.{SessionState, WithSubscriptions, line_met};
ghost use Rattle.wm_registry.specs.Roots as registry;

use wm_since::every_answer;
use wm_view::every_operation;

/// What lines do to a root's view, answer of it and tell its subscribers is what the root's history says,
/// for every history that operations made. At a start each view is of such a history, and after each line again.
pub fn every_line()
    ensures operated { (h : History) (cursors : CursorList) (op : Op) → IsMade h → view_after (Some (of_history h cursors)) op ≡ unless (refusal h op) (of_history (after_operation h op) cursors) }
    ensures answered { (h : History) (cursors : CursorList) (q : Inquiry) → IsMade h → is_ready h ≡ true → has_place q.since cursors ≡ true → inquired (Some (of_history h cursors)) q ≡ Ok (answer_to (holds q.expression) h (question_in q cursors)) }
    ensures unready { (h : History) (cursors : CursorList) (q : Inquiry) → IsMade h → is_ready h ≡ false → inquired (Some (of_history h cursors)) q ≡ Err NotReady }
    ensures no_place { (h : History) (cursors : CursorList) (q : Inquiry) → IsMade h → is_ready h ≡ true → has_place q.since cursors ≡ false → inquired (Some (of_history h cursors)) q ≡ Err TooMany }
    ensures due { (h : History) (cursors : CursorList) (s : Subscriber Term) → IsMade h → due_by (of_history h cursors) s ≡ due_answer (holds s.query.test) h s }
    ensures begun { (r : registry.State) → AreOfHistories (first_views r) }
    ensures stays { (s : WithSubscriptions SessionState) (moment : ℕ) (line : List ℕ) → AreOfHistories s.front.views → AreOfHistories (line_met s moment line).state.views }
{
    every_operation();
    every_answer();
}

/// A request about one root, as a question or an operation, reads that root's view and cursors alone: it is answered the
/// same on a part of a state as on the whole, and leaves the same view there.
pub fn every_part()
    ensures { MeetsOnPart }
{}
