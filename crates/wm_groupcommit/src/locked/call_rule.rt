//! The rule of the calls' queue.
//! Definitions: specs/CallQueues.antt. Tests: file_tests/src/desk/rows.rt.
use crate::queued::Call;
use crossbeam_queue::protocol::{Lesson, Outcome, Outcomes, Protocol};
use std::collections::LinkedList;

/// What a place has put and taken. No value of it is made.
pub struct CallView {
    pub pushed: LinkedList<Call>,
    pub popped: LinkedList<Call>,
}

/// What was taken and what is queued are a merge of what the places have put.
pub struct Merges;

impl Protocol<Call, CallView> for Merges {
    ghost use Rattle.std.specs.Prelude.{[]};
    ghost use Rattle.wm_groupcommit.specs.CallQueues.{call_view, Merged};

    ghost holds = { Merged };

    ghost first = { call_view [] [] };
}

/// A place puts a call.
pub struct Puts;

impl Outcome<Call, CallView> for Puts {
    ghost use Rattle.std.specs.Prelude.{◌≡◌, [], ◌∷◌, ◌++◌};
    ghost use Rattle.wm_groupcommit.specs.CallQueues.{call_view};

    ghost then = { λ v x w. w ≡ call_view (v.pushed ++ x ∷ []) v.popped };
}

/// A place takes calls.
pub struct Takes;

impl Outcomes<Call, CallView> for Takes {
    ghost use Rattle.std.specs.Prelude.{◌≡◌, ◌++◌};
    ghost use Rattle.wm_groupcommit.specs.CallQueues.{call_view};

    ghost then_all = { λ v xs w. w ≡ call_view v.pushed (v.popped ++ xs) };
}

impl Lesson<Call, CallView> for Takes {
    ghost use Rattle.wm_groupcommit.specs.CallQueues.{MayBeQueued};

    ghost fact = { MayBeQueued };
}
