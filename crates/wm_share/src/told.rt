//! What a publish tells its caller.
//! Definitions: specs/PublishedLists.antt. Tests: view_tests/src/shared/telling.rt.
ghost use Rattle.std.specs.Prelude.{◌≡◌, length};
ghost use Rattle.wm_share.specs.PublishedLists.{clock_shown, history, outcome};

use crate::book::Naming;
use crate::front::Front;
use crate::share_id::ShareId;
use std::marker::Model;
use wm_clock::ClockId;
use wm_disk::Refusal;

/// A list that was published, and what the view is after it. Contracts see the list.
#[derive(Drop)]
pub struct Told<J: Naming> {
    pub(crate) front: Front<J>,
    pub(crate) clock: Option<ClockId>,
    pub(crate) floor: u64,
    pub(crate) last: Option<Refusal>,
}

impl<J: Naming> Model for Told<J> {
    ghost use Rattle.std.specs.Prelude.{◌≡◌};
    ghost use Rattle.wm_share.specs.PublishedLists.{PublishedList, clock_shown, history, outcome};

    ghost Value = { PublishedList };

    ghost view = { λ t. t.front };

    ghost invariant = { λ t. (t.clock ≡ clock_shown (history t.front)) × (t.floor ≡ (history t.front).floor) × (t.last ≡ outcome t.front) };
}

impl<J: Naming> Told<J> {
    /// The share on which it was published.
    pub fn share(&self) -> ShareId
        ensures { result ≡ self.now.share }
    {
        self.front.share()
    }

    /// How many operations were published so far.
    pub fn number(&self) -> u64
        ensures { result ≡ length self.now.operations }
    {
        self.front.len()
    }

    /// The clock, and none before the view is ready.
    pub fn clock(&self) -> Option<ClockId>
        ensures { result ≡ clock_shown (history self.now) }
    {
        self.clock
    }

    /// The tick from which on all changes can be told.
    pub fn floor(&self) -> u64
        ensures { result ≡ (history self.now).floor }
    {
        self.floor
    }

    /// How the last operation was refused, if it was. Then it changed nothing.
    pub fn refusal(&self) -> Option<Refusal>
        ensures { result ≡ outcome self.now }
    {
        self.last
    }
}
