//! A beginning of a share's list that was seen.
//! Definitions: specs/PublishedLists.antt, specs/Logs.antt. Tests: view_tests/src/shared/shares.rt.
ghost use Rattle.std.specs.Prelude.{◌≡◌, ◌≢◌, ◌+◌, ◌<◌, ◌^◌, ◌∷◌, ◌⊎◌, [], length, MatchBool};
ghost use Rattle.wm_share.specs.PublishedLists.{Begins, IsLonger, empty_list, with_operations};
ghost use Rattle.wm_share.specs.Rules.{word_of};
ghost use Rattle.wm_share.specs.Logs.{max_shares};

use crate::book::{Add, Law, Naming, Nothing};
use crate::entry::Entry;
use crate::share_id::ShareId;
use logbook::{Offer, Seen, Word};
use std::marker::{Model, PhantomData};

/// A share's word, which has the length of its list.
#[derive(Drop)]
pub struct Head<J: Naming> {
    pub(crate) word: Word<Entry, u64, Law>,
    pub(crate) number: u64,
    pub(crate) of: PhantomData<J>,
    ghost word_is: { word ≡ word_of J.book number },
}

/// A beginning of a share's list that was seen. Contracts see the list.
#[derive(Drop)]
pub struct Front<J: Naming> {
    pub(crate) share: ShareId,
    pub(crate) count: u64,
    pub(crate) seen: Seen<Entry, u64, Law>,
    pub(crate) of: PhantomData<J>,
}

impl<J: Naming> Model for Front<J> {
    ghost use Rattle.std.specs.Prelude.{◌≡◌, ◌<◌, length};
    ghost use Rattle.wm_share.specs.PublishedLists.{PublishedList};
    ghost use Rattle.wm_share.specs.Logs.{max_shares, operations_of};

    ghost Value = { PublishedList };

    ghost view = { λ f. record { share = f.share; operations = operations_of f.share.number f.seen.log } };

    ghost invariant = { λ f. (f.count ≡ length (operations_of f.share.number f.seen.log)) × (f.seen.book ≡ J.book) × (f.share.number < max_shares) };
}

impl<J: Naming> Front<J> {
    /// The beginning of no operation, by what was seen when the book was opened.
    pub(crate) fn new(share: ShareId, seen: Seen<Entry, u64, Law>) -> Front<J>
        requires book { seen.book ≡ J.book }
        requires log { seen.log ≡ [] }
        requires share { share.number < max_shares }
        ensures { result ≡ empty_list share }
    {
        Front {
            share,
            count: 0,
            seen,
            of: PhantomData,
        }
    }

    /// Which share it is.
    pub fn share(&self) -> ShareId
        ensures { result ≡ self.now.share }
    {
        self.share
    }

    /// How many operations it has.
    pub fn len(&self) -> u64
        ensures { result ≡ length self.now.operations }
    {
        self.count
    }

    /// The same again.
    pub fn again(&self) -> Front<J>
        ensures { result ≡ self.now }
    {
        Front {
            share: self.share,
            count: self.count,
            seen: self.seen.again(),
            of: PhantomData,
        }
    }

    /// Whether it is a beginning of the other one. Of two of one share the shorter is.
    pub fn begins(&self, other: &Front<J>) -> bool
        ensures { MatchBool result (Begins self.now other.now) ((self.now.share ≢ other.now.share) ⊎ IsLonger other.now self.now) }
    {
        if !self.share.same(&other.share) {
            return false;
        }
        let mut both = self.seen.again();
        both.learn(&other.seen);
        if other.count < self.count {
            return false;
        }
        true
    }

    /// Adds the operation of this entry to all that was seen, and says whether it did. It did not where the
    /// list is longer.
    pub(crate) fn add(&mut self, head: &Head<J>, entry: &Entry) -> bool
        requires share { (head.now.number ≡ self.old.share.number) × (entry.now.share ≡ self.old.share.number) }
        requires room { length self.old.operations < 2 ^ 63 }
        ensures { MatchBool result (self.new ≡ with_operations self.old (entry.now.op ∷ [])) (IsLonger self.old self.new) }
    {
        let mut offer: Offer<Entry, u64, Law, Nothing> = self
            .seen
            .plain::<Nothing, Entry, Add>(entry);
        let mut pen = self.seen.no_pen();
        let length = self.count;
        let found = head
            .word
            .compare_exchange::<Add, Nothing>(
                length,
                length + 1,
                &mut self.seen,
                &mut offer,
                &mut pen,
            );
        self.count = if found == length { length + 1 } else { found };
        found == length
    }
}
