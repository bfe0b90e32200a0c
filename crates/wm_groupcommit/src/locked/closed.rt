//! That a desk was closed, or refused it, for the caller, who can't know what the lock protects.
//! Definitions: specs/LockedState.antt. Tests: file_tests/src/desk/rows.rt.
ghost use Rattle.std.specs.Prelude.{◌≡◌, true};
ghost use Rattle.wm_groupcommit.specs.LockedState.{IsUnclosed};

use super::LockedDesk;
use std::marker::Model;
use std::snapshot::Snapshot;
use wm_disk::{Disk, Refusal};

/// That the store of a desk is closed: each later call there is answered `12`, or `16` if memory runs out.
#[derive(Drop)]
pub struct Closed<D: Disk + Drop> {
    desk: Snapshot<LockedDesk<D>>,
    ghost closed: { desk.value.book.store.closed ≡ true },
}

impl<D: Disk + Drop> Closed<D> {
    /// That of this desk, which is closed.
    pub(crate) fn of(desk: &LockedDesk<D>) -> Closed<D>
        requires { desk.now.book.store.closed ≡ true }
    {
        Closed {
            desk: Snapshot::of(desk),
        }
    }
}

/// That the store of a desk was to be closed, and refused it. Contracts see the refusal.
#[derive(Drop)]
pub struct Unclosed<D: Disk + Drop> {
    refusal: Refusal,
    before: Snapshot<LockedDesk<D>>,
    after: Snapshot<LockedDesk<D>>,
}

impl<D: Disk + Drop> Model for Unclosed<D> {
    ghost use Rattle.wm_disk.specs.declared.refusal.Refusal.{Refusal};
    ghost use Rattle.wm_groupcommit.specs.LockedState.{IsUnclosed};

    ghost Value = { Refusal };

    ghost view = { λ u. u.refusal };

    ghost invariant = { λ u. IsUnclosed D.Disk u.before.value u.after.value u.refusal };
}

impl<D: Disk + Drop> Unclosed<D> {
    /// That of this desk, which was so before.
    pub(crate) fn of(
        refusal: Refusal,
        before: Snapshot<LockedDesk<D>>,
        after: &LockedDesk<D>,
    ) -> Unclosed<D>
        requires { IsUnclosed D.Disk before.value after.now refusal }
        ensures { result ≡ refusal }
    {
        Unclosed {
            refusal,
            before,
            after: Snapshot::of(after),
        }
    }

    /// The refusal: `13 DeviceFailed`, or `12 StoreFailed` of a store that had failed or was closed.
    pub fn refusal(&self) -> Refusal
        ensures { result ≡ self.now }
    {
        self.refusal
    }
}
