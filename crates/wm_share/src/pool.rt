//! The viewers of a share that nobody has.
//! Definitions: specs/Pools.antt. Tests: view_tests/src/shared/pools.rt.
ghost use Rattle.std.specs.Prelude.{◌≡◌, ◌≢◌, ◌+◌, ◌<◌, ◌≤◌, MatchResult};
ghost use Rattle.wm_share.specs.Pools.{PoolState, max_viewers};

use crate::book::Naming;
use crate::share_id::ShareId;
use crate::viewer::Viewer;
use std::alloc::Global;
use std::marker::Model;
use wm_disk::Refusal;

/// The most viewers of a share.
pub const MAX_VIEWERS: usize = 32;

/// The viewers of a share that nobody has. Contracts see the share, and how many viewers there are.
#[derive(Drop)]
pub struct Pool<J: Naming> {
    share: ShareId,
    viewers: Vec<Viewer<J>>,
}

impl<J: Naming> Model for Pool<J> {
    ghost use Rattle.std.specs.Prelude.{◌≡◌, ◌≤◌, All, length, vec_capacity};
    ghost use Rattle.wm_share.specs.Pools.{PoolState, max_viewers};

    ghost Value = { PoolState };

    ghost view = { λ p. record { share = p.share; viewers = length p.viewers.items } };

    ghost invariant = { λ p. (length p.viewers.items ≤ max_viewers) × (max_viewers ≤ vec_capacity p.viewers) × All (λ v. v.list.share ≡ p.share) p.viewers.items };
}

impl<J: Naming> Pool<J> {
    /// A pool of no viewer, with room for all. `NoMemory`.
    pub(crate) fn with_room(alloc: Global, share: ShareId) -> Result<Pool<J>, Refusal>
        ensures { MatchResult result (λ p. p ≡ record { share = share; viewers = 0 }) (λ e. e ≡ Refusal.NoMemory) }
    {
        match Vec::with_capacity(alloc, MAX_VIEWERS) {
            Ok(viewers) => Ok(Pool { share, viewers }),
            Err(_) => Err(Refusal::NoMemory),
        }
    }

    /// The share that its viewers view.
    pub fn share(&self) -> ShareId
        ensures { result ≡ self.now.share }
    {
        self.share
    }

    /// Takes out a viewer of this share. `NoPlace` exactly where there is none.
    pub fn take(&mut self) -> Result<Viewer<J>, Refusal>
        ensures share { self.new.share ≡ self.old.share }
        ensures taken { MatchResult result (λ v. (self.new.viewers + 1 ≡ self.old.viewers) × (v.list.share ≡ self.old.share)) (λ e. (e ≡ Refusal.NoPlace) × (self.old.viewers ≡ 0) × (self.new.viewers ≡ 0)) }
    {
        match self.viewers.pop() {
            Some(viewer) => Ok(viewer),
            None => Err(Refusal::NoPlace),
        }
    }

    /// Takes in a viewer of this share. It takes no memory. A pool that has `MAX_VIEWERS` lets another one go,
    /// and each pool lets go a viewer of another share.
    pub fn give(&mut self, viewer: Viewer<J>)
        ensures share { self.new.share ≡ self.old.share }
        ensures given { viewer.list.share ≡ self.old.share → self.old.viewers < max_viewers → self.new.viewers ≡ self.old.viewers + 1 }
        ensures full { max_viewers ≤ self.old.viewers → self.new.viewers ≡ self.old.viewers }
        ensures other { viewer.list.share ≢ self.old.share → self.new.viewers ≡ self.old.viewers }
    {
        if self.viewers.len() < MAX_VIEWERS && viewer.share().same(&self.share) {
            self.viewers.push_reserved(viewer);
        }
    }
}
