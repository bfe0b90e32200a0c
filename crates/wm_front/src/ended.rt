//! How a session's subscriptions and viewers end with their roots.
//! Definitions: specs/Ended.antt. Tests: shared_tests/src/ended.rt.
ghost use Rattle.std.specs.Prelude.{◌≡◌, ◌⊎◌, IfOk};
ghost use Rattle.std.specs.List.{All};
ghost use Rattle.wm_front.specs.Ended.{AreWatched, HaveEnded, HaveEndedOn, IsOnWatched, IsWatched};

use crate::registrar::Registrar;
use crate::roots::Roots;
use crate::shared_front::SharedFront;
use std::alloc::Global;
use std::sync::Wait;
use wm_disk::NoMemory;
use wm_names::RootPath;
use wm_session::{Front, Session};
use wm_share::Naming;

/// Ends those subscriptions on a path whose root isn't watched any longer, or which now has another root than theirs.
fn end_on<R: Wait, H: Roots<J, K>, J: Naming, K: Wait + Drop, F: Front>(
    rt: &R,
    roots: &H,
    path: &RootPath,
    session: &mut Session<F>,
)
    ensures front { session.new.front ≡ session.old.front }
    ensures ended { HaveEndedOn (H.has roots.now) (H.lacks roots.now) path.now session.old.subscriptions session.new.subscriptions }
{
    match roots.number_of(rt, path) {
        Some(number) => session.end_earlier(path, number),
        None => session.end_root(path),
    }
}

/// Ends the subscriptions of a session on roots that aren't watched any longer, also if another root is watched under their path. If
/// memory runs out some are left for the next time: nothing is due to them.
pub fn end_subscriptions<R: Wait, H: Roots<J, K>, J: Naming, K: Wait + Drop, F: Front>(
    rt: &R,
    alloc: Global,
    roots: &H,
    session: &mut Session<F>,
) -> Result<(), NoMemory>
    ensures front { session.new.front ≡ session.old.front }
    ensures ended { HaveEnded (H.has roots.now) (H.lacks roots.now) session.old.subscriptions session.new.subscriptions }
    ensures left { IfOk result (λ _. All (IsOnWatched (H.has roots.now) (H.lacks roots.now)) session.new.subscriptions) }
{
    let mut place = session.subscriptions().len();
    while place > 0 {
        place -= 1;
        if let Some(subscribed) = session.subscriptions().get(place) {
            let path = subscribed.root.copy(alloc)?;
            end_on(rt, roots, &path, session);
        }
    }
    Ok(())
}

/// Drops what a session has of roots that have ended since the last time: its viewers and its subscriptions. If memory runs out
/// some subscriptions are left for the next time.
pub fn drop_ended<R: Wait, T: Registrar, H: Roots<J, K>, J: Naming, K: Wait + Copy + Drop>(
    rt: &R,
    alloc: Global,
    session: &mut Session<SharedFront<'_, T, H, J, K>>,
)
    ensures subscriptions { HaveEnded (H.has session.old.front.roots.now) (H.lacks session.old.front.roots.now) session.old.subscriptions session.new.subscriptions }
    ensures viewers { (session.new.front.viewers ≡ session.old.front.viewers) ⊎ AreWatched (IsWatched (H.has session.old.front.roots.now)) (H.ended session.old.front.roots.now) session.old.front.viewers session.new.front.viewers }
    ensures counted { (session.new.front.ended_count ≡ session.old.front.ended_count) ⊎ (All (IsOnWatched (H.has session.old.front.roots.now) (H.lacks session.old.front.roots.now)) session.new.subscriptions
        × AreWatched (IsWatched (H.has session.old.front.roots.now)) (H.ended session.old.front.roots.now) session.old.front.viewers session.new.front.viewers) }
    ensures kept { session.new.front ≡ record session.old.front { viewers = session.new.front.viewers; ended_count = session.new.front.ended_count } }
{
    let roots = session.front.roots;
    let count = roots.ended_count(rt);
    if count == session.front.ended_count {
        return;
    }
    session.front.viewers.drop_ended(rt, roots);
    match end_subscriptions(rt, alloc, roots, session) {
        Ok(()) => session.front.ended_count = count,
        Err(NoMemory) => {}
    }
}
