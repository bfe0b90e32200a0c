//! The viewers of a session: one of each root that it asked about.
//! Definitions: specs/RootsSeen.antt, specs/Ended.antt; `IsChangeSeen` of wm_root. Tests: shared_tests/src/fronts.rt.
ghost use Rattle.std.specs.Prelude.{◌≡◌, ◌⊎◌, ◌≤◌, ◌<◌, [], false, true, length, take, get_or, IfOk, IfErr, MatchOption, OnErr, vec_capacity};
ghost use Rattle.std.specs.List.{list_any};
ghost use Rattle.wm_share.specs.PublishedLists.{Begins, ViewerState};
ghost use Rattle.wm_root.specs.ChangeSeen.{IsChangeSeen};
ghost use Rattle.wm_front.specs.Ended.{AreWatched, IsWatched};
ghost use Rattle.wm_front.specs.RootsSeen.{IsAnswerSeen, IsClockSeen, IsSeenMore, IsDueSeen, IsViewerPlaced, IsShownBy, is_viewer_of, unless_gone as unless_gone_lem};

use crate::roots::Roots;
use std::alloc::Global;
use std::marker::Model;
use std::sync::Wait;
use wm_clock::ClockId;
use wm_disk::Refusal;
use wm_lines::{Expression, Inquiry, Progress};
use wm_root::{Change, Changed, Seconds, WatchedRoot};
use wm_share::{Naming, Viewer};
use wm_since::Answer;
use wm_subs::Subscribed;

/// The viewers of a session. One is taken from its root's pool at the first question, and released at the session's end. Contracts
/// see what each has seen.
#[derive(Drop)]
pub struct Viewers<J: Naming> {
    all: Vec<Viewer<J>>,
}

impl<J: Naming> Model for Viewers<J> {
    ghost use Rattle.wm_names.specs.Paths.{Path};
    ghost use Rattle.wm_front.specs.Ended.{AreWatched};
    ghost use Rattle.wm_front.specs.RootsSeen.{ViewerList};

    ghost Value = { ViewerList };

    ghost view = { λ v. v.all.items };
}

/// A keeper that is gone, which no run reaches while the root is had, and an empty pool: a pool has a viewer for each session.
fn unless_gone<A>(answered: Result<A, Refusal>) -> Result<A, Refusal>
    ensures { result ≡ unless_gone_lem answered }
{
    match answered {
        Err(Refusal::NoPlace) => Err(Refusal::NoMemory),
        answered => answered,
    }
}

/// What is due to a subscription as a viewer sees the root: nothing if it is another root than the one of the subscription. `NoMemory`.
fn due_of<J: Naming>(
    alloc: Global,
    viewer: &mut Viewer<J>,
    subscribed: &Subscribed<Expression>,
) -> Result<Option<Answer>, Refusal>
    ensures seen { Begins viewer.old.list viewer.new.list }
    ensures due { IsDueSeen viewer.new subscribed.now result }
{
    if viewer.share().root != subscribed.number {
        return Ok(None);
    }
    let answered = subscribed.subscription.due_of(alloc, viewer);
    let due = unless_gone(answered)?;
    Ok(due)
}

/// A viewer out of a root's pool. `NoMemory` if there is none.
fn viewer_of<R: Wait, J: Naming, K: Wait + Drop>(
    rt: &R,
    root: &WatchedRoot<J, K>,
) -> Result<Viewer<J>, Refusal>
    ensures own { IfOk result (λ viewer. is_viewer_of root.now.number viewer ≡ true) }
    ensures refused { IfErr result (λ e. e ≡ Refusal.NoMemory) }
{
    let Ok(viewer) = root.acquire_viewer(rt) else {
        return Err(Refusal::NoMemory);
    };
    if viewer.share().root == root.number {
        Ok(viewer)
    } else {
        root.release_viewer(rt, viewer);
        Err(Refusal::NoMemory)
    }
}

impl<J: Naming> Viewers<J> {
    /// No viewers yet. It takes no memory.
    pub fn new(alloc: Global) -> Viewers<J>
        ensures { result ≡ [] }
    {
        Viewers {
            all: Vec::new(alloc),
        }
    }

    /// The viewers, to be released.
    pub fn into_vec(self) -> Vec<Viewer<J>>
        ensures { result.items ≡ self }
    {
        self.all
    }

    /// The place of the viewer of a root, if there is one.
    fn find(&self, number: u64) -> Option<usize>
        ensures { MatchOption result (list_any (is_viewer_of number) self.now ≡ false) (λ i. (i < length self.now) × (list_any (is_viewer_of number) (take i self.now) ≡ false) × ((d : ViewerState) → is_viewer_of number (get_or self.now i d) ≡ true)) }
    {
        for place in 0..self.all.len() {
            if self.all[place].share().root == number {
                return Some(place);
            }
        }
        None
    }

    /// The place of the viewer of a root. At the first question it is taken from the root's pool. `NoMemory` changes nothing.
    fn place<R: Wait, K: Wait + Drop>(
        &mut self,
        rt: &R,
        root: &WatchedRoot<J, K>,
    ) -> Result<usize, Refusal>
        ensures placed { IfOk result (λ place. IsViewerPlaced root.now.number place self.old self.new) }
        ensures refused { IfErr result (λ e. (e ≡ Refusal.NoMemory) × (self.new ≡ self.old)) }
    {
        if let Some(place) = self.find(root.number) {
            return Ok(place);
        }
        self.all.try_reserve(1)?;
        let viewer = viewer_of(rt, root)?;
        let place = self.all.len();
        self.all.push_reserved(viewer);
        Ok(place)
    }

    /// Appends the answer to what is asked of a root, and moves the cursor by which is asked. `NotReady` before the first whole
    /// listing, `TooMany` if there is no room for the cursor, and `NoMemory`: then nothing is appended, and no cursor moves.
    pub fn inquire<R: Wait, K: Wait + Drop>(
        &mut self,
        rt: &R,
        alloc: Global,
        root: &WatchedRoot<J, K>,
        inquiry: Inquiry,
        out: &mut Vec<u8>,
    ) -> Result<(), Refusal>
        ensures met { IsShownBy root.now.number self.old result self.new (λ old new. IsAnswerSeen inquiry new out.old.items result out.new.items) }
        ensures err { OnErr result (out.new.items ≡ out.old.items) }
        ensures room { vec_capacity out.old ≤ vec_capacity out.new }
    {
        let place = self.place(rt, root)?;
        let viewer = &mut self.all[place];
        unless_gone(root.inquire(rt, alloc, viewer, inquiry, out))
    }

    /// The clock of a root. `NotReady` before the first whole listing, and `NoMemory`.
    pub fn clock<R: Wait, K: Wait + Drop>(
        &mut self,
        rt: &R,
        alloc: Global,
        root: &WatchedRoot<J, K>,
    ) -> Result<ClockId, Refusal>
        ensures { IsShownBy root.now.number self.old result self.new (λ old new. IsClockSeen new result) }
    {
        let place = self.place(rt, root)?;
        let viewer = &mut self.all[place];
        unless_gone(root.clock(rt, alloc, viewer))
    }

    /// What a root has to report to a subscription, once the viewer has caught up with what was published last: nothing if it is another
    /// root than the one of the subscription. `NoMemory`.
    pub fn due<R: Wait, K: Wait + Drop>(
        &mut self,
        rt: &R,
        alloc: Global,
        root: &WatchedRoot<J, K>,
        subscribed: &Subscribed<Expression>,
    ) -> Result<Option<Answer>, Refusal>
        ensures { IsShownBy root.now.number self.old result self.new (λ old new. IsDueSeen new subscribed.now result) }
    {
        let place = self.place(rt, root)?;
        let viewer = &mut self.all[place];
        root.catch_up(rt, viewer);
        due_of(alloc, viewer, subscribed)
    }

    /// Performs a change of a root, which the viewer has then seen: how it ended, and that the root was changed. Without a viewer,
    /// `NoMemory` changes nothing.
    pub fn change<R: Wait, K: Wait + Drop, S: Seconds>(
        &mut self,
        rt: &R,
        alloc: Global,
        root: &WatchedRoot<J, K>,
        seconds: &S,
        change: Change,
    ) -> Result<(Result<Progress, Refusal>, Changed), Refusal>
        ensures seen { IfOk result (λ done. (more : IsSeenMore root.now.number self.old self.new) × IsChangeSeen more.viewer (S.may_read seconds.now) change done.1.is_published done.0 more.new) }
        ensures changed { IfOk result (λ done. done.1.root ≡ root.now.number) }
        ensures refused { IfErr result (λ e. (e ≡ Refusal.NoMemory) × (self.new ≡ self.old)) }
    {
        let place = self.place(rt, root)?;
        let viewer = &mut self.all[place];
        Ok(root.change(rt, alloc, seconds, viewer, change))
    }

    /// The viewer of a root, if there is one, catches up with what was published last.
    pub fn catch_up<R: Wait, K: Wait + Drop>(&mut self, rt: &R, root: &WatchedRoot<J, K>)
        ensures { ((list_any (is_viewer_of root.now.number) self.old ≡ false) × (self.new ≡ self.old)) ⊎ IsSeenMore root.now.number self.old self.new }
    {
        match self.find(root.number) {
            Some(place) => root.catch_up(rt, &mut self.all[place]),
            None => {}
        }
    }

    /// Drops the viewers of roots that aren't watched any longer.
    pub fn drop_ended<R: Wait, H: Roots<J, K>, K: Wait + Drop>(&mut self, rt: &R, roots: &H)
        ensures { AreWatched (IsWatched (H.has roots.now)) (H.ended roots.now) self.old self.new }
    {
        self.all
            .retain(|viewer| roots.is_watched(rt, viewer.share().root));
    }
}
