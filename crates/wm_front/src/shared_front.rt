//! The front of a session that shares a desk and roots with others: what is known of a call is what the session's own seat and viewers
//! show. Definitions: specs/MetShared.antt. Tests: shared_tests/src/fronts.rt.
ghost use Rattle.std.specs.Prelude.{◌≡◌, ◌⊎◌, ℕ, false, IfOk, IfErr, IfSome, OnOk, MatchBool, MatchResult};
ghost use Rattle.std.specs.Arc.{arc_value};
ghost use Rattle.std.specs.List.{list_any};
ghost use Rattle.wm_disk.specs.declared.refusal.Refusal.TheVariants.{BadArguments as bad_arguments, DeviceFailed as device_failed};
ghost use Rattle.wm_front.specs.Commands.{KeepsSeat, calls_of};
ghost use Rattle.wm_front.specs.Looks.{IsLookedBy, IsUnwatchedAfter, IsWatchedAfter};
ghost use Rattle.wm_front.specs.RootsSeen.{IsSeenMore, is_viewer_of, unless_unwatched};
ghost use Rattle.wm_groupcommit.specs.Receipts.{mark_of};
ghost use Rattle.wm_registry.specs.declared.reply.Reply.TheVariants.{Refused as refused};

use crate::desk_seat::DeskSeat;
use crate::moments::{SinceGiven, starting};
use crate::registrar::Registrar;
use crate::roots::Roots;
use crate::viewers::Viewers;
use std::alloc::Global;
use std::sync::{Arc, Wait};
use wm_clock::{ClockId, ClockSpec};
use wm_disk::Refusal;
use wm_groupcommit::Standing;
use wm_lines::{Expression, Inquiry, Progress};
use wm_names::RootPath;
use wm_registry::{Command, Registry, Reply, Version};
use wm_root::{Change, WatchedRoot};
use wm_session::{Front, every_line};
use wm_share::Naming;
use wm_since::{Answer, Since};
use wm_subs::Subscribed;
use wm_view::Op;

/// A session's side of a desk and of watched roots that it shares with others: its seat and its viewers.
#[derive(Drop)]
pub struct SharedFront<'a, T: Registrar, H: Roots<J, K>, J: Naming, K: Wait + Copy + Drop> {
    rt: K,
    seat: DeskSeat<'a, T>,
    pub(crate) roots: &'a H,
    pub(crate) viewers: Viewers<J>,
    /// The registry that was looked at last.
    registry: Registry,
    /// Whether the device failed under a command, which nobody has reported yet.
    has_store_failed: bool,
    /// How many roots had ended when the session dropped what it had of them last.
    pub(crate) ended_count: u64,
}

impl<'a, T: Registrar, H: Roots<J, K>, J: Naming, K: Wait + Copy + Drop> SharedFront<
    'a,
    T,
    H,
    J,
    K,
> {
    /// The front of a session that has seen nothing of the roots yet. It takes no memory.
    pub fn new(
        rt: K,
        alloc: Global,
        seat: DeskSeat<'a, T>,
        roots: &'a H,
    ) -> SharedFront<'a, T, H, J, K> {
        SharedFront {
            rt,
            seat,
            roots,
            viewers: Viewers::new(alloc),
            registry: Registry::new(alloc, Version::Two),
            has_store_failed: false,
            ended_count: 0,
        }
    }

    /// The seat at the desk, for another session, and the viewers, to be released.
    pub fn into_parts(self) -> (DeskSeat<'a, T>, Viewers<J>) {
        (self.seat, self.viewers)
    }

    /// The session's viewer of a root, if there is one, catches up with what was published last.
    pub fn catch_up(&mut self, root: &WatchedRoot<J, K>)
        ensures seen { ((list_any (is_viewer_of root.now.number) self.old.viewers ≡ false) × (self.new.viewers ≡ self.old.viewers)) ⊎ IsSeenMore root.now.number self.old.viewers self.new.viewers }
        ensures kept { self.new ≡ record self.old { viewers = self.new.viewers } }
    {
        self.viewers.catch_up(&self.rt, root);
    }

    /// Whether the device failed under a command since this was asked last.
    pub fn take_store_failure(&mut self) -> bool
        ensures { (result ≡ self.old.has_store_failed) × (self.new ≡ record self.old { has_store_failed = false }) }
    {
        let has_failed = self.has_store_failed;
        self.has_store_failed = false;
        has_failed
    }
}

/// Whether a reply says that the device failed under the command.
fn is_store_failure(reply: Reply) -> bool
    ensures { MatchBool result (reply ≡ refused device_failed) (reply ≡ refused device_failed → ⊥) }
{
    matches!(reply, Reply::Refused(Refusal::DeviceFailed))
}

/// Has the roots follow a command that was accepted, or waits until they have followed all that its reply shows: after a refusal all that
/// the desk had accepted.
fn follow<T: Registrar, H: Roots<J, K>, J: Naming, K: Wait + Copy + Drop>(
    rt: &K,
    alloc: Global,
    roots: &H,
    seat: &DeskSeat<'_, T>,
    standing: Option<Standing>,
)
    ensures { IfSome standing (λ s. H.followed roots.now (mark_of s)) }
{
    match standing {
        Some(Standing::Stands { number, command }) => roots.follow(rt, alloc, number, command),
        Some(Standing::Unchanged { after }) => roots.await_followed(rt, after),
        None => roots.await_followed(rt, seat.accepted_count(rt)),
    }
}

/// Looks at the registry, and waits until the roots have followed the commands after which it stands so. `NoMemory`.
fn look_followed<T: Registrar, H: Roots<J, K>, J: Naming, K: Wait + Copy + Drop>(
    rt: &K,
    roots: &H,
    seat: &mut DeskSeat<'_, T>,
) -> Result<Registry, Refusal>
    ensures keeps { KeepsSeat seat.old seat.new }
    ensures unsent { calls_of seat.new ≡ calls_of seat.old }
    ensures looked { IfOk result (λ registry. (count : ℕ) × IsLookedBy seat.old registry count seat.new × H.followed roots.now count) }
    ensures refused { IfErr result (λ e. e ≡ Refusal.NoMemory) }
{
    let (registry, count) = seat.look(rt)?;
    roots.await_followed(rt, count);
    Ok(registry)
}

/// Asks the desk whether a root that the server hasn't found is watched, and has the roots follow. `NotWatched` if it isn't; and
/// `NoMemory`.
fn confirm<T: Registrar, H: Roots<J, K>, J: Naming, K: Wait + Copy + Drop>(
    rt: &K,
    roots: &H,
    seat: &mut DeskSeat<'_, T>,
    path: &RootPath,
) -> Result<(), Refusal>
    ensures keeps { KeepsSeat seat.old seat.new }
    ensures watched { OnOk result (IsWatchedAfter path.now seat.old seat.new) }
    ensures refused { IfErr result (λ e. (e ≡ Refusal.NoMemory) ⊎ ((e ≡ Refusal.NotWatched) × IsUnwatchedAfter path.now seat.old seat.new)) }
{
    let registry = look_followed(rt, roots, seat)?;
    if registry.roots().get(path).is_none() {
        return Err(Refusal::NotWatched);
    }
    Ok(())
}

/// How often a root is looked for that the desk has and its server hasn't: each time it was deleted and watched anew meanwhile.
const FINDS: u32 = 64;

/// The watched root of a path. `NotWatched` if there is none, after all that the session has seen; and `NoMemory`.
fn find_root<T: Registrar, H: Roots<J, K>, J: Naming, K: Wait + Copy + Drop>(
    rt: &K,
    alloc: Global,
    roots: &H,
    seat: &mut DeskSeat<'_, T>,
    path: &RootPath,
) -> Result<Arc<WatchedRoot<J, K>>, Refusal>
    ensures keeps { KeepsSeat seat.old seat.new }
    ensures has { IfOk result (λ root. H.has roots.now path.now (arc_value root).number) }
    ensures refused { IfErr result (λ e. (e ≡ Refusal.NoMemory) ⊎ ((e ≡ Refusal.NotWatched) × IsUnwatchedAfter path.now seat.old seat.new)) }
{
    'finds: for _ in 0..FINDS {
        match roots.find(rt, alloc, path) {
            Ok(root) => return Ok(root),
            Err(Refusal::NotWatched) => confirm(rt, roots, seat, path)?,
            Err(_) => return Err(Refusal::NoMemory),
        }
    }
    Err(Refusal::NoMemory)
}

/// What is due on a root that wasn't found: nothing, if it isn't watched.
fn due_unless(refusal: Refusal) -> Result<Option<Answer>, Refusal>
    ensures { result ≡ unless_unwatched refusal }
{
    match refusal {
        Refusal::NotWatched => Ok(None),
        _ => Err(Refusal::NoMemory),
    }
}

/// The reply to a `Begin`, which a start alone submits.
fn begin_refused(looked: Result<Registry, Refusal>) -> Reply
    ensures { MatchResult looked (λ _. result ≡ refused bad_arguments) (λ e. result ≡ refused e) }
{
    match looked {
        Ok(_) => Reply::Refused(Refusal::BadArguments),
        Err(refusal) => Reply::Refused(refusal),
    }
}

impl<'a, T: Registrar, H: Roots<J, K>, J: Naming, K: Wait + Copy + Drop> Front
    for SharedFront<'a, T, H, J, K> {
    ghost use Rattle.wm_front.specs.MetShared.{MetShared};
    ghost use Rattle.wm_front.specs.SharedLaws.{idles_shared, keeps_same, keeps_then, runs_out_shared, stands_shared};
    ghost use Rattle.wm_front.specs.Commands.{KeepsSeat};

    ghost met = { λ a part way accepts s t b. MetShared (H.has a.roots.now) (H.woken a.roots.now) (H.followed a.roots.now) (record { seat = a.seat; viewers = a.viewers }) part way accepts s t (record { seat = b.seat; viewers = b.viewers }) };

    ghost leads_to = { λ a asked b. KeepsSeat a.seat b.seat };

    ghost shown = { λ f. f.registry };

    fn submit(&mut self, alloc: Global, command: Command) -> Reply {
        if let Command::Begin = command {
            let looked = look_followed(&self.rt, self.roots, &mut self.seat);
            return begin_refused(looked);
        }
        let (reply, standing) = self.seat.submit(&self.rt, command);
        self.has_store_failed |= is_store_failure(reply);
        follow(&self.rt, alloc, self.roots, &self.seat, standing);
        reply
    }

    fn operate(&mut self, alloc: Global, root: &RootPath, op: Op) -> Result<Progress, Refusal> {
        every_line();
        let watched = match find_root(&self.rt, alloc, self.roots, &mut self.seat, root) {
            Ok(watched) => watched,
            Err(refusal) => {
                drop(op);
                return Err(refusal);
            }
        };
        let (given, change) = Change::of(op);
        let seconds = SinceGiven {
            seconds: self.roots,
            given,
        };
        let (ended, changed) = match self
            .viewers
            .change(&self.rt, alloc, &watched, &seconds, change)
        {
            Ok(done) => done,
            Err(refusal) => {
                drop(watched);
                return Err(refusal);
            }
        };
        self.roots.notify(&self.rt, &watched, changed);
        drop(watched);
        ended
    }

    fn inquire(
        &mut self,
        alloc: Global,
        root: &RootPath,
        inquiry: Inquiry,
        out: &mut Vec<u8>,
    ) -> Result<(), Refusal> {
        every_line();
        let watched = match find_root(&self.rt, alloc, self.roots, &mut self.seat, root) {
            Ok(watched) => watched,
            Err(refusal) => {
                drop(inquiry);
                return Err(refusal);
            }
        };
        let answered = self
            .viewers
            .inquire(&self.rt, alloc, &watched, inquiry, out);
        drop(watched);
        answered
    }

    fn clock(&mut self, alloc: Global, root: &RootPath) -> Result<ClockId, Refusal> {
        let watched = match find_root(&self.rt, alloc, self.roots, &mut self.seat, root) {
            Ok(watched) => watched,
            Err(refusal) => return Err(refusal),
        };
        let clock = self.viewers.clock(&self.rt, alloc, &watched);
        drop(watched);
        clock
    }

    fn start(
        &mut self,
        alloc: Global,
        root: &RootPath,
        since: &Option<ClockSpec>,
    ) -> Result<(ClockId, Option<Since>), Refusal> {
        let watched = match find_root(&self.rt, alloc, self.roots, &mut self.seat, root) {
            Ok(watched) => watched,
            Err(refusal) => return Err(refusal),
        };
        let clock = self.viewers.clock(&self.rt, alloc, &watched);
        let since = watched.since(&self.rt, since);
        drop(watched);
        starting(clock, since)
    }

    fn due(
        &mut self,
        alloc: Global,
        subscribed: &Subscribed<Expression>,
    ) -> Result<Option<Answer>, Refusal> {
        every_line();
        let root = &subscribed.root;
        let watched = match find_root(&self.rt, alloc, self.roots, &mut self.seat, root) {
            Ok(watched) => watched,
            Err(refusal) => return due_unless(refusal),
        };
        let due = self.viewers.due(&self.rt, alloc, &watched, subscribed);
        drop(watched);
        due
    }

    fn look(&mut self, _alloc: Global) -> Result<(), Refusal> {
        self.registry = match look_followed(&self.rt, self.roots, &mut self.seat) {
            Ok(registry) => registry,
            Err(refusal) => return Err(refusal),
        };
        Ok(())
    }

    fn registry(&self) -> &Registry {
        &self.registry
    }

    ghost stands = { λ a part when. stands_shared (H.has a.roots.now) (H.woken a.roots.now) (H.followed a.roots.now) (record { seat = a.seat; viewers = a.viewers }) part when };

    ghost runs_out = { λ a b part s. runs_out_shared (H.has a.roots.now) (H.woken a.roots.now) (H.followed a.roots.now) (record { seat = a.seat; viewers = a.viewers }) (record { seat = b.seat; viewers = b.viewers }) part s };

    ghost idles = { λ a. idles_shared (H.has a.roots.now) (H.woken a.roots.now) (H.followed a.roots.now) (record { seat = a.seat; viewers = a.viewers }) };

    ghost stays = { λ a asked. keeps_same a.seat };

    ghost goes_on = { λ a b c first second p q. keeps_then a.seat b.seat c.seat p q };
}
