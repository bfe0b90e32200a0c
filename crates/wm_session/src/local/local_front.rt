//! The front of one thread, over a disk. Its definitions are in specs/local.
//! Tests: session_tests/src/lines, session_tests/src/ends.rt.
ghost use Rattle.std.specs.Prelude.{◌≡◌, ◌⊎◌, ◌<◌, ◌∷◌, [], true, false, List, vec_len, vec_capacity, IfOk, IfErr};
ghost use Rattle.wm_registry.specs.declared.command.Command as commands;
ghost use Rattle.wm_session.specs.session.Faults.{Submits};
ghost use Rattle.wm_session.specs.session.Sessions.{SessionState, views_after};
ghost use Rattle.wm_session.specs.local.Stores.{IsOpenUnlessFailed, LeadsTo, front_state_with, state_with, views_met};
ghost use Rattle.wm_lines.specs.KeptExpressions.{have_expressions as have_expressions_lem};
ghost use Rattle.wm_session.specs.local.ViewChanges.{view_change_of};
ghost use Rattle.wm_session.specs.session.Watched.{first_views};
ghost use Rattle.wm_store.specs.Batches.{is_begin};
ghost use Rattle.wm_session.specs.declared.local.root_views.RootView.{RootView};
ghost use Rattle.wm_store.specs.Meant.{MeansRegistry};

use crate::local::opening::open_store;
use crate::local::root_views::RootView;
use crate::local::{questions, root_views};
use crate::session::{Front, OwnFront};
use std::alloc::Global;
use wm_clock::{ClockId, ClockSpec};
use wm_disk::{Disk, NoMemory, Refusal};
use wm_lines::{Expression, Inquiry, Progress};
use wm_names::RootPath;
use wm_registry::{Command, Registry, Reply};
use wm_since::{Answer, Since};
use wm_store::Store;
use wm_subs::Subscribed;
use wm_view::Op;

/// A front of one thread over a disk: a store, and a view of each watched root.
#[derive(Drop)]
pub struct LocalFront<D: Disk + Drop> {
    store: Store<D>,
    views: Vec<RootView>,
    // closed by its close alone, which ends it
    ghost up: { store.failed ≡ false → store.closed ≡ false },
}

/// What a command does to the views, once it is accepted.
#[derive(Drop)]
enum ViewChange {
    /// A new root gets this one.
    Begin(RootView),
    /// That at the place goes.
    End(Option<usize>),
    /// Nothing.
    Nothing,
}

impl<D: Disk + Drop> LocalFront<D> {
    ghost use Rattle.std.specs.Prelude.{MatchResult, OnOk};
    ghost use Rattle.wm_session.specs.local.Locals.{CloseRefused, disk_of_front, session_state_of};
    ghost use Rattle.wm_disk.specs.Moments.{LeavesOnly};
    ghost use Rattle.wm_session.specs.local.Stores.{IsKeptOn, Later, StartCut, StartRefused};
    ghost use Rattle.wm_store.specs.Openings.{IsBegun};

    /// Takes up the registry that a disk means, and begins the next incarnation. The refusals are those
    /// of [`open_store`], and `NoMemory` where the views find no room: then the disk means the registry
    /// with one more `Begin`. Each hands the disk back.
    pub fn open(alloc: Global, disk: D) -> Result<LocalFront<D>, (Refusal, D)>
        ensures begun { IfOk result (λ front. D.honest (disk_of_front front) → IsBegun D.Disk disk front.store) }
        ensures kept { IfOk result (λ front. D.honest (disk_of_front front) → IsKeptOn D.Disk (session_state_of front).registry (disk_of_front front)) }
        ensures working { IfOk result (λ front. ((session_state_of front).has_failed ≡ false) × (front.store.closed ≡ false)) }
        ensures views { IfOk result (λ front. (session_state_of front).views ≡ first_views (session_state_of front).registry) }
        ensures expressions { IfOk result (λ front. have_expressions_lem (session_state_of front).registry ≡ true) }
        ensures later { MatchResult result (λ front. Later D.Disk disk (disk_of_front front)) (λ e. Later D.Disk disk e.1) }
        ensures refused { IfErr result (λ e. StartRefused D.Disk e.0 disk e.1) }
        ensures cut { IfErr result (λ e. StartCut D.Disk disk e.1) }
    {
        let store = match open_store(alloc, disk) {
            Ok(store) => store,
            Err((refusal, disk)) => return Err((refusal, disk)),
        };
        match root_views::first_views(alloc, store.registry()) {
            Ok(views) => Ok(LocalFront { store, views }),
            Err(NoMemory) => Err((Refusal::NoMemory, store.into_disk())),
        }
    }

    /// Closes the store. `StoreFailed` where the device had failed before, and `DeviceFailed` where the last
    /// sync fails: the disk then means the same registry.
    pub fn close(self) -> (Result<(), Refusal>, D)
        ensures later { Later D.Disk (disk_of_front self) result.1 }
        ensures ok { OnOk result.0 ((session_state_of self).has_failed ≡ false) }
        ensures kept { D.honest result.1 → OnOk result.0 (IsKeptOn D.Disk (session_state_of self).registry result.1) }
        ensures refused { IfErr result.0 (λ e. CloseRefused D.Disk e self result.1) }
        // A crash at any moment of it leaves the registry; and nothing more is asked of a disk that has failed.
        ensures any_moment { (session_state_of self).has_failed ≡ false → D.honest result.1 → LeavesOnly D.moment D.left_since (disk_of_front self) result.1 (MeansRegistry (session_state_of self).registry) }
        ensures still { (session_state_of self).has_failed ≡ true → result.1 ≡ disk_of_front self }
    {
        let LocalFront {
            mut store,
            views: _,
        } = self;
        let closed = store.close();
        (closed, store.into_disk())
    }

    /// What a command does to the views, once it is accepted.
    fn view_change(&self, alloc: Global, command: &Command) -> Result<ViewChange, NoMemory>
        ensures { IfOk result (λ change. change ≡ view_change_of command.now self.now.store.registry) }
    {
        let registry = self.store.registry();
        match command {
            Command::Watch(_) => {
                let view = RootView::new(alloc, registry.incarnation(), registry.next_root())?;
                Ok(ViewChange::Begin(view))
            }
            Command::WatchDel(path) => {
                Ok(ViewChange::End(root_views::place_of(path, registry.roots())))
            }
            Command::Begin | Command::Trigger(_, _) | Command::TriggerDel(_, _) => {
                Ok(ViewChange::Nothing)
            }
        }
    }
}

impl<D: Disk + Drop> Front for LocalFront<D> {
    ghost use Rattle.wm_session.specs.session.Fronts.{MetAt};
    ghost use Rattle.wm_session.specs.local.Locals.{front_state_of};
    ghost use Rattle.wm_session.specs.local.LocalLaws.{idles_at, leads_on, runs_out_at, stands_at, stays as stays_lem};

    ghost met = { λ a part way accepts s t b. MetAt part (front_state_of D.Disk a) way accepts s t (front_state_of D.Disk b) };

    ghost leads_to = { λ a asked b. LeadsTo D.Disk asked a.store b.store };

    ghost shown = { λ f. f.store.registry };

    fn submit(&mut self, alloc: Global, command: Command) -> Reply {
        if let Command::Begin = command {
            return Reply::Refused(Refusal::BadArguments);
        }
        let Ok(change) = self.view_change(alloc, &command) else {
            return Reply::Refused(Refusal::NoMemory);
        };
        if self.views.try_reserve(1).is_err() {
            return Reply::Refused(Refusal::NoMemory);
        }
        let reply = commit_alone(alloc, &mut self.store, command);
        if reply.is_change() {
            change_views(change, &mut self.views);
        }
        reply
    }

    fn operate(&mut self, alloc: Global, root: &RootPath, op: Op) -> Result<Progress, Refusal> {
        let roots = self.store.registry().roots();
        root_views::operate(alloc, root, roots, &mut self.views, &op)
    }

    fn inquire(
        &mut self,
        alloc: Global,
        root: &RootPath,
        inquiry: Inquiry,
        out: &mut Vec<u8>,
    ) -> Result<(), Refusal> {
        let roots = self.store.registry().roots();
        let moves = questions::tell(alloc, root, roots, &self.views, inquiry, out)?;
        if let Some((name, clock)) = moves {
            root_views::move_cursor(root, roots, &mut self.views, name, clock);
        }
        Ok(())
    }

    fn clock(&mut self, _alloc: Global, root: &RootPath) -> Result<ClockId, Refusal> {
        questions::clock(root, self.store.registry().roots(), &self.views)
    }

    fn start(
        &mut self,
        _alloc: Global,
        root: &RootPath,
        since: &Option<ClockSpec>,
    ) -> Result<(ClockId, Option<Since>), Refusal> {
        questions::start(root, self.store.registry().roots(), &self.views, since)
    }

    fn due(
        &mut self,
        alloc: Global,
        subscribed: &Subscribed<Expression>,
    ) -> Result<Option<Answer>, Refusal> {
        let roots = self.store.registry().roots();
        let Some(root) = root_views::view_at(&subscribed.root, roots, &self.views) else {
            return Ok(None);
        };
        if root.view.root() != subscribed.number {
            return Ok(None);
        }
        subscribed.subscription.due_on(alloc, &root.view)
    }

    fn look(&mut self, _alloc: Global) -> Result<(), Refusal> {
        Ok(())
    }

    fn registry(&self) -> &Registry {
        self.store.registry()
    }

    ghost stands = { λ a part when. stands_at _ part when };

    ghost runs_out = { λ a b part s. runs_out_at _ _ part s };

    ghost idles = { λ a. idles_at _ };

    ghost stays = { λ a asked. stays_lem _ asked a.store };

    ghost goes_on = { λ a b c first second. leads_on _ first second a.store b.store c.store };
}

impl<D: Disk + Drop> OwnFront for LocalFront<D> {
    ghost use Rattle.wm_session.specs.local.Locals.{front_state_of};

    ghost front_state = { λ f. front_state_of D.Disk f };

    ghost own = { λ a b part way accepts s t met. met };
}

/// Changes the views as an accepted command does.
fn change_views(change: ViewChange, views: &mut Vec<RootView>)
    requires { vec_len views.old < vec_capacity views.old }
    ensures { (s : SessionState) (command : commands.Command) → change ≡ view_change_of command s.registry → views.old.items ≡ s.views → views.new.items ≡ views_after s command }
{
    match change {
        ViewChange::Begin(view) => views.push(view).unwrap(),
        ViewChange::End(place) => root_views::forget(place, views),
        ViewChange::Nothing => {}
    }
}

/// Commits a command that isn't a `Begin` as a batch of one, and tells its reply.
fn commit_alone<D: Disk + Drop>(alloc: Global, store: &mut Store<D>, command: Command) -> Reply
    requires plain { is_begin command ≡ false }
    requires up { IsOpenUnlessFailed store.old }
    ensures met { (views : List RootView) → Submits (front_state_with D.Disk store.old views) command result (front_state_with D.Disk store.new (views_met result (state_with store.old views) command)) }
    ensures later { LeadsTo D.Disk (command ∷ []) store.old store.new }
    ensures up { IsOpenUnlessFailed store.new }
{
    let Ok(batch) = vec![in alloc; command] else {
        return Reply::Refused(Refusal::NoMemory);
    };
    match store.commit_batch(alloc, batch) {
        Ok(replies) => replies[0],
        Err(refusal) => Reply::Refused(refusal),
    }
}
