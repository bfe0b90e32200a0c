//! A watched root under its lock, and what was published of it last.
//! Definitions: specs/RootStates.antt, specs/Performed.antt, specs/ChangeSeen.antt. Tests: serve_tests/src/halls.rt,
//! serve_tests/src/moments.rt, shared_tests/src/fronts.rt.
ghost use Rattle.std.specs.Prelude.{◌≡◌, ◌⊎◌, ◌+◌, ◌%◌, ◌^◌, [], None, Some, Err, MatchBool, MatchOption, MatchResult, true, false};
ghost use Rattle.std.specs.Option.{option_or};
ghost use Rattle.wm_root.specs.Overlays.{noted as noted_all};
ghost use Rattle.wm_root.specs.ChangeSeen.{IsEnded};
ghost use Rattle.wm_root.specs.Changes.{op_at};
ghost use Rattle.wm_root.specs.Forgotten.{floor_last, if_greater, risen_floor};
ghost use Rattle.wm_root.specs.Performed.{IsOutcome, IsProgress};
ghost use Rattle.wm_root.specs.ReadingSeen.{IsReadingEnd, IsTakenIn, IsUnpublishedReading};
ghost use Rattle.wm_root.specs.Readings.{NotesIf, clock_last, notes_of, pairs_in, tick_shown};
ghost use Rattle.wm_root.specs.RootStates.{IsLast, IsOperated, root_state};
ghost use Rattle.wm_share.specs.PublishedLists.{Begins, PublishedList};

use crate::backlog::{
    Backlog, age_out, moment_of, operate as operate_alone, publish_backlog, tick_of,
};
use crate::change::Change;
use crate::observed::Observed;
use crate::reading::{Begun, Reading, note_if, observed_in, recrawl_by, take_notes};
use crate::retention::Retention;
use std::alloc::Global;
use std::sync::Wait;
use wm_clock::ClockId;
use wm_disk::Refusal;
use wm_lines::Progress;
use wm_share::{Listed, Naming, RootKeeper, Told, Viewer};
use wm_view::Op;

/// A watched root under its lock: its keeper, what operations leave for later ones, what was observed since the reading began that is
/// under way, and when deleted paths are forgotten.
#[derive(Drop)]
pub(crate) struct LockedRoot<V: Drop> {
    keeper: V,
    backlog: Backlog,
    reading: Option<Observed>,
    /// The number of the reading that began last.
    last_reading: u64,
    retention: Retention,
}

/// What was published last of a root. It is made with the root.
#[derive(Drop)]
pub(crate) struct LastPublished<J: Naming> {
    last: Option<Told<J>>,
}

/// How an operation ended: what was published last, if anything was, where the view is then, and whether the operation was published.
/// Nobody can drop it: [`LastPublished::keep`] keeps what was published.
pub(crate) struct Performed<J: Naming> {
    last: Option<Told<J>>,
    ended: Result<Progress, Refusal>,
    is_published: bool,
}

/// How an operation ended whose published list was kept: where the view is then, whether the operation was published, and the floor of the
/// view if that rose. Nobody can drop it: `Work::notify` reports it, and notifies the root's workers.
pub(crate) struct Kept {
    ended: Result<Progress, Refusal>,
    is_published: bool,
    forgot: Option<u64>,
}

impl Kept {
    /// Its parts.
    pub(crate) fn into_parts(self) -> (Result<Progress, Refusal>, bool, Option<u64>)
        ensures { (result.0 ≡ self.ended) × (result.1 ≡ self.is_published) × (result.2 ≡ self.forgot) }
    {
        let Kept {
            ended,
            is_published,
            forgot,
        } = self;
        (ended, is_published, forgot)
    }
}

/// Where the view is after what was published, unless the last operation of it was refused. `NotReady` before the first whole
/// listing.
fn progress_of<J: Naming>(told: &Told<J>) -> Result<Progress, Refusal>
    ensures { MatchResult result (IsProgress told.now) (IsOutcome told.now) }
{
    if let Some(refusal) = told.refusal() {
        return Err(refusal);
    }
    match told.clock() {
        Some(clock) => Ok(Progress {
            clock,
            floor: told.floor(),
        }),
        None => Err(Refusal::NotReady),
    }
}

/// What is reported of an operation that was published.
fn published<J: Naming>(told: Told<J>) -> Performed<J>
    ensures last { (result.last ≡ Some told) × (result.is_published ≡ true) }
    ensures ended { MatchResult result.ended (IsProgress told) (IsOutcome told) }
{
    let ended = progress_of(&told);
    Performed {
        last: Some(told),
        ended,
        is_published: true,
    }
}

/// What is reported of an operation that was refused without a published list of its own.
fn unpublished<J: Naming>(last: Option<Told<J>>, refusal: Refusal) -> Performed<J>
    ensures { (result.last ≡ last) × (result.ended ≡ Err refusal) × (result.is_published ≡ false) }
{
    Performed {
        last,
        ended: Err(refusal),
        is_published: false,
    }
}

/// Publishes what is pending and the age-out that is due, and then the operation. A listing whose reading began before what was pending
/// is published is refused as the caller says, and publishes nothing else. `NoMemory`, and `Exhausted` after 2^63 - 1 operations.
fn operate<J: Naming, T: Listed<J> + Drop, R: Wait + Drop>(
    keeper: &mut RootKeeper<J, T, R>,
    backlog: &mut Backlog,
    retention: Retention,
    op: Op,
    overtaken: Refusal,
) -> Performed<J>
    ensures operated { IsOperated retention op overtaken (root_state keeper.old backlog.old) (root_state keeper.new backlog.new) result.last result.is_published result.ended }
    ensures last { IsLast result.last keeper.old.published keeper.new.published }
{
    let before = match publish_backlog(keeper, backlog) {
        Ok(before) => before,
        Err(refusal) => {
            drop(op);
            return unpublished(None, refusal);
        }
    };
    if backlog.overtakes(&op) {
        drop(op);
        return unpublished(before, overtaken);
    }
    let aged = match age_out(keeper, backlog, retention, moment_of(&op)) {
        Ok(aged) => aged,
        Err(refusal) => {
            drop(op);
            return unpublished(before, refusal);
        }
    };
    match operate_alone(keeper, backlog, op) {
        Ok(told) => published(told),
        Err(refusal) => unpublished(aged.or(before), refusal),
    }
}

impl<V: Drop> LockedRoot<V> {
    /// A root over its keeper, without an operation and without a reading, and that nothing was published of it yet.
    pub(crate) fn new<J: Naming>(
        keeper: V,
        retention: Retention,
    ) -> (LockedRoot<V>, LastPublished<J>)
        ensures root { result.0 ≡ record { keeper = keeper; backlog = record { aged_at = None; has_pending = false; published_at = 0 }; reading = None; last_reading = 0; retention = retention } }
        ensures last { result.1.last ≡ None }
    {
        let root = LockedRoot {
            keeper,
            backlog: Backlog::new(),
            reading: None,
            last_reading: 0,
            retention,
        };
        (root, LastPublished { last: None })
    }
}

impl<J: Naming, T: Listed<J> + Drop, R: Wait + Drop> LockedRoot<RootKeeper<J, T, R>> {
    /// Performs a change at a second, as `operate` does: a listing that is overtaken is refused `NoMemory`. What is observed is noted for
    /// the reading that is under way, once it was accepted.
    pub(crate) fn change(&mut self, alloc: Global, moment: u64, change: Change) -> Performed<J>
        ensures operated { IsOperated self.old.retention (op_at moment change) Refusal.NoMemory (root_state self.old.keeper self.old.backlog) (root_state self.new.keeper self.new.backlog) result.last result.is_published result.ended }
        ensures ended { IsEnded (op_at moment change) result.last result.is_published result.ended }
        ensures last { IsLast result.last self.old.keeper.published self.new.keeper.published }
        ensures noted { MatchResult result.ended (λ _. NotesIf (pairs_in (op_at moment change)) self.old.reading self.new.reading) (λ _. self.new.reading ≡ self.old.reading) }
        ensures kept { self.new.retention ≡ self.old.retention }
    {
        let op = change.at(moment);
        let pairs = observed_in(alloc, &op);
        let performed = operate(
            &mut self.keeper,
            &mut self.backlog,
            self.retention,
            op,
            Refusal::NoMemory,
        );
        if performed.ended.is_ok() {
            note_if(alloc, &mut self.reading, pairs);
        }
        performed
    }

    /// Begins the next reading of the root, at the tick that was published last: from now on what is observed is noted for it. An earlier
    /// one that is under way is given up.
    pub(crate) fn begin_reading(&mut self, alloc: Global, last: &LastPublished<J>) -> Begun
        ensures begun { result ≡ record { number = self.new.last_reading; tick = tick_shown (clock_last last.now.last) } }
        ensures noted { self.new ≡ record self.old { reading = Some (noted_all []); last_reading = (self.old.last_reading + 1) % 2 ^ 64 } }
    {
        self.reading = Some(Observed::new(alloc));
        self.last_reading = self.last_reading.wrapping_add(1);
        Begun::at(self.last_reading, tick_of(last.clock()))
    }

    /// Gives up the reading of the root that is under way.
    pub(crate) fn give_up_reading(&mut self, begun: Begun)
        ensures { self.new ≡ record self.old { reading = None } }
    {
        begun.give_up();
        self.reading = None;
    }

    /// Hands in what a reading found at a second, with what was observed meanwhile in place of what was read, as `operate` does. The
    /// reading is over. `BadClock` if it has to be done again: it is overtaken, an observation was left out, or it isn't under way.
    pub(crate) fn take_in(&mut self, alloc: Global, moment: u64, found: Reading) -> Performed<J>
        ensures operated { IsTakenIn self.old.retention moment found (notes_of found.number self.old.last_reading self.old.reading) (root_state self.old.keeper self.old.backlog) (root_state self.new.keeper self.new.backlog) result.last result.is_published result.ended }
        ensures ended { MatchBool result.is_published (IsReadingEnd moment found self.new.keeper.published result.ended) (IsUnpublishedReading result.ended) }
        ensures last { IsLast result.last self.old.keeper.published self.new.keeper.published }
        ensures used { self.new.reading ≡ None }
        ensures kept { self.new.retention ≡ self.old.retention }
    {
        let observed = take_notes(&mut self.reading, self.last_reading, &found);
        match recrawl_by(alloc, observed, moment, found) {
            Ok(op) => operate(
                &mut self.keeper,
                &mut self.backlog,
                self.retention,
                op,
                Refusal::BadClock,
            ),
            Err(refusal) => unpublished(None, refusal),
        }
    }
}

/// A viewer catches up with what was published last, if that is of its share: whether it has then seen all of that.
fn catch_up<J: Naming>(last: &Option<Told<J>>, viewer: &mut Viewer<J>) -> bool
    ensures seen { Begins viewer.old.list viewer.new.list }
    ensures caught_up { (list : PublishedList) → last.now ≡ Some list → (result ≡ true) ⊎ (list.share ≡ viewer.old.list.share) → Begins list viewer.new.list }
    ensures complete { MatchOption last.now (result ≡ true) (λ list. list.share ≡ viewer.old.list.share → result ≡ true) }
    ensures one { (viewer.new.list ≡ viewer.old.list) ⊎ (last.now ≡ Some viewer.new.list) }
    ensures connection { viewer.new.is_disconnected ≡ viewer.old.is_disconnected }
{
    let Some(last) = last else {
        return true;
    };
    let is_complete = last.share().same(&viewer.share());
    viewer.learn(last);
    is_complete
}

impl<J: Naming> Performed<J> {
    /// How it ended for a viewer, which catches up with what was published last. A viewer of another share, which no session has, sees nothing
    /// of it: it wasn't published for that viewer, `NoMemory`.
    pub(crate) fn seen_by(self, viewer: &mut Viewer<J>) -> Performed<J>
        ensures seen { Begins viewer.old.list viewer.new.list }
        ensures caught_up { (list : PublishedList) → self.last ≡ Some list → (result.is_published ≡ true) ⊎ (list.share ≡ viewer.old.list.share) → Begins list viewer.new.list }
        ensures own { MatchOption self.last (result ≡ self) (λ list. list.share ≡ viewer.old.list.share → result ≡ self) }
        ensures other { (result ≡ self) ⊎ (result ≡ record { last = self.last; ended = Err Refusal.NoMemory; is_published = false }) }
        ensures one { (viewer.new.list ≡ viewer.old.list) ⊎ (self.last ≡ Some viewer.new.list) }
        ensures connection { viewer.new.is_disconnected ≡ viewer.old.is_disconnected }
    {
        if catch_up(&self.last, viewer) {
            return self;
        }
        let Performed {
            last,
            ended: _,
            is_published: _,
        } = self;
        unpublished(last, Refusal::NoMemory)
    }
}

/// A floor, if it is greater than the one before.
fn risen(before: u64, after: u64) -> Option<u64>
    ensures { result ≡ if_greater before after }
{
    if before < after { Some(after) } else { None }
}

impl<J: Naming> LastPublished<J> {
    /// The floor; 0 if nothing was published.
    fn floor(&self) -> u64
        ensures { result ≡ floor_last self.now.last }
    {
        match &self.last {
            Some(last) => last.floor(),
            None => 0,
        }
    }

    /// Keeps what an operation published last, if it published anything.
    pub(crate) fn keep(&mut self, performed: Performed<J>) -> Kept
        ensures kept { self.new.last ≡ option_or performed.last self.old.last }
        ensures ended { result ≡ record { ended = performed.ended; is_published = performed.is_published; forgot = risen_floor self.old.last self.new.last } }
    {
        let Performed {
            last,
            ended,
            is_published,
        } = performed;
        let floor = self.floor();
        let before = self.last.take();
        self.last = last.or(before);
        Kept {
            ended,
            is_published,
            forgot: risen(floor, self.floor()),
        }
    }

    /// A viewer catches up with what was published last: whether it has then seen all of that.
    pub(crate) fn catch_up(&self, viewer: &mut Viewer<J>) -> bool
        ensures seen { Begins viewer.old.list viewer.new.list }
        ensures caught_up { (list : PublishedList) → self.now.last ≡ Some list → (result ≡ true) ⊎ (list.share ≡ viewer.old.list.share) → Begins list viewer.new.list }
        ensures complete { MatchOption self.now.last (result ≡ true) (λ list. list.share ≡ viewer.old.list.share → result ≡ true) }
        ensures one { (viewer.new.list ≡ viewer.old.list) ⊎ (self.now.last ≡ Some viewer.new.list) }
        ensures connection { viewer.new.is_disconnected ≡ viewer.old.is_disconnected }
    {
        catch_up(&self.last, viewer)
    }

    /// The clock; none before the first whole listing.
    pub(crate) fn clock(&self) -> Option<ClockId>
        ensures { result ≡ clock_last self.now.last }
    {
        match &self.last {
            Some(last) => last.clock(),
            None => None,
        }
    }
}
