//! What is published of a root's view by an operation: what is pending, the age-out that is due, and the operation.
//! Definitions: specs/RootStates.antt, specs/AgeOuts.antt. Tests: serve_tests/src/halls.rt and sessions.rt; without memory tools/try/growths.py.
ghost use Rattle.std.specs.Prelude.{◌≡◌, ◌≢◌, ◌⊎◌, ◌++◌, ◌∷◌, [], true, false, None, IfOk, IfErr, IsErrOf, MatchResult, OnOk};
ghost use Rattle.wm_root.specs.AgeOuts.{due_age_out, first_aged, moment_of as moment_of_lem};
ghost use Rattle.wm_root.specs.Readings.{is_begun_before, tick_shown};
ghost use Rattle.wm_root.specs.RootStates.{IsHeldBack, IsLast, due_before, root_state, with_age_out, with_backlog, with_operation};
ghost use Rattle.wm_share.specs.Operations.{MayRefuse};
ghost use Rattle.wm_share.specs.PublishedLists.{with_operations};

use crate::retention::Retention;
use std::sync::Wait;
use wm_clock::ClockId;
use wm_disk::Refusal;
use wm_share::{Listed, Naming, RootKeeper, Told};
use wm_view::Op;

/// What a root's operations leave, beside its keeper, for those that come later.
#[derive(Drop)]
pub(crate) struct Backlog {
    /// The second of the last age-out by the interval, or when the view became ready.
    aged_at: Option<u64>,
    /// Whether memory ran out for a publish, so that operations may wait which were answered `NoMemory`.
    has_pending: bool,
    /// The tick at which such operations were published last: 0 if none ever were.
    published_at: u64,
}

impl Backlog {
    /// Of a root without an operation.
    pub(crate) fn new() -> Backlog
        ensures { result ≡ record { aged_at = None; has_pending = false; published_at = 0 } }
    {
        Backlog {
            aged_at: None,
            has_pending: false,
            published_at: 0,
        }
    }

    /// Whether a reading began before what was pending was published. It may have seen a path later than what was observed of it and
    /// published after the reading's tick, so it can't be applied.
    pub(crate) fn overtakes(&self, op: &Op) -> bool
        ensures { result ≡ is_begun_before self.now.published_at op.now }
    {
        match op {
            Op::Recrawl(_, begun_at, _) => *begun_at < self.published_at,
            Op::Observe(_, _) => false,
            Op::AgeOut(_, _) => false,
        }
    }

    /// The interval of age-outs is counted from this second on, if the view is ready now and it isn't counted yet.
    fn begin_interval(&mut self, moment: u64, clock: Option<ClockId>)
        ensures { self.new ≡ record self.old { aged_at = first_aged self.old.aged_at moment clock } }
    {
        if self.aged_at.is_none() && clock.is_some() {
            self.aged_at = Some(moment);
        }
    }
}

/// The tick of a clock, 0 before the first whole listing.
pub(crate) fn tick_of(clock: Option<ClockId>) -> u64
    ensures { result ≡ tick_shown clock }
{
    match clock {
        Some(clock) => clock.tick,
        None => 0,
    }
}

/// The second of an operation.
pub(crate) fn moment_of(op: &Op) -> u64
    ensures { result ≡ moment_of_lem op.now }
{
    match op {
        Op::Observe(moment, _) => *moment,
        Op::Recrawl(moment, _, _) => *moment,
        Op::AgeOut(moment, _) => *moment,
    }
}

/// Hands in an operation, and publishes it with all that waited. `NoMemory`, and `Exhausted` after 2^63 - 1 operations. If
/// memory ran out for the publish alone, the operation waits and is published with the next one.
fn publish<J: Naming, T: Listed<J> + Drop, R: Wait + Drop>(
    keeper: &mut RootKeeper<J, T, R>,
    op: Op,
) -> Result<Told<J>, Refusal>
    ensures told { IfOk result (λ told. told ≡ with_operations keeper.old.published (keeper.old.pending ++ op ∷ [])) }
    ensures published { MatchResult result (λ told. (keeper.new.published ≡ told) × (keeper.new.pending ≡ [])) (λ _. keeper.new.published ≡ keeper.old.published) }
    ensures waits { IfErr result (λ _. (keeper.new.pending ≡ keeper.old.pending) ⊎ (keeper.new.pending ≡ keeper.old.pending ++ op ∷ [])) }
    ensures refused { IfErr result (MayRefuse keeper.new) }
    ensures full { IsErrOf result Refusal.Exhausted → keeper.new.pending ≡ keeper.old.pending }
{
    keeper.append(op)?;
    keeper.publish()
}

/// Publishes what is pending, if anything is, and gives what was published then. `NoMemory` leaves it pending.
pub(crate) fn publish_backlog<J: Naming, T: Listed<J> + Drop, R: Wait + Drop>(
    keeper: &mut RootKeeper<J, T, R>,
    backlog: &mut Backlog,
) -> Result<Option<Told<J>>, Refusal>
    ensures published { OnOk result (root_state keeper.new backlog.new ≡ with_backlog (root_state keeper.old backlog.old)) }
    ensures last { IfOk result (λ last. IsLast last keeper.old.published keeper.new.published) }
    ensures refused { IfErr result (λ e. (e ≡ Refusal.NoMemory) × (backlog.old.has_pending ≡ true) × (root_state keeper.new backlog.new ≡ root_state keeper.old backlog.old)) }
{
    if !backlog.has_pending {
        return Ok(None);
    }
    let told = keeper.publish()?;
    backlog.has_pending = false;
    backlog.published_at = tick_of(told.clock());
    Ok(Some(told))
}

/// Publishes an operation with all that waited, and notes whether something is pending then. A view that became ready counts the
/// interval of age-outs from then. `NoMemory` and `Exhausted` as `publish`.
pub(crate) fn operate<J: Naming, T: Listed<J> + Drop, R: Wait + Drop>(
    keeper: &mut RootKeeper<J, T, R>,
    backlog: &mut Backlog,
    op: Op,
) -> Result<Told<J>, Refusal>
    ensures published { OnOk result (root_state keeper.new backlog.new ≡ with_operation op (root_state keeper.old backlog.old)) }
    ensures told { IfOk result (λ told. told ≡ keeper.new.published) }
    ensures refused { IfErr result (λ e. MayRefuse keeper.new e × IsHeldBack (op ∷ []) (root_state keeper.old backlog.old) (root_state keeper.new backlog.new)) }
{
    let moment = moment_of(&op);
    let done = publish(keeper, op);
    backlog.has_pending = done.is_err();
    let told = done?;
    backlog.begin_interval(moment, told.clock());
    Ok(told)
}

/// Forgets what is old enough, if the interval has passed since the last time, and gives what was published then. What the view refuses
/// stays due. `NoMemory` and `Exhausted` as `publish`: it stays due then, though it may be pending already.
pub(crate) fn age_out<J: Naming, T: Listed<J> + Drop, R: Wait + Drop>(
    keeper: &mut RootKeeper<J, T, R>,
    backlog: &mut Backlog,
    retention: Retention,
    moment: u64,
) -> Result<Option<Told<J>>, Refusal>
    ensures published { OnOk result (root_state keeper.new backlog.new ≡ with_age_out retention moment (root_state keeper.old backlog.old)) }
    ensures last { IfOk result (λ last. IsLast last keeper.old.published keeper.new.published) }
    ensures refused { IfErr result (λ e. MayRefuse keeper.new e × (due_before retention moment (root_state keeper.old backlog.old) ≢ []) × IsHeldBack (due_before retention moment (root_state keeper.old backlog.old)) (root_state keeper.old backlog.old) (root_state keeper.new backlog.new)) }
{
    let Some(last) = backlog.aged_at else {
        return Ok(None);
    };
    if moment < last.saturating_add(retention.interval_seconds) {
        return Ok(None);
    }
    let told = operate(keeper, backlog, Op::AgeOut(moment, retention.age_seconds))?;
    if told.refusal().is_none() {
        backlog.aged_at = Some(moment);
    }
    Ok(Some(told))
}
