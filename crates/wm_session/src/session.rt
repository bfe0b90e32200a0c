//! The session: a line to its reply and what is due after it, and the lines of a reader. Its definitions are in specs/session.
//! Tests: session_tests/src/lines.
ghost use Rattle.std.specs.Prelude.{◌≡◌, Ok, Err, [], ◌∷◌, ◌++◌, ◌+◌, ◌≤◌, ◌<◌, List, ℕ, vec_len, vec_capacity, IfOk, OnErr, if◌then◌else◌};
ghost use Rattle.wm_registry.specs.Roots.{root_at};
ghost use Rattle.wm_session.specs.session.Asked.{asked_by};
ghost use Rattle.wm_lines.specs.Lines.{request_of_line};
ghost use Rattle.wm_session.specs.session.Sessions.{commanded, triggers_met, question_met, handled, operation_outcome, replied, subscriptions_by, view_of};
ghost use Rattle.wm_lines.specs.Replies.{clock_reply, floor_reply, line_text, refusal_reply, roots_reply};
ghost use Rattle.wm_session.specs.session.Watched.{clock_answer};
ghost use Rattle.wm_session.specs.session.Faults.{FrontState, Meeting, RepliesTo, faults_at, is_fault as is_fault_lem};
ghost use Rattle.wm_session.specs.session.Fronts.{Answers, IsOwn, Met, MetLeaving, at_moment, moment_given, part_of, reports_floor as reports_floor_lem};
ghost use Rattle.wm_session.specs.session.Fronts.{Changes, Commands, Lists, Looks};
ghost use Rattle.wm_session.specs.session.Stands.{without_subscriptions, standing};
ghost use Rattle.wm_session.specs.session.Tellings.{AnswersLine};
ghost use Rattle.wm_subs.specs.SessionLists.{without_earlier, without_subscribed};

mod front;
pub mod input;
mod output;
pub mod run;
mod subscribing;

pub use front::{Front, OwnFront};
pub use input::Input;
pub use output::Output;
use std::alloc::Global;
use wm_disk::{NoMemory, Refusal};
use wm_lines::reply::{PROGRESS_ROOM, REFUSAL_ROOM, put_clock, put_floor};
use wm_lines::{Expression, Progress, Request, reply};
use wm_names::RootPath;
use wm_registry::{Command, Reply};
use wm_subs::{Subscribed, Subscriptions};
use wm_view::Op;

/// One client's session on a front, with its subscriptions.
#[derive(Drop)]
pub struct Session<F> {
    pub front: F,
    subscriptions: Subscriptions<Expression>,
}

/// Whether a refusal comes where its cause comes, and not by what is defined.
fn is_fault(refusal: Refusal) -> bool
    ensures { result ≡ is_fault_lem refusal }
{
    matches!(refusal, Refusal::DeviceFailed | Refusal::NoMemory)
}

/// Appends the line of a refusal, for which there is room, and returns how many faults that is: none or one.
fn refuse(refusal: Refusal, out: &mut Vec<u8>) -> u64
    requires { vec_len out.old + REFUSAL_ROOM ≤ vec_capacity out.old }
    ensures faults { result ≡ if is_fault_lem refusal then 1 else 0 }
    ensures bytes { out.new.items ≡ out.old.items ++ line_text (refusal_reply refusal) }
{
    reply::put_refusal(refusal, out);
    if is_fault(refusal) { 1 } else { 0 }
}

/// Whether the reply to an operation is the floor, and not the clock.
fn reports_floor(op: &Op) -> bool
    ensures { result ≡ reports_floor_lem op.now }
{
    matches!(op, Op::AgeOut(_, _))
}

/// Appends the line of the floor or of the clock, for which there is room.
fn put_progress(reports_floor: bool, progress: Progress, out: &mut Vec<u8>)
    requires { vec_len out.old + PROGRESS_ROOM ≤ vec_capacity out.old }
    ensures value { out.new.items ≡ out.old.items ++ line_text (if reports_floor then floor_reply progress.floor else clock_reply progress.clock) }
    ensures room { vec_capacity out.old ≤ vec_capacity out.new }
{
    if reports_floor {
        put_floor(progress.floor, out);
    } else {
        put_clock(progress.clock, out);
    }
}

impl<F: Front> Session<F> {
    /// A session that has answered no line yet. It takes no memory.
    pub fn new(alloc: Global, front: F) -> Session<F>
        ensures front { result.front ≡ front }
        ensures first { (state : F → FrontState) → standing state result ≡ without_subscriptions (state front) }
    {
        Session {
            front,
            subscriptions: Subscriptions::new(alloc),
        }
    }

    /// The front, once the session has ended.
    pub fn into_front(self) -> F
        ensures { result ≡ self.front }
    {
        let Session {
            front,
            subscriptions: _,
        } = self;
        front
    }

    /// The subscriptions, in the order of subscribing.
    pub fn subscriptions(&self) -> &[Subscribed<Expression>]
        ensures { result.now ≡ self.now.subscriptions }
    {
        self.subscriptions.as_slice()
    }

    /// Ends the subscriptions on a root.
    pub fn end_root(&mut self, root: &RootPath)
        ensures { self.new ≡ record self.old { subscriptions = without_subscribed root.now self.old.subscriptions } }
    {
        self.subscriptions.remove_root(root);
    }

    /// Ends the subscriptions on another root of a path than the one of this number: the path was watched anew.
    pub fn end_earlier(&mut self, root: &RootPath, number: u64)
        ensures { self.new ≡ record self.old { subscriptions = without_earlier root.now number self.old.subscriptions } }
    {
        self.subscriptions.remove_earlier(root, number);
    }

    /// Submits a command. Each reply that it may have is made first, with its room, so that an accepted
    /// command has its reply.
    fn command(&mut self, alloc: Global, command: Command, out: &mut Vec<u8>) -> Result<(), Refusal>
        ensures met { Met F.met self.old.front Commands (λ s. commanded s command) out.old.items result self.new.front out.new.items }
        ensures room { vec_capacity out.old ≤ vec_capacity out.new }
        ensures later { F.leads_to self.old.front (command ∷ []) self.new.front }
        ensures kept { self.new.subscriptions ≡ self.old.subscriptions }
    {
        let (changed, replaced, unchanged) = reply::lines_to(alloc, &command, out)?;
        let line = match self.front.submit(alloc, command) {
            Reply::Changed => &changed,
            Reply::Replaced => &replaced,
            Reply::Unchanged => &unchanged,
            Reply::Refused(refusal) => return Err(refusal),
        };
        out.extend_from_slice(line).unwrap();
        Ok(())
    }

    /// Lists the triggers of a root.
    fn triggers(&mut self, alloc: Global, path: &RootPath, out: &mut Vec<u8>) -> Result<(), Refusal>
        ensures met { Met F.met self.old.front Lists (λ s. triggers_met s (root_at path.now s.registry)) out.old.items result self.new.front out.new.items }
        ensures room { vec_capacity out.old ≤ vec_capacity out.new }
        ensures later { F.leads_to self.old.front [] self.new.front }
        ensures kept { self.new.subscriptions ≡ self.old.subscriptions }
    {
        self.front.look(alloc)?;
        let Some(root) = self.front.registry().roots().get(path) else {
            return Err(Refusal::NotWatched);
        };
        reply::put_triggers(alloc, root.triggers.as_slice(), out)?;
        Ok(())
    }

    /// Lists the watched roots.
    fn watch_list(&mut self, alloc: Global, out: &mut Vec<u8>) -> Result<(), Refusal>
        ensures met { Met F.met self.old.front Lists (λ s. replied (roots_reply s.registry.roots) s) out.old.items result self.new.front out.new.items }
        ensures room { vec_capacity out.old ≤ vec_capacity out.new }
        ensures later { F.leads_to self.old.front [] self.new.front }
        ensures kept { self.new.subscriptions ≡ self.old.subscriptions }
    {
        self.front.look(alloc)?;
        reply::put_watch_list(alloc, self.front.registry().roots(), out)?;
        Ok(())
    }

    /// Performs an operation on a root's view, and reports where that stands. The reply's room is made first.
    fn operate(
        &mut self,
        alloc: Global,
        root: &RootPath,
        op: Op,
        out: &mut Vec<u8>,
    ) -> Result<(), Refusal>
        ensures met { (moment : ℕ) × (moment_given op ≤ moment) × Met F.met self.old.front (Changes root.now (moment_given op) moment) (λ s. operation_outcome s root.now (at_moment moment op)) out.old.items result self.new.front out.new.items }
        ensures room { vec_capacity out.old ≤ vec_capacity out.new }
        ensures later { F.leads_to self.old.front [] self.new.front }
        ensures kept { self.new.subscriptions ≡ self.old.subscriptions }
    {
        out.try_reserve(PROGRESS_ROOM)?;
        let reports_floor = reports_floor(&op);
        match self.front.operate(alloc, root, op) {
            Ok(progress) => {
                put_progress(reports_floor, progress, out);
                Ok(())
            }
            Err(refusal) => Err(refusal),
        }
    }

    /// Reports the clock of a root. The reply's room is made first.
    fn clock(&mut self, alloc: Global, root: &RootPath, out: &mut Vec<u8>) -> Result<(), Refusal>
        ensures met { Met F.met self.old.front (Looks root.now) (λ s. question_met s (clock_answer (view_of s root.now)) clock_reply) out.old.items result self.new.front out.new.items }
        ensures room { vec_capacity out.old ≤ vec_capacity out.new }
        ensures later { F.leads_to self.old.front [] self.new.front }
        ensures kept { self.new.subscriptions ≡ self.old.subscriptions }
    {
        out.try_reserve(PROGRESS_ROOM)?;
        match self.front.clock(alloc, root) {
            Ok(clock) => {
                put_clock(clock, out);
                Ok(())
            }
            Err(refusal) => Err(refusal),
        }
    }

    /// Meets a request: writes its reply, or refuses it and writes nothing.
    fn meet(
        &mut self,
        alloc: Global,
        moment: u64,
        request: Request,
        out: &mut Vec<u8>,
    ) -> Result<(), Refusal>
        ensures met { (at : ℕ) × (moment ≤ at) × MetLeaving F.met self.old.front (part_of moment at request) (λ s. handled s self.old.subscriptions at request) (λ s. subscriptions_by s self.old.subscriptions request) out.old.items result self.new.front out.new.items self.new.subscriptions }
        ensures room { vec_capacity out.old ≤ vec_capacity out.new }
        ensures later { F.leads_to self.old.front (asked_by (Ok request)) self.new.front }
        ensures err { OnErr result (self.new.subscriptions ≡ self.old.subscriptions) }
    {
        match request {
            Request::Version => Ok(reply::put_version(alloc, out)?),
            Request::Watch(path) => self.command(alloc, Command::Watch(path), out),
            Request::WatchDel(path) => self.unwatch(alloc, path, out),
            Request::Trigger(path, trigger) => {
                self.command(alloc, Command::Trigger(path, trigger), out)
            }
            Request::TriggerList(path) => self.triggers(alloc, &path, out),
            Request::TriggerDel(path, name) => {
                self.command(alloc, Command::TriggerDel(path, name), out)
            }
            Request::WatchList => self.watch_list(alloc, out),
            Request::Observe(root, pairs) => {
                self.operate(alloc, &root, Op::Observe(moment, pairs), out)
            }
            Request::Listing(root, begun_at, listing) => {
                self.operate(alloc, &root, Op::Recrawl(moment, begun_at, listing), out)
            }
            Request::AgeOut(root, age) => self.operate(alloc, &root, Op::AgeOut(moment, age), out),
            Request::Clock(root) => self.clock(alloc, &root, out),
            Request::Query(root, inquiry) => self.front.inquire(alloc, &root, inquiry, out),
            Request::Subscribe(root, name, inquiry) => {
                self.subscribe(alloc, root, name, inquiry, out)
            }
            Request::Unsubscribe(root, name) => self.unsubscribe(alloc, &root, &name, out),
        }
    }

    /// Answers a request, with room for a refusal, and returns how many faults were met: none or one.
    fn answer(&mut self, alloc: Global, moment: u64, request: Request, out: &mut Vec<u8>) -> u64
        requires { vec_len out.old + REFUSAL_ROOM ≤ vec_capacity out.old }
        ensures met { Answers F.met self.old.front self.old.subscriptions moment (Ok request) result out.old.items out.new.items self.new.front self.new.subscriptions }
        ensures later { F.leads_to self.old.front (asked_by (Ok request)) self.new.front }
    {
        match self.meet(alloc, moment, request, out) {
            Ok(()) => 0,
            Err(refusal) => refuse(refusal, out),
        }
    }

    /// Answers a line alone, without what is due after it, and returns how many faults were met: none or one.
    fn reply(&mut self, alloc: Global, moment: u64, line: &[u8], out: &mut Vec<u8>) -> u64
        requires { vec_len out.old + REFUSAL_ROOM ≤ vec_capacity out.old }
        ensures met { Answers F.met self.old.front self.old.subscriptions moment (request_of_line line.now) result out.old.items out.new.items self.new.front self.new.subscriptions }
        ensures later { F.leads_to self.old.front (asked_by (request_of_line line.now)) self.new.front }
    {
        match Request::read(alloc, line) {
            Ok(request) => self.answer(alloc, moment, request, out),
            Err(refusal) => refuse(refusal, out),
        }
    }

    /// Answers a line, which comes with its newline: appends the reply and a newline, and then each line
    /// that is due to a subscription, in the order of subscribing. It returns how many faults were met: none
    /// or one. The room of a refusal is made before anything changes: an `Err` means that memory ran out for it,
    /// comes only where `out` has no such room yet, and changes nothing. If memory runs out for a line
    /// that is due nothing of it is written, and it is due again after a later line.
    pub fn line(
        &mut self,
        alloc: Global,
        moment: u64,
        line: &[u8],
        out: &mut Vec<u8>,
    ) -> Result<u64, NoMemory>
        ensures ok { IfOk result (λ n. AnswersLine F.met self.old.front self.old.subscriptions moment line.now n out.old.items out.new.items self.new.front self.new.subscriptions) }
        ensures own { (state : F → FrontState) → IsOwn F.met state → IfOk result (λ n. (meeting : Meeting) × (bytes : List ℕ) × (n ≡ faults_at meeting) × (out.new.items ≡ out.old.items ++ bytes)
            × RepliesTo meeting (standing state self.old) moment line.now bytes (standing state self.new)) }
        ensures err { OnErr result ((out.new.items ≡ out.old.items) × (self.new ≡ self.old)) }
        ensures full { OnErr result (vec_capacity out.old < vec_len out.old + REFUSAL_ROOM) }
        ensures later { F.leads_to self.old.front (asked_by (request_of_line line.now)) self.new.front }
    {
        out.try_reserve(REFUSAL_ROOM)?;
        let faults = self.reply(alloc, moment, line, out);
        let is_whole = self.tell_due(alloc, out);
        Ok(if is_whole { faults } else { 1 })
    }
}
