//! What a session stands on, and what each call of it owes. Its definitions are in specs/session: Fronts,
//! Faults, Sessions and Watched.
//! Tests: session_tests/src/lines.
ghost use Rattle.std.specs.Prelude.{◌≡◌, ◌≤◌, ◌∷◌, ◌++◌, [], List, Bool, false, true, Ok, vec_capacity};
ghost use Rattle.wm_registry.specs.declared.command.Command as commands;
ghost use Rattle.wm_registry.specs.Roots.{State};
ghost use Rattle.wm_session.specs.session.Dues.{due_in};
ghost use Rattle.wm_session.specs.session.Faults.{FrontState, Way, Memory, Defined};
ghost use Rattle.wm_session.specs.session.Fronts.{IsMetWhenGiven, IsOwn, Listed, Looked, Met, OperatedAt, Part, SubmittedAt, is_look, start_answer};
ghost use Rattle.wm_session.specs.session.Fronts.{Asks, Looks, Nowhere};
ghost use Rattle.wm_session.specs.session.Inquiries.{inquired};
ghost use Rattle.wm_session.specs.session.Sessions.{SessionState, inquiry_met, view_of};
ghost use Rattle.wm_session.specs.session.Watched.{clock_answer};

use std::alloc::Global;
use wm_clock::{ClockId, ClockSpec};
use wm_disk::Refusal;
use wm_lines::{Expression, Inquiry, Progress};
use wm_names::RootPath;
use wm_registry::{Command, Registry, Reply};
use wm_since::{Answer, Since};
use wm_subs::Subscribed;
use wm_view::Op;

/// What a session stands on: where its commands and operations go, and what it can ask. A front may be shared with other
/// sessions: each call is met at some state, and says which.
pub trait Front {
    /// Holds of an earlier and a later moment of one front, and of a call between them: the call was about this part, was met in
    /// this way, is a command that is accepted or not, found this state of that part, and left that one.
    ghost met: { Self → Part → Way → Bool → SessionState → SessionState → Self → Type 0 };

    /// Holds of an earlier and a later moment of one front, and of the commands that were submitted
    /// between them: what each call keeps, beyond what lines see.
    ghost leads_to: { Self → List commands.Command → Self → Type 0 };

    /// The registry that was looked at last.
    ghost shown: { Self → State };

    /// Submits a command. It is refused as the registry has it; `BadArguments` for a `Begin`; `StoreFailed`
    /// after a failure of the device; `DeviceFailed` if the device fails now, and the next start may then
    /// find the command accepted; `Exhausted` if it needs a checkpoint and the slot's number stands at
    /// 2^63 - 1; and `NoMemory`. After a refusal the registry and the views are as they were.
    fn submit(&mut self, alloc: Global, command: Command) -> Reply
        ensures met { SubmittedAt met self.old command result self.new }
        ensures later { leads_to self.old (command ∷ []) self.new };

    /// Performs an operation on the view of a watched root, and returns where that stands after it. The front decides at which
    /// moment: at the operation's own or a later one, as at the second in which a view that sessions share is changed.
    /// `NotWatched`, what the view refuses, and `NoMemory`; a refusal changes nothing.
    fn operate(&mut self, alloc: Global, root: &RootPath, op: Op) -> Result<Progress, Refusal>
        ensures met { OperatedAt met self.old root.now op result self.new }
        ensures later { leads_to self.old [] self.new };

    /// Appends the answer to what is asked of the files of a watched root, and then moves the cursor by which
    /// is asked. `NotWatched`, `NotReady` before the first whole listing, `TooMany` if there is no room for a new
    /// cursor, and `NoMemory`; a refusal writes nothing and moves no cursor.
    fn inquire(
        &mut self,
        alloc: Global,
        root: &RootPath,
        inquiry: Inquiry,
        out: &mut Vec<u8>,
    ) -> Result<(), Refusal>
        ensures met { Met met self.old (Asks root.now) (λ s. inquiry_met s root.now inquiry (inquired (view_of s root.now) inquiry)) out.old.items result self.new out.new.items }
        ensures room { vec_capacity out.old ≤ vec_capacity out.new }
        ensures later { leads_to self.old [] self.new };

    /// The clock of a watched root. `NotWatched`, `NotReady` before the first whole listing, and `NoMemory`.
    fn clock(&mut self, alloc: Global, root: &RootPath) -> Result<ClockId, Refusal>
        ensures met { Looked met self.old (Looks root.now) (λ s. clock_answer (view_of s root.now)) result self.new }
        ensures later { leads_to self.old [] self.new };

    /// The clock of a watched root, and since when is asked of it there. Refused as `clock` is.
    fn start(
        &mut self,
        alloc: Global,
        root: &RootPath,
        since: &Option<ClockSpec>,
    ) -> Result<(ClockId, Option<Since>), Refusal>
        ensures met { Looked met self.old (Looks root.now) (λ s. start_answer (view_of s root.now) since.now) result self.new }
        ensures later { leads_to self.old [] self.new };

    /// What a root has to report to a subscription on it: `None` if it isn't watched, also if another root is watched under its path; and
    /// as `Subscription::due_on` has it. `NoMemory`.
    fn due(
        &mut self,
        alloc: Global,
        subscribed: &Subscribed<Expression>,
    ) -> Result<Option<Answer>, Refusal>
        ensures met { Looked met self.old (Looks subscribed.now.root) (λ s. Ok (due_in s subscribed.now)) result self.new }
        ensures later { leads_to self.old [] self.new };

    /// Looks at the registry, which `registry` then shows. `NoMemory`.
    fn look(&mut self, alloc: Global) -> Result<(), Refusal>
        ensures met { Listed met shown self.old result self.new }
        ensures later { leads_to self.old [] self.new };

    /// The registry that was looked at last.
    fn registry(&self) -> &Registry
        ensures { result.now ≡ shown self.now };

    /// If memory runs out before a call it is as if the call had been made, an operation at its own moment: there is a state, which stays.
    ghost stands: { (a : Self) (part : Part) → IsMetWhenGiven part → (s : SessionState) × ((accepts : Bool) → met a part Memory accepts s s a) };

    /// If memory runs out for what is made of a look, it is as if it had run out in the look.
    ghost runs_out: { (a b : Self) (part : Part) (s : SessionState) → is_look part ≡ true → met a part Defined false s s b → (accepts : Bool) → met a part Memory accepts s s b };

    /// What is about no part finds a state, which stays.
    ghost idles: { (a : Self) → (s : SessionState) × (met a Nowhere Defined false s s a) };

    /// A front leads to itself, whatever was asked for: a command may be refused.
    ghost stays: { (a : Self) (asked : List commands.Command) → leads_to a asked a };

    /// `leads_to` is transitive; what was asked for is added up.
    ghost goes_on: { (a b c : Self) (first second : List commands.Command) → leads_to a first b → leads_to b second c → leads_to a (first ++ second) c };
}

/// A front that nobody else changes.
pub trait OwnFront: Front {
    /// What lines read and change, how often the device under it has failed, and the number of the slot in use.
    ghost front_state: { Self → FrontState };

    /// Each call is met at just the state that the front shows.
    ghost own: { IsOwn Self.met front_state };
}
