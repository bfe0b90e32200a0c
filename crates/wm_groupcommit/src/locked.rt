//! What lies under the lock: the book, and the flusher's ends of the reply queues.
//! Definitions: specs/LockedState.antt. Tests: file_tests/src/desk/rows.rt.
ghost use Rattle.std.specs.Prelude.{◌≡◌, ◌≤◌, ◌<◌, ◌⊎◌, ◌+◌, ◌++◌, ◌∷◌, true, false, Some, None, [], length, vec_capacity, vec_len, IfOk, IfErr, IfSome, OnErr, OnOk};
ghost use Rattle.crossbeam_queue.specs.SegTies.{IsSegPassOf};
ghost use Rattle.wm_disk.specs.declared.refusal.Refusal.TheVariants.{DeviceFailed as device_failed, NoMemory as no_memory, NoPlace as no_place, StoreFailed as store_failed};
ghost use Rattle.wm_store.specs.Calls.{CallsStore};
ghost use Rattle.wm_groupcommit.specs.Books.{IsShownAt, Right, AllRight};
ghost use Rattle.wm_groupcommit.specs.CallQueues.{call_view};
ghost use Rattle.wm_groupcommit.specs.Counting.{newer_of, kept_newer, counts_after, counts_with};
ghost use Rattle.wm_groupcommit.specs.Receipts.{StandsInBook, accepted_command};
ghost use Rattle.wm_groupcommit.specs.ReplyQueues.{end_to, newcomer, StartsWith};
ghost use Rattle.wm_registry.specs.Limits.{max_batch};
ghost use Rattle.wm_groupcommit.specs.LockedState.{AllLater, AreNumbered, HaveGiven, IsFlushed, deliveries_of, delivery_of, seats, shown_to};

mod accepted;
mod call_queue;
mod call_rule;
mod closed;
mod deliveries;
mod flushed;
mod flusher;
mod no_place;
mod registry_copy;
mod reply_ends;
mod shown;

use crate::book::Book;
use crate::queued::{Answer, Call};
use crate::receipt::Receipt;
pub use accepted::Accepted;
pub use call_queue::{CallPass, CallQueue, PoppedCalls, is_empty, new_pass, push};
pub use closed::{Closed, Unclosed};
pub use deliveries::Delivery;
pub use flushed::Flushed;
pub use flusher::Flusher;
pub use no_place::{NoFlusher, NoSeat};
pub use registry_copy::RegistryCopy;
pub use reply_ends::ReplyReceiver;
use reply_ends::{ReplySender, reply_queue};
pub use shown::Shown;
use std::alloc::Global;
use std::marker::Model;
use std::snapshot::Snapshot;
use std::sync::Wait;
use wm_disk::{Disk, NoMemory, Refusal};
use wm_registry::{Command, MAX_BATCH, Registry, Reply};
use wm_store::Store;

/// The most seats of a desk.
const SEATS: usize = 64;

/// The book, the flusher's end of each seat's reply queue, and the count of each seat's last call that the
/// book has met.
#[derive(Drop)]
pub struct LockedDesk<D: Disk + Drop> {
    book: Book<D>,
    ends: Vec<ReplySender>,
    counts: Vec<u64>,
    has_flusher: bool,
}

impl<D: Disk + Drop> Model for LockedDesk<D> {
    ghost use Rattle.std.specs.Prelude.{◌≡◌, Some, length};
    ghost use Rattle.wm_groupcommit.specs.LockedState.{LockedState, AllLater, AreNumbered};
    ghost use Rattle.wm_groupcommit.specs.Counting.{IsCounted};

    ghost Value = { LockedState D };

    ghost view = { λ s. record { book = s.book; ends = s.ends.items; counts = s.counts.items; has_flusher = s.has_flusher } };

    ghost invariant = { λ s. AllLater s.ends.items (Some s.book.base) s.book.list × IsCounted s.counts.items s.book.list × AreNumbered 0 s.ends.items × (length s.counts.items ≡ length s.ends.items) };
}

/// That the store of a desk may be closed. A new locked desk alone makes it, and the close uses it up.
#[derive(Drop)]
pub struct ClosePermit {
    is_unused: (),
}

impl<D: Disk + Drop> LockedDesk<D> {
    /// The book, with no seat and no flusher yet, and the one permit to close the store.
    pub fn new(alloc: Global, book: Book<D>) -> (LockedDesk<D>, ClosePermit)
        requires { book.list ≡ [] }
        ensures { (result.0.book ≡ book) × (result.0.ends ≡ []) × (result.0.counts ≡ []) × (result.0.has_flusher ≡ false) }
    {
        let desk = LockedDesk {
            book,
            ends: Vec::new(alloc),
            counts: Vec::new(alloc),
            has_flusher: false,
        };
        (desk, ClosePermit { is_unused: () })
    }

    /// A new seat's number and its end of its reply queue. `NoPlace` where 64 were given, and `NoMemory`.
    pub fn seat(&mut self, alloc: Global) -> Result<(u64, ReplyReceiver), NoSeat>
        ensures ok { IfOk result (λ r. (r.0 ≡ length self.old.ends) × (r.1 ≡ newcomer r.0) × (self.new.ends ≡ self.old.ends ++ end_to r.0 ∷ [])) }
        ensures free { IfOk result (λ _. length self.old.ends < seats) }
        ensures counts { OnOk result (self.new.counts ≡ self.old.counts ++ 0 ∷ []) }
        ensures err { IfErr result (λ e. ((e ≡ no_place) × (seats ≤ length self.old.ends)) ⊎ (e ≡ no_memory)) }
        ensures same { OnErr result (self.new ≡ self.old) }
        ensures book { (self.new.book ≡ self.old.book) × (self.new.has_flusher ≡ self.old.has_flusher) }
    {
        if self.ends.len() >= SEATS {
            return Err(NoSeat {
                refusal: Refusal::NoPlace,
            });
        }
        if self.ends.reserve(1).is_err() {
            return Err(NoSeat {
                refusal: Refusal::NoMemory,
            });
        }
        if self.counts.reserve(1).is_err() {
            return Err(NoSeat {
                refusal: Refusal::NoMemory,
            });
        }
        let number = self.ends.len() as u64;
        let Ok((end, replies)) = reply_queue(alloc, number) else {
            return Err(NoSeat {
                refusal: Refusal::NoMemory,
            });
        };
        self.ends.push_reserved(end);
        self.counts.push_reserved(0);
        Ok((number, replies))
    }

    /// The flusher of the desk with this queue, once; `NoPlace` from then on.
    pub fn flusher(&mut self, queue: &CallQueue) -> Result<Flusher, NoFlusher>
        ensures book { (self.new.book ≡ self.old.book) × (self.new.ends ≡ self.old.ends) × (self.new.counts ≡ self.old.counts) × (self.new.has_flusher ≡ true) }
        ensures err { IfErr result (λ e. (e ≡ no_place) × (self.old.has_flusher ≡ true)) }
        ensures ok { IfOk result (λ flusher. IsSegPassOf queue.now flusher.pass × (flusher.pass.me.view.client ≡ call_view [] [])) }
        ensures once { OnOk result (self.old.has_flusher ≡ false) }
    {
        if self.has_flusher {
            return Err(NoFlusher {
                refusal: Refusal::NoPlace,
            });
        }
        self.has_flusher = true;
        Ok(Flusher::of(queue))
    }

    /// How many commands were accepted.
    pub fn accepted(&self) -> Accepted
        ensures { result ≡ self.now.book.list }
    {
        Accepted {
            count: self.book.accepted(),
            seen: self.book.seen(),
        }
    }

    /// The registry after all of the list, and how many commands the list has. `NoMemory`.
    pub fn registry(&self, alloc: Global) -> Result<RegistryCopy, NoMemory>
        ensures { IfOk result (λ r. (r.base ≡ self.now.book.base) × (r.list ≡ self.now.book.list)) }
    {
        let (registry, count) = self.book.registry(alloc)?;
        Ok(RegistryCopy {
            registry,
            count,
            seen: self.book.seen(),
        })
    }

    /// Hands a seat a copy of the registry, with how many commands the list has, and no other seat anything. `NoMemory` hands nothing over.
    pub fn show<R: Wait>(&mut self, rt: &R, alloc: Global, seat: u64) -> Result<Shown, NoMemory>
        ensures book { (self.new.book ≡ self.old.book) × (self.new.counts ≡ self.old.counts) × (self.new.has_flusher ≡ self.old.has_flusher) }
        ensures given { OnOk result (HaveGiven 0 (shown_to seat self.old.book.base self.old.book.list self.old.book.store.registry ∷ []) self.old.ends self.new.ends) }
        ensures shown { IfOk result (λ shown. shown.seat ≡ seat) }
        ensures err { OnErr result (self.new.ends ≡ self.old.ends) }
    {
        let (registry, at) = self.book.registry(alloc)?;
        // the reply to a `Begin`, which is the same at each time
        let answer = Answer {
            call: Call {
                seat,
                count: 0,
                command: Command::Begin,
            },
            at,
            reply: Reply::Refused(Refusal::BadArguments),
        };
        deliver(rt, &self.book, &mut self.ends, answer, Some(registry));
        Ok(Shown { seat })
    }

    /// The receipt's command, which stands at its number in the list that the receipt is right for: the book's, as far
    /// as that went, if the receipt is of this desk. None for one that changed nothing. `NoMemory` if the allocation
    /// of the copy failed.
    pub fn find(&self, alloc: Global, receipt: &Receipt) -> Result<Option<Command>, NoMemory>
        ensures command { IfOk result (λ r. r ≡ accepted_command receipt.now.standing) }
        ensures stands { IfOk result (λ r. IfSome r (λ c. StandsInBook receipt.now receipt.now.list c)) }
        ensures book { StartsWith self.now.book.list receipt.now.list → IfOk result (λ r. IfSome r (λ c. StandsInBook receipt.now self.now.book.list c)) }
    {
        self.book.find(alloc, receipt)
    }

    /// Closes the store: from then on each call is answered `12`, or `16` where there is no room. It is refused
    /// as [`Store::close`] is.
    pub fn close(&mut self, _permit: ClosePermit) -> Result<(), Refusal>
        ensures list { (self.new.book.base ≡ self.old.book.base) × (self.new.book.list ≡ self.old.book.list) }
        ensures rest { (self.new.ends ≡ self.old.ends) × (self.new.counts ≡ self.old.counts) × (self.new.has_flusher ≡ self.old.has_flusher) }
        ensures closed { OnOk result (self.new.book.store.closed ≡ true) }
        ensures calls { CallsStore D.Disk self.old.book.store self.new.book.store result }
        ensures kinds { IfErr result (λ e. (e ≡ device_failed) ⊎ (e ≡ store_failed)) }
    {
        self.book.close()
    }

    /// The store.
    pub fn into_store(self) -> Store<D>
        ensures { result ≡ self.book.store }
    {
        let LockedDesk {
            book,
            ends: _,
            counts: _,
            has_flusher: _,
        } = self;
        book.into_store()
    }

    /// Commits the popped calls, and hands each answer to the seat that called, and to no other. A call that isn't newer than its seat's
    /// last, of which no run makes one, is left out.
    pub fn answer<R: Wait>(
        &mut self,
        rt: &R,
        alloc: Global,
        popped: PoppedCalls,
        room: Room,
    ) -> Flushed
        requires few { length popped.calls.items ≤ max_batch }
        ensures flushed { IsFlushed D.Disk self.old self.new popped.calls.items result.count }
        ensures taken { result.calls ≡ popped.calls.items }
        ensures counts { self.new.counts ≡ counts_after self.old.counts popped.calls.items }
        ensures flusher { self.new.has_flusher ≡ self.old.has_flusher }
    {
        let Room {
            mut calls,
            mut answers,
        } = room;
        let all = popped.calls();
        let taken = Snapshot::of(&all);
        keep_newer(&mut self.counts, all, &mut calls);
        self.book.commit(alloc, calls, &mut answers);
        let count = answers.len();
        deliver_all(rt, &self.book, &mut self.ends, answers);
        Flushed { count, taken }
    }
}

/// Room for a popped list and its answers.
#[derive(Drop)]
pub struct Room {
    calls: Vec<Call>,
    answers: Vec<Answer>,
    ghost empty: { (calls.items ≡ []) × (answers.items ≡ []) },
    ghost size: { (max_batch ≤ vec_capacity calls) × (max_batch ≤ vec_capacity answers) },
}

impl Room {
    /// Room for `MAX_BATCH` calls and their answers. `NoMemory`.
    pub fn new(alloc: Global) -> Result<Room, NoMemory> {
        let calls = Vec::with_capacity(alloc, MAX_BATCH)?;
        let answers = Vec::with_capacity(alloc, MAX_BATCH)?;
        Ok(Room { calls, answers })
    }
}

/// Keeps those of the calls that are newer than their seat's last.
fn keep_newer(counts: &mut Vec<u64>, calls: Vec<Call>, kept: &mut Vec<Call>)
    requires { (kept.old.items ≡ []) × (length calls.items ≤ vec_capacity kept.old) }
    ensures kept { kept.new.items ≡ newer_of counts.old.items calls.items }
    ensures counts { counts.new.items ≡ counts_after counts.old.items calls.items }
{
    for call in calls {
        keep(counts, call, kept);
    }
}

/// Keeps the call, where it is newer than its seat's last.
fn keep(counts: &mut Vec<u64>, call: Call, kept: &mut Vec<Call>)
    requires { length kept.old.items + 1 ≤ vec_capacity kept.old }
    ensures kept { kept.new.items ≡ kept.old.items ++ kept_newer counts.old.items call }
    ensures counts { counts.new.items ≡ counts_with counts.old.items call }
    ensures room { (vec_capacity kept.new ≡ vec_capacity kept.old) × (vec_len kept.new ≤ vec_len kept.old + 1) }
{
    let at = call.seat as usize;
    if at < counts.len() && counts[at] < call.count {
        counts[at] = call.count;
        kept.push_reserved(call);
    }
}

/// Hands each answer to the end of the seat that called, in order, and nothing to another.
fn deliver_all<R: Wait, D: Disk + Drop>(
    rt: &R,
    book: &Book<D>,
    ends: &mut Vec<ReplySender>,
    answers: Vec<Answer>,
)
    requires later { AllLater ends.old.items (Some book.now.base) book.now.list }
    requires right { AllRight book.now.base book.now.list answers.items }
    requires numbered { AreNumbered 0 ends.old.items }
    ensures later { AllLater ends.new.items (Some book.now.base) book.now.list }
    ensures numbered { AreNumbered 0 ends.new.items }
    ensures given { HaveGiven 0 (deliveries_of book.now.base book.now.list answers.items) ends.old.items ends.new.items }
{
    for answer in answers {
        deliver(rt, book, ends, answer, None);
    }
}

/// Hands the answer, with the registry if one is shown, to the end of the seat that called, and nothing to another.
fn deliver<R: Wait, D: Disk + Drop>(
    rt: &R,
    book: &Book<D>,
    ends: &mut Vec<ReplySender>,
    answer: Answer,
    registry: Option<Registry>,
)
    requires later { AllLater ends.old.items (Some book.now.base) book.now.list }
    requires right { Right book.now.base book.now.list answer }
    requires numbered { AreNumbered 0 ends.old.items }
    requires shown { IsShownAt book.now.base book.now.list answer.at registry }
    ensures later { AllLater ends.new.items (Some book.now.base) book.now.list }
    ensures numbered { AreNumbered 0 ends.new.items }
    ensures given { HaveGiven 0 (delivery_of book.now.base book.now.list registry answer ∷ []) ends.old.items ends.new.items }
{
    let at = answer.call.seat as usize;
    if at < ends.len() {
        let seen = book.seen();
        let told = Delivery {
            answer,
            seen,
            registry,
        };
        let end = &mut ends[at];
        end.hand(rt, told);
    }
}
