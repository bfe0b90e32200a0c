//! The desk: a queue of calls, and the store with its list of accepted commands under a lock.
//! Definitions: specs/Seats.antt, specs/Submits.antt. Tests: file_tests/src/desk.
ghost use Rattle.std.specs.Prelude.{◌≡◌, ◌<◌, ◌⊎◌, [], ◌++◌, true, Some, length, IfOk, IfErr, IfSome, OnErr, OnOk};
ghost use Rattle.wm_disk.specs.declared.refusal.Refusal.TheVariants.{BadArguments as bad_arguments, DeviceFailed as device_failed, NoMemory as no_memory, NoPlace as no_place, StoreFailed as store_failed};
ghost use Rattle.wm_store.specs.Batches.{is_begin};
ghost use Rattle.wm_groupcommit.specs.Receipts.{StandsInBook, accepted_command};
ghost use Rattle.wm_groupcommit.specs.ReplyQueues.{IsLater, Took};
ghost use Rattle.wm_groupcommit.specs.LockedState.{IsUnclosed};
ghost use Rattle.wm_groupcommit.specs.Seats.{IsSameSeat, FoundNone, HasLooked, HasNotLooked, HasPushed, IsAnswered, IsFlusherOf, IsNewDesk, IsNewSeat, IsOfRegistry, IsRefusedAfter, IsSeatOf, IsTurned, call_from, popped_calls};
ghost use Rattle.wm_groupcommit.specs.Submits.{LookAnswered, Submitted, Turned, Unlooked};

use crate::book::Book;
use crate::locked::{
    Accepted, CallQueue, ClosePermit, Closed, Delivery, Flushed, Flusher, LockedDesk, NoFlusher,
    NoSeat, RegistryCopy, ReplyReceiver, Room, Shown, Unclosed, is_empty, new_pass, push,
};
use crate::queued::Call;
use crate::receipt::Receipt;
use crate::same_commands::copied;
use crate::seat::{Seat, settle};
use std::alloc::Global;
use std::snapshot::Snapshot;
use std::sync::{Mutex, Wait};
use std::thread;
use std::thread::Parker;
use wm_disk::{Disk, NoMemory, Refusal};
use wm_registry::{Command, Registry, Reply};
use wm_store::Store;

/// How often a thread that waits looks for what it waits for before it sleeps: about as long as two syncs of a
/// fast disk take.
const LOOKS: u32 = 400;

/// A store that many threads share. Each submits from a seat of its own, and one, the flusher's, commits what
/// was submitted, in batches. A seat and a flusher are of the desk that gave them.
pub struct Desk<D: Disk + Drop> {
    queue: CallQueue,
    locked: Mutex<LockedDesk<D>>,
    // what was put under the lock at first
    found: Snapshot<LockedDesk<D>>,
    // where the flusher's thread sleeps
    sleeper: Parker,
    alloc: Global,
}

impl<D: Disk + Drop> Desk<D> {
    /// A desk over the store, which stays as it is, with no seat and no flusher yet, and the one permit to close the store. `16 NoMemory`
    /// hands the store back.
    pub fn new(
        alloc: Global,
        store: Store<D>,
    ) -> Result<(Desk<D>, ClosePermit), (Refusal, Store<D>)>
        ensures ok { IfOk result (λ made. IsNewDesk made.0 store) }
        ensures err { IfErr result (λ e. (e.0 ≡ no_memory) × (e.1 ≡ store)) }
    {
        let book = Book::open(store);
        let Ok((queue, pass)) = CallQueue::with_rule(alloc) else {
            return Err((Refusal::NoMemory, book.into_store()));
        };
        drop(pass);
        let (locked, permit) = LockedDesk::new(alloc, book);
        let (locked, found) = under_lock(locked);
        let desk = Desk {
            queue,
            locked,
            found,
            sleeper: Parker::new(),
            alloc,
        };
        Ok((desk, permit))
    }

    /// The store, as the last flush left it.
    pub fn into_store(self) -> Store<D> {
        let Desk {
            queue,
            locked,
            found: _,
            sleeper: _,
            alloc: _,
        } = self;
        queue.destroy();
        locked.into_inner().into_store()
    }

    /// Closes the store, and wakes the flusher's thread. What was submitted and isn't committed by then is
    /// answered `12 StoreFailed` at the next flush, or `16 NoMemory` where there is no room. It is refused as
    /// [`Store::close`] is.
    pub fn close<R: Wait>(&self, rt: &R, permit: ClosePermit) -> Result<Closed<D>, Unclosed<D>>
        ensures { IfErr result (λ e. (e ≡ device_failed) ⊎ (e ≡ store_failed)) }
    {
        let closed = close(&mut *self.locked.lock(rt), permit);
        self.sleeper.unpark();
        closed
    }

    /// A new seat. `18 NoPlace` where 64 were given, and `16 NoMemory` when out of memory.
    pub fn seat<R: Wait>(&self, rt: &R) -> Result<Seat, NoSeat>
        ensures ok { IfOk result (λ seat. IsSeatOf self.now seat × IsNewSeat seat) }
        ensures err { IfErr result (λ e. (e ≡ no_place) ⊎ (e ≡ no_memory)) }
    {
        let made = self.locked.lock(rt).seat(self.alloc);
        let (number, replies) = made?;
        Ok(Seat {
            number,
            calls: 0,
            seen: 0,
            pass: new_pass(&self.queue),
            replies,
        })
    }

    /// The flusher, once; `18 NoPlace` from then on.
    pub fn flusher<R: Wait>(&self, rt: &R) -> Result<Flusher, NoFlusher>
        ensures ok { IfOk result (λ flusher. IsFlusherOf self.now flusher × (popped_calls flusher ≡ [])) }
        ensures err { IfErr result (λ e. e ≡ no_place) }
    {
        self.locked.lock(rt).flusher(&self.queue)
    }

    /// Puts a command into the queue, wakes the flusher's thread, and sleeps until the answer is there; where no
    /// other command was in the queue, it looks for the answer a bounded number of times first. A
    /// command that the registry accepts, or that changes nothing, has a receipt. Of the refusals `5`, `11` and
    /// `17` are the registry's, after a prefix of the list that is no shorter than what this seat
    /// had seen; `3 BadArguments` comes to a `Begin` alone. `13 DeviceFailed`, `15 Exhausted` and `16 NoMemory`
    /// are what the flush answered; `16` comes also where there is no room for the call, which then isn't made.
    /// `12 StoreFailed` comes once the store has failed or is closed.
    pub fn submit<R: Wait>(
        &self,
        rt: &R,
        seat: &mut Seat,
        command: Command,
    ) -> Result<(Reply, Receipt), Refusal>
        requires { IsSeatOf self.now seat.old }
        ensures seat { IsSeatOf self.now seat.new }
        ensures continues { IsSameSeat seat.old seat.new }
        ensures answered { IfOk result (λ r. IsAnswered seat.old seat.new command r.0 r.1) }
        ensures pushed { OnOk result (HasPushed seat.old seat.new (call_from seat.old command)) }
        ensures turned { IfErr result (λ e. IsTurned seat.old seat.new command e) }
        ensures refused { IfErr result (λ e. IsOfRegistry e → IsRefusedAfter seat.old seat.new command e) }
        ensures begin { IfErr result (λ e. e ≡ bad_arguments → is_begin command ≡ true) }
    {
        if seat.calls == u64::MAX {
            return Err(Refusal::NoMemory);
        }
        let Ok(copy) = copied(self.alloc, &command) else {
            return Err(Refusal::NoMemory);
        };
        let is_alone = is_empty(&self.queue);
        let count = seat.calls + 1;
        let put = Call {
            seat: seat.number,
            count,
            command: copy,
        };
        if push(rt, &self.queue, &mut seat.pass, put).is_err() {
            return Err(Refusal::NoMemory);
        }
        seat.calls = count;
        self.sleeper.unpark();
        let mine = Call {
            seat: seat.number,
            count,
            command,
        };
        receive(rt, &mut seat.replies, &mut seat.seen, mine, is_alone)
    }

    /// Takes up to 64 calls from the queue, in one step, commits their commands, and answers them; it takes none only
    /// if none was queued at one moment. `16 NoMemory`
    /// if there is no memory for that many, and then nothing was taken.
    pub fn flush_once<R: Wait>(&self, rt: &R, flusher: &mut Flusher) -> Result<Flushed, Refusal>
        requires { IsFlusherOf self.now flusher.old }
        ensures flusher { IsFlusherOf self.now flusher.new }
        ensures popped { IfOk result (λ f. popped_calls flusher.new ≡ popped_calls flusher.old ++ f.calls) }
        ensures some { IfOk result (λ f. (0 < length f.calls) ⊎ FoundNone flusher.old) }
        ensures err { IfErr result (λ e. (e ≡ no_memory) × (popped_calls flusher.new ≡ popped_calls flusher.old)) }
    {
        let Ok(room) = Room::new(self.alloc) else {
            return Err(Refusal::NoMemory);
        };
        let Ok(popped) = flusher.pop(rt, self.alloc, &self.queue) else {
            return Err(Refusal::NoMemory);
        };
        Ok(self.locked.lock(rt).answer(rt, self.alloc, popped, room))
    }

    /// Looks for a command a bounded number of times, and then sleeps until one was submitted, or the desk
    /// closed, since the last sleep. The flusher's thread calls it once a flush has answered none, and so takes
    /// no processor while the desk is idle.
    pub fn wait_for_calls<R: Wait>(&self, rt: &R, _flusher: &mut Flusher)
        ensures { _flusher.new ≡ _flusher.old }
    {
        if !meets_call(&self.queue) {
            self.sleeper.park(rt);
        }
    }

    /// A copy of the registry, as the last flush left it, and how many commands had been accepted by then. It
    /// waits for a flush that runs. `NoMemory` changes nothing.
    pub fn registry<R: Wait>(&self, rt: &R) -> Result<RegistryCopy, NoMemory> {
        self.locked.lock(rt).registry(self.alloc)
    }

    /// A copy of the registry, as the last flush left it, and how many commands had been accepted by then, which the seat has then seen. It
    /// waits for a flush that runs. `NoMemory` shows the seat nothing new.
    pub fn look<R: Wait>(&self, rt: &R, seat: &mut Seat) -> Result<(Registry, u64), NoMemory>
        requires { IsSeatOf self.now seat.old }
        ensures seat { IsSeatOf self.now seat.new }
        ensures continues { IsSameSeat seat.old seat.new }
        ensures looked { IfOk result (λ r. HasLooked seat.old seat.new r.0 r.1) }
        ensures err { OnErr result (HasNotLooked seat.old seat.new) }
    {
        let shown = self.locked.lock(rt).show(rt, self.alloc, seat.number)?;
        receive_shown(rt, &mut seat.replies, &mut seat.seen, shown)
    }

    /// How many commands were accepted, as the last flush left it. It waits for a flush that runs.
    pub fn accepted<R: Wait>(&self, rt: &R) -> Accepted {
        self.locked.lock(rt).accepted()
    }

    /// The receipt's command, which stands at its number in the list; none for one that changed nothing. The receipt
    /// is one of this desk: of another one it tells where the command stands there. `NoMemory` if the allocation of
    /// the copy failed; the desk stays as it is, and may be asked again.
    pub fn stands<R: Wait>(&self, rt: &R, receipt: &Receipt) -> Result<Option<Command>, NoMemory>
        ensures command { IfOk result (λ r. r ≡ accepted_command receipt.now.standing) }
        ensures stands { IfOk result (λ r. IfSome r (λ c. StandsInBook receipt.now receipt.now.list c)) }
    {
        self.locked.lock(rt).find(self.alloc, receipt)
    }
}

/// The locked desk under its lock, and as it is then.
fn under_lock<D: Disk + Drop>(
    desk: LockedDesk<D>,
) -> (Mutex<LockedDesk<D>>, Snapshot<LockedDesk<D>>)
    ensures { result.1.value ≡ desk }
{
    let found = Snapshot::of(&desk);
    (Mutex::new(desk), found)
}

/// Closes the store of the locked desk.
fn close<D: Disk + Drop>(
    desk: &mut LockedDesk<D>,
    permit: ClosePermit,
) -> Result<Closed<D>, Unclosed<D>>
    ensures ok { OnOk result (desk.new.book.store.closed ≡ true) }
    ensures refused { IfErr result (λ e. IsUnclosed D.Disk desk.old desk.new e) }
    ensures kinds { IfErr result (λ e. (e ≡ device_failed) ⊎ (e ≡ store_failed)) }
{
    let before = Snapshot::of(desk);
    match desk.close(permit) {
        Ok(()) => Ok(Closed::of(desk)),
        Err(refusal) => Err(Unclosed::of(refusal, before, desk)),
    }
}

/// Whether a call comes while it looks.
fn meets_call(queue: &CallQueue) -> bool {
    for _ in 0..LOOKS {
        if !is_empty(queue) {
            return true;
        }
        thread::yield_now();
    }
    false
}

/// Waits for the answer to the call.
fn receive<R: Wait>(
    rt: &R,
    replies: &mut ReplyReceiver,
    seen: &mut u64,
    call: Call,
    is_alone: bool,
) -> Result<(Reply, Receipt), Refusal>
    ensures seat { replies.new.seat ≡ replies.old.seat }
    ensures later { IsLater replies.old replies.new.base replies.new.list }
    ensures ok { IfOk result (λ r. Submitted replies.old replies.new seen.old seen.new call r.0 r.1) }
    ensures err { IfErr result (λ e. (seen.new ≡ seen.old) × Turned replies.old replies.new seen.old call e) }
{
    let delivery = wait_for(rt, replies, is_alone);
    settle(seen, replies, call, delivery.answer())
}

/// Takes the registry that was handed to a seat, which has then seen what that shows.
fn receive_shown<R: Wait>(
    rt: &R,
    replies: &mut ReplyReceiver,
    seen: &mut u64,
    shown: Shown,
) -> Result<(Registry, u64), NoMemory>
    requires own { replies.old.seat ≡ Some shown.seat }
    ensures seat { replies.new.seat ≡ replies.old.seat }
    ensures later { IsLater replies.old replies.new.base replies.new.list }
    ensures ok { IfOk result (λ r. LookAnswered replies.old replies.new seen.old seen.new r.0 r.1) }
    ensures err { OnErr result ((seen.new ≡ seen.old) × Unlooked replies.old replies.new seen.old) }
{
    let (registry, at) = sleep_for(rt, replies).into_shown(shown);
    if at < *seen {
        return Err(NoMemory);
    }
    let Some(registry) = registry else {
        return Err(NoMemory);
    };
    *seen = at;
    Ok((registry, at))
}

/// Waits for an answer.
fn wait_for<R: Wait>(rt: &R, replies: &mut ReplyReceiver, is_alone: bool) -> Delivery
    ensures { Took replies.old result replies.new }
{
    if is_alone {
        look_for(rt, replies)
    } else {
        sleep_for(rt, replies)
    }
}

/// Looks for an answer a bounded number of times, and then sleeps until one is there.
fn look_for<R: Wait>(rt: &R, replies: &mut ReplyReceiver) -> Delivery
    ensures { Took replies.old result replies.new }
{
    for _ in 0..LOOKS {
        if let Some(delivery) = replies.take(rt) {
            return delivery;
        }
        thread::yield_now();
    }
    sleep_for(rt, replies)
}

/// Sleeps until an answer is there.
fn sleep_for<R: Wait>(rt: &R, replies: &mut ReplyReceiver) -> Delivery
    ensures { Took replies.old result replies.new }
{
    for _ in rt.forever() {
        if let Some(delivery) = replies.take(rt) {
            return delivery;
        }
        replies.sleep(rt);
    }
    unreachable!()
}
