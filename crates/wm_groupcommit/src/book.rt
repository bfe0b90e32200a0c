//! The book: the store, how many commands it accepted, and the list of these, which stands in proofs alone.
//! Definitions: specs/BookState.antt, specs/Books.antt. Tests: file_tests/src/desk/rows.rt.
ghost use Rattle.std.specs.Prelude.{◌≡◌, ◌⊎◌, ◌≤◌, ◌<◌, ◌+◌, [], ◌++◌, length, vec_capacity, IfOk, IfErr, IfSome, OnErr, OnOk, Some, true};
ghost use Rattle.wm_disk.specs.declared.refusal.Refusal.TheVariants.{DeviceFailed as device_failed, NoMemory as no_memory, StoreFailed as store_failed};
ghost use Rattle.wm_registry.specs.Limits.{max_batch};
ghost use Rattle.wm_store.specs.Batches.{IsCommitted};
ghost use Rattle.wm_store.specs.Calls.{CallsStore};
ghost use Rattle.wm_groupcommit.specs.Receipts.{StandsInBook, accepted_command};
ghost use Rattle.wm_groupcommit.specs.Books.{commands_of, AllRight, IsShownAt, accepted_calls, kept_if, answers_from, all_refused, at_next};
ghost use Rattle.wm_groupcommit.specs.Commits.{IsCommit};
ghost use Rattle.wm_groupcommit.specs.ReplyQueues.{StartsWith};

use crate::history::History;
use crate::queued::{Answer, Call};
use crate::receipt::Receipt;
use crate::same_commands::copied;
use std::alloc::Global;
use std::marker::Model;
use std::snapshot::Snapshot;
use wm_disk::{Disk, NoMemory, Refusal};
use wm_registry::{Command, Registry, Reply};
use wm_store::Store;

/// The store, and how many commands were accepted at the desk. Clauses see these commands, each with its seat and
/// that seat's count of calls, and the registry that the desk found.
#[derive(Drop)]
pub struct Book<D: Disk + Drop> {
    store: Store<D>,
    accepted: u64,
    history: History,
}

impl<D: Disk + Drop> Model for Book<D> {
    ghost use Rattle.std.specs.Prelude.{◌≡◌, length};
    ghost use Rattle.wm_checkpoint.specs.Machines.{replayed};
    ghost use Rattle.wm_registry.specs.Registry.{after_command};
    ghost use Rattle.wm_groupcommit.specs.BookState.{BookState};
    ghost use Rattle.wm_groupcommit.specs.Books.{commands_of};

    ghost Value = { BookState D };

    ghost view = { λ b. record { base = b.history.base; list = b.history.list; store = b.store } };

    ghost invariant = { λ b. (b.store.registry ≡ replayed after_command b.history.base (commands_of b.history.list)) × (b.accepted ≡ length b.history.list) };
}

impl<D: Disk + Drop> Book<D> {
    /// The book of a store that has accepted nothing at the desk yet.
    pub fn open(store: Store<D>) -> Book<D>
        ensures { (result.base ≡ store.registry) × (result.list ≡ []) × (result.store ≡ store) }
    {
        let history = History::of(store.registry());
        Book {
            store,
            accepted: 0,
            history,
        }
    }

    /// The book as it is.
    pub fn seen(&self) -> Snapshot<History>
        ensures { (result.value.base ≡ self.now.base) × (result.value.list ≡ self.now.list) }
    {
        Snapshot::of(&self.history)
    }

    /// How many commands the list has.
    pub fn accepted(&self) -> u64
        ensures { result ≡ length self.now.list }
    {
        self.accepted
    }

    /// The registry after all of the list, and how many commands the list has. `NoMemory`.
    pub fn registry(&self, alloc: Global) -> Result<(Registry, u64), NoMemory>
        ensures registry { IfOk result (λ r. (r.0 ≡ self.now.store.registry) × (r.1 ≡ length self.now.list)) }
        ensures shown { IfOk result (λ r. IsShownAt self.now.base self.now.list r.1 (Some r.0)) }
    {
        let registry = self.store.registry().copy(alloc)?;
        Ok((registry, self.accepted))
    }

    /// The receipt's command, which stands at its number in the list that the receipt is right for: the book's, as far
    /// as that went, if the receipt is of this desk. None for one that changed nothing. `NoMemory` if the allocation
    /// of the copy failed.
    pub fn find(&self, alloc: Global, receipt: &Receipt) -> Result<Option<Command>, NoMemory>
        ensures command { IfOk result (λ r. r ≡ accepted_command receipt.now.standing) }
        ensures stands { IfOk result (λ r. IfSome r (λ c. StandsInBook receipt.now receipt.now.list c)) }
        ensures book { StartsWith self.now.list receipt.now.list → IfOk result (λ r. IfSome r (λ c. StandsInBook receipt.now self.now.list c)) }
    {
        receipt.command(alloc)
    }

    /// Closes the store, and is refused as [`Store::close`] is.
    pub fn close(&mut self) -> Result<(), Refusal>
        ensures list { (self.new.base ≡ self.old.base) × (self.new.list ≡ self.old.list) }
        ensures closed { OnOk result (self.new.store.closed ≡ true) }
        ensures calls { CallsStore D.Disk self.old.store self.new.store result }
        ensures kinds { IfErr result (λ e. (e ≡ device_failed) ⊎ (e ≡ store_failed)) }
    {
        self.store.close()
    }

    /// The store.
    pub fn into_store(self) -> Store<D>
        ensures { result ≡ self.store }
    {
        let Book {
            store,
            accepted: _,
            history: _,
        } = self;
        store
    }

    /// Commits the calls' commands, and answers each call.
    pub fn commit(&mut self, alloc: Global, calls: Vec<Call>, answers: &mut Vec<Answer>)
        requires few { length calls.items ≤ max_batch }
        requires room { (answers.old.items ≡ []) × (length calls.items ≤ vec_capacity answers.old) }
        ensures commits { IsCommit D.Disk self.old self.new calls.items answers.new.items }
        ensures right { AllRight self.new.base self.new.list answers.new.items }
    {
        let at = self.accepted;
        if at.checked_add(calls.len() as u64).is_none() {
            refuse_all(at, Refusal::NoMemory, calls, answers);
            return;
        }
        let Ok(commands) = commands_in(alloc, &calls) else {
            refuse_all(at, Refusal::NoMemory, calls, answers);
            return;
        };
        match replies_of(&mut self.store, alloc, commands) {
            Ok(replies) => {
                self.accepted = answer_all(&mut self.history, at, calls, &replies, answers);
            }
            Err(refusal) => refuse_all(at, refusal, calls, answers),
        }
    }
}

/// Commits the commands, and gives the store's replies, one after the other.
fn replies_of<D: Disk + Drop>(
    store: &mut Store<D>,
    alloc: Global,
    commands: Vec<Command>,
) -> Result<Vec<Reply>, Refusal>
    requires { length commands.items ≤ max_batch }
    ensures committed { IfOk result (λ r. IsCommitted D.Disk store.old store.new commands.items r.items) }
    ensures unchanged { OnErr result (store.new.registry ≡ store.old.registry) }
    ensures calls { CallsStore D.Disk store.old store.new result }
    ensures kinds { IfErr result (λ e. (e ≡ device_failed) ⊎ (e ≡ no_memory) ⊎ (e ≡ store_failed)) }
{
    store.commit_batch(alloc, commands)
}

/// The calls' commands again.
fn commands_in(alloc: Global, calls: &Vec<Call>) -> Result<Vec<Command>, NoMemory>
    ensures { IfOk result (λ v. v.items ≡ commands_of calls.now.items) }
{
    let mut commands = Vec::with_capacity(alloc, calls.len())?;
    for call in calls {
        let command = copied(alloc, &call.command)?;
        commands.push(command)?;
    }
    Ok(commands)
}

/// Answers each of the calls with the refusal.
fn refuse_all(at: u64, refusal: Refusal, calls: Vec<Call>, answers: &mut Vec<Answer>)
    requires room { (answers.old.items ≡ []) × (length calls.items ≤ vec_capacity answers.old) }
    ensures { answers.new.items ≡ all_refused at refusal calls.items }
{
    for call in calls {
        answers.push_reserved(Answer {
            call,
            at,
            reply: Reply::Refused(refusal),
        });
    }
}

/// Answers the calls, the first of them after `at` commands, and records those that were accepted. Tells how many
/// commands stand then.
fn answer_all(
    history: &mut History,
    at: u64,
    calls: Vec<Call>,
    replies: &Vec<Reply>,
    answers: &mut Vec<Answer>,
) -> u64
    requires same { length replies.now.items ≡ length calls.items }
    requires small { at + length calls.items ≤ 18446744073709551615 }
    requires room { (answers.old.items ≡ []) × (length calls.items ≤ vec_capacity answers.old) }
    ensures answers { answers.new.items ≡ answers_from at calls.items replies.now.items }
    ensures list { history.new.list ≡ history.old.list ++ accepted_calls calls.items replies.now.items }
    ensures base { history.new.base ≡ history.old.base }
    ensures count { result ≡ at + length (accepted_calls calls.items replies.now.items) }
{
    let mut at = at;
    let mut next = 0;
    for call in calls {
        let reply = replies[next];
        record(history, &call, reply);
        answers.push_reserved(Answer { call, at, reply });
        next += 1;
        at = next_at(at, reply);
    }
    at
}

/// How many commands stand after one with this reply.
fn next_at(at: u64, reply: Reply) -> u64
    requires { at < 18446744073709551615 }
    ensures { result ≡ at_next at reply }
{
    if reply.is_change() { at + 1 } else { at }
}

/// Records the call if it was accepted.
fn record(history: &mut History, call: &Call, reply: Reply)
    ensures list { history.new.list ≡ history.old.list ++ kept_if call.now reply }
    ensures base { history.new.base ≡ history.old.base }
{
    if reply.is_change() {
        history.push(call);
    }
}
