//! The wake flags of the connection slots, under one lock: who waits is woken as [`WakeState`] has it.
//! Definitions: specs/WakeFlags.antt. Tests: serve_tests/src/sessions.rt.
ghost use Rattle.std.specs.Prelude.{◌≡◌, false, length, map, IfOk};
ghost use Rattle.wm_workers.specs.WakeFlags.{ChangesFlag, HasNotified, closed_flag, goes_on_at, is_clear_at as is_clear_at_lem, noted_flag, notified_flag, slot_count, taken_flag};

use super::state::WakeState;
use std::alloc::Global;
use std::sync::{Condvar, Mutex, Wait};
use wm_disk::NoMemory;

/// How many connection slots a server has.
pub const SLOTS: usize = 31;

/// What wakes the threads that send the sessions of the slots the lines that are due.
#[derive(Drop)]
pub struct WakeFlags {
    flags: Mutex<Vec<WakeState>>,
    /// Of each slot, that its flag was set.
    changed: Vec<Condvar>,
}

/// The flags of sessions without subscriptions.
fn new_flags(alloc: Global) -> Result<Vec<WakeState>, NoMemory>
    ensures { IfOk result (λ flags. length flags.items ≡ slot_count) }
{
    let mut flags = Vec::new(alloc);
    for slot in 0..SLOTS {
        flags.push(WakeState::new())?;
    }
    Ok(flags)
}

/// What the thread of each slot waits with.
fn new_condvars(alloc: Global) -> Result<Vec<Condvar>, NoMemory>
    ensures { IfOk result (λ changed. length changed.items ≡ slot_count) }
{
    let mut changed = Vec::new(alloc);
    for slot in 0..SLOTS {
        changed.push(Condvar::new())?;
    }
    Ok(changed)
}

/// Wakes the thread of a slot, if there is one.
fn wake(changed: &[Condvar], slot: usize) {
    if let Some(changed) = changed.get(slot) {
        changed.notify_one();
    }
}

/// Each flag is notified of a change of these roots, and its thread woken if it is to be.
#[tactic(auto, using(crate::proofs::Flags::all_mapped))]
fn notify_each(flags: &mut Vec<WakeState>, changed: &[Condvar], roots: u64)
    ensures { flags.new.items ≡ map (notified_flag roots) flags.old.items }
{
    for slot in 0..flags.len() {
        if flags[slot].notify(roots) {
            wake(changed, slot);
        }
    }
}

/// Each flag is closed for good, and its thread woken.
#[tactic(auto, using(crate::proofs::Flags::all_mapped))]
fn close_each(flags: &mut Vec<WakeState>, changed: &[Condvar])
    ensures { flags.new.items ≡ map closed_flag flags.old.items }
{
    for slot in 0..flags.len() {
        flags[slot].close();
        wake(changed, slot);
    }
}

/// The session of a slot has subscriptions on these roots, and the slot's thread is woken if it is to be.
#[tactic(auto, using(crate::proofs::Flags::changed_flag, crate::proofs::Flags::same_flags))]
fn note_at(flags: &mut Vec<WakeState>, changed: &[Condvar], slot: usize, roots: u64)
    ensures { ChangesFlag slot (noted_flag roots) flags.old.items flags.new.items }
{
    if slot >= flags.len() {
        return;
    }
    if flags[slot].note(roots) {
        wake(changed, slot);
    }
}

/// Whether the thread of a slot has to wait.
fn is_clear_at(flags: &[WakeState], slot: usize) -> bool
    ensures { result ≡ is_clear_at_lem slot flags.now }
{
    match flags.get(slot) {
        Some(flag) => flag.is_clear(),
        None => false,
    }
}

/// The thread of a slot looks, once its flag isn't clear: whether it goes on.
#[tactic(auto, using(crate::proofs::Flags::changed_flag, crate::proofs::Flags::same_flags, crate::proofs::Flags::clear_at, crate::proofs::Flags::goes_on, crate::proofs::Flags::goes_nowhere))]
fn take_at(flags: &mut Vec<WakeState>, slot: usize) -> bool
    requires { is_clear_at_lem slot flags.old.items ≡ false }
    ensures goes_on { result ≡ goes_on_at slot flags.old.items }
    ensures taken { ChangesFlag slot taken_flag flags.old.items flags.new.items }
{
    if slot >= flags.len() {
        return false;
    }
    flags[slot].take()
}

impl WakeFlags {
    /// The flags of sessions without subscriptions. `NoMemory`.
    pub fn new(alloc: Global) -> Result<WakeFlags, NoMemory> {
        let flags = new_flags(alloc)?;
        let changed = new_condvars(alloc)?;
        Ok(WakeFlags {
            flags: Mutex::new(flags),
            changed,
        })
    }

    /// Lines may be due to each session that has a subscription on one of these roots, as their bits: its thread is woken.
    pub(crate) fn notify<R: Wait>(&self, rt: &R, roots: u64)
        ensures { HasNotified roots }
    {
        notify_each(&mut *self.flags.lock(rt), &self.changed, roots);
    }

    /// The session of a slot has subscriptions on these roots, as their bits.
    pub fn note<R: Wait>(&self, rt: &R, slot: usize, roots: u64) {
        note_at(&mut *self.flags.lock(rt), &self.changed, slot, roots);
    }

    /// The server closes.
    pub(crate) fn close<R: Wait>(&self, rt: &R) {
        close_each(&mut *self.flags.lock(rt), &self.changed);
    }

    /// Waits until lines may be due to the session of a slot: whether its thread goes on, since the server doesn't close.
    pub fn wait<R: Wait>(&self, rt: &R, slot: usize) -> bool {
        let Some(changed) = self.changed.get(slot) else {
            return false;
        };
        let mut flags = changed.wait_while(
            rt,
            self.flags.lock(rt),
            |flags| is_clear_at(flags, slot),
        );
        take_at(&mut *flags, slot)
    }
}
