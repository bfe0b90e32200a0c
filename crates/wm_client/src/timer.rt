//! How long a sync waits, and for what. Definitions: specs/Waits.
ghost use Rattle.std.specs.Prelude.{◌≡◌, ◌*◌, ◌^◌, ◌≤◌, ◌<◌, true, false, IfOk, MatchOption};
ghost use Rattle.wm_client.specs.Waits.{GaveUpIn, GoneIn, HasPassed};

use crate::sync_system::SyncSystem;
use std::alloc::Global;
use wm_disk::NoMemory;

/// How long a server that isn't ready, or a folder that isn't there, is left alone. In microseconds.
pub(crate) const RETRY: u64 = 10_000;

/// How long a file is looked at often, and how much time is between two looks then and later. In microseconds.
const SOON: u64 = 5_000;

const SOON_PAUSE: u64 = 200;

const LATER_PAUSE: u64 = 1_000;

/// How much of its time a sync has waited. In microseconds.
#[derive(Drop)]
pub(crate) struct Timer<'a, Y: SyncSystem> {
    system: &'a Y,
    waited: u64,
    limit: u64,
    ghost is_passed: { HasPassed (Y.passed system.now) waited },
    ghost is_short: { limit < 2 ^ 32 * 1000 },
}

impl<'a, Y: SyncSystem> Timer<'a, Y> {
    /// A sync that has so many milliseconds.
    pub(crate) fn start(system: &'a Y, millis: u32) -> Timer<'a, Y>
        ensures system { result.system.now ≡ system.now }
        ensures limit { result.limit ≡ millis * 1000 }
    {
        let waited = system.elapsed();
        Timer {
            system,
            waited,
            limit: u64::from(millis) * 1_000,
        }
    }

    /// How long it has waited by now.
    fn latest(&self) -> u64
        ensures passed { HasPassed (Y.passed self.now.system.now) result }
        ensures more { self.now.waited ≤ result }
    {
        let elapsed = self.system.elapsed();
        if self.waited < elapsed {
            elapsed
        } else {
            self.waited
        }
    }

    /// Sleeps so long, for a hundredth of a second at most. `false` if the time is over: it doesn't sleep then.
    pub(crate) fn pause(&mut self, micros: u64) -> bool
        requires short { micros ≤ 10000 }
        requires some { 0 < micros }
        ensures system { self.new.system.now ≡ self.old.system.now }
        ensures limit { self.new.limit ≡ self.old.limit }
        ensures slept { result ≡ true → (self.old.waited < self.new.waited) × (self.old.waited < self.old.limit) }
        ensures over { result ≡ false → HasPassed (Y.passed self.old.system.now) self.old.limit }
    {
        let waited = self.latest();
        if waited >= self.limit {
            return false;
        }
        self.system.sleep(micros);
        self.waited = waited + micros;
        true
    }

    /// Makes a file in a folder. `None` if that couldn't be done until the time was over.
    fn make(&mut self, alloc: Global, folder: &str) -> Result<Option<Y::Made>, NoMemory>
        ensures system { self.new.system.now ≡ self.old.system.now }
        ensures limit { self.new.limit ≡ self.old.limit }
        ensures made { IfOk result (λ made. MatchOption made (Y.none_in self.old.system.now folder.now × HasPassed (Y.passed self.old.system.now) self.old.limit) (Y.made_in self.old.system.now folder.now)) }
    {
        loop {
            if let Some(made) = self.system.make(alloc, folder)? {
                return Ok(Some(made));
            }
            if !self.pause(RETRY) {
                return Ok(None);
            }
        }
    }

    /// Whether a file is seen to be gone before the time is over.
    fn sees_gone(&mut self, made: &Y::Made) -> bool
        ensures system { self.new.system.now ≡ self.old.system.now }
        ensures limit { self.new.limit ≡ self.old.limit }
        ensures gone { result ≡ true → Y.gone self.old.system.now made.now }
        ensures over { result ≡ false → HasPassed (Y.passed self.old.system.now) self.old.limit }
    {
        let begun = self.waited;
        loop {
            if self.system.is_gone(made) {
                return true;
            }
            let pause = pause_after(self.waited.saturating_sub(begun));
            if !self.pause(pause) {
                return false;
            }
        }
    }

    /// Makes a file in a folder, and waits until a feed has removed it. `false` if that didn't happen until the time was over; no file
    /// is left then.
    pub(crate) fn sync(&mut self, alloc: Global, folder: &str) -> Result<bool, NoMemory>
        ensures gone { IfOk result (λ r. r ≡ true → GoneIn Y.made_in Y.gone self.old.system.now folder.now) }
        ensures left { IfOk result (λ r. r ≡ false → GaveUpIn Y.made_in Y.removed Y.none_in self.old.system.now folder.now × HasPassed (Y.passed self.old.system.now) self.old.limit) }
    {
        let Some(made) = self.make(alloc, folder)? else {
            return Ok(false);
        };
        if self.sees_gone(&made) {
            return Ok(true);
        }
        self.system.remove(made);
        Ok(false)
    }
}

/// How much time is between two looks at a file that was made so long ago.
fn pause_after(micros: u64) -> u64
    ensures short { result ≤ 10000 }
    ensures some { 0 < result }
{
    if micros < SOON {
        SOON_PAUSE
    } else {
        LATER_PAUSE
    }
}
