//! A disk of which one call fails.
//! Definitions: specs/OneFaults.antt.
//! Tests: leaf_tests/src/disks/faults.rt, session_tests/src/ends.rt, session_tests/src/lines/failures.rt.
ghost use Rattle.std.specs.Prelude.{◌≡◌, ◌+◌, if◌then◌else◌, false, Some};
ghost use Rattle.std.specs.Bool.{OnTrue, OnFalse};
ghost use Rattle.std.proofs.Common.{true};

use crate::{DeviceFailed, Disk};

/// A disk of which one call fails, once, with no effect on the disk below.
#[derive(Drop)]
pub struct OneFault<D: Disk> {
    pub disk: D,
    // how many calls pass before the one that fails
    passes: Option<u64>,
    failed: bool,
}

// Whether this is the call that fails.
fn is_due(passes: &mut Option<u64>, failed: &mut bool) -> bool
    ensures due { OnTrue result ((failed.old ≡ false) × (failed.new ≡ true)) }
    ensures not_due { OnFalse result (failed.new ≡ failed.old) }
{
    match *passes {
        None => false,
        Some(0) => {
            *passes = None;
            if *failed {
                return false;
            }
            *failed = true;
            true
        }
        Some(n) => {
            *passes = Some(n - 1);
            false
        }
    }
}

impl<D: Disk> OneFault<D> {
    ghost use Rattle.wm_disk.specs.OneFaults.{calls_before, has_failed_once};

    /// So many calls pass, the next fails, and every later one passes.
    pub fn new(disk: D, calls: u64) -> Self
        ensures disk { result.disk ≡ disk }
        ensures calls { calls_before result ≡ Some calls }
        ensures whole { has_failed_once result ≡ false }
    {
        OneFault {
            disk,
            passes: Some(calls),
            failed: false,
        }
    }
}

impl<D: Disk> Disk for OneFault<D> {
    ghost honest = { λ s. D.honest s.disk };

    ghost seen = { λ s. D.seen s.disk };

    ghost may_leave = { λ s c. D.may_leave s.disk c };

    ghost moment = { λ s. D.moment s.disk };

    ghost left_since = { λ s t c. D.left_since s.disk t c };

    ghost failures = { λ s. D.failures s.disk + (if s.failed then 1 else 0) };

    ghost reads_stand = { λ s h. D.reads_stand s.disk h };

    ghost counts_now = { λ s t c h le now. D.counts_now s.disk t c h le now };

    ghost only_now = { λ s c h left. D.only_now s.disk c h left };

    fn len(&mut self) -> Result<u64, DeviceFailed> {
        if is_due(&mut self.passes, &mut self.failed) {
            return Err(DeviceFailed);
        }
        self.disk.len()
    }

    fn read_at(&mut self, at: u64, bytes: &mut [u8]) -> Result<(), DeviceFailed> {
        if is_due(&mut self.passes, &mut self.failed) {
            return Err(DeviceFailed);
        }
        self.disk.read_at(at, bytes)
    }

    fn write_at(&mut self, at: u64, bytes: &[u8]) -> Result<(), DeviceFailed> {
        if is_due(&mut self.passes, &mut self.failed) {
            return Err(DeviceFailed);
        }
        self.disk.write_at(at, bytes)
    }

    fn sync(&mut self) -> Result<(), DeviceFailed> {
        if is_due(&mut self.passes, &mut self.failed) {
            return Err(DeviceFailed);
        }
        self.disk.sync()
    }
}
