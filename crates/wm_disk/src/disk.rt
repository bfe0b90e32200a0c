//! A disk, by what a read gives, what a crash may leave, and how often it has failed.
//! Definitions: specs/Contents.antt, specs/Moments.antt. Tests: of `MemDisk`, leaf_tests/src/disks/memory.rt.
ghost use Rattle.std.specs.Prelude.{◌≡◌, ◌≤◌, ◌+◌, ◌↔◌, List, ℕ, Option, Some, None, length, take, drop, IfOk, OnOk};
ghost use Rattle.wm_disk.specs.Contents.{Only, Follows, NoMore, Torn, overwritten, Counts};
ghost use Rattle.wm_disk.specs.Moments.{Elapses};

use crate::DeviceFailed;

/// A disk that may lie: its laws on reads and crashes bind where it is honest after the call, that on the
/// count of failures always. A disk may fall from honesty at any call, by a wrong answer, and is honest
/// after a call only where it was before.
pub trait Disk {
    /// It keeps the laws on reads and crashes.
    ghost honest: { Self → Type 0 };

    /// The bytes that a read gives.
    ghost seen: { Self → List ℕ };

    /// What a crash at this moment may leave.
    ghost may_leave: { Self → List ℕ → Type 0 };

    /// The moment, as a number that doesn't fall.
    ghost moment: { Self → ℕ };

    /// What a crash at some moment from that one on might have left, inside a call or between two.
    ghost left_since: { Self → ℕ → List ℕ → Type 0 };

    /// How often the disk has failed.
    ghost failures: { Self → ℕ };

    /// How many bytes there are. `DeviceFailed` where the call failed, which is counted.
    fn len(&mut self) -> Result<u64, DeviceFailed>
        ensures length { honest self.new → IfOk result (λ n. n ≡ length (seen self.old)) }
        ensures seen { honest self.new → seen self.new ≡ seen self.old }
        ensures crash { honest self.new → NoMore (may_leave self.old) (may_leave self.new) }
        ensures time { honest self.new → Elapses (moment self.old) (moment self.new) (left_since self.old) (left_since self.new) (may_leave self.new) }
        ensures honest { honest self.new → honest self.old }
        ensures count { Counts (failures self.old) (failures self.new) result };

    /// Reads the bytes from a place on. `DeviceFailed` where the call failed, which is counted: then `bytes`
    /// may hold anything.
    fn read_at(&mut self, at: u64, bytes: &mut [u8]) -> Result<(), DeviceFailed>
        requires { honest self.old → at + length bytes.old ≤ length (seen self.old) }
        ensures bytes { honest self.new → OnOk result (bytes.new ≡ take (length bytes.old) (drop at (seen self.old))) }
        ensures seen { honest self.new → seen self.new ≡ seen self.old }
        ensures crash { honest self.new → NoMore (may_leave self.old) (may_leave self.new) }
        ensures time { honest self.new → Elapses (moment self.old) (moment self.new) (left_since self.old) (left_since self.new) (may_leave self.new) }
        ensures honest { honest self.new → honest self.old }
        ensures count { Counts (failures self.old) (failures self.new) result };

    /// Writes over what is there, and past the end. Until a sync, a crash may leave any bytes in the range,
    /// also where the write failed: `DeviceFailed`, which is counted. What a read gives isn't known then.
    fn write_at(&mut self, at: u64, bytes: &[u8]) -> Result<(), DeviceFailed>
        requires { honest self.old → at ≤ length (seen self.old) }
        ensures written { honest self.new → OnOk result (seen self.new ≡ overwritten (seen self.old) at bytes.now) }
        ensures crash { honest self.new → Follows (Torn at (length bytes.now)) (may_leave self.old) (may_leave self.new) }
        ensures time { honest self.new → Elapses (moment self.old) (moment self.new) (left_since self.old) (left_since self.new) (may_leave self.new) }
        ensures honest { honest self.new → honest self.old }
        ensures count { Counts (failures self.old) (failures self.new) result };

    /// After it, a crash leaves what a read gives. `DeviceFailed` where the call failed, which is counted: then
    /// a crash leaves no more than it might have left before.
    fn sync(&mut self) -> Result<(), DeviceFailed>
        ensures durable { honest self.new → OnOk result (Only (seen self.old) (may_leave self.new)) }
        ensures seen { honest self.new → seen self.new ≡ seen self.old }
        ensures crash { honest self.new → NoMore (may_leave self.old) (may_leave self.new) }
        ensures time { honest self.new → Elapses (moment self.old) (moment self.new) (left_since self.old) (left_since self.new) (may_leave self.new) }
        ensures honest { honest self.new → honest self.old }
        ensures count { Counts (failures self.old) (failures self.new) result };

    /// A crash may leave the disk as it reads.
    ghost reads_stand: { (disk : Self) → honest disk → may_leave disk (seen disk) };

    /// This moment is one of those since an earlier one.
    ghost counts_now: { (disk : Self) (t : ℕ) (c : List ℕ) → honest disk → t ≤ moment disk → may_leave disk c → left_since disk t c };

    /// Since this moment there is no other.
    ghost only_now: { (disk : Self) (c : List ℕ) → honest disk → left_since disk (moment disk) c → may_leave disk c };
}

/// A disk on which a test can plan failures, crashes and stops.
pub trait Crashed: Disk {
    /// How many calls still pass before each fails, where failures are planned.
    ghost plan: { Self → Option ℕ };

    /// So many calls pass, and then each call fails and has no effect.
    fn arm(&mut self, calls: u64)
        ensures plan { plan self.new ≡ Some calls }
        ensures seen { Self.honest self.new → Self.seen self.new ≡ Self.seen self.old }
        ensures crash { Self.honest self.new → NoMore (Self.may_leave self.old) (Self.may_leave self.new) }
        ensures time { Self.honest self.new → Elapses (Self.moment self.old) (Self.moment self.new) (Self.left_since self.old) (Self.left_since self.new) (Self.may_leave self.new) }
        ensures honest { Self.honest self.new → Self.honest self.old }
        ensures count { Self.failures self.new ≡ Self.failures self.old };

    /// The disk after a loss of power, with a content that the model allows.
    fn crash(self) -> Self
        ensures plan { plan result ≡ None }
        ensures left { Self.honest self → Self.may_leave self (Self.seen result) }
        ensures durable { Self.honest self → Only (Self.seen result) (Self.may_leave result) }
        ensures honest { Self.honest result ↔ Self.honest self }
        ensures count { Self.failures result ≡ Self.failures self };

    /// The disk after a stop of the process. What a read gives need not be durable.
    fn stop(self) -> Self
        ensures plan { plan result ≡ None }
        ensures seen { Self.honest self → Self.seen result ≡ Self.seen self }
        ensures crash { Self.honest self → NoMore (Self.may_leave self) (Self.may_leave result) }
        ensures honest { Self.honest result ↔ Self.honest self }
        ensures count { Self.failures result ≡ Self.failures self };
}
