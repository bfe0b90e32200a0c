//! A machine's state in a file of version 1 or of version 2, which the header tells.
//! Definitions: specs/Either.antt, specs/Found.antt. Tests: file_tests/src/checkpoint/versions.rt.
ghost use Rattle.std.specs.Prelude.{◌≡◌, ◌⊎◌, ◌<◌, List, ℕ, IfOk, IfErr, IsErrOf};
ghost use Rattle.wm_disk.specs.Calls.{Calls, CallsWith};
ghost use Rattle.wm_disk.specs.Moments.{LeavesOnly};
ghost use Rattle.wm_disk.specs.declared.refusal.Refusal.TheVariants.{DeviceFailed as device_failed, NoMemory as no_memory, Damaged as damaged, Retired as retired};
ghost use Rattle.wm_checkpoint.specs.Either.{AreDamaged, IsFoundAs, IsOpenedAs, IsRetiredAs, disk_of_either, end_of};
ghost use Rattle.wm_checkpoint.specs.Found.{IsFrontOf, ReadsDurably};
ghost use Rattle.wm_checkpoint.specs.Layout.{journal_len, sizes_1, sizes_2};
ghost use Rattle.wm_checkpoint.specs.Machines.{meaning};

use crate::keeper::Keeper;
use crate::layout::{Layout, Version1, Version2};
use crate::machine::Machine;
use crate::read::{Found, decode_front, is_version_2, read_front};
use std::alloc::Global;
use wm_disk::{Disk, Refusal};

/// What a file of either version means.
#[derive(Drop)]
pub(crate) enum EitherFound<S, T> {
    One(Found<S>),
    Two(Found<T>),
}

/// A keeper of a file of version 1, whose machine is `M`, or of version 2, whose machine is `N`.
#[derive(Drop)]
pub enum EitherKeeper<D: Disk + Drop, M: Machine, N: Machine> {
    One(Keeper<D, M, Version1>),
    Two(Keeper<D, N, Version2>),
}

// What a content means of which these bytes were read: in version 2 if its header says so, and else in version 1.
fn decode_either<M: Machine, N: Machine>(
    alloc: Global,
    bytes: &[u8],
) -> Result<EitherFound<M::State, N::State>, Refusal>
    ensures found { (c : List ℕ) → IsFrontOf sizes_2 bytes.now c → IfOk result (IsFoundAs (meaning M.Machine M.State.Wire M.Command.Wire sizes_1) (meaning N.Machine N.State.Wire N.Command.Wire sizes_2) c) }
    ensures within { IfOk result (λ f. end_of f < journal_len) }
    ensures damaged { (c : List ℕ) → IsFrontOf sizes_2 bytes.now c → IsErrOf result damaged → AreDamaged (meaning M.Machine M.State.Wire M.Command.Wire sizes_1) (meaning N.Machine N.State.Wire N.Command.Wire sizes_2) c }
    ensures retired { (c : List ℕ) → IsFrontOf sizes_2 bytes.now c → IsErrOf result retired → IsRetiredAs c }
    ensures kinds { IfErr result (λ e. (e ≡ no_memory) ⊎ (e ≡ damaged) ⊎ (e ≡ retired)) }
{
    if is_version_2(bytes) {
        return match decode_front::<N, Version2>(alloc, bytes) {
            Ok(found) => Ok(EitherFound::Two(found)),
            Err(refusal) => Err(refusal),
        };
    }
    match decode_front::<M, Version1>(alloc, bytes) {
        Ok(found) => Ok(EitherFound::One(found)),
        Err(refusal) => Err(refusal),
    }
}

// What the disk means. It is read once it is durable, and nothing is written.
fn find_either<D: Disk, M: Machine, N: Machine>(
    alloc: Global,
    disk: &mut D,
) -> Result<EitherFound<M::State, N::State>, Refusal>
    ensures found { D.honest disk.new → IfOk result (IsFoundAs (meaning M.Machine M.State.Wire M.Command.Wire sizes_1) (meaning N.Machine N.State.Wire N.Command.Wire sizes_2) (D.seen disk.old)) }
    ensures within { IfOk result (λ f. end_of f < journal_len) }
    ensures damaged { D.honest disk.new → IsErrOf result damaged → AreDamaged (meaning M.Machine M.State.Wire M.Command.Wire sizes_1) (meaning N.Machine N.State.Wire N.Command.Wire sizes_2) (D.seen disk.old) }
    ensures retired { D.honest disk.new → IsErrOf result retired → IsRetiredAs (D.seen disk.old) }
    ensures reads { D.honest disk.new → ReadsDurably D.Disk disk.old disk.new result }
    ensures device { Calls D.Disk disk.old disk.new result }
    ensures kinds { IfErr result (λ e. (e ≡ device_failed) ⊎ (e ≡ no_memory) ⊎ (e ≡ damaged) ⊎ (e ≡ retired)) }
{
    match read_front(alloc, disk, Version2::file_len()) {
        Ok(bytes) => decode_either::<M, N>(alloc, &bytes),
        Err(refusal) => Err(refusal),
    }
}

impl<D: Disk + Drop, M: Machine, N: Machine> EitherKeeper<D, M, N> {
    /// Finds the state that the disk means, by the version in its header: length, sync and one reading; nothing is written. A refusal
    /// hands the disk back, which reads as before: `14 Damaged` if it means no state in either version, `20 Retired` if its file is
    /// retired, `13 DeviceFailed` if the device failed, `16 NoMemory` when out of memory.
    pub fn open(alloc: Global, disk: D) -> Result<EitherKeeper<D, M, N>, (Refusal, D)>
        ensures opened { IfOk result (IsOpenedAs (meaning M.Machine M.State.Wire M.Command.Wire sizes_1) (meaning N.Machine N.State.Wire N.Command.Wire sizes_2) disk) }
        ensures damaged { IfErr result (λ e. D.honest e.1 → e.0 ≡ damaged → AreDamaged (meaning M.Machine M.State.Wire M.Command.Wire sizes_1) (meaning N.Machine N.State.Wire N.Command.Wire sizes_2) (D.seen disk)) }
        ensures retired { IfErr result (λ e. D.honest e.1 → e.0 ≡ retired → IsRetiredAs (D.seen disk)) }
        ensures seen { IfOk result (λ k. D.honest (disk_of_either k) → D.seen (disk_of_either k) ≡ D.seen disk) × IfErr result (λ e. D.honest e.1 → D.seen e.1 ≡ D.seen disk) }
        // A crash at any moment of the call leaves what one before it might have left.
        ensures any_moment { IfOk result (λ k. D.honest (disk_of_either k) → LeavesOnly D.moment D.left_since disk (disk_of_either k) (D.may_leave disk)) × IfErr result (λ e. D.honest e.1 → LeavesOnly D.moment D.left_since disk e.1 (D.may_leave disk)) }
        ensures device { CallsWith D.Disk (λ k. disk_of_either k) disk result }
        ensures kinds { IfErr result (λ e. (e.0 ≡ device_failed) ⊎ (e.0 ≡ no_memory) ⊎ (e.0 ≡ damaged) ⊎ (e.0 ≡ retired)) }
    {
        let mut disk = disk;
        match find_either::<D, M, N>(alloc, &mut disk) {
            Ok(EitherFound::One(found)) => Ok(EitherKeeper::One(Keeper::of_found(
                alloc, disk, found,
            ))),
            Ok(EitherFound::Two(found)) => Ok(EitherKeeper::Two(Keeper::of_found(
                alloc, disk, found,
            ))),
            Err(refusal) => Err((refusal, disk)),
        }
    }
}
