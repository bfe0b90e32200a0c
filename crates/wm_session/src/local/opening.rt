//! The store that a front, or a server of many sessions, starts over. Its definitions are in specs/local: Stores.
//! Tests: session_tests/src/lines/triggers.rt; of a file's serve_tests/src/restarts.rt.
ghost use Rattle.std.specs.Prelude.{◌≡◌, ◌⊎◌, true, false, IfOk, IfErr, MatchResult, OnOk};
ghost use Rattle.wm_disk.specs.declared.refusal.Refusal.TheVariants.{Damaged as damaged, DeviceFailed as device_failed, Exhausted as exhausted, NoMemory as no_memory, Retired as retired};
ghost use Rattle.wm_file.specs.FileDisks.{IsJustOpened};
ghost use Rattle.wm_lines.specs.KeptExpressions.{have_expressions as have_expressions_lem};
ghost use Rattle.wm_session.specs.local.Stores.{Later, StartCut, StartRefused};
ghost use Rattle.wm_store.specs.Calls.{IsWorking};
ghost use Rattle.wm_store.specs.Openings.{IsBegun};

use std::alloc::Global;
use std::fs::{File, Files};
use wm_disk::{Disk, Refusal};
use wm_file::{FileDisk, Unknown};
use wm_lines::have_expressions;
use wm_registry::Registry;
use wm_store::Store;

/// Takes up the registry that a disk means, and begins the next incarnation. The refusals are those of
/// [`Store::open`], and after it `Damaged` where a trigger keeps a text that is no expression, and `NoMemory`
/// where that finds no room to be read: then the disk means the registry with one more `Begin`. Each hands
/// the disk back.
pub fn open_store<D: Disk + Drop>(alloc: Global, disk: D) -> Result<Store<D>, (Refusal, D)>
    ensures begun { IfOk result (λ store. D.honest store.disk → IsBegun D.Disk disk store) }
    ensures works { IfOk result (λ store. IsWorking D.Disk store) }
    ensures expressions { IfOk result (λ store. have_expressions_lem store.registry ≡ true) }
    ensures later { MatchResult result (λ store. Later D.Disk disk store.disk) (λ e. Later D.Disk disk e.1) }
    ensures refused { IfErr result (λ e. StartRefused D.Disk e.0 disk e.1) }
    ensures cut { IfErr result (λ e. StartCut D.Disk disk e.1) }
    ensures kinds { IfErr result (λ e. (e.0 ≡ device_failed) ⊎ (e.0 ≡ no_memory) ⊎ (e.0 ≡ exhausted) ⊎ (e.0 ≡ damaged) ⊎ (e.0 ≡ retired)) }
{
    let store = match Store::open(alloc, disk) {
        Ok(store) => store,
        Err((refusal, disk)) => return Err((refusal, disk)),
    };
    match ask_for_expressions(alloc, store.registry()) {
        Ok(()) => Ok(store),
        Err(refusal) => Err((refusal, store.into_disk())),
    }
}

/// Opens the store of a state file, as [`open_store`] over the open file. Where that refuses it the file is let go.
/// `DeviceFailed` too where the file isn't there, there is no right to it, another program has it, or it can't
/// be opened else.
pub fn open_file<R: Files<File = File>>(
    rt: &R,
    alloc: Global,
    path: &str,
) -> Result<Store<FileDisk<Unknown>>, Refusal>
    ensures begun { IfOk result (λ store. (disk : _) × IsJustOpened disk × (⟦<FileDisk<Unknown> as Disk>⟧.honest store.disk → IsBegun ⟦<FileDisk<Unknown> as Disk>⟧ disk store)) }
    ensures works { IfOk result (λ store. IsWorking ⟦<FileDisk<Unknown> as Disk>⟧ store) }
    ensures expressions { IfOk result (λ store. have_expressions_lem store.registry ≡ true) }
    ensures kinds { IfErr result (λ e. (e ≡ device_failed) ⊎ (e ≡ no_memory) ⊎ (e ≡ exhausted) ⊎ (e ≡ damaged) ⊎ (e ≡ retired)) }
{
    let Ok(disk) = FileDisk::<Unknown>::open(rt, path) else {
        return Err(Refusal::DeviceFailed);
    };
    match open_store(alloc, disk) {
        Ok(store) => Ok(store),
        Err((refusal, disk)) => {
            drop(disk);
            Err(refusal)
        }
    }
}

/// Refuses a registry in which a trigger keeps a text that is no expression: `Damaged`.
fn ask_for_expressions(alloc: Global, registry: &Registry) -> Result<(), Refusal>
    ensures ok { OnOk result (have_expressions_lem registry.now ≡ true) }
    ensures refused { IfErr result (λ e. ((e ≡ damaged) × (have_expressions_lem registry.now ≡ false)) ⊎ (e ≡ no_memory)) }
{
    if !have_expressions(alloc, registry)? {
        return Err(Refusal::Damaged);
    }
    Ok(())
}
