//! The names of a folder, read to their end.
//! Definitions: specs/FolderNames.antt. Tests: crawler_tests/src/folders.rt.
ghost use Rattle.std.specs.Prelude.{◌≡◌, ◌≢◌, ◌<◌, [], false, true, length, IfOk, IfErr, IfNone, IfSome, OnOk};
ghost use Rattle.std.specs.Str.{is_utf8};
ghost use Rattle.wm_disk.specs.declared.refusal.Refusal.TheVariants.{DeviceFailed, NoMemory as no_memory};
ghost use Rattle.wm_names.specs.Paths.{is_dots as is_dots_lem};
ghost use Rattle.wm_crawler.specs.FolderNames.{folder_of, ended_names, with_held_name, with_held_names};

use crate::dir::Dir;
use crate::file_system::NameReader;
use std::alloc::Global;
use std::io::ErrorKind;
use wm_disk::{NoMemory, Refusal};

/// How many names a folder has room for from the start.
const ROOM: usize = 64;

/// Whether it is the name of the folder itself, or of the one above, or none.
fn is_dots(name: &[u8]) -> bool
    ensures { result ≡ is_dots_lem name.now }
{
    name.len() < 3 && name.iter().all(|byte| *byte == b'.')
}

/// A name as a text, and `None` if it isn't one.
#[tactic(auto, using(crate::proofs::FolderLists::is_text))]
fn text_of(name: &[u8]) -> Option<&str>
    ensures text { IfSome result (λ t. (t.now ≡ name.now) × (is_utf8 name.now ≡ true)) }
    ensures other { IfNone result (is_utf8 name.now ≡ false) }
{
    match str::from_utf8(name) {
        Ok(text) => Some(text),
        Err(_) => None,
    }
}

/// Adds a name that was read of a folder.
fn add_name(alloc: Global, dir: &mut Dir, name: &[u8]) -> Result<(), NoMemory>
    ensures { OnOk result (dir.new ≡ with_held_name name.now dir.old) }
{
    if is_dots(name) {
        return Ok(());
    }
    match text_of(name) {
        Some(text) => dir.add(alloc, text)?,
        None => dir.add_other(),
    }
    Ok(())
}

/// Adds what was read of a folder: names, each ended by a zero byte.
fn add_names(alloc: Global, dir: &mut Dir, names: &[u8]) -> Result<(), NoMemory>
    ensures { OnOk result (dir.new ≡ with_held_names (ended_names names.now) dir.old) }
{
    for name in names.split(|byte| *byte == 0) {
        add_name(alloc, dir, name)?;
    }
    Ok(())
}

/// Reads some names, and returns whether any were left.
fn read_some<N: NameReader>(
    alloc: Global,
    names: &mut N,
    buffer: &mut [u8],
    dir: &mut Dir,
) -> Result<bool, Refusal>
    requires { 0 < length buffer.old }
    ensures read { IfOk result (λ more. N.stays names.old → with_held_names (N.left names.new) dir.new ≡ with_held_names (N.left names.old) dir.old) }
    ensures end { IfOk result (λ more. N.stays names.old → more ≡ false → N.left names.new ≡ []) }
    ensures unchanged { N.stays names.old → N.stays names.new }
    ensures faults { N.may_fail names.new → N.may_fail names.old }
    ensures refused { IfErr result (λ e. e ≢ no_memory → (e ≡ DeviceFailed) × N.may_fail names.old) }
{
    match names.read_names(buffer) {
        Ok(0) => Ok(false),
        Ok(n) => {
            add_names(alloc, dir, &buffer[..n])?;
            Ok(true)
        }
        Err(e) if e.kind() == ErrorKind::Interrupted => Ok(true),
        Err(_) => Err(Refusal::DeviceFailed),
    }
}

/// Reads names to their end, and puts them in order: what a crawl finds then stands nearly as its listing wants it,
/// and folders are sorted by all workers. `DeviceFailed` if a read failed, and `NoMemory`, also if the end doesn't come.
pub(crate) fn read_names<N: NameReader>(alloc: Global, names: &mut N) -> Result<Dir, Refusal>
    ensures whole { OnOk result (N.stays names.old → N.left names.new ≡ []) }
    ensures names { IfOk result (λ d. N.stays names.old → d ≡ folder_of (N.left names.old)) }
    ensures refused { IfErr result (λ e. e ≢ no_memory → (e ≡ DeviceFailed) × N.may_fail names.old) }
{
    let mut dir = Dir::with_room(alloc, ROOM)?;
    let mut buffer = [0u8; 8192];
    for _ in 0..u64::MAX {
        if !read_some(alloc, names, &mut buffer, &mut dir)? {
            dir.sort()?;
            return Ok(dir);
        }
    }
    Err(Refusal::NoMemory)
}
