//! Which watched root holds a folder or is named by a path, and how the root's files are named from there. Definitions: specs/Folders.
//! Tests: commands_tests/src/folders.rt.
ghost use Rattle.std.specs.Prelude.{◌≡◌, ◌==◌, IfOk, option_map, string_bytes};
ghost use Rattle.std.specs.List.{list_all};
ghost use Rattle.wm_commands.specs.Folders.{IsHolderOf, IsNameIn, IsNamedRoot, better_root, ends_component, holds_folder, longer_root, name_in, names_root, path_behind, path_in, reported_name};

use std::alloc::Global;
use wm_disk::NoMemory;
use wm_names::RootPath;

/// Whether a component ends in front of what is left of a path.
fn ends_component(rest: &[u8]) -> bool
    ensures { result ≡ ends_component rest.now }
{
    match rest {
        [] => true,
        [first, ..] => *first == b'/',
    }
}

/// Whether a folder is what a path names, or stands above it.
pub(crate) fn stands_above(folder: &str, path: &str) -> bool
    ensures { result ≡ holds_folder folder.now path.now }
{
    match path.as_bytes().strip_prefix(folder.as_bytes()) {
        Some(rest) => ends_component(rest),
        None => false,
    }
}

/// Whether a root is a folder, or stands above it.
fn holds(root: &RootPath, dir: &str) -> bool
    ensures { result ≡ holds_folder root.now dir.now }
{
    stands_above(root.as_str(), dir)
}

/// The longer of two roots, the first if they are alike.
fn longer<'a>(best: Option<&'a RootPath>, root: &'a RootPath) -> Option<&'a RootPath>
    ensures { option_map (λ r. r.now) result ≡ longer_root (option_map (λ r. r.now) best.entry) root.entry.now }
{
    let Some(best) = best else {
        return Some(root);
    };
    if root.as_str().len() <= best.as_str().len() {
        Some(best)
    } else {
        Some(root)
    }
}

/// The better of two roots for a folder: the best so far, unless the other holds the folder and is longer.
fn better<'a>(best: Option<&'a RootPath>, root: &'a RootPath, dir: &str) -> Option<&'a RootPath>
    ensures { option_map (λ r. r.now) result ≡ better_root dir.now (option_map (λ r. r.now) best.entry) root.entry.now }
{
    if holds(root, dir) {
        longer(best, root)
    } else {
        best
    }
}

/// The watched root that holds a folder: the longest that is the folder itself or stands above it, by whole components.
pub fn holder_of<'a>(roots: &'a [RootPath], dir: &str) -> Option<&'a RootPath>
    ensures { IsHolderOf roots.now dir.now (option_map (λ root. root.now) result) }
{
    let mut best = None;
    for root in roots {
        best = better(best, root, dir);
    }
    best
}

/// Whether bytes are slashes alone.
fn are_slashes(rest: &[u8]) -> bool
    ensures { result ≡ list_all (λ b. b == 47) rest.now }
{
    rest.iter().all(|b| *b == b'/')
}

/// Whether a path is that of a root, perhaps with slashes behind it.
fn names(root: &RootPath, path: &str) -> bool
    ensures { result ≡ names_root root.now path.now }
{
    match path.as_bytes().strip_prefix(root.as_str().as_bytes()) {
        Some(rest) => are_slashes(rest),
        None => false,
    }
}

/// The root that is meant by a path, which leads to a folder: the listed root of this path if there is one, also a symlink's, and else
/// the folder.
pub fn named_root<'a>(roots: &'a [RootPath], path: &str, folder: &'a str) -> &'a str
    ensures { IsNamedRoot roots.now path.now folder.now result.now }
{
    for root in roots {
        if names(root, path) {
            return root.as_str();
        }
    }
    folder
}

/// What follows a start of a path.
pub(crate) fn behind<'a>(start: &str, path: &'a str) -> Option<&'a str>
    ensures { option_map (λ s. s.now) result ≡ path_behind start.now path.now }
{
    path.strip_prefix(start)
}

/// The name of a path in a folder, computed.
fn name_behind<'a>(alloc: Global, folder: &str, path: &'a str) -> Result<Option<&'a str>, NoMemory>
    ensures { IfOk result (λ r. option_map (λ s. s.now) r ≡ name_in folder.now path.now) }
{
    let start = format!(in alloc; "{folder}/")?;
    Ok(behind(&start, path))
}

/// The name of a path in a folder. `None` if the path isn't in the folder; the folder itself isn't.
pub fn name_in<'a>(alloc: Global, folder: &str, path: &'a str) -> Result<Option<&'a str>, NoMemory>
    ensures value { IfOk result (λ r. option_map (λ s. s.now) r ≡ name_in folder.now path.now) }
    ensures path { IfOk result (λ r. IsNameIn folder.now path.now (option_map (λ s. s.now) r)) }
{
    name_behind(alloc, folder, path)
}

/// The name by which a file of a root is reported from a folder. `None` if the file isn't in that folder.
pub fn reported_name(
    alloc: Global,
    root: &str,
    dir: &str,
    name: &str,
) -> Result<Option<String>, NoMemory>
    ensures value { IfOk result (λ r. option_map string_bytes r ≡ reported_name root.now dir.now name.now) }
    ensures path { IfOk result (λ r. IsNameIn dir.now (path_in root.now name.now) (option_map string_bytes r)) }
{
    let path = format!(in alloc; "{root}/{name}")?;
    match name_in(alloc, dir, &path)? {
        Some(reported) => Ok(Some(String::from_str(alloc, reported)?)),
        None => Ok(None),
    }
}
