//! A folder of a system of files as a tree.
//! Definitions: specs/FileSystems.antt, specs/Trees.antt. Tests: crawler_tests/src/folders.rt.
ghost use Rattle.std.specs.Prelude.{◌≡◌, ◌≢◌, ◌+◌, ◌≤◌, ◌++◌, [], Some, map, length, option_map, string_bytes, take, IfOk, IfErr, OnOk};
ghost use Rattle.wm_disk.specs.declared.refusal.Refusal.TheVariants.{DeviceFailed, NoMemory as no_memory};
ghost use Rattle.wm_names.specs.Paths.{Path};
ghost use Rattle.wm_names.specs.Entries.{join};
ghost use Rattle.wm_names.specs.declared.subtree.Subtree.TheVariants.{Below};
ghost use Rattle.wm_crawler.specs.FileSystems.{SomePathFails, content_below, tree_files, place_path, tree_root};
ghost use Rattle.wm_crawler.specs.Stats.{meta_of_stat};
ghost use Rattle.wm_crawler.specs.Trees.{AreMetas, SomeFails};

use crate::dir::Dir;
use crate::file_system::FileSystem;
use crate::folder_names::read_names;
use crate::stat::{meta_by, missing_or};
use crate::tree::Tree;
use std::alloc::Global;
use wm_disk::{NoMemory, Refusal};
use wm_names::{Meta, RelPath, RootPath, Subtree};

/// How many paths are written before the system is asked about the first of them. Between two questions a path
/// comes slowly from memory, and fast where one is read after another.
const BATCH: usize = 64;

/// Makes the text that of a path below a root. Where the path is empty the text ends with a slash, so that a link
/// at the root is followed.
fn write_path(root: &RootPath, text: &mut String, path: &str) -> Result<(), NoMemory>
    ensures { OnOk result (string_bytes text.new ≡ join (Below root.now) path.now) }
{
    text.clear();
    text.push_str(root.as_str())?;
    text.push('/')?;
    text.push_str(path)?;
    Ok(())
}

/// A text for each path of a batch.
fn empty_texts(alloc: Global) -> Result<Vec<String>, NoMemory>
    ensures { IfOk result (λ v. length v.items ≡ 64) }
{
    let mut texts = Vec::with_capacity(alloc, BATCH)?;
    for _ in 0..BATCH {
        texts.push(String::new(alloc))?;
    }
    Ok(texts)
}

/// Makes the first texts those of the paths, behind the prefix.
fn write_paths(prefix: &str, texts: &mut [String], paths: &[RelPath]) -> Result<(), NoMemory>
    requires { length paths.now ≤ length texts.old }
    ensures same { length texts.new ≡ length texts.old }
    ensures written { OnOk result (map string_bytes (take (length paths.now) texts.new) ≡ map (λ p. prefix.now ++ p) paths.now) }
{
    for i in 0..paths.len() {
        let text = &mut texts[i];
        text.clear();
        text.push_str(prefix)?;
        text.push_str(paths[i].as_str())?;
    }
    Ok(())
}

/// What stands at a whole path. `DeviceFailed` if the system can't say it.
fn meta_at<F: FileSystem>(files: &F, path: &str) -> Result<Option<Meta>, Refusal>
    ensures read { IfOk result (λ m. F.stays files.now → m ≡ option_map meta_of_stat (F.stat_at files.now path.now)) }
    ensures refused { IfErr result (λ e. (e ≡ DeviceFailed) × F.may_fail files.now path.now) }
{
    let there = missing_or(files.stat(path))?;
    Ok(there.map(|stat| meta_by(&stat)))
}

/// What the folder at a place below a root holds; `None` if no folder is there. `DeviceFailed` if it couldn't be
/// read to its end, and `NoMemory`.
pub(crate) fn read_folder<F: FileSystem>(
    files: &F,
    alloc: Global,
    root: &RootPath,
    folder: &Subtree,
) -> Result<Option<Dir>, Refusal>
    ensures read { IfOk result (λ d. F.stays files.now → (content_below (F.names_at files.now) (F.stat_at files.now) root.now).held folder.now ≡ Some d) }
    ensures refused { IfErr result (λ e. e ≢ no_memory → (e ≡ DeviceFailed) × F.may_fail files.now (place_path root.now folder.now)) }
{
    let mut text = String::new(alloc);
    match folder {
        Subtree::Whole => write_path(root, &mut text, "")?,
        Subtree::Below(path) => write_path(root, &mut text, path.as_str())?,
    }
    let Some(mut names) = missing_or(files.open_folder(&text))? else {
        return Ok(None);
    };
    let dir = read_names(alloc, &mut names)?;
    Ok(Some(dir))
}

/// What stands at a path below a root; `None` if nothing is there. `DeviceFailed` if the system can't say it, and
/// `NoMemory`.
pub(crate) fn meta_below<F: FileSystem>(
    files: &F,
    alloc: Global,
    root: &RootPath,
    path: &RelPath,
) -> Result<Option<Meta>, Refusal>
    ensures read { IfOk result (λ m. F.stays files.now → (content_below (F.names_at files.now) (F.stat_at files.now) root.now).meta path.now ≡ Some m) }
    ensures refused { IfErr result (λ e. e ≢ no_memory → (e ≡ DeviceFailed) × F.may_fail files.now (place_path root.now (Below path.now))) }
{
    let mut text = String::new(alloc);
    write_path(root, &mut text, path.as_str())?;
    meta_at(files, &text)
}

/// Adds what stands at each of the whole paths.
fn add_metas<F: FileSystem>(
    files: &F,
    metas: &mut Vec<Option<Meta>>,
    texts: &[String],
) -> Result<(), Refusal>
    ensures read { OnOk result (F.stays files.now → metas.new.items ≡ metas.old.items ++ map (λ path. option_map meta_of_stat (F.stat_at files.now path)) (map string_bytes texts.now)) }
    ensures each { OnOk result (length metas.new.items ≡ length metas.old.items + length texts.now) }
    ensures refused { IfErr result (λ e. e ≢ no_memory → (e ≡ DeviceFailed) × SomePathFails (F.may_fail files.now) (map string_bytes texts.now)) }
{
    for text in texts {
        let there = meta_at(files, text)?;
        metas.push(there)?;
    }
    Ok(())
}

/// Adds what stands at each of the paths behind the prefix. Their whole paths are written to the texts first.
fn add_batch<F: FileSystem>(
    files: &F,
    prefix: &str,
    texts: &mut [String],
    metas: &mut Vec<Option<Meta>>,
    paths: &[RelPath],
) -> Result<(), Refusal>
    requires { length paths.now ≤ length texts.old }
    ensures same { length texts.new ≡ length texts.old }
    ensures each { OnOk result (length metas.new.items ≡ length metas.old.items + length paths.now) }
    ensures read { OnOk result (F.stays files.now → metas.new.items ≡ metas.old.items ++ map (λ p. option_map meta_of_stat (F.stat_at files.now (prefix.now ++ p))) paths.now) }
    ensures refused { IfErr result (λ e. e ≢ no_memory → (e ≡ DeviceFailed) × SomePathFails (λ p. F.may_fail files.now (prefix.now ++ p)) paths.now) }
{
    write_paths(prefix, texts, paths)?;
    add_metas(files, metas, &texts[..paths.len()])
}

/// What stands at each of the paths below a root. `DeviceFailed` if the system can't say it of one of them, and `NoMemory`.
pub(crate) fn metas_below<F: FileSystem>(
    files: &F,
    alloc: Global,
    root: &RootPath,
    paths: &[RelPath],
) -> Result<Vec<Option<Meta>>, Refusal>
    ensures each { IfOk result (λ v. length v.items ≡ length paths.now) }
    ensures read { IfOk result (λ v. F.stays files.now → AreMetas (content_below (F.names_at files.now) (F.stat_at files.now) root.now) paths.now v.items) }
    ensures refused { IfErr result (λ e. e ≢ no_memory → (e ≡ DeviceFailed) × SomeFails (λ place. F.may_fail files.now (place_path root.now place)) (map Below paths.now)) }
{
    let mut prefix = String::new(alloc);
    write_path(root, &mut prefix, "")?;
    let mut texts = empty_texts(alloc)?;
    let mut metas = Vec::with_capacity(alloc, paths.len())?;
    let mut rest = paths;
    while !rest.is_empty() {
        let (now, later) = rest.split_at(rest.len().min(BATCH));
        add_batch(files, &prefix, &mut texts, &mut metas, now)?;
        rest = later;
    }
    Ok(metas)
}

/// A folder of a system of files, with what stands below it. Other programs may change the files of the operating
/// system at any time, so a contract says what is listed only if nothing changes them.
#[derive(Drop)]
pub struct FolderTree<F> {
    files: F,
    root: RootPath,
}

impl<F: FileSystem> FolderTree<F> {
    /// The tree of the folder at a path. Nothing is read yet. A link that the root's path ends in is
    /// followed, and so is one in the midst of a path that is asked for; one at its end never is. A crawl asks
    /// about each component first, and goes on only over folders. It can't close the moment between that and
    /// the reading, in which another program may put a link in a folder's place, since std looks up whole paths.
    pub fn new(files: F, root: RootPath) -> FolderTree<F>
        ensures files { tree_files result ≡ files }
        ensures root { tree_root result ≡ root }
    {
        FolderTree { files, root }
    }
}

impl<F: FileSystem> Tree for FolderTree<F> {
    ghost content = { λ t. content_below (F.names_at (tree_files t)) (F.stat_at (tree_files t)) (tree_root t) };

    ghost stays = { λ t. F.stays (tree_files t) };

    ghost may_fail = { λ t place. F.may_fail (tree_files t) (place_path (tree_root t) place) };

    fn read_dir(&self, alloc: Global, folder: &Subtree) -> Result<Option<Dir>, Refusal> {
        read_folder(&self.files, alloc, &self.root, folder)
    }

    fn meta(&self, alloc: Global, path: &RelPath) -> Result<Option<Meta>, Refusal> {
        meta_below(&self.files, alloc, &self.root, path)
    }

    fn metas(&self, alloc: Global, paths: &[RelPath]) -> Result<Vec<Option<Meta>>, Refusal> {
        metas_below(&self.files, alloc, &self.root, paths)
    }
}
