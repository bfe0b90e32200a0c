//! The watched roots of a server of one thread, without workers and triggers.
ghost use Rattle.std.specs.Prelude.{◌≡◌, ◌⊎◌, IfErr};

use std::alloc::Global;
use std::sync::{Arc, Mutex, Wait};
use wm_disk::Refusal;
use wm_front::Roots;
use wm_groupcommit::CommandNumber;
use wm_names::{RootPath, Subtree};
use wm_registry::Command;
use wm_root::{Change, Changed, Retention, Seconds, WatchedRoot};
use wm_share::{Naming, Opened, Shares};
use wm_view::Listing;

/// Nothing is forgotten by itself.
const RETENTION: Retention = Retention {
    age_seconds: 1_000_000,
    interval_seconds: 1_000_000,
};

/// A root that takes the place of the one of its path after so many look-ups, as if others had deleted that one and watched the path again.
#[derive(Drop)]
struct Successor<J: Naming, K: Wait + Drop> {
    finds: u64,
    root: Arc<WatchedRoot<J, K>>,
}

/// The roots in the order of watching, the number of the next, and how many have ended.
#[derive(Drop)]
struct Followed<J: Naming, K: Wait + Drop> {
    roots: Vec<Arc<WatchedRoot<J, K>>>,
    next: u64,
    ended: u64,
    shares: Shares<J>,
    successor: Option<Successor<J, K>>,
}

/// The watched roots.
#[derive(Drop)]
pub(crate) struct Watched<J: Naming, K: Wait + Copy + Drop> {
    keeping: K,
    /// The second that it is.
    second: u64,
    followed: Mutex<Followed<J, K>>,
}

impl<J: Naming, K: Wait + Copy + Drop> Watched<J, K> {
    /// No root is watched yet.
    pub(crate) fn new(alloc: Global, keeping: K, second: u64, opened: Opened) -> Watched<J, K>
        requires { opened.seen.book ≡ J.book }
    {
        Watched {
            keeping,
            second,
            followed: Mutex::new(Followed {
                roots: Vec::new(alloc),
                next: 1,
                ended: 0,
                shares: Shares::new(opened),
                successor: None,
            }),
        }
    }

    /// The root of a path is looked up so many times before another one, which lists no file, takes its place.
    pub(crate) fn replace_after<R: Wait>(
        &self,
        rt: &R,
        alloc: Global,
        path: &RootPath,
        finds: u64,
    ) -> Option<()> {
        let mut followed = self.followed.lock(rt);
        let number = followed.next;
        let root = new_root(alloc, self.keeping, &mut followed.shares, path, number)?;
        followed.next = number.saturating_add(1);
        list_nothing(rt, alloc, self, &root)?;
        followed.successor = Some(Successor { finds, root });
        Some(())
    }
}

/// The first listing of a root, which has no file.
fn list_nothing<R: Wait, S: Seconds, J: Naming, K: Wait + Drop>(
    rt: &R,
    alloc: Global,
    seconds: &S,
    root: &WatchedRoot<J, K>,
) -> Option<()> {
    let mut viewer = root.acquire_viewer(rt).ok()?;
    let listing = Listing::new(alloc, Subtree::Whole);
    let change = Change::Recrawl(0, listing);
    let (listed, changed) = root.change(rt, alloc, seconds, &mut viewer, change);
    let _forgot = changed.into_forgot();
    root.release_viewer(rt, viewer);
    listed.ok()?;
    Some(())
}

/// A root was looked up: its successor takes its place if it is time for that.
fn count_find<J: Naming, K: Wait + Copy + Drop>(followed: &mut Followed<J, K>) {
    let Some(Successor { finds, root }) = followed.successor.take() else {
        return;
    };
    if finds > 0 {
        let finds = finds - 1;
        followed.successor = Some(Successor { finds, root });
        return;
    }
    take_out(followed, &root.path);
    let _pushed = followed.roots.push(root);
}

/// The place of the root of a path.
fn place_of<J: Naming, K: Wait + Drop>(
    roots: &[Arc<WatchedRoot<J, K>>],
    path: &RootPath,
) -> Option<usize> {
    for place in 0..roots.len() {
        if roots[place].path == *path {
            return Some(place);
        }
    }
    None
}

/// The root of a path.
fn root_at<J: Naming, K: Wait + Drop>(
    roots: &[Arc<WatchedRoot<J, K>>],
    path: &RootPath,
) -> Result<Arc<WatchedRoot<J, K>>, Refusal>
    ensures { IfErr result (λ e. (e ≡ Refusal.NotWatched) ⊎ (e ≡ Refusal.NoMemory)) }
{
    let Some(place) = place_of(roots, path) else {
        return Err(Refusal::NotWatched);
    };
    let Some(root) = roots.get(place) else {
        return Err(Refusal::NotWatched);
    };
    match Arc::try_clone(root) {
        Ok(root) => Ok(root),
        Err(_) => Err(Refusal::NoMemory),
    }
}

/// The number of the root at a place.
fn number_at<J: Naming, K: Wait + Drop>(
    roots: &[Arc<WatchedRoot<J, K>>],
    path: &RootPath,
) -> Option<u64> {
    let place = place_of(roots, path)?;
    match roots.get(place) {
        Some(root) => Some(root.number),
        None => None,
    }
}

/// Whether a root has the number.
fn has_number<J: Naming, K: Wait + Drop>(roots: &[Arc<WatchedRoot<J, K>>], number: u64) -> bool {
    for root in roots {
        if root.number == number {
            return true;
        }
    }
    false
}

/// A new root.
fn new_root<J: Naming, K: Wait + Copy + Drop>(
    alloc: Global,
    keeping: K,
    shares: &mut Shares<J>,
    path: &RootPath,
    number: u64,
) -> Option<Arc<WatchedRoot<J, K>>> {
    let (keeper, pool) = shares.share(keeping, alloc, 1, number).ok()?;
    let root = WatchedRoot::new(alloc, path, number, keeper, pool, RETENTION).ok()?;
    Arc::new(alloc, root).ok()
}

/// Adds a root.
fn add<J: Naming, K: Wait + Copy + Drop>(
    alloc: Global,
    keeping: K,
    followed: &mut Followed<J, K>,
    path: &RootPath,
) {
    let number = followed.next;
    if let Some(root) = new_root(alloc, keeping, &mut followed.shares, path, number) {
        followed.next = number.saturating_add(1);
        let _pushed = followed.roots.push(root);
    }
}

/// Takes a root out.
fn take_out<J: Naming, K: Wait + Copy + Drop>(followed: &mut Followed<J, K>, path: &RootPath) {
    if let Some(place) = place_of(&followed.roots, path)
        && place < followed.roots.len()
    {
        drop(followed.roots.remove(place));
        followed.ended = followed.ended.saturating_add(1);
    }
}

impl<J: Naming, K: Wait + Copy + Drop> Seconds for Watched<J, K> {
    ghost use Rattle.std.specs.Prelude.{◌≡◌};

    ghost may_read = { λ roots second. second ≡ roots.second };

    fn second(&self) -> u64 {
        self.second
    }
}

impl<J: Naming, K: Wait + Copy + Drop> Roots<J, K> for Watched<J, K> {
    ghost use Rattle.std.specs.Prelude.{⊤};

    ghost has = { λ roots path number. ⊤ };

    ghost lacks = { λ roots path. ⊤ };

    ghost ended = { λ roots number. ⊤ };

    ghost followed = { λ roots number. ⊤ };

    ghost woken = { λ roots number. ⊤ };

    fn find<R: Wait>(
        &self,
        rt: &R,
        _alloc: Global,
        path: &RootPath,
    ) -> Result<Arc<WatchedRoot<J, K>>, Refusal> {
        let mut followed = self.followed.lock(rt);
        count_find(&mut followed);
        root_at(&followed.roots, path)
    }

    fn is_watched<R: Wait>(&self, rt: &R, number: u64) -> bool {
        has_number(&self.followed.lock(rt).roots, number)
    }

    fn number_of<R: Wait>(&self, rt: &R, path: &RootPath) -> Option<u64> {
        number_at(&self.followed.lock(rt).roots, path)
    }

    fn ended_count<R: Wait>(&self, rt: &R) -> u64 {
        self.followed.lock(rt).ended
    }

    fn follow<R: Wait>(&self, rt: &R, alloc: Global, _number: CommandNumber, command: Command) {
        let mut followed = self.followed.lock(rt);
        match &command {
            Command::Watch(path) => add(alloc, self.keeping, &mut followed, path),
            Command::WatchDel(path) => take_out(&mut followed, path),
            Command::Begin | Command::Trigger(_, _) | Command::TriggerDel(_, _) => {}
        }
        drop(followed);
        drop(command);
    }

    fn await_followed<R: Wait>(&self, _rt: &R, _count: u64) {}

    fn notify<R: Wait>(&self, _rt: &R, _root: &WatchedRoot<J, K>, changed: Changed) {
        let _forgot = changed.into_forgot();
    }
}
