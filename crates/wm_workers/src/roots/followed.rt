//! How the table of the watched roots follows the accepted commands: by path and number it stands as the registry does.
//! Definitions: specs/FollowedRoots.antt. Tests: serve_tests/src/sessions.rt.
ghost use Rattle.std.specs.Prelude.{◌≡◌, MatchResult};
ghost use Rattle.wm_workers.specs.FollowedRoots.{FillsRoot, FollowsCommand, HasWorkers, IsStepOf, PutsRoot, TakesRoot, root_made as root_made_lem, left_to_root, numbered_roots, end_of_row, ends_root as ends_root_lem};
ghost use Rattle.wm_workers.specs.WatchedRoots.{has_path};
ghost use Rattle.std.specs.Prelude.{find};

use super::table::{RootRow, RootTable};
use crate::unstarted::UnstartedWorkers;
use wm_disk::NoMemory;
use wm_names::RootPath;
use wm_registry::{Command, Trigger, TriggerName};

/// What is left to do at a root, once the table has followed a command.
#[derive(Drop)]
pub enum Followed<H> {
    Nothing,
    /// The root was taken out: it ends.
    Ended(H),
    /// The root has the trigger from now on.
    Defined(RootPath, Trigger),
    /// The root's trigger of that name is deleted.
    Deleted(RootPath, TriggerName),
}

/// Has both workers of a root started if the row has one. Without memory for these it has none.
fn with_workers<H: Drop>(unstarted: &mut UnstartedWorkers, root: RootRow<H>) -> RootRow<H>
    ensures { HasWorkers root unstarted.old result unstarted.new }
{
    let RootRow {
        path,
        number,
        watched,
    } = root;
    let Some(watched) = watched else {
        return RootRow {
            path,
            number,
            watched: None,
        };
    };
    match unstarted.put(number) {
        Ok(()) => RootRow {
            path,
            number,
            watched: Some(watched),
        },
        Err(NoMemory) => {
            drop(watched);
            RootRow {
                path,
                number,
                watched: None,
            }
        }
    }
}

/// Puts a row into the table, and has the workers of its root started. Without memory for these it has no root yet. A row that may not
/// be put is dropped.
pub fn put_root<H: Drop>(
    roots: &mut RootTable<H>,
    unstarted: &mut UnstartedWorkers,
    root: RootRow<H>,
)
    ensures { PutsRoot root roots.old unstarted.old roots.new unstarted.new }
{
    if !roots.can_put(root.number) {
        drop(root);
        return;
    }
    let root = with_workers(unstarted, root);
    roots.put(root);
}

/// Gives the row of a number this root if it has none, and has the workers started. `NoMemory`: nothing changes then.
pub fn fill_root<H: Drop>(
    roots: &mut RootTable<H>,
    unstarted: &mut UnstartedWorkers,
    number: u64,
    watched: H,
) -> Result<(), NoMemory>
    ensures { MatchResult result (λ _. FillsRoot number watched roots.old unstarted.old roots.new unstarted.new) (λ _. (roots.new ≡ roots.old) × (unstarted.new ≡ unstarted.old)) }
{
    if !roots.lacks_root(number) {
        drop(watched);
        return Ok(());
    }
    if unstarted.put(number).is_err() {
        drop(watched);
        return Err(NoMemory);
    }
    roots.fill(number, watched);
    Ok(())
}

/// The root that was made, if the row gets the number that it was made for.
fn root_made<H: Drop>(number: u64, made: Option<(u64, H)>) -> Option<H>
    ensures { result ≡ root_made_lem number made }
{
    let (made_for, watched) = made?;
    if made_for != number {
        drop(watched);
        return None;
    }
    Some(watched)
}

/// Adds a row with the next number, and the root that was made for that.
fn watch<H: Drop>(
    roots: &mut RootTable<H>,
    unstarted: &mut UnstartedWorkers,
    path: RootPath,
    made: Option<(u64, H)>,
)
    ensures { PutsRoot (record { path = path; number = roots.old.next; watched = root_made_lem roots.old.next made }) roots.old unstarted.old roots.new unstarted.new }
{
    let number = roots.next();
    let watched = root_made(number, made);
    put_root(
        roots,
        unstarted,
        RootRow {
            path,
            number,
            watched,
        },
    );
}

/// Takes the row of a path out.
fn unwatch<H: Drop>(roots: &mut RootTable<H>, path: &RootPath) -> Followed<H>
    ensures taken { TakesRoot path.now roots.old roots.new }
    ensures ended { result ≡ end_of_row (find (has_path path.now) roots.old.roots) }
{
    let Some(root) = roots.take(path) else {
        return Followed::Nothing;
    };
    let RootRow {
        path: _,
        number: _,
        watched,
    } = root;
    match watched {
        Some(watched) => Followed::Ended(watched),
        None => Followed::Nothing,
    }
}

/// Does to the table what an accepted command did to the roots of the registry.
pub fn follow_command<H: Drop>(
    roots: &mut RootTable<H>,
    unstarted: &mut UnstartedWorkers,
    command: Command,
    made: Option<(u64, H)>,
) -> Followed<H>
    ensures follows { FollowsCommand command made roots.old unstarted.old roots.new unstarted.new }
    ensures step { IsStepOf command (numbered_roots roots.old) (numbered_roots roots.new) }
    ensures left { result ≡ left_to_root command roots.old.roots }
{
    match command {
        Command::Begin => Followed::Nothing,
        Command::Watch(path) => {
            watch(roots, unstarted, path, made);
            Followed::Nothing
        }
        Command::WatchDel(path) => unwatch(roots, &path),
        Command::Trigger(path, trigger) => Followed::Defined(path, trigger),
        Command::TriggerDel(path, name) => Followed::Deleted(path, name),
    }
}

/// Whether a command takes a root out.
pub fn ends_root(command: &Command) -> bool
    ensures { result ≡ ends_root_lem command.now }
{
    matches!(command, Command::WatchDel(_))
}
