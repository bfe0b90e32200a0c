//! What is at the path of a watched root, and what a wait for its first crawl does then. Definitions: specs/RootLooks.
//! Tests: commands_tests/src/root_looks.rt.
ghost use Rattle.std.specs.Prelude.{◌≡◌};
ghost use Rattle.wm_commands.specs.RootLooks.{crawl_step, folder_note, more_unnamed, root_seen};

/// What is at the path of a watched root.
#[derive(Clone, Copy, Debug, PartialEq, Eq)]
pub enum RootSeen {
    /// A folder that can be read.
    Folder,
    /// A folder that can't be read.
    Unreadable,
    /// A file, or something else that is no folder.
    NoFolder,
    /// Nothing.
    Nothing,
}

impl RootSeen {
    /// What is at a path, by whether something is there, whether that is a folder, and whether it can be read.
    pub fn of(is_there: bool, is_folder: bool, is_readable: bool) -> RootSeen
        ensures { result ≡ root_seen is_there is_folder is_readable }
    {
        match (is_there, is_folder, is_readable) {
            (false, _, _) => RootSeen::Nothing,
            (true, false, _) => RootSeen::NoFolder,
            (true, true, false) => RootSeen::Unreadable,
            (true, true, true) => RootSeen::Folder,
        }
    }
}

/// What a wait for the first crawl of a root does after a look.
#[derive(Clone, Copy, Debug, PartialEq, Eq)]
pub enum CrawlStep {
    /// It ends, since the root was crawled.
    Done,
    /// It ends, since the root can't be read.
    GiveUp,
    /// It asks for a crawl, which says why there was none.
    AskForCrawl,
    /// It looks again.
    LookAgain,
}

/// What a wait for the first crawl of a root does, by whether it was crawled, what is at its path, and whether it is late.
pub fn crawl_step(is_crawled: bool, seen: RootSeen, is_late: bool) -> CrawlStep
    ensures { result ≡ crawl_step is_crawled seen is_late }
{
    match (is_crawled, seen, is_late) {
        (true, _, _) => CrawlStep::Done,
        (false, RootSeen::Unreadable, _) => CrawlStep::GiveUp,
        (false, RootSeen::Folder | RootSeen::NoFolder | RootSeen::Nothing, true) => {
            CrawlStep::AskForCrawl
        }
        (false, RootSeen::Folder | RootSeen::NoFolder | RootSeen::Nothing, false) => {
            CrawlStep::LookAgain
        }
    }
}

/// How many folders that can't be read are named.
pub const MOST_NAMED: usize = 3;

/// How many of so many folders that can't be read aren't named. `None` if all of them are.
pub fn more_unnamed(count: usize) -> Option<usize>
    ensures { result ≡ more_unnamed count }
{
    if count <= MOST_NAMED {
        None
    } else {
        Some(count - MOST_NAMED)
    }
}

/// What a command that asks for files says of the folder that it is about.
#[derive(Clone, Copy, Debug, PartialEq, Eq)]
pub enum FolderNote {
    /// Nothing.
    Silent,
    /// It can't be read, and what is known of it is from before.
    Stale,
    /// It can't be read, and nothing of it is known: the command fails.
    Unknown,
}

/// What a command that asks for files says of a folder, by what is at its path, and whether the server knows a file in it.
pub fn folder_note(seen: RootSeen, is_known: bool) -> FolderNote
    ensures { result ≡ folder_note seen is_known }
{
    match (seen, is_known) {
        (RootSeen::Unreadable, true) => FolderNote::Stale,
        (RootSeen::Unreadable, false) => FolderNote::Unknown,
        (RootSeen::Folder | RootSeen::NoFolder | RootSeen::Nothing, _) => FolderNote::Silent,
    }
}
