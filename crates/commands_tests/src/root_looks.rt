//! What is at the path of a watched root, and what is done then.
use crate::checks::check;
use wm_commands::{CrawlStep, FolderNote, RootSeen, crawl_step, folder_note, more_unnamed};

/// Whether something is there, is a folder and can be read, and what that is.
const SEEN: &[(bool, bool, bool, RootSeen)] = &[
    (true, true, true, RootSeen::Folder),
    (true, true, false, RootSeen::Unreadable),
    (true, false, true, RootSeen::NoFolder),
    (true, false, false, RootSeen::NoFolder),
    (false, false, false, RootSeen::Nothing),
    (false, true, true, RootSeen::Nothing),
];

#[test]
fn looks_of_the_table(rt: HostRuntime) {
    for (is_there, is_folder, is_readable, wanted) in SEEN {
        let seen = RootSeen::of(*is_there, *is_folder, *is_readable);
        check!(rt; seen == *wanted, (is_there, is_folder, is_readable));
    }
}

/// Whether a root was crawled, what is at its path, whether it is late, and what the wait does.
const STEPS: &[(bool, RootSeen, bool, CrawlStep)] = &[
    (true, RootSeen::Folder, false, CrawlStep::Done),
    (true, RootSeen::Unreadable, true, CrawlStep::Done),
    (false, RootSeen::Unreadable, false, CrawlStep::GiveUp),
    (false, RootSeen::Unreadable, true, CrawlStep::GiveUp),
    (false, RootSeen::Folder, false, CrawlStep::LookAgain),
    (false, RootSeen::Folder, true, CrawlStep::AskForCrawl),
    (false, RootSeen::NoFolder, false, CrawlStep::LookAgain),
    (false, RootSeen::NoFolder, true, CrawlStep::AskForCrawl),
    (false, RootSeen::Nothing, false, CrawlStep::LookAgain),
    (false, RootSeen::Nothing, true, CrawlStep::AskForCrawl),
];

#[test]
fn crawls_of_the_table(rt: HostRuntime) {
    for (is_crawled, seen, is_late, wanted) in STEPS {
        let step = crawl_step(*is_crawled, *seen, *is_late);
        check!(rt; step == *wanted, (is_crawled, seen, is_late));
    }
}

/// How many folders can't be read, and how many of them aren't named.
const UNNAMED: &[(usize, Option<usize>)] = &[
    (0, None),
    (1, None),
    (3, None),
    (4, Some(1)),
    (100, Some(97)),
];

#[test]
fn unnamed_of_the_table(rt: HostRuntime) {
    for (count, wanted) in UNNAMED {
        check!(rt; more_unnamed(*count) == *wanted, count);
    }
}

/// What is at the path of a folder, whether the server knows a file in it, and what is said.
const NOTES: &[(RootSeen, bool, FolderNote)] = &[
    (RootSeen::Folder, true, FolderNote::Silent),
    (RootSeen::Folder, false, FolderNote::Silent),
    (RootSeen::NoFolder, false, FolderNote::Silent),
    (RootSeen::Nothing, false, FolderNote::Silent),
    (RootSeen::Unreadable, true, FolderNote::Stale),
    (RootSeen::Unreadable, false, FolderNote::Unknown),
];

#[test]
fn notes_of_the_table(rt: HostRuntime) {
    for (seen, is_known, wanted) in NOTES {
        check!(rt; folder_note(*seen, *is_known) == *wanted, (seen, is_known));
    }
}
