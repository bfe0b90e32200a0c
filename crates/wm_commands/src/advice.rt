//! What to do at a refusal. Tests: commands_tests/src/advice.rt.
ghost use Rattle.std.specs.Prelude.{◌≡◌, ◌≢◌, not, true};
ghost use Rattle.wm_disk.specs.declared.refusal.Refusal.TheVariants.{BadExpression as bad_expression};

use wm_disk::Refusal;

/// What to do at a refusal of the server, in a sentence without its end.
pub fn advice_of(refusal: Refusal) -> &'static str {
    match refusal {
        Refusal::BadPath => "a watched folder needs a path of at most 1,024 bytes, and can't be /",
        Refusal::NotWatched =>
            "'wm watch DIR' watches a folder, 'wm list' prints those that are watched",
        Refusal::NotReady => "the first crawl isn't done yet: try again, or see 'wm status'",
        Refusal::BadClock => "a clock is what --clock printed, @NAME a name of at most 64 bytes",
        Refusal::BadExpression =>
            "--expr takes allof anyof not true false name suffix type exists empty size match, as QUERIES.md has them",
        Refusal::Full => "the state file has no space left: 'wm unwatch' what nobody needs",
        Refusal::StoreFailed | Refusal::DeviceFailed => {
            "the server can't write its state file or read a folder: look at the disk, at the rights and at its log"
        }
        Refusal::NoMemory => "the server has no memory left: ask for fewer files, or later",
        Refusal::TooMany =>
            "the server has too many watched folders, or names for --since: 'wm unwatch' what nobody needs",
        Refusal::NoPlace => "the folder is no longer watched, or the server is busy: try again",
        _ =>
            "this wm and the server may be of two versions: 'wm down' and 'wm up' start the new one",
    }
}

/// Whether what to do stands behind a refusal. The terms of an expression don't if a line behind it says which part is the cause.
pub fn is_advised(refusal: Refusal, is_explained: bool) -> bool
    ensures expression { refusal ≡ bad_expression → result ≡ not is_explained }
    ensures other { refusal ≢ bad_expression → result ≡ true }
{
    refusal != Refusal::BadExpression || !is_explained
}

/// What is said if the server refuses a session, before any request.
pub const NO_SESSION: &str =
    "all of the server's 31 sessions are taken (17 TooMany); try later, or end what holds them, as 'wm run' and feeds do";

/// What a refusal of a question about a root tells of the root. `None` if it is named by itself. A root is stuck if a folder below it
/// can't be read, and no feed runs.
pub fn root_status(refusal: Refusal, is_stuck: bool) -> Option<&'static str> {
    match refusal {
        Refusal::NotReady => Some(if is_stuck {
            "not crawled, since a folder below it can't be read; a feed passes it over: 'wm up' starts one"
        } else {
            "not crawled yet"
        }),
        Refusal::NotWatched => Some("no longer watched"),
        _ => None,
    }
}

/// What to do if a folder in a root can't be read, so that the root can't be crawled.
pub fn unreadable_advice(is_running: bool) -> &'static str {
    if is_running {
        "the feed passes it over once it is ready: 'wm status' tells"
    } else {
        "a feed passes it over: 'wm up' starts one"
    }
}

/// What is said of a path that no watched folder has, and that can't be watched either.
pub const NO_ROOT_ADVICE: &str =
    "it can't be watched either: a watched folder needs a path of at most 1,024 bytes, and can't be /";

/// What to do if a folder can't be read.
pub const READ_ADVICE: &str = "give the server's user the right to read it ('chmod u+rx')";
