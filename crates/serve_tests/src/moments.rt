//! The moments of what two threads hand in, under a clock that rises at each reading.
ghost use Rattle.std.specs.Prelude.{◌≡◌};

use crate::checks::check;
use crate::roots::{NEVER, meet_line, opened_root};
use std::alloc::{Alloc, Global};
use std::marker::Brand;
use std::process::Abort;
use std::sync::Wait;
use std::sync::atomic::{AtomicU64, Ordering};
use std::thread;
use std::thread::Threads;
use wm_front::Viewers;
use wm_names::{Kind, Meta, RelPath};
use wm_root::{Change, Seconds, WatchedRoot};
use wm_share::{Naming, Opened, Shares};
use wm_view::Pairs;

/// A clock that is a second later at each reading.
#[derive(Drop)]
struct Rising {
    next: AtomicU64,
}

impl Seconds for Rising {
    ghost use Rattle.std.specs.Prelude.{⊤};

    ghost may_read = { λ rising second. ⊤ };

    fn second(&self) -> u64 {
        self.next.fetch_add(1, Ordering::SeqCst)
    }
}

/// The first second that the clock gives, behind that of the root's first listing.
const FIRST: u64 = 100;

/// How many files each thread makes.
const FILES: u64 = 100;

/// An observation of a new file.
fn made<R: Abort>(rt: &R, alloc: Global, letter: &str, number: u64) -> Change {
    let text = format!(in alloc; "{letter}{number}").expect(rt, "memory");
    let path = RelPath::read(alloc, &text).expect(rt, "a path");
    let meta = Meta {
        kind: Kind::File,
        size: 1,
        mtime_ms: 0,
    };
    let mut pairs = Vec::new(alloc);
    pairs.push((path, Some(meta))).expect(rt, "memory");
    Change::Observe(Pairs::new(pairs))
}

/// Makes files, one after the other.
fn make_files<J: Naming, R: Wait + Abort, K: Wait + Drop>(
    rt: &R,
    alloc: Global,
    root: &WatchedRoot<J, K>,
    rising: &Rising,
    letter: &str,
) {
    let mut viewers = Viewers::new(alloc);
    for number in 0..FILES {
        let change = made(rt, alloc, letter, number);
        let is_made = match viewers.change(rt, alloc, root, rising, change) {
            Ok((met, changed)) => {
                changed.into_forgot();
                met.is_ok()
            }
            Err(_) => false,
        };
        check!(*rt; is_made, number);
    }
    drop(viewers);
}

/// The names that an answer lists, as its line has them.
fn names_in(line: &[u8]) -> Option<&str> {
    let text = str::from_utf8(line).ok()?;
    let (_, behind) = text.split_once("\"files\":[")?;
    let (names, _) = behind.split_once(']')?;
    Some(names)
}

/// How many names there are.
fn count_of(names: &str) -> u64 {
    let commas = names.bytes().filter(|byte| *byte == b',').count();
    u64::try_from(commas)
        .unwrap_or(0)
        .saturating_add(u64::from(!names.is_empty()))
}

/// Appends the answer since a second.
fn answer_since<J: Naming, R: Wait + Abort, K: Wait + Drop>(
    rt: &R,
    alloc: Global,
    root: &WatchedRoot<J, K>,
    viewers: &mut Viewers<J>,
    second: u64,
    out: &mut Vec<u8>,
) {
    let line = format!(in alloc;
        "[\"query\",\"/r\",{{\"since\":{second},\"fields\":[\"name\"]}}]\n"
    ).expect(rt, "memory");
    out.clear();
    meet_line(rt, alloc, root, viewers, &line, out).expect(rt, "an answer");
}

/// What is listed since a second is what changed last: no later change has an earlier moment.
fn moments_rise<J: Naming, R: Wait + Abort, K: Wait + Drop>(
    rt: &R,
    alloc: Global,
    root: &WatchedRoot<J, K>,
) {
    let mut viewers = Viewers::new(alloc);
    let mut all = Vec::new(alloc);
    let mut out = Vec::new(alloc);
    answer_since(rt, alloc, root, &mut viewers, FIRST, &mut all);
    let whole = names_in(&all).expect(rt, "names");
    check!(*rt; count_of(whole) == 2 * FILES);
    for second in FIRST..=FIRST + 2 * FILES {
        answer_since(rt, alloc, root, &mut viewers, second, &mut out);
        let names = names_in(&out).expect(rt, "names");
        check!(*rt; whole.starts_with(names), second);
        check!(*rt; count_of(names) == FIRST + 2 * FILES - second, second);
    }
    drop(viewers);
}

fn two_threads<J: Naming + Send + Sync, R: Wait + Abort + Threads + Sync>(
    rt: &R,
    alloc: Global,
    opened: Opened,
)
    requires { opened.seen.book ≡ J.book }
{
    let shares: Shares<J> = Shares::new(opened);
    let root = opened_root(rt, alloc, shares, NEVER);
    let rising = Rising {
        next: AtomicU64::new(FIRST),
    };
    let mut viewers = Viewers::new(alloc);
    let mut out = Vec::new(alloc);
    meet_line(
        rt,
        alloc,
        &root,
        &mut viewers,
        "[\"listing\",\"/r\",0,\"\",[]]\n",
        &mut out,
    )
    .expect(rt, "a listing");
    let ((), ()) = thread::join(
        rt,
        || make_files(rt, alloc, &root, &rising, "a"),
        || make_files(rt, alloc, &root, &rising, "b"),
    );
    moments_rise(rt, alloc, &root);
    drop(viewers);
    drop(root);
}

#[test]
fn moments_of_two_threads_rise(rt: HostRuntime) {
    two_threads::<Brand, _>(&rt, rt.alloc(), Opened::new());
}
