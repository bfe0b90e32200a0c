//! What /proc tells to be watched.
use crate::checks::check;
use std::collections::BTreeSet;
use wm_feed::add_watched;

/// As the system tells it of a process that watches two folders.
const TOLD: &str = "pos:\t0\nflags:\t00\nmnt_id:\t17\nino:\t3084
inotify wd:5 ino:a7c0d3 sdev:fe00000 mask:fce ignored_mask:0 fhandle-bytes:8 fhandle-type:1 f_handle:d3c0a7009bb3767d
inotify wd:1 ino:10 sdev:fe00000 mask:fce ignored_mask:0
eventfd-count:                0\n";

#[test]
fn numbers_of_two_folders(rt: HostRuntime) {
    let mut watched = BTreeSet::new(rt.alloc());
    check!(rt; add_watched(rt.alloc(), &mut watched, TOLD).is_ok());
    check!(rt; watched.len() == 2);
    check!(rt; watched.contains(&10_993_875) && watched.contains(&16));
}
