//! What to do if a program ended at its start.
use crate::checks::check;
use wm_commands::StartFault;

/// The last line that a program printed, what it says, and what stands behind it.
const LINES: &[(&str, StartFault, &str)] = &[
    (
        "wmfeed: inotifywait couldn't be started",
        StartFault::NoInotifywait,
        ": install inotify-tools",
    ),
    (
        "wmfeed: inotifywait couldn't be started: install inotify-tools, or put it on the PATH",
        StartFault::Explained,
        "",
    ),
    (
        "watchmand: 13 DeviceFailed",
        StartFault::DeviceFailed,
        ": look at the disk, and at the rights of the file 'state' beside the log",
    ),
    (
        "/s/state: this is no state file of watchmand",
        StartFault::ForeignState,
        ": move it away, and 'wm up' makes a new one",
    ),
    (
        "watchmand: 14 Damaged",
        StartFault::Unexplained,
        "; it didn't start",
    ),
    (
        "wmfeed: 17 TooMany",
        StartFault::Unexplained,
        "; it didn't start",
    ),
    ("", StartFault::Unexplained, "; it didn't start"),
    (
        "/s/state: another watchmand has it (pid 7)",
        StartFault::Explained,
        "",
    ),
];

#[test]
fn lines_of_the_table(rt: HostRuntime) {
    for (line, wanted, advice) in LINES {
        let fault = StartFault::of(line);
        check!(rt; fault == *wanted, line);
        check!(rt; fault.advice() == *advice, line);
    }
}
