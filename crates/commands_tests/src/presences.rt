//! What `wm up` does by what it found at the socket and in the state folder, and when it is said that a wait goes on.
use crate::checks::check;
use wm_commands::{
    Claim, Presence, ServerProcess, StartStep, UpStep, is_crawl_due, is_reply_due, start_step,
    up_step,
};

/// What a look found, which process serves the socket, whether it is late, and what is done.
const STEPS: &[(Presence, ServerProcess, bool, UpStep)] = &[
    (
        Presence::Answered,
        ServerProcess::Missing,
        false,
        UpStep::Keep,
    ),
    (
        Presence::Answered,
        ServerProcess::Missing,
        true,
        UpStep::Keep,
    ),
    (Presence::Answered, ServerProcess::Own, true, UpStep::Keep),
    (
        Presence::Silent,
        ServerProcess::Missing,
        false,
        UpStep::LookAgain,
    ),
    (
        Presence::Silent,
        ServerProcess::Missing,
        true,
        UpStep::Start,
    ),
    (
        Presence::Silent,
        ServerProcess::Own,
        false,
        UpStep::LookAgain,
    ),
    (
        Presence::Absent,
        ServerProcess::Missing,
        false,
        UpStep::Start,
    ),
    (
        Presence::Absent,
        ServerProcess::Missing,
        true,
        UpStep::Start,
    ),
    (Presence::Absent, ServerProcess::Own, false, UpStep::Replace),
    (Presence::Absent, ServerProcess::Own, true, UpStep::Replace),
    (
        Presence::Absent,
        ServerProcess::Foreign,
        false,
        UpStep::LookAgain,
    ),
    (Presence::Absent, ServerProcess::Foreign, true, UpStep::Tell),
];

#[test]
fn steps_of_the_table(rt: HostRuntime) {
    for (presence, process, is_late, wanted) in STEPS {
        let step = up_step(*presence, *process, *is_late);
        check!(rt; step == *wanted, (presence, process, is_late));
    }
}

/// What a look found, whether the program has ended, whether it is late, and what that says.
const STARTS: &[(Presence, bool, bool, StartStep)] = &[
    (Presence::Absent, false, false, StartStep::Await),
    (Presence::Silent, false, false, StartStep::Await),
    (Presence::Answered, false, false, StartStep::Started),
    (Presence::Answered, false, true, StartStep::Started),
    (Presence::Absent, true, false, StartStep::Ended),
    (Presence::Absent, true, true, StartStep::Ended),
    (Presence::Absent, false, true, StartStep::Late),
    (Presence::Silent, false, true, StartStep::Late),
];

#[test]
fn starts_of_the_table(rt: HostRuntime) {
    for (presence, has_ended, is_late, wanted) in STARTS {
        let step = start_step(*presence, *has_ended, *is_late);
        check!(rt; step == *wanted, (presence, has_ended, is_late));
    }
}

/// Whether that is on a terminal, when it was said last, what time it is, and whether it is said now.
const TOLD: &[(bool, Option<u64>, u64, bool)] = &[
    (true, None, 0, false),
    (true, None, 1, true),
    (true, Some(1), 1, false),
    (true, Some(1), 3, false),
    (true, Some(1), 4, true),
    (true, Some(4), 2, false),
    (false, None, 1, false),
    (false, None, 2, false),
    (false, None, 3, true),
    (false, None, 100, true),
    (false, Some(3), 3, false),
    (false, Some(3), 100, false),
];

#[test]
fn crawls_that_go_on_of_the_table(rt: HostRuntime) {
    for (is_terminal, told, seconds, wanted) in TOLD {
        let is_due = is_crawl_due(*is_terminal, *told, *seconds);
        check!(rt; is_due == *wanted, (is_terminal, told, seconds));
    }
}

/// Whether it was said, how many milliseconds have passed, and whether it is said now that a reply is awaited.
const AWAITED: &[(bool, u64, bool)] = &[
    (false, 0, false),
    (false, 499, false),
    (false, 500, true),
    (false, 90_000, true),
    (true, 500, false),
    (true, 90_000, false),
];

#[test]
fn replies_that_are_awaited_of_the_table(rt: HostRuntime) {
    for (is_told, millis, wanted) in AWAITED {
        check!(rt; is_reply_due(*is_told, *millis) == *wanted, (is_told, millis));
    }
}

/// Whether a process of a state folder runs, whether it is for the socket that is asked for, and whose the folder is.
const CLAIMS: &[(bool, bool, Claim)] = &[
    (false, false, Claim::Free),
    (false, true, Claim::Free),
    (true, true, Claim::Ours),
    (true, false, Claim::Theirs),
];

#[test]
fn claims_of_the_table(rt: HostRuntime) {
    for (is_running, is_same, wanted) in CLAIMS {
        check!(rt; Claim::of(*is_running, *is_same) == *wanted, (is_running, is_same));
    }
}
