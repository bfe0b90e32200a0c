//! Runs of a command, and when a change has settled.
use crate::checks::check;
use std::alloc::{AllocError, Global};
use wm_commands::{Answer, Runs, Settle};

fn answer(
    alloc: Global,
    clock: &str,
    is_fresh: bool,
    names: &[&str],
) -> Result<Answer, AllocError> {
    let mut texts = Vec::new(alloc);
    for name in names {
        texts.push(String::from_str(alloc, name)?)?;
    }
    Ok(Answer {
        clock: String::from_str(alloc, clock)?,
        is_fresh,
        names: texts,
    })
}

/// What changes while the command runs is in the next run, and nothing starts a second run beside the first.
#[test]
fn change_while_running_is_in_the_next_run(rt: HostRuntime) {
    let alloc = rt.alloc();
    let mut runs = Runs::new();
    check!(rt; runs.since().is_none());
    let first = runs.take(answer(alloc, "c:1", true, &["a", "b"]).expect(&rt, "memory"));
    check!(rt; first.is_some_and(|names| names.len() == 2));
    check!(rt; runs.is_running());
    let second = runs.take(answer(alloc, "c:2", false, &["b"]).expect(&rt, "memory"));
    check!(rt; second.is_none());
    check!(rt; runs.since() == Some("c:1"));
    runs.end();
    check!(rt; runs.since() == Some("c:1"));
    let third = runs.take(answer(alloc, "c:3", false, &["b"]).expect(&rt, "memory"));
    check!(rt; third.is_some_and(|names| names.len() == 1));
    check!(rt; runs.since() == Some("c:3"));
    runs.end();
    let fourth = runs.take(answer(alloc, "c:4", false, &[]).expect(&rt, "memory"));
    check!(rt; fourth.is_none() && !runs.is_running());
    check!(rt; runs.since() == Some("c:4"));
}

/// How long a change has to be alone, when the last one was, what time it is, and whether it has settled.
const SETTLED: &[(u64, Option<u64>, u64, bool)] = &[
    (50, None, 1_000, false),
    (50, Some(100), 149, false),
    (50, Some(100), 150, true),
    (0, Some(100), 100, true),
    (50, Some(100), 90, false),
];

#[test]
fn settled_of_the_table(rt: HostRuntime) {
    for (millis, last, now, wanted) in SETTLED {
        let settle = Settle {
            millis: *millis,
            last: *last,
        };
        check!(rt; settle.is_settled(*now) == *wanted, (millis, last, now));
    }
}
