//! What a refusal tells of a root.
use crate::checks::check;
use wm_commands::{advice_of, is_advised, root_status};
use wm_disk::Refusal;

/// A refusal, whether the root is stuck, and how its status begins. Nothing, if the refusal is named by itself.
const STATUSES: &[(Refusal, bool, Option<&str>)] = &[
    (Refusal::NotReady, false, Some("not crawled yet")),
    (
        Refusal::NotReady,
        true,
        Some("not crawled, since a folder below it can't be read"),
    ),
    (Refusal::NotWatched, true, Some("no longer watched")),
    (Refusal::NoMemory, true, None),
];

#[test]
fn statuses_of_the_table(rt: HostRuntime) {
    for (refusal, is_stuck, wanted) in STATUSES {
        let is_right = match (root_status(*refusal, *is_stuck), wanted) {
            (Some(status), Some(wanted)) => status.starts_with(*wanted),
            (None, None) => true,
            _ => false,
        };
        check!(rt; is_right, (is_stuck, wanted));
    }
}

/// A refusal, whether a line behind it says which part is the cause, and whether what to do is said.
const ADVISED: &[(Refusal, bool, bool)] = &[
    (Refusal::BadExpression, false, true),
    (Refusal::BadExpression, true, false),
    (Refusal::BadClock, false, true),
    (Refusal::BadClock, true, true),
    (Refusal::NotWatched, true, true),
];

#[test]
fn advised_of_the_table(rt: HostRuntime) {
    for (refusal, is_explained, wanted) in ADVISED {
        check!(rt; is_advised(*refusal, *is_explained) == *wanted, (is_explained, wanted));
    }
    check!(rt; advice_of(Refusal::BadExpression).contains("allof anyof not"));
}
