//! The triggers of a root, as they are defined, replaced in their place, and forgotten.
use crate::registries::Row;
use wm_registry::Reply;

/// Triggers that come, change and go.
pub(crate) const TRIGGERS: &[Row] = &[
    ("watch /r", Reply::Changed, "0 2; /r 1"),
    ("trigger /r a x", Reply::Changed, "0 2; /r 1 a=x"),
    ("trigger /r b y", Reply::Changed, "0 2; /r 1 a=x b=y"),
    ("trigger /r c x", Reply::Changed, "0 2; /r 1 a=x b=y c=x"),
    ("trigger /r b z", Reply::Replaced, "0 2; /r 1 a=x b=z c=x"),
    (
        "trigger-del /r d",
        Reply::Unchanged,
        "0 2; /r 1 a=x b=z c=x",
    ),
    ("trigger-del /r b", Reply::Changed, "0 2; /r 1 a=x c=x"),
    ("trigger /r a y", Reply::Replaced, "0 2; /r 1 a=y c=x"),
    ("trigger /r b x", Reply::Changed, "0 2; /r 1 a=y c=x b=x"),
    ("trigger-del /r a", Reply::Changed, "0 2; /r 1 c=x b=x"),
    ("trigger-del /r b", Reply::Changed, "0 2; /r 1 c=x"),
    ("trigger-del /r c", Reply::Changed, "0 2; /r 1"),
    ("trigger-del /r c", Reply::Unchanged, "0 2; /r 1"),
];

/// Two triggers.
pub(crate) const TWO: &[Row] = &[
    ("watch /r", Reply::Changed, "0 2; /r 1"),
    ("trigger /r a x", Reply::Changed, "0 2; /r 1 a=x"),
    ("trigger /r b y", Reply::Changed, "0 2; /r 1 a=x b=y"),
];

/// What each of these leaves of the two: the place of a name shows in what goes and in what is replaced,
/// and a trigger that is there already in that nothing changes.
pub(crate) const PLACES: &[Row] = &[
    ("trigger-del /r a", Reply::Changed, "0 2; /r 1 b=y"),
    ("trigger /r a x", Reply::Unchanged, "0 2; /r 1 a=x b=y"),
    ("trigger /r a y", Reply::Replaced, "0 2; /r 1 a=y b=y"),
    ("trigger-del /r b", Reply::Changed, "0 2; /r 1 a=x"),
    ("trigger /r b y", Reply::Unchanged, "0 2; /r 1 a=x b=y"),
    ("trigger-del /r ab", Reply::Unchanged, "0 2; /r 1 a=x b=y"),
    ("trigger /r ab y", Reply::Changed, "0 2; /r 1 a=x b=y ab=y"),
    ("trigger-del /r B", Reply::Unchanged, "0 2; /r 1 a=x b=y"),
    ("trigger /r B y", Reply::Changed, "0 2; /r 1 a=x b=y B=y"),
];

/// What is left of the two.
pub(crate) const TWO_LEFT: &[Row] = &[("trigger /r a x", Reply::Unchanged, "0 2; /r 1 a=x b=y")];
