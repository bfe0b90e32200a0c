//! A subscription of a session, with its root and its fields.
//! Definitions: specs/SessionLists.antt. Tests: view_tests/src/shared/subscriptions/sessions.rt.
use crate::subscription::Subscription;
use wm_names::RootPath;
use wm_since::Fields;

/// A subscription of a session: on which root, what is told of each file, and what is told next.
#[derive(Drop)]
pub struct Subscribed<T> {
    pub root: RootPath,
    /// The number of the root: nothing is told of another root that is watched under the path later.
    pub number: u64,
    pub fields: Fields,
    pub subscription: Subscription<T>,
}
