//! Subscriptions: what a client is told of a root unasked, each time since its own last clock.
//!
//! A [`Subscription`] is told an answer of `wm_since` where it is the first, is fresh or lists a
//! file (specs/Subscribers.antt). A client that applies what it is told holds exactly the matching
//! files of the view, after each call on a view that is ready (specs/Folds.antt);
//! [`every_subscription`] has that over whole runs. Of a subscription that begins at a moment it is
//! claimed only if the first answer is fresh. [`Subscriptions`] has those of one session, in
//! the order of subscribing (specs/SessionLists.antt). [`Subscription::due_of`] asks of what a viewer of
//! `wm_share` has seen, while the root's keeper goes on.
#![tactic(auto)]

mod laws;
mod subscribed;
mod subscription;
mod subscription_name;
mod subscriptions;

pub use laws::every_subscription;
pub use subscribed::Subscribed;
pub use subscription::Subscription;
pub use subscription_name::{MAX_SUBSCRIPTION_NAME, SubscriptionName};
pub use subscriptions::{MAX_SUBSCRIPTIONS, Subscriptions};
