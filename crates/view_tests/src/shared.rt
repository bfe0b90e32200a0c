//! Shares (`wm_share`), and subscriptions (`wm_subs`), of a view and behind a viewer: that the calls succeed with ample
//! memory, what they tell then, and that a viewer on another thread reads what was told.
mod following;
mod making;
mod pools;
mod shares;
mod subscriptions;
mod telling;
