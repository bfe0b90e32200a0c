//! What holds of every subscription: a function there for its contract alone.
//! Definitions: specs/Subscribers.antt, specs/Folds.antt.
ghost use Rattle.wm_subs.specs.Folds.{CallsFold, RunsFold};
ghost use Rattle.wm_subs.specs.Subscribers.{ToldOnce};

use wm_since::{Test, every_client};

/// What holds of a client over each run of calls: after each of them its list is just the matching
/// files. Each call keeps that, whether an answer is due or not. And nothing is told twice.
pub fn every_subscription<T: Test>()
    ensures folds { RunsFold T }
    ensures each { CallsFold T }
    ensures once { ToldOnce T }
{
    every_client();
}
