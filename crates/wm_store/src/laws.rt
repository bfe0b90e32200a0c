//! What holds of every state file: a function that does nothing, there for its contract alone.
//! Definitions: specs/Meant.antt.
ghost use Rattle.std.specs.Prelude.{◌≡◌, List, ℕ};
ghost use Rattle.wm_registry.specs.Roots.{State};
ghost use Rattle.wm_store.specs.Meant.{MeansRegistry};

use wm_checkpoint::{Version1, Version2, every_content};
use wm_registry::Watches;

/// A law, and nothing to run: what a content means is one registry, whatever its version.
pub fn every_file()
    ensures { (content : List ℕ) (s t : State) → MeansRegistry s content → MeansRegistry t content → s ≡ t }
{
    every_content::<Watches<Version1>, Version1>();
    every_content::<Watches<Version2>, Version2>();
}
