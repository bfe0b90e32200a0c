//! Stands on what the programs stand on, and has nothing of its own: `rt all check` in its folder proves that side by side.
#![tactic(auto)]
