//! The tests of expressions (`wm_expr`), of views (`wm_view`), of what is answered about a view (`wm_since`), and of
//! shares and subscriptions (`wm_share`, `wm_subs`). They stand apart from these crates, so that each is proved once and without them.
//!
//! A test walks a table, in which each row has its values written out by hand, and asserts once for a
//! row: what the row compares stands in a helper that answers whether all of it is so. Generated sessions are
//! compared with a reference instead, which keeps every map that a root ever was.
#![tactic(auto)]

#[cfg(test)]
mod answers;
#[cfg(test)]
mod checks;
#[cfg(test)]
mod expressions;
#[cfg(test)]
mod making;
#[cfg(test)]
mod shared;
#[cfg(test)]
mod views;
