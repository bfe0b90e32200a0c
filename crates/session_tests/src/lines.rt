//! Sessions of lines, with their replies and the bytes in their files.
mod expressions;
mod failures;
mod generated;
mod limits;
mod most_names;
mod plain;
mod queries;
mod recrawls;
mod refusals;
mod seconds;
mod subscriptions;
mod triggers;
mod views;
mod watches;
