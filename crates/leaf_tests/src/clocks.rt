//! Clocks, their texts, and the names of cursors.
mod clock_ids;
mod clock_specs;
mod cursor_names;
