//! What was read of a line, as a text that a table can hold.
use std::process::Abort;
use wm_clock::{ClockId, ClockSpec};
use wm_lines::{Inquiry, Request};
use wm_names::{Meta, RootPath, Subtree};
use wm_registry::{Stdin, Trigger};
use wm_view::{Listing, Pairs};

fn show_pairs(rt: &impl Abort, pairs: &Pairs, text: &mut String) {
    for (path, state) in pairs.as_slice() {
        match state {
            Some(meta) => show_file(rt, path.as_str(), meta, text),
            None => write!(text, " {} gone", path.as_str()).expect(rt, "memory"),
        }
    }
}

fn show_file(rt: &impl Abort, path: &str, meta: &Meta, text: &mut String) {
    let Meta {
        kind,
        size,
        mtime_ms,
    } = *meta;
    write!(text, " {path} {kind:?} {size} {mtime_ms}").expect(rt, "memory");
}

fn show_listing(rt: &impl Abort, listing: &Listing, text: &mut String) {
    match listing.subtree() {
        Subtree::Whole => text.push_str(" whole").expect(rt, "memory"),
        Subtree::Below(top) => write!(text, " below {}", top.as_str()).expect(rt, "memory"),
    }
    for (path, meta) in listing.files() {
        show_file(rt, path.as_str(), meta, text);
    }
}

fn show_clock_id(rt: &impl Abort, clock: &ClockId, text: &mut String) {
    let ClockId {
        incarnation,
        root,
        tick,
    } = *clock;
    write!(text, " {incarnation} {root} {tick}").expect(rt, "memory");
}

fn show_clock(rt: &impl Abort, clock: &ClockSpec, text: &mut String) {
    match clock {
        ClockSpec::Clock(clock) => show_clock_id(rt, clock, text),
        ClockSpec::Seconds(seconds) => write!(text, " {seconds}").expect(rt, "memory"),
        ClockSpec::Another => text.push_str(" another").expect(rt, "memory"),
        ClockSpec::Cursor(name) => write!(text, " @{}", name.as_str()).expect(rt, "memory"),
    }
}

// The clock, then the names of the fields.
fn show_inquiry(rt: &impl Abort, inquiry: &Inquiry, text: &mut String) {
    if let Some(clock) = &inquiry.since {
        show_clock(rt, clock, text);
    }
    for field in inquiry.fields.as_slice() {
        write!(text, " {}", field.name()).expect(rt, "memory");
    }
    if inquiry.empty_on_fresh {
        text.push_str(" empty_on_fresh").expect(rt, "memory");
    }
}

fn show_trigger(rt: &impl Abort, trigger: &Trigger, text: &mut String) {
    write!(text, " {} ", trigger.name()).expect(rt, "memory");
    for (place, word) in trigger.command().iter().enumerate() {
        let bar = if place == 0 { "" } else { "|" };
        write!(text, "{bar}{}", word.as_str()).expect(rt, "memory");
    }
    if let Some(expression) = trigger.expression() {
        write!(text, " where {expression}").expect(rt, "memory");
    }
    if trigger.append_files() {
        text.push_str(" append_files").expect(rt, "memory");
    }
    match trigger.stdin() {
        Stdin::DevNull => {}
        Stdin::NamePerLine => text.push_str(" NamePerLine").expect(rt, "memory"),
    }
}

/// The name of the command, and its root.
fn show_command(rt: &impl Abort, name: &str, root: &RootPath, text: &mut String) {
    write!(text, "{name} {}", root.as_str()).expect(rt, "memory");
}

fn show_name(rt: &impl Abort, name: &str, text: &mut String) {
    write!(text, " {name}").expect(rt, "memory");
}

fn show_number(rt: &impl Abort, number: u64, text: &mut String) {
    write!(text, " {number}").expect(rt, "memory");
}

/// What was read, as text.
pub(super) fn show(rt: &impl Abort, request: &Request, text: &mut String) {
    match request {
        Request::WatchDel(root) => show_command(rt, "watch-del", root, text),
        Request::Trigger(root, trigger) => {
            show_command(rt, "trigger", root, text);
            show_trigger(rt, trigger, text);
        }
        Request::TriggerList(root) => show_command(rt, "trigger-list", root, text),
        Request::TriggerDel(root, name) => {
            show_command(rt, "trigger-del", root, text);
            show_name(rt, name.as_str(), text);
        }
        Request::Observe(root, pairs) => {
            show_command(rt, "observe", root, text);
            show_pairs(rt, pairs, text);
        }
        Request::Listing(root, begun_at, listing) => {
            show_command(rt, "listing", root, text);
            show_number(rt, *begun_at, text);
            show_listing(rt, listing, text);
        }
        Request::AgeOut(root, age) => {
            show_command(rt, "age-out", root, text);
            show_number(rt, *age, text);
        }
        Request::Clock(root) => show_command(rt, "clock", root, text),
        Request::Query(root, inquiry) => {
            show_command(rt, "query", root, text);
            show_inquiry(rt, inquiry, text);
        }
        Request::Subscribe(root, name, inquiry) => {
            show_command(rt, "subscribe", root, text);
            show_name(rt, name.as_str(), text);
            show_inquiry(rt, inquiry, text);
        }
        Request::Unsubscribe(root, name) => {
            show_command(rt, "unsubscribe", root, text);
            show_name(rt, name.as_str(), text);
        }
        _ => text.push_str("another request").expect(rt, "memory"),
    }
}
