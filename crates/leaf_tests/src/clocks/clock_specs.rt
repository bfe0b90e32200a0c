//! What a question may begin from: texts of clocks and of cursors, and numbers of seconds.
use crate::checks::check;
use std::alloc::Global;
use std::process::Abort;
use std::string::String;
use wm_clock::{ClockId, ClockSpec};
use wm_disk::Refusal;

const CLOCKS: &[&str] = &[
    "c:1:1:1",
    "c:7:2:105",
    "c:10:20:30",
    "c:1:1:9223372036854775807",
];

// Texts that begin as a clock does and are none of this server's.
const OF_ANOTHER: &[&str] = &[
    "c:",
    "c::",
    "c:::",
    "c:x",
    "c:1",
    "c:1:1",
    "c:1:1:",
    "c:1:1:1 ",
    "c: 1:1:1",
    "c:01:1:1",
    "c:1:1:01",
    "c:+1:1:1",
    "c:1:-1:1",
    "c:0:1:1",
    "c:1:0:1",
    "c:1:1:0",
    "c:9:9:9:9",
    "c:1:1:9223372036854775808",
    "c:1:1:18446744073709551616",
    "c:1:1:\u{661}",
];

const LONGEST: &str = "0123456789abcdef0123456789abcdef0123456789abcdef0123456789abcdef";

const CURSORS: &[&str] = &["x", "n:x", "c:1:1:1", " ", "\u{e9}\u{661}", "\0", LONGEST];

const NO_CLOCKS: &[&str] = &[
    "", "c", "n", ":", "1", "8", "x:1", "n:", "N:x", " n:x", "C:1:1:1", " c:1:1:1", "1:1:1",
];

// A clock's text, `another`, a cursor's name behind a `@`, or the number of seconds behind an `s`.
fn shown(rt: &impl Abort, alloc: Global, spec: &ClockSpec) -> String {
    let mut text = String::new(alloc);
    match spec {
        ClockSpec::Clock(clock) => {
            let clock = clock.text(alloc).expect(rt, "memory");
            text.push_str(clock.as_str()).expect(rt, "memory");
        }
        ClockSpec::Another => text.push_str("another").expect(rt, "memory"),
        ClockSpec::Cursor(name) => {
            text.push('@').expect(rt, "memory");
            text.push_str(name.as_str()).expect(rt, "memory");
        }
        ClockSpec::Seconds(seconds) => {
            let seconds = format!(in alloc; "s{seconds}").expect(rt, "memory");
            text.push_str(&seconds).expect(rt, "memory");
        }
    }
    text
}

// Whether the text is read as what is shown so.
fn is_read(rt: &impl Abort, alloc: Global, text: &str, want: &str) -> bool {
    let spec = ClockSpec::read(alloc, text).expect(rt, "a clock");
    let shown = shown(rt, alloc, &spec);
    drop(spec);
    shown.as_str() == want
}

// Whether the name behind `n:` is read as a cursor's.
fn names_a_cursor(rt: &impl Abort, alloc: Global, name: &str) -> bool {
    let text = format!(in alloc; "n:{name}").expect(rt, "memory");
    let want = format!(in alloc; "@{name}").expect(rt, "memory");
    is_read(rt, alloc, &text, &want)
}

// Whether the text is refused as no clock.
fn is_refused(alloc: Global, text: &str) -> bool {
    ClockSpec::read(alloc, text).err() == Some(Refusal::BadClock)
}

#[test]
fn reads_clocks(rt: HostRuntime) {
    for text in CLOCKS {
        check!(rt; is_read(&rt, rt.alloc(), text, text), text);
    }
    for text in OF_ANOTHER {
        check!(rt; is_read(&rt, rt.alloc(), text, "another"), text);
    }
}

#[test]
fn reads_the_parts_of_a_clock(rt: HostRuntime) {
    let want = ClockId {
        incarnation: 7,
        root: 2,
        tick: 105,
    };
    let spec = ClockSpec::read(rt.alloc(), "c:7:2:105").expect(&rt, "a clock");
    let is_read = match &spec {
        ClockSpec::Clock(clock) => *clock == want,
        _ => false,
    };
    drop(spec);
    check!(rt; is_read);
}

#[test]
fn reads_cursors(rt: HostRuntime) {
    for name in CURSORS {
        check!(rt; names_a_cursor(&rt, rt.alloc(), name), name);
    }
}

#[test]
fn refuses_other_texts(rt: HostRuntime) {
    for text in NO_CLOCKS {
        check!(rt; is_refused(rt.alloc(), text), text);
    }
    let too_long = format!(in rt.alloc(); "n:{LONGEST}!").expect(&rt, "memory");
    check!(rt; is_refused(rt.alloc(), &too_long));
}

// Numbers that name moments, with what is shown of each: those up to 2^63 - 1.
const SECONDS: &[(u64, &str)] = &[
    (0, "s0"),
    (1, "s1"),
    (1_700_000_000, "s1700000000"),
    (9_223_372_036_854_775_807, "s9223372036854775807"),
];

const TOO_MANY_SECONDS: &[u64] = &[9_223_372_036_854_775_808, 18_446_744_073_709_551_615];

// Whether the number names the moment that is shown so.
fn names_a_moment(rt: &impl Abort, alloc: Global, seconds: u64, want: &str) -> bool {
    let spec = ClockSpec::seconds(seconds).expect(rt, "a moment");
    let shown = shown(rt, alloc, &spec);
    drop(spec);
    shown.as_str() == want
}

#[test]
fn takes_seconds_up_to_the_greatest_number(rt: HostRuntime) {
    for (seconds, want) in SECONDS {
        check!(rt; names_a_moment(&rt, rt.alloc(), *seconds, want), seconds);
    }
    for seconds in TOO_MANY_SECONDS {
        let refused = ClockSpec::seconds(*seconds).err();
        check!(rt; refused == Some(Refusal::BadClock), seconds);
    }
}
