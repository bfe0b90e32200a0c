//! What a pattern can't say.
use crate::checks::check;
use wm_commands::{Braces, PatternFault, braces_in, has_braces, pattern_fault};

/// A pattern, whether it has a list in braces, and its parts if it has one alone.
const BRACED: &[(&str, bool, Option<(&str, &str, &str)>)] = &[
    ("*.{c,md}", true, Some(("*.", "c,md", ""))),
    ("{a,b}.c", true, Some(("", "a,b", ".c"))),
    ("lib/{a,b,}/*.c", true, Some(("lib/", "a,b,", "/*.c"))),
    ("{a,b}/{c,d}", true, None),
    ("{a,{b,c}}", true, None),
    ("}a,b{", true, None),
    ("a,{b}", true, None),
    ("{a}", false, None),
    ("a,b", false, None),
    ("{a,b", false, None),
    ("*.c", false, None),
    ("", false, None),
];

#[test]
fn braces_of_the_table(rt: HostRuntime) {
    for (pattern, has, parts) in BRACED {
        check!(rt; has_braces(pattern) == *has, pattern);
        let wanted = parts.map(|(front, list, back)| Braces { front, list, back });
        check!(rt; braces_in(pattern) == wanted, pattern);
    }
}

/// A pattern, and why the server refuses it.
const FAULTS: &[(&str, Option<PatternFault>)] = &[
    ("*.c", None),
    ("{a,b}]", None),
    ("", None),
    ("[ab].c", Some(PatternFault::Bracket)),
    ("a\\*", Some(PatternFault::Backslash)),
    ("\\[a]", Some(PatternFault::Bracket)),
];

#[test]
fn faults_of_the_table(rt: HostRuntime) {
    for (pattern, wanted) in FAULTS {
        check!(rt; pattern_fault(pattern) == *wanted, pattern);
    }
}
