//! The number of a watch that stands before its records.
use crate::checks::check;
use wm_feed::read_number;

/// Bytes, and the number and the record that they are.
const NUMBERED: &[(&[u8], u64, &[u8])] = &[
    (b"7\0/r/\0CREATE\00\0/a\0", 7, b"/r/\0CREATE\00\0/a\0"),
    (b"0\0", 0, b""),
    (b"10\0\0", 10, b"\0"),
    (b"305\0\x31\0", 305, b"1\0"),
    (b"18446744073709551615\0\xff", u64::MAX, b"\xff"),
];

/// Bytes that begin with no number.
const NONE: &[&[u8]] = &[
    b"",
    b"\0/r/",
    b"7",
    b"07\0",
    b"00\0",
    b"+7\0",
    b"-7\0",
    b" 7\0",
    b"7 \0",
    b"7x\0",
    b"\xff\0",
    b"18446744073709551616\0",
    b"/r/\0CREATE\00\0/a\0",
];

#[test]
fn numbers_of_the_table(rt: HostRuntime) {
    for (bytes, number, record) in NUMBERED {
        let read = read_number(bytes);
        check!(rt; read.is_some(), bytes);
        let (is, behind) = read.expect(&rt, "a number");
        check!(rt; is == *number && behind == *record, bytes);
    }
    for bytes in NONE {
        check!(rt; read_number(bytes).is_none(), bytes);
    }
}
