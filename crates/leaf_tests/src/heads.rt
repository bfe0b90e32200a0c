//! As what a file begins, by its first bytes.
use crate::checks::check;
use wm_explain::Head;
use wm_findings::head_in;

/// The first bytes of a file, and as what it begins.
const HEADS: &[(&[u8], Head)] = &[
    (b"\xa5WMSTATE\x00\x00\x00\x01\x00", Head::VersionOne),
    (b"\xa5WMSTATE\x00\x00\x00\x01\xa5", Head::Retired),
    (b"\xa5WMSTATE\x00\x00\x00\x02\x00", Head::VersionTwo),
    (b"\x00WMSTATE\x00\x00\x00\x02\xa5", Head::VersionTwo),
    (b"root:x:0:0:ro", Head::Foreign),
    (b"WMSTATE\x00\x00\x00\x01\x00\x00", Head::Foreign),
    (b"\xa5WMSTATD\x00\x00\x00\x01\x00", Head::Foreign),
    (b"", Head::Foreign),
];

#[test]
fn knows_state_files(rt: HostRuntime) {
    for (bytes, head) in HEADS {
        check!(rt; head_in(bytes) == *head, bytes);
    }
}
