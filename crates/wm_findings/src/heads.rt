//! As what a file begins. Definitions: specs/Heads.antt. Tests: leaf_tests/src/heads.rt.
ghost use Rattle.std.specs.Prelude.{◌≡◌};
ghost use Rattle.wm_findings.specs.Heads.{has_behind_gate as has_behind_gate_lem, head_in as head_in_lem, state_word, version_one};

use wm_explain::Head;

/// Whether these bytes stand behind the first one, which is a gate.
fn has_behind_gate(word: &[u8], bytes: &[u8]) -> bool
    ensures { result ≡ has_behind_gate_lem word.now bytes.now }
{
    match bytes {
        [] => bytes.starts_with(word),
        [_, rest @ ..] => rest.starts_with(word),
    }
}

/// Whether a file of these first bytes begins as a state file of any version.
fn has_state_word(bytes: &[u8]) -> bool
    ensures { result ≡ has_behind_gate_lem state_word bytes.now }
{
    has_behind_gate(b"WMSTATE", bytes)
}

/// Whether a file of these first bytes begins as a state file of version 1.
fn has_version_one(bytes: &[u8]) -> bool
    ensures { result ≡ has_behind_gate_lem version_one bytes.now }
{
    has_behind_gate(b"WMSTATE\x00\x00\x00\x01", bytes)
}

/// What a file of these first bytes is, 13 of them: a gate, `WMSTATE`, the version in four bytes, and the gate of a file that was
/// migrated.
pub fn head_in(bytes: &[u8]) -> Head
    ensures { result ≡ head_in_lem bytes.now }
{
    if !has_version_one(bytes) {
        return if has_state_word(bytes) {
            Head::VersionTwo
        } else {
            Head::Foreign
        };
    }
    match bytes.get(12) {
        Some(0) | None => Head::VersionOne,
        Some(_) => Head::Retired,
    }
}
