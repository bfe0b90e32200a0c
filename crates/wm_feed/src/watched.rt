//! What the system reports of the watches of a process. Definitions: specs/Watched.antt. Tests: feed_tests/src/watches.rt.

ghost use Rattle.std.specs.Prelude.{◌≡◌, ◌≤◌, ◌==◌, codes, map, option_map, IfOk, IfSome, OnOk};
ghost use Rattle.std.specs.List.{slice_split};
ghost use Rattle.wm_feed.specs.Words.{begins_with};
ghost use Rattle.wm_feed.specs.Watched.{behind_front, hex_digit as hex_digit_lem, hex_number as hex_number_lem, number_in as number_in_lem, with_digit as with_digit_lem, with_line, with_number, with_watched, with_words};

use std::alloc::{AllocError, Global};
use std::collections::BTreeSet;
use wm_disk::NoMemory;

/// The value of a hexadecimal digit.
fn hex_digit(byte: u8) -> Option<u64>
    ensures value { result ≡ hex_digit_lem byte }
    ensures small { IfSome result (λ digit. digit ≤ 15) }
{
    match byte {
        b'0'..=b'9' => Some(u64::from(byte - b'0')),
        b'a'..=b'f' => Some(u64::from(byte - 87)),
        _ => None,
    }
}

/// A number with a digit behind it.
fn with_digit(number: u64, byte: u8) -> Option<u64>
    ensures { result ≡ with_digit_lem number byte }
{
    let digit = hex_digit(byte)?;
    if number < 1_152_921_504_606_846_976 {
        Some(number * 16 + digit)
    } else {
        None
    }
}

/// The number whose hexadecimal digits these are.
fn hex_number(digits: &[u8]) -> Option<u64>
    ensures { result ≡ hex_number_lem digits.now }
{
    if digits.is_empty() {
        return None;
    }
    let mut number = 0;
    for byte in digits {
        number = with_digit(number, *byte)?;
    }
    Some(number)
}

/// What stands behind a front.
fn behind<'a>(front: &[u8], word: &'a [u8]) -> Option<&'a [u8]>
    ensures { option_map (λ s. s.now) result ≡ behind_front front.now word.now }
{
    word.strip_prefix(front)
}

/// The number of a file that a word names.
fn number_in(word: &[u8]) -> Option<u64>
    ensures { result ≡ number_in_lem word.now }
{
    hex_number(behind(b"ino:", word)?)
}

/// The lines of a text.
fn lines_of(alloc: Global, text: &[u8]) -> Result<Vec<&[u8]>, AllocError>
    ensures { IfOk result (λ v. map (λ line. line.now) v.items ≡ slice_split (λ b. b == 10) text.now) }
{
    text.split(|byte| *byte == b'\n').collect(alloc)
}

/// The words of a line.
fn words_of(alloc: Global, line: &[u8]) -> Result<Vec<&[u8]>, AllocError>
    ensures { IfOk result (λ v. map (λ word. word.now) v.items ≡ slice_split (λ b. b == 32) line.now) }
{
    line.split(|byte| *byte == b' ').collect(alloc)
}

/// Adds the number of a file, if there is one.
fn add_number(watched: &mut BTreeSet<u64>, number: Option<u64>) -> Result<(), NoMemory>
    ensures { OnOk result (watched.new.keys ≡ with_number number watched.old.keys) }
{
    if let Some(number) = number {
        watched.insert(number)?;
    }
    Ok(())
}

/// Adds the numbers that words name.
fn add_words(watched: &mut BTreeSet<u64>, words: &[&[u8]]) -> Result<(), NoMemory>
    ensures { OnOk result (watched.new.keys ≡ with_words (map (λ word. word.now) words.now) watched.old.keys) }
{
    for word in words {
        add_number(watched, number_in(word))?;
    }
    Ok(())
}

/// Whether a line is of a watch.
fn is_of_watch(line: &[u8]) -> bool
    ensures { result ≡ begins_with (codes "inotify wd:") line.now }
{
    line.starts_with(b"inotify wd:")
}

/// Adds the numbers of a line.
fn add_line(alloc: Global, watched: &mut BTreeSet<u64>, line: &[u8]) -> Result<(), NoMemory>
    ensures { OnOk result (watched.new.keys ≡ with_line line.now watched.old.keys) }
{
    if !is_of_watch(line) {
        return Ok(());
    }
    let words = words_of(alloc, line)?;
    add_words(watched, &words)
}

/// Adds the numbers of the files that a text of /proc/PID/fdinfo reports to be watched. Without memory some may be missing.
pub fn add_watched(alloc: Global, watched: &mut BTreeSet<u64>, text: &str) -> Result<(), NoMemory>
    ensures { OnOk result (watched.new.keys ≡ with_watched text.now watched.old.keys) }
{
    for line in &lines_of(alloc, text.as_bytes())? {
        add_line(alloc, watched, line)?;
    }
    Ok(())
}
