//! The number, the name and the text of each refusal.
use crate::checks::check;
use std::alloc::{AllocError, Global};
use std::process::Abort;
use wm_disk::{DeviceFailed, NoMemory, Refusal};

// Each refusal with its number, its name and its text.
const ROWS: &[(Refusal, u8, &str, &str)] = &[
    (Refusal::BadLine, 1, "BadLine", "1 BadLine"),
    (Refusal::BadCommand, 2, "BadCommand", "2 BadCommand"),
    (Refusal::BadArguments, 3, "BadArguments", "3 BadArguments"),
    (Refusal::BadPath, 4, "BadPath", "4 BadPath"),
    (Refusal::NotWatched, 5, "NotWatched", "5 NotWatched"),
    (Refusal::NotReady, 6, "NotReady", "6 NotReady"),
    (Refusal::BadClock, 7, "BadClock", "7 BadClock"),
    (
        Refusal::BadExpression,
        8,
        "BadExpression",
        "8 BadExpression",
    ),
    (Refusal::BadField, 9, "BadField", "9 BadField"),
    (Refusal::BadTrigger, 10, "BadTrigger", "10 BadTrigger"),
    (Refusal::Full, 11, "Full", "11 Full"),
    (Refusal::StoreFailed, 12, "StoreFailed", "12 StoreFailed"),
    (Refusal::DeviceFailed, 13, "DeviceFailed", "13 DeviceFailed"),
    (Refusal::Damaged, 14, "Damaged", "14 Damaged"),
    (Refusal::Exhausted, 15, "Exhausted", "15 Exhausted"),
    (Refusal::NoMemory, 16, "NoMemory", "16 NoMemory"),
    (Refusal::TooMany, 17, "TooMany", "17 TooMany"),
    (Refusal::NoPlace, 18, "NoPlace", "18 NoPlace"),
    (Refusal::NoQuestion, 19, "NoQuestion", "19 NoQuestion"),
    (Refusal::Retired, 20, "Retired", "20 Retired"),
    (Refusal::OldVersion, 21, "OldVersion", "21 OldVersion"),
];

// Whether the refusal has this number, name and text, and is shown as the text.
fn shows(
    rt: &impl Abort,
    alloc: Global,
    refusal: Refusal,
    number: u8,
    name: &str,
    text: &str,
) -> bool {
    let shown = format!(in alloc; "{refusal}").expect(rt, "memory");
    let told = refusal.number() == number && refusal.name() == name;
    let is_so = told && refusal.text() == text && shown.as_str() == text;
    drop(shown);
    is_so
}

#[test]
fn shows_each_refusal(rt: HostRuntime) {
    for (refusal, number, name, text) in ROWS {
        check!(rt; shows(&rt, rt.alloc(), *refusal, *number, name, text), number);
    }
    check!(rt; Refusal::from(DeviceFailed) == Refusal::DeviceFailed);
    check!(rt; Refusal::from(NoMemory) == Refusal::NoMemory);
    check!(rt; Refusal::from(AllocError) == Refusal::NoMemory);
}
