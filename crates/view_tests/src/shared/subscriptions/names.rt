//! Names of subscriptions.
use crate::checks::check;
use std::alloc::Global;
use std::process::Abort;
use wm_disk::Refusal;
use wm_subs::SubscriptionName;

/// A name of 64 bytes.
const LONGEST: &str = "0123456789012345678901234567890123456789012345678901234567890123";

/// A name of 65 bytes.
const TOO_LONG: &str = "01234567890123456789012345678901234567890123456789012345678901234";

/// Whether the text is read as a name with this text.
fn is_read(rt: &impl Abort, alloc: Global, text: &str) -> bool {
    let name = SubscriptionName::read(alloc, text).expect(rt, "a name");
    let is_so = name.as_str() == text;
    drop(name);
    is_so
}

#[test]
fn reads_names_of_1_to_64_bytes(rt: HostRuntime) {
    let alloc = rt.alloc();
    for text in &["s", "ä b", LONGEST] {
        check!(rt; is_read(&rt, alloc, text), text);
    }
    for text in &["", TOO_LONG] {
        let refused = SubscriptionName::read(alloc, text).err();
        check!(rt; refused == Some(Refusal::BadArguments), text);
    }
}

#[test]
fn compares_names(rt: HostRuntime) {
    let alloc = rt.alloc();
    let name = SubscriptionName::read(alloc, "s").expect(&rt, "a name");
    let same = SubscriptionName::read(alloc, "s").expect(&rt, "a name");
    let longer = SubscriptionName::read(alloc, "st").expect(&rt, "a name");
    check!(rt; name == same);
    check!(rt; name != longer);
    drop(longer);
    drop(same);
    drop(name);
}
