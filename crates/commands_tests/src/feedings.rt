//! How a root is fed, and when something is said of it.
use crate::checks::check;
use wm_commands::{FeedNews, FeedSeen, Feeding, feed_advice};

/// Whether a feed runs, whether it is ready for the root, and how the root is fed.
const FEEDINGS: &[(bool, bool, Feeding)] = &[
    (true, true, Feeding::Fed),
    (true, false, Feeding::Unready),
    (false, true, Feeding::Unfed),
    (false, false, Feeding::Unfed),
];

#[test]
fn feedings_of_the_table(rt: HostRuntime) {
    for (is_running, is_ready, wanted) in FEEDINGS {
        check!(rt; Feeding::of(*is_running, *is_ready) == *wanted, (is_running, is_ready));
    }
}

/// One look after the other: whether the root is fed, and whether something is said.
const LOOKS: &[(bool, bool)] = &[
    (true, false),
    (false, false),
    (true, false),
    (false, false),
    (false, true),
    (false, false),
    (false, false),
    (true, true),
    (true, false),
    (false, false),
    (false, true),
];

#[test]
fn feed_that_is_missing_is_said_once(rt: HostRuntime) {
    let mut seen = FeedSeen::Present;
    for (is_fed, wanted) in LOOKS {
        check!(rt; seen.is_news(*is_fed) == *wanted, (seen, is_fed));
        seen = seen.after(*is_fed);
    }
}

/// How a root is fed, whether a feed was seen that ran, what is said then, and whether inotify-tools are named if inotifywait isn't there.
const NEWS: &[(Feeding, bool, FeedNews, Option<bool>)] = &[
    (Feeding::Fed, true, FeedNews::Back, None),
    (Feeding::Fed, false, FeedNews::Back, None),
    (Feeding::Unready, true, FeedNews::NotReady, None),
    (Feeding::Unready, false, FeedNews::NotReady, None),
    (Feeding::Unfed, true, FeedNews::Ended, Some(true)),
    (Feeding::Unfed, false, FeedNews::NoFeed, Some(true)),
];

#[test]
fn news_of_the_table(rt: HostRuntime) {
    for (feeding, has_run, wanted, is_named) in NEWS {
        let news = FeedNews::of(*feeding, *has_run);
        check!(rt; news == *wanted, (feeding, has_run));
        let advice = news
            .advice(false)
            .map(|text| text.contains("inotify-tools"));
        check!(rt; advice == *is_named, (feeding, has_run));
        check!(rt; news.advice(true).map(|text| text == "'wm up' starts one") == *is_named, (feeding, has_run));
    }
}

/// How a root is fed, whether inotifywait is there, and whether inotify-tools are named beside why the root is crawled.
const REASONS: &[(Feeding, bool, bool)] = &[
    (Feeding::Fed, false, false),
    (Feeding::Unready, false, false),
    (Feeding::Unfed, true, false),
    (Feeding::Unfed, false, true),
];

#[test]
fn reasons_of_the_table(rt: HostRuntime) {
    for (feeding, has_inotifywait, wanted) in REASONS {
        let reason = feeding.crawl_reason(*has_inotifywait);
        check!(rt; reason.contains("inotify-tools") == *wanted, (feeding, has_inotifywait));
    }
    check!(rt; feed_advice(true) == "'wm up' starts one");
    check!(rt; feed_advice(false) == "install inotify-tools, and 'wm up' starts one");
}
