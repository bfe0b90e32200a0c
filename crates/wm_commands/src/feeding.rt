//! How a root is fed, and what is said of it while a change is waited for. Definitions: specs/Feedings.
//! Tests: commands_tests/src/feedings.rt.
ghost use Rattle.std.specs.Prelude.{◌≡◌};
ghost use Rattle.wm_commands.specs.Feedings.{feed_news, feed_note, feed_seen, feeding_by};

/// How a root is fed.
#[derive(Clone, Copy, Debug, PartialEq, Eq)]
pub enum Feeding {
    /// A feed runs, and is ready for the root.
    Fed,
    /// A feed runs, and isn't ready for the root.
    Unready,
    /// No feed runs.
    Unfed,
}

impl Feeding {
    /// How a root is fed, by whether a feed runs, and whether it has made its folder for the root's syncs.
    pub fn of(is_running: bool, is_ready: bool) -> Feeding
        ensures { result ≡ feeding_by is_running is_ready }
    {
        match (is_running, is_ready) {
            (true, true) => Feeding::Fed,
            (true, false) => Feeding::Unready,
            (false, _) => Feeding::Unfed,
        }
    }

    /// Why a root is crawled for a question, and what to do then.
    pub fn crawl_reason(self, has_inotifywait: bool) -> &'static str {
        match (self, has_inotifywait) {
            (Feeding::Fed, _) =>
                "the feed doesn't answer in time, so it is crawled for this question",
            (Feeding::Unready, _) =>
                "the feed isn't ready for it yet, so it is crawled for this question",
            (Feeding::Unfed, true) =>
                "no feed runs, so it is crawled for this question; 'wm up' starts a feed",
            (Feeding::Unfed, false) =>
                "no feed runs, so it is crawled for this question; install inotify-tools, and 'wm up' starts a feed",
        }
    }
}

/// How a feed is started.
pub fn feed_advice(has_inotifywait: bool) -> &'static str {
    if has_inotifywait {
        "'wm up' starts one"
    } else {
        "install inotify-tools, and 'wm up' starts one"
    }
}

/// What is said of a root whose changes aren't seen, or are seen again.
#[derive(Clone, Copy, Debug, PartialEq, Eq)]
pub enum FeedNews {
    /// It is fed again.
    Back,
    /// The feed isn't ready for it.
    NotReady,
    /// The feed has ended.
    Ended,
    /// No feed runs, and none was seen.
    NoFeed,
}

impl FeedNews {
    /// What is said of a root, by how it is fed, and whether a feed was seen that ran.
    pub fn of(feeding: Feeding, has_run: bool) -> FeedNews
        ensures { result ≡ feed_news feeding has_run }
    {
        match (feeding, has_run) {
            (Feeding::Fed, _) => FeedNews::Back,
            (Feeding::Unready, _) => FeedNews::NotReady,
            (Feeding::Unfed, true) => FeedNews::Ended,
            (Feeding::Unfed, false) => FeedNews::NoFeed,
        }
    }

    /// What is said, in a sentence without its end.
    pub fn text(self) -> &'static str {
        match self {
            FeedNews::Back => "it is fed again, so changes are seen",
            FeedNews::NotReady => "the feed isn't ready for it, so changes aren't seen yet",
            FeedNews::Ended => "no feed runs any longer, so changes aren't seen",
            FeedNews::NoFeed => "no feed runs, so changes aren't seen",
        }
    }

    /// What to do. `None` if nothing is to be done.
    pub fn advice(self, has_inotifywait: bool) -> Option<&'static str> {
        match self {
            FeedNews::Back | FeedNews::NotReady => None,
            FeedNews::Ended | FeedNews::NoFeed => Some(feed_advice(has_inotifywait)),
        }
    }
}

/// What the looks at a root's feed have seen so far.
#[derive(Clone, Copy, Debug, PartialEq, Eq)]
pub enum FeedSeen {
    /// The root was fed at the last look.
    Present,
    /// It wasn't fed at the last look, and was before.
    Doubtful,
    /// It wasn't fed at two looks or more.
    Missing,
}

impl FeedSeen {
    /// What was seen after one more look.
    pub fn after(self, is_fed: bool) -> FeedSeen
        ensures { result ≡ feed_seen self is_fed }
    {
        match (self, is_fed) {
            (_, true) => FeedSeen::Present,
            (FeedSeen::Present, false) => FeedSeen::Doubtful,
            (FeedSeen::Doubtful | FeedSeen::Missing, false) => FeedSeen::Missing,
        }
    }

    /// Whether something is to be said at one more look: once if the feed is missing, and once if it is back.
    pub fn is_news(self, is_fed: bool) -> bool
        ensures { result ≡ feed_note self is_fed }
    {
        match self {
            FeedSeen::Present => false,
            FeedSeen::Doubtful => !is_fed,
            FeedSeen::Missing => is_fed,
        }
    }
}
