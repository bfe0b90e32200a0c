//! How long a root rests whose crawl was refused. Definitions: specs/Pauses.antt. Tests: feed_tests, tools/try/feed.
ghost use Rattle.std.specs.Prelude.{◌≡◌};
ghost use Rattle.wm_feeder.specs.Pauses.{next_pause as next_pause_lem};

/// The shortest pause and the longest, in milliseconds.
const LEAST: u64 = 1_000;

const MOST: u64 = 60_000;

/// How long a root rests that rested so long before, in milliseconds: twice as long, but a second at least and a minute at most.
pub(crate) fn next_pause(before: u64) -> u64
    ensures { result ≡ next_pause_lem before }
{
    if before < LEAST / 2 {
        LEAST
    } else if before < MOST / 2 {
        before * 2
    } else {
        MOST
    }
}
