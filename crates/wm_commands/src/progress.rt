//! When it is said that a wait goes on. Definitions: specs/Progresses. Tests: commands_tests/src/presences.rt.
ghost use Rattle.std.specs.Prelude.{◌≡◌};
ghost use Rattle.wm_commands.specs.Progresses.{is_crawl_due, is_progress_due, is_reply_due};

/// Whether a person is told after so many seconds that a wait goes on, if that was told last at this second.
fn is_progress_due(told: Option<u64>, seconds: u64) -> bool
    ensures { result ≡ is_progress_due told seconds }
{
    match told {
        None => 1 <= seconds,
        Some(told) => 3 <= seconds.saturating_sub(told),
    }
}

/// Whether it is said after so many seconds that a crawl goes on, if that was said last at this second: again and again on a terminal,
/// and else once.
pub fn is_crawl_due(is_terminal: bool, told: Option<u64>, seconds: u64) -> bool
    ensures { result ≡ is_crawl_due is_terminal told seconds }
{
    if is_terminal {
        is_progress_due(told, seconds)
    } else {
        told.is_none() && 3 <= seconds
    }
}

/// Whether it is said after so many milliseconds that a reply is awaited, unless that was said.
pub fn is_reply_due(is_told: bool, millis: u64) -> bool
    ensures { result ≡ is_reply_due is_told millis }
{
    !is_told && 500 <= millis
}
