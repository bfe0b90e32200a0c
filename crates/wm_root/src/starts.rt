//! Where a question starts. Definitions: specs/Starts.antt, specs/Inquired.antt. Tests: serve_tests/src/halls.rt and moments.rt.
ghost use Rattle.std.specs.Prelude.{◌≡◌};
ghost use Rattle.wm_root.specs.Inquired.{start_among};
ghost use Rattle.wm_root.specs.Starts.{start_named};

use wm_clock::ClockSpec;
use wm_since::{Cursors, Since};

/// The clock or the moment that is named. `None` for a clock of another instance, and for a cursor, whose clock the root has.
pub(crate) fn start_of(since: &Option<ClockSpec>) -> Option<Since>
    ensures { result ≡ start_named since.now }
{
    match since {
        Some(ClockSpec::Clock(clock)) => Some(Since::Clock(*clock)),
        Some(ClockSpec::Seconds(seconds)) => Some(Since::Moment(*seconds)),
        Some(ClockSpec::Cursor(_)) | Some(ClockSpec::Another) | None => None,
    }
}

/// As `start_of`, and by a cursor its clock: `None` if it isn't there.
pub(crate) fn start_with(cursors: &Cursors, since: &Option<ClockSpec>) -> Option<Since>
    ensures { result ≡ start_among since.now cursors.now }
{
    match since {
        Some(ClockSpec::Cursor(name)) => Since::from_clock(cursors.clock(name)),
        Some(ClockSpec::Clock(_)) | Some(ClockSpec::Seconds(_)) | Some(ClockSpec::Another) | None =>
            { start_of(since) }
    }
}
