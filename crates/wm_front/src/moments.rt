//! The moment of an operation, and the start of a subscription. Tests: shared_tests/src/fronts.rt.
ghost use Rattle.std.specs.Prelude.{◌≡◌};
ghost use Rattle.wm_session.specs.session.Fronts.{start_with};

use wm_clock::ClockId;
use wm_disk::Refusal;
use wm_root::Seconds;
use wm_since::Since;

/// The later one of the moment that an operation was given and the second that it is now.
#[derive(Drop)]
pub(crate) struct SinceGiven<'a, S> {
    pub(crate) seconds: &'a S,
    pub(crate) given: u64,
}

impl<S: Seconds> Seconds for SinceGiven<'_, S> {
    ghost use Rattle.std.specs.Prelude.{◌≡◌, ℕ, max};

    ghost may_read = { λ s second. (now : ℕ) × S.may_read s.seconds.now now × (second ≡ max now s.given) };

    fn second(&self) -> u64 {
        self.seconds.second().max(self.given)
    }
}

/// The clock of a root, with the start of a subscription there.
pub(crate) fn starting(
    clock: Result<ClockId, Refusal>,
    since: Option<Since>,
) -> Result<(ClockId, Option<Since>), Refusal>
    ensures { result ≡ start_with clock since }
{
    match clock {
        Ok(clock) => Ok((clock, since)),
        Err(refusal) => Err(refusal),
    }
}
