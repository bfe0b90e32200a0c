//! A list of calls that only clauses read: no code runs for it. Its events are those of specs/FileEvents.
ghost use Rattle.std.specs.Prelude.{◌≡◌, List, [], ◌∷◌};
ghost use Rattle.std.specs.Borrow.{ftrue};
ghost use Rattle.wm_file.specs.FileEvents.{Event, event_of};

use std::marker::{Model, PhantomData};

/// The calls of a file with their answers, the newest first.
#[derive(Drop)]
pub struct CallLog {
    marker: PhantomData<u8>,
    pub ghost events: { List Event },
}

impl Model for CallLog {
    ghost also_owns = { λ _. ftrue };
}

impl CallLog {
    pub(crate) fn new() -> CallLog
        ensures { result.events ≡ [] }
    {
        CallLog {
            marker: PhantomData,
        }
    }

    /// The numbers are a code, a place, and a count or a length: `event_of` says what they stand for.
    pub(crate) fn note(&mut self, _numbers: &[u64], _bytes: &[u8])
        ensures { self.new.events ≡ event_of _numbers.now _bytes.now ∷ self.old.events }
    {}
}
