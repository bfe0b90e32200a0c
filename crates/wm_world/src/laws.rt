//! What holds of every run of a world: a function there for its contract alone.
//! Definitions: specs/Laws.antt.
ghost use Rattle.wm_world.specs.Laws.{AcknowledgedStays, ClientsHold, InRange, KeptStays, MigrationFinds, NothingInvented, OneMoment, OneMomentOfAnswers, PendingIsOwn, RestartFinds, SlotBound, StaysAlone};

use wm_clock::clock_laws;
use wm_registry::every_registry;
use wm_since::every_client;
use wm_view::every_operation;

/// What holds of every run, whatever the events are.
pub fn every_run()
    // Each client holds exactly the matching files in the view at its last clock.
    ensures clients { ClientsHold }
    // No clock text names two moments.
    ensures one_moment { OneMoment }
    ensures answers { OneMomentOfAnswers }
    ensures in_range { InRange }
    // Of commands nothing is invented, nothing that was acknowledged is lost, and a restart finds it.
    ensures invented { NothingInvented }
    ensures acknowledged { AcknowledgedStays }
    ensures kept { KeptStays }
    ensures pending { PendingIsOwn }
    ensures bound { SlotBound }
    ensures restart { RestartFinds }
    // A migration moves it, or is cut, and then the next one fits.
    ensures migration { MigrationFinds }
    // Where there is no other disk, none comes.
    ensures alone { StaysAlone }
{
    clock_laws();
    every_client();
    every_operation();
    every_registry();
}
