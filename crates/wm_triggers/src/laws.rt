//! What holds of every table of triggers: a function that does nothing, there for its contract alone.
//! Definitions: specs/Tables.antt.
ghost use Rattle.wm_triggers.specs.Tables.{DefinedMayStart, EndedIsGone, NeverStartedAgain, OthersStand, RemovedIsGone, ReplacedIsGone};

/// What holds of every table of triggers, whatever happens to it.
pub fn every_table()
    ensures never { NeverStartedAgain }
    ensures removed { RemovedIsGone }
    ensures replaced { ReplacedIsGone }
    ensures ended { EndedIsGone }
    ensures defined { DefinedMayStart }
    ensures others { OthersStand }
{}
