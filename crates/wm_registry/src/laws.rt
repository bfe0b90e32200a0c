//! What holds of every registry: a function that does nothing, there for its contract alone.
//! Definitions: specs/Laws.antt.
ghost use Rattle.wm_registry.specs.Laws.{AcceptedArePlaced, AcceptedChanges, AcceptedInVersion2, NumbersInOrder, NumbersRise, OthersLeave, SameIsEqual, VersionStays};

/// What holds of every registry, whatever the commands are.
pub fn every_registry()
    // No incarnation and no root number comes again, and no two roots have one number.
    ensures rises { NumbersRise }
    ensures in_order { NumbersInOrder }
    // A trigger that is defined again in the same way is the one that is there.
    ensures same { SameIsEqual }
    // A command is accepted exactly where it changes the registry.
    ensures accepted { AcceptedChanges }
    ensures others { OthersLeave }
    ensures version { VersionStays }
    ensures placed { AcceptedArePlaced }
    ensures in_version_2 { AcceptedInVersion2 }
{}
