//! What holds of every record and every batch: a function that does nothing, there for its contract alone.
//! Definitions: specs/Laws.antt.
ghost use Rattle.wm_feed.specs.Laws.{EntryAsksForBoth, EntryIsTold, LostIsDoubted, NoneIsDropped, WrittenIsRead};

/// What holds of every record, and of what records ask for together.
pub fn every_record()
    ensures read { WrittenIsRead }
    ensures lost { LostIsDoubted }
    ensures told { EntryIsTold }
    ensures kept { NoneIsDropped }
    ensures both { EntryAsksForBoth }
{}
