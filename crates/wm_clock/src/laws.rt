//! What holds of all clock texts: a function that does nothing, there for its contract alone.
//! Definitions: specs/Laws.antt.
ghost use Rattle.wm_clock.specs.Laws.{OneText, IsReadBack, Agree};

/// The laws of clock texts: no text is that of two clocks, a clock in range is read back from its text,
/// and what a text reads as is computed from it.
pub fn clock_laws()
    ensures one_text { OneText }
    ensures read_back { IsReadBack }
    ensures agree { Agree }
{}
