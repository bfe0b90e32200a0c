//! What holds of all that a limiter lets through: a function that does nothing, there for its contract alone.
//! Definitions: specs/LogLaws.
ghost use Rattle.wm_log.specs.LogLaws.{OneLineASecond};

/// Of the texts that a limiter lets through, as long as the time doesn't go back, no two are equal and of one second.
pub fn one_line_a_second()
    ensures { OneLineASecond }
{}
