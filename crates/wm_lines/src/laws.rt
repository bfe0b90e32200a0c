//! What holds of each reply's line: a function that does nothing, there for its contract alone.
//! Definitions: specs/ReplyLaws.
ghost use Rattle.wm_lines.specs.ReplyLaws.{RefusalsStandOut};

/// What a client takes for a refusal is what a server writes for one: the line of each refusal, and of no other reply.
pub fn every_reply()
    ensures { RefusalsStandOut }
{}
