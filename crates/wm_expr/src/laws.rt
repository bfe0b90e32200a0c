//! What holds of every expression, and of worked examples: functions there for their contracts.
//! Definitions: specs/Meanings.antt, specs/Rows.antt.
//! Tests: view_tests/src/expressions/meanings.rt.
ghost use Rattle.std.specs.Prelude.{◌≡◌, true};
ghost use Rattle.wm_expr.specs.Meanings.{ReadsPathAlone, is_path_only};
ghost use Rattle.wm_expr.specs.Rows.{DeepestRead, ExpressionsRead, OthersRefused, PathOnlyRows, PatternRows, SuffixRows, TermRows};
ghost use Rattle.wm_expr.specs.Terms.{Term};

/// What holds of every expression: one that names paths alone has one value for any two entries of one
/// path.
pub fn every_expression()
    ensures { (x : Term) → is_path_only x ≡ true → ReadsPathAlone x }
{}

/// What the definitions say of worked examples.
pub fn worked_rows()
    ensures patterns { PatternRows }
    ensures suffixes { SuffixRows }
    ensures terms { TermRows }
    ensures read { ExpressionsRead }
    ensures refused { OthersRefused }
    ensures deepest { DeepestRead }
    ensures path_only { PathOnlyRows }
{}
