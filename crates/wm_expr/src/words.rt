//! What the words inside an expression stand for.
//! Definitions: specs/Readings.antt. Tests: view_tests/src/expressions/readings.rt.
ghost use Rattle.std.specs.Prelude.{◌≡◌, IfSome, option_map};
ghost use Rattle.wm_expr.specs.Limits.{depth};
ghost use Rattle.wm_expr.specs.Readings.{comparison_of, plain_of, scope_named as scope_named_lem};
ghost use Rattle.wm_expr.specs.Views.{term};

use crate::expr::{Comparison, Expr, Scope};

/// The expression that a word alone is.
pub(crate) fn plain(word: &str) -> Option<Expr>
    ensures is { option_map term result ≡ plain_of word.now }
    ensures flat { IfSome result (λ e. depth (term e) ≡ 1) }
{
    match word {
        "true" => Some(Expr::True),
        "false" => Some(Expr::False),
        "exists" => Some(Expr::Exists),
        "empty" => Some(Expr::Empty),
        _ => None,
    }
}

/// The comparison that a word names.
pub(crate) fn comparison_named(word: &str) -> Option<Comparison>
    ensures { result ≡ comparison_of word.now }
{
    match word {
        "eq" => Some(Comparison::Eq),
        "ne" => Some(Comparison::Ne),
        "gt" => Some(Comparison::Gt),
        "ge" => Some(Comparison::Ge),
        "lt" => Some(Comparison::Lt),
        "le" => Some(Comparison::Le),
        _ => None,
    }
}

/// The part of a path that a word names.
pub(crate) fn scope_named(word: &str) -> Option<Scope>
    ensures { result ≡ scope_named_lem word.now }
{
    match word {
        "basename" => Some(Scope::Basename),
        "wholename" => Some(Scope::Wholename),
        _ => None,
    }
}
