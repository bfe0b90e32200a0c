//! Expressions as lines have them. Contracts see the terms of `wm_expr`, spelled in specs/Expressions.
//! Tests: session_tests/src/lines/expressions.rt.
ghost use Rattle.std.specs.Prelude.{◌≡◌, ◌≢◌, Some, None, IfOk, IfErr};
ghost use Rattle.wm_expr.specs.Meanings.{holds as holds_lem, is_path_only as is_path_only_lem};
ghost use Rattle.wm_expr.specs.PathLaws.{reads_path_alone};
ghost use Rattle.serde_json.specs.View.{view};
ghost use Rattle.wm_expr.specs.Readings.{expression_of};
ghost use Rattle.wm_expr.specs.Terms.{Always};
ghost use Rattle.wm_expr.specs.Views.{term};

use serde_json::Value;
use std::alloc::Global;
use std::marker::Model;
use wm_disk::{NoMemory, Refusal};
use wm_expr::Expr;
use wm_names::Entry;
use wm_since::Test;

/// An expression that a line has. Contracts see its term.
#[derive(Drop)]
pub struct Expression {
    expr: Expr,
}

impl Model for Expression {
    ghost use Rattle.wm_expr.specs.Terms.{Term};
    ghost use Rattle.wm_expr.specs.Views.{term};
    ghost use Rattle.std.specs.Coded.{codes};
    ghost use Rattle.wm_lines.specs.Expressions.{term_code};

    ghost Value = { Term };

    ghost coded = { term_code (Prim.hlevel codes) };

    ghost view = { λ e. term e.expr };
}

impl Expression {
    /// The expression that the JSON value is. `BadExpression` where it is none, and `NoMemory`.
    pub fn read(alloc: Global, value: &Value) -> Result<Expression, Refusal>
        ensures ok { IfOk result (λ e. expression_of (view value.now) ≡ Some e) }
        ensures refused { IfErr result (λ e. e ≢ Refusal.NoMemory → (e ≡ Refusal.BadExpression) × (expression_of (view value.now) ≡ None)) }
    {
        let expr = Expr::read(alloc, value)?;
        Ok(Expression { expr })
    }

    /// The expression that holds of each file.
    pub fn always() -> Expression
        ensures { result ≡ Always }
    {
        Expression { expr: Expr::True }
    }
}

impl Test for Expression {
    ghost passes = { λ test. holds_lem test };

    ghost path_only = { λ test. is_path_only_lem test };

    ghost by_path = { λ test. reads_path_alone test };

    fn holds(&self, entry: &Entry) -> bool {
        Expr::holds(&self.expr, entry)
    }

    fn is_path_only(&self) -> bool {
        Expr::is_path_only(&self.expr)
    }

    fn copy(&self, alloc: Global) -> Result<Expression, NoMemory> {
        let expr = Expr::copy(&self.expr, alloc)?;
        Ok(Expression { expr })
    }
}
