//! What a question asks of a file: a condition that each entry passes or fails.
//! Definitions: specs/Tests.antt.
//! Tests: view_tests/src/answers/since.rt, view_tests/src/answers/expressions.rt.
ghost use Rattle.std.specs.Prelude.{◌≡◌, Bool, true, refl, IfOk};
ghost use Rattle.wm_names.specs.declared.entry.Entry.{Entry};
ghost use Rattle.wm_expr.specs.Meanings.{holds as holds_lem, is_path_only as is_path_only_lem};
ghost use Rattle.wm_expr.specs.PathLaws.{reads_path_alone};
ghost use Rattle.wm_expr.specs.Views.{term};
ghost use Rattle.wm_since.specs.Tests.{PathOnly};

use std::alloc::Global;
use wm_disk::NoMemory;
use wm_expr::Expr;
use wm_names::Entry;

/// A test on files, as an expression of a query is one.
pub trait Test: Drop {
    /// Whether it holds of an entry.
    ghost passes: { Self → Entry → Bool };

    /// Whether it is known to read nothing of an entry but its path.
    ghost path_only: { Self → Bool };

    /// Whether the entry passes.
    fn holds(&self, entry: &Entry) -> bool
        ensures { result ≡ passes self.now entry.now };

    /// Whether the path alone decides. The answer may be `false` where it does too.
    fn is_path_only(&self) -> bool
        ensures { result ≡ path_only self.now };

    /// A test that passes the same entries. `NoMemory`.
    fn copy(&self, alloc: Global) -> Result<Self, NoMemory>
        ensures { IfOk result (λ test. (passes test ≡ passes self.now) × (path_only test ≡ path_only self.now)) };

    /// A test of paths alone has one value for any two entries of one path.
    ghost by_path: { (test : Self) → path_only test ≡ true → PathOnly (passes test) };
}

/// The test that each file passes.
#[derive(Clone, Copy, Debug)]
pub struct Every;

impl Test for Every {
    ghost passes = { λ test entry. true };

    ghost path_only = { λ test. true };

    ghost by_path = { λ test is a b same. refl };

    fn holds(&self, _entry: &Entry) -> bool {
        true
    }

    fn is_path_only(&self) -> bool {
        true
    }

    fn copy(&self, _alloc: Global) -> Result<Every, NoMemory> {
        Ok(Every)
    }
}

impl Test for Expr {
    ghost passes = { λ test. holds_lem (term test) };

    ghost path_only = { λ test. is_path_only_lem (term test) };

    ghost by_path = { λ test. reads_path_alone (term test) };

    fn holds(&self, entry: &Entry) -> bool {
        Expr::holds(self, entry)
    }

    fn is_path_only(&self) -> bool {
        Expr::is_path_only(self)
    }

    fn copy(&self, alloc: Global) -> Result<Expr, NoMemory> {
        Expr::copy(self, alloc)
    }
}
