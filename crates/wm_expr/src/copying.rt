//! Copies of expressions. A copy stands for the same term.
//! Definitions: specs/Views.antt. Tests: view_tests/src/expressions/meanings.rt.
ghost use Rattle.std.specs.Prelude.{◌≡◌, IfOk, map, string_bytes};
ghost use Rattle.wm_expr.specs.Views.{term, terms};

use crate::expr::Expr;
use std::alloc::Global;
use wm_disk::NoMemory;

/// The same texts again.
fn copied_texts(alloc: Global, texts: &[String]) -> Result<Vec<String>, NoMemory>
    ensures { IfOk result (λ copies. map string_bytes copies.items ≡ map string_bytes texts.now) }
{
    let mut copies = Vec::new(alloc);
    for text in texts {
        let copy = String::from_str(alloc, text)?;
        copies.push(copy)?;
    }
    Ok(copies)
}

/// The same expressions again.
#[cycle(copy)]
fn copied(alloc: Global, parts: &[Expr]) -> Result<Vec<Expr>, NoMemory>
    ensures { IfOk result (λ copies. terms copies.items ≡ terms parts.now) }
{
    let mut copies = Vec::new(alloc);
    for part in parts {
        let copy = part.copy(alloc)?;
        copies.push(copy)?;
    }
    Ok(copies)
}

impl Expr {
    /// The same expression again. `NoMemory`.
    #[cycle(copy)]
    pub fn copy(&self, alloc: Global) -> Result<Expr, NoMemory>
        ensures { IfOk result (λ copy. term copy ≡ term self.now) }
    {
        match self {
            Expr::True => Ok(Expr::True),
            Expr::False => Ok(Expr::False),
            Expr::Not(part) => Ok(Expr::Not(Box::new(alloc, part.copy(alloc)?)?)),
            Expr::AllOf(parts) => Ok(Expr::AllOf(copied(alloc, parts)?)),
            Expr::AnyOf(parts) => Ok(Expr::AnyOf(copied(alloc, parts)?)),
            Expr::Name(names, scope) => Ok(Expr::Name(copied_texts(alloc, names)?, *scope)),
            Expr::Suffix(suffixes) => Ok(Expr::Suffix(copied_texts(alloc, suffixes)?)),
            Expr::Type(kind) => Ok(Expr::Type(*kind)),
            Expr::Exists => Ok(Expr::Exists),
            Expr::Empty => Ok(Expr::Empty),
            Expr::Size(op, n) => Ok(Expr::Size(*op, *n)),
            Expr::Match(pattern, scope) => {
                Ok(Expr::Match(String::from_str(alloc, pattern)?, *scope))
            }
        }
    }
}
