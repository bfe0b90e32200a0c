//! Of which files an expression holds, and whether their paths alone decide.
//! Definitions: specs/Meanings.antt. Tests: view_tests/src/expressions/meanings.rt.
ghost use Rattle.std.specs.Prelude.{◌≡◌, string_bytes};
ghost use Rattle.std.specs.List.{list_any};
ghost use Rattle.std.specs.Str.{bytes_eq};
ghost use Rattle.wm_expr.specs.Meanings.{all_hold as all_hold_lem, are_path_only as are_path_only_lem, compares as compares_lem, has_suffix as has_suffix_lem, holds as holds_lem, is_file_or_folder as is_file_or_folder_lem, is_path_only as is_path_only_lem, one_holds as one_holds_lem, scoped as scoped_lem};
ghost use Rattle.wm_expr.specs.Patterns.{fits as fits_lem};
ghost use Rattle.wm_expr.specs.Terms.{Empty};
ghost use Rattle.wm_expr.specs.Views.{term, terms};

use crate::expr::{Comparison, Expr, Scope};
use crate::pattern::fits;
use wm_names::{Entry, Kind, RelPath};

/// The part of the path that the scope names.
fn scoped(scope: Scope, path: &RelPath) -> &str
    ensures { result.now ≡ scoped_lem scope path.now }
{
    match scope {
        Scope::Basename => path.basename(),
        Scope::Wholename => path.as_str(),
    }
}

/// Whether the text is one of the names.
fn is_one_of(names: &[String], text: &str) -> bool
    ensures { result ≡ list_any (λ name. bytes_eq text.now (string_bytes name)) names.now }
{
    names.iter().any(|name| text == name.as_str())
}

/// Whether the name ends with a dot and the suffix, where letters of ASCII count alike in both cases.
fn has_suffix(name: &[u8], suffix: &[u8]) -> bool
    ensures { result ≡ has_suffix_lem name.now suffix.now }
{
    if name.len() <= suffix.len() {
        return false;
    }
    let dot = name.len() - suffix.len() - 1;
    name[dot] == b'.' && name[dot + 1..].eq_ignore_ascii_case(suffix)
}

/// Whether the name ends with a dot and one of the suffixes.
fn has_one_of(suffixes: &[String], name: &str) -> bool
    ensures { result ≡ list_any (λ suffix. has_suffix_lem name.now (string_bytes suffix)) suffixes.now }
{
    suffixes
        .iter()
        .any(|suffix| has_suffix(name.as_bytes(), suffix.as_bytes()))
}

/// Whether what is of this kind may count as empty.
fn is_file_or_folder(kind: Kind) -> bool
    ensures { result ≡ is_file_or_folder_lem kind }
{
    match kind {
        Kind::File | Kind::Folder => true,
        Kind::Link | Kind::Other => false,
    }
}

/// Whether the file exists, has no bytes, and is a regular file or a folder.
fn is_empty(entry: &Entry) -> bool
    ensures { result ≡ holds_lem Empty entry.now }
{
    entry.exists && entry.meta.size == 0 && is_file_or_folder(entry.meta.kind)
}

/// Whether the pattern fits the text.
fn matches(pattern: &str, text: &str) -> bool
    ensures { result ≡ fits_lem pattern.now text.now }
{
    fits(pattern.as_bytes(), text.as_bytes())
}

/// Whether the size stands so to the number.
fn compares(op: Comparison, size: u64, n: u64) -> bool
    ensures { result ≡ compares_lem op size n }
{
    match op {
        Comparison::Eq => size == n,
        Comparison::Ne => size != n,
        Comparison::Gt => size > n,
        Comparison::Ge => size >= n,
        Comparison::Lt => size < n,
        Comparison::Le => size <= n,
    }
}

/// Whether each of these holds of the entry.
#[cycle(holds)]
fn all_hold(parts: &[Expr], entry: &Entry) -> bool
    ensures { result ≡ all_hold_lem (terms parts.now) entry.now }
{
    for part in parts {
        if !part.holds(entry) {
            return false;
        }
    }
    true
}

/// Whether one of these holds of the entry.
#[cycle(holds)]
fn one_holds(parts: &[Expr], entry: &Entry) -> bool
    ensures { result ≡ one_holds_lem (terms parts.now) entry.now }
{
    for part in parts {
        if part.holds(entry) {
            return true;
        }
    }
    false
}

/// Whether no term on type, existence or size is inside.
#[cycle(names_paths)]
fn names_paths(expr: &Expr) -> bool
    ensures { result ≡ is_path_only_lem (term expr.now) }
{
    match expr {
        Expr::Not(part) => names_paths(part),
        Expr::AllOf(parts) | Expr::AnyOf(parts) => all_name_paths(parts),
        Expr::Type(_) | Expr::Exists | Expr::Empty | Expr::Size(_, _) => false,
        Expr::True | Expr::False | Expr::Name(_, _) | Expr::Suffix(_) | Expr::Match(_, _) => true,
    }
}

/// The same of each of these.
#[cycle(names_paths)]
fn all_name_paths(parts: &[Expr]) -> bool
    ensures { result ≡ are_path_only_lem (terms parts.now) }
{
    for part in parts {
        if !names_paths(part) {
            return false;
        }
    }
    true
}

impl Expr {
    ghost use Rattle.std.specs.Prelude.{true};
    ghost use Rattle.wm_expr.specs.Meanings.{ReadsPathAlone};

    /// Whether it holds of the entry. It takes no memory, and for each pattern inside time in proportion
    /// to the pattern's length times the path's at most.
    #[cycle(holds)]
    pub fn holds(&self, entry: &Entry) -> bool
        ensures { result ≡ holds_lem (term self.now) entry.now }
    {
        match self {
            Expr::True => true,
            Expr::False => false,
            Expr::Not(part) => !part.holds(entry),
            Expr::AllOf(parts) => all_hold(parts, entry),
            Expr::AnyOf(parts) => one_holds(parts, entry),
            Expr::Name(names, scope) => is_one_of(names, scoped(*scope, &entry.path)),
            Expr::Suffix(suffixes) => has_one_of(suffixes, entry.path.basename()),
            Expr::Type(kind) => entry.meta.kind.same(*kind),
            Expr::Exists => entry.exists,
            Expr::Empty => is_empty(entry),
            Expr::Size(op, n) => entry.exists && compares(*op, entry.meta.size, *n),
            Expr::Match(pattern, scope) => matches(pattern, scoped(*scope, &entry.path)),
        }
    }

    /// Whether no term on type, existence or size is inside. Then it has one value for any two
    /// entries of one path; it may have so where the answer is `false`.
    pub fn is_path_only(&self) -> bool
        ensures test { result ≡ is_path_only_lem (term self.now) }
        ensures meaning { result ≡ true → ReadsPathAlone (term self.now) }
    {
        names_paths(self)
    }
}
