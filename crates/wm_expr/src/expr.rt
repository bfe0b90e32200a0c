//! An expression as a tree of terms; what it means is said in meaning.rt.
//! Definitions: specs/Terms.antt, specs/Views.antt. Tests: view_tests/src/expressions.
use wm_names::Kind;

/// Which part of a path a term looks at.
#[derive(Clone, Copy, Debug, PartialEq, Eq)]
pub enum Scope {
    /// The last component.
    Basename,
    /// The whole path, from below the root.
    Wholename,
}

/// How a size is to stand to a number.
#[derive(Clone, Copy, Debug, PartialEq, Eq)]
pub enum Comparison {
    /// It is the number.
    Eq,
    /// It is another.
    Ne,
    /// It is greater.
    Gt,
    /// It is greater, or the number.
    Ge,
    /// It is less.
    Lt,
    /// It is less, or the number.
    Le,
}

/// A test on files. Contracts see it as a `Term` (specs/Terms.antt), by the word `term` of
/// specs/Views.antt. One that [`Expr::read`] made keeps the limits of expressions; one made by hand need
/// not.
#[derive(Drop)]
pub enum Expr {
    /// Holds of each file.
    True,
    /// Holds of none.
    False,
    /// Holds where the one inside doesn't.
    Not(Box<Expr>),
    /// Holds where all do, so always where there are none.
    AllOf(Vec<Expr>),
    /// Holds where one does, so never where there are none.
    AnyOf(Vec<Expr>),
    /// That part of the path is one of the names.
    Name(Vec<String>, Scope),
    /// The basename ends with a dot and one of the suffixes; ASCII letters count alike in both cases.
    Suffix(Vec<String>),
    /// The file is of this kind.
    Type(Kind),
    /// The file exists.
    Exists,
    /// The file exists, has no bytes, and is a regular file or a folder.
    Empty,
    /// The file exists, and its size in bytes stands so to the number.
    Size(Comparison, u64),
    /// The pattern fits that part of the path, both cut at each slash. `*` is any run of bytes of a
    /// component, `?` one byte, and a component `**` one or more components where it is the last, and
    /// any number elsewhere.
    Match(String, Scope),
}
