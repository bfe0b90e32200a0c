//! A file as an answer tells it, and the list of them.
//! Definitions: specs/Answers.antt. Tests: view_tests/src/answers/since.rt.
ghost use Rattle.std.specs.Prelude.{◌≡◌};

use std::marker::Model;
use wm_names::Entry;

/// A file in an answer.
#[derive(Drop)]
pub struct Listed {
    pub entry: Entry,
    /// Whether it came into being after the question's clock, or at its moment or later. In a fresh
    /// answer each is new.
    pub is_new: bool,
    /// The tick of its last change.
    pub last: u64,
    /// The tick at which it last came into being.
    pub created: u64,
}

/// The files of an answer, in its order. Contracts see the list.
#[derive(Drop)]
pub struct ListedFiles {
    files: Vec<Listed>,
}

impl Model for ListedFiles {
    ghost use Rattle.std.specs.Prelude.{List};
    ghost use Rattle.wm_since.specs.declared.listed.Listed.{Listed};

    ghost Value = { List Listed };

    ghost view = { λ l. l.files.items };
}

impl ListedFiles {
    /// The files, in their order.
    pub fn new(files: Vec<Listed>) -> ListedFiles
        ensures { result ≡ files.items }
    {
        ListedFiles { files }
    }

    /// The files as a slice.
    pub fn as_slice(&self) -> &[Listed]
        ensures { result.now ≡ self.now }
    {
        &self.files
    }
}
