//! The text of a path; a short one takes no memory of its own.
//! Definitions: specs/PathTexts.antt. Tests: leaf_tests/src/names/root_paths.rt.
ghost use Rattle.std.specs.Prelude.{◌≡◌, ◌+◌, ◌<◌, ◌++◌, ◌∷◌, length, IfOk};
ghost use Rattle.wm_names.specs.PathTexts.{text_bytes};

use arrayvec::ArrayString;
use std::alloc::Global;
use wm_disk::NoMemory;

/// The most bytes of a short text.
const SHORT: usize = 48;

/// The text of a path. A short one lies in the value itself, so that its copy takes no memory.
#[derive(Drop)]
pub(crate) enum PathText {
    /// At most 48 bytes.
    Short(ArrayString<SHORT>),
    Long(String),
}

impl PathText {
    /// The same bytes.
    pub(crate) fn new(alloc: Global, text: &str) -> Result<PathText, NoMemory>
        ensures { IfOk result (λ t. text_bytes t ≡ text.now) }
    {
        if let Ok(short) = ArrayString::from(text) {
            return Ok(PathText::Short(short));
        }
        let long = String::from_str(alloc, text)?;
        Ok(PathText::Long(long))
    }

    /// The bytes of a folder's path, a slash, and those of a name.
    pub(crate) fn joined(alloc: Global, folder: &str, name: &str) -> Result<PathText, NoMemory>
        requires { length folder.now + length name.now < 1024 }
        ensures { IfOk result (λ t. text_bytes t ≡ folder.now ++ 47 ∷ name.now) }
    {
        let count = folder.len() + 1 + name.len();
        if count <= SHORT {
            let mut short = ArrayString::new();
            short.push_str(folder);
            short.push_str("/");
            short.push_str(name);
            return Ok(PathText::Short(short));
        }
        let mut long = String::with_capacity(alloc, count)?;
        long.push_str(folder)?;
        long.push_str("/")?;
        long.push_str(name)?;
        Ok(PathText::Long(long))
    }

    /// The text.
    pub(crate) fn as_str(&self) -> &str
        ensures { result.now ≡ text_bytes self.now }
    {
        match self {
            PathText::Short(text) => text.as_str(),
            PathText::Long(text) => text.as_str(),
        }
    }

    /// The same text again.
    pub(crate) fn copy(&self, alloc: Global) -> Result<PathText, NoMemory>
        ensures { IfOk result (λ t. text_bytes t ≡ text_bytes self.now) }
    {
        match self {
            PathText::Short(text) => Ok(PathText::Short(*text)),
            PathText::Long(text) => {
                let text = String::from_str(alloc, text)?;
                Ok(PathText::Long(text))
            }
        }
    }
}
