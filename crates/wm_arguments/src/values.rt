//! What clap found for an argument. Definitions: specs/ArgumentValues.
ghost use Rattle.std.specs.Prelude.{◌≡◌, IfOk, option_map};
ghost use Rattle.std.specs.String.{string_bytes};
ghost use Rattle.wm_arguments.specs.ArgumentValues.{IsNumberRead, IsNumber, TellsNumber, is_flag_set, text_of};

use std::alloc::Global;
use wm_disk::NoMemory;

/// Whether a flag is set.
pub fn is_set(word: Option<&str>) -> bool
    ensures { result ≡ is_flag_set (text_of word.entry) }
{
    match word {
        Some(text) => text == "true",
        None => false,
    }
}

/// The number that a text is. `None` if it is none from 0 to 2^32 - 1.
pub fn number_in(text: &str) -> Option<u32>
    ensures { IsNumberRead (IsNumber text.now) result }
{
    match text.parse::<u32>() {
        Ok(n) => Some(n),
        Err(_) => None,
    }
}

/// The number that a word tells; the default if it isn't there. `None` if it is there and no number.
pub fn number_of(word: Option<&str>, default: u32) -> Option<u32>
    ensures { IsNumberRead (TellsNumber default (text_of word.entry)) result }
{
    match word {
        None => Some(default),
        Some(text) => number_in(text),
    }
}

/// A copy of a word that may be there.
pub fn copied(alloc: Global, word: Option<&str>) -> Result<Option<String>, NoMemory>
    ensures { IfOk result (λ copy. option_map string_bytes copy ≡ text_of word.entry) }
{
    match word {
        Some(text) => Ok(Some(String::from_str(alloc, text)?)),
        None => Ok(None),
    }
}
