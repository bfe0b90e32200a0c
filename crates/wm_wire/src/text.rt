//! Texts with a limit on their length: by themselves, and as a type that keeps the limit.
//! Definitions: specs/Spelling.antt. Tests: leaf_tests/src/spellings/texts.rt.
ghost use Rattle.std.specs.Prelude.{◌≡◌, ◌≤◌, ◌<◌, ◌^◌, ◌++◌, ℕ, List, length, string_bytes, option_map, IfOk, OnOk, OnErr};
ghost use Rattle.std.specs.Cmp.{partial_equiv_from_equiv};
ghost use Rattle.std.specs.Cmp.Lexicographic.{nat_list_eq_equiv};
ghost use Rattle.std.specs.Str.{bytes_eq};
ghost use Rattle.wm_wire.specs.Spelling.{text as text_lem, IsText, Takes};
ghost use Rattle.wm_wire.specs.Laws.{alone_text, short_text};

use crate::wire::Wire;
use byteorder::{BigEndian, ByteOrder};
use std::alloc::Global;
use std::marker::Model;
use wm_disk::NoMemory;

/// Appends the spelling of a text. `NoMemory` leaves the vector as it was.
pub fn put_text(text: &str, out: &mut Vec<u8>) -> Result<(), NoMemory>
    requires { length text.now < 2 ^ 16 }
    ensures ok { OnOk result (out.new.items ≡ out.old.items ++ text_lem text.now) }
    ensures err { OnErr result (out.new.items ≡ out.old.items) }
{
    let mut length = [0u8; 4];
    BigEndian::write_u32(&mut length, text.len() as u32);
    out.try_reserve(text.len() + 4)?;
    out.extend_from_slice(&length)?;
    out.extend_from_slice(text.as_bytes())?;
    Ok(())
}

/// The text of at most `max` bytes whose spelling begins the bytes, and that spelling's length. It
/// takes no memory.
pub fn take_text(bytes: &[u8], max: u16) -> Option<(&str, usize)>
    ensures { Takes (IsText max) text_lem bytes.now (option_map (λ found. (found.0.now, found.1)) result) }
{
    if bytes.len() < 4 {
        return None;
    }
    let length = BigEndian::read_u32(bytes);
    let rest = &bytes[4..];
    if length > u32::from(max) || rest.len() < length as usize {
        return None;
    }
    match std::str::from_utf8(&rest[..length as usize]) {
        Ok(text) => Some((text, length as usize + 4)),
        Err(_) => None,
    }
}

/// A text of at most `MAX` bytes. Contracts see its bytes.
#[derive(Drop)]
pub struct Text<const MAX: u16> {
    text: String,
}

impl<const MAX: u16> Model for Text<MAX> {
    ghost Value = { List ℕ };

    ghost view = { λ t. string_bytes t.text };

    ghost invariant = { λ t. (length (string_bytes t.text) ≤ MAX) × (length (string_bytes t.text) < 2 ^ 16) };
}

impl<const MAX: u16> Text<MAX> {
    /// A copy of the text. `NoMemory`.
    pub fn new(alloc: Global, text: &str) -> Result<Self, NoMemory>
        requires { length text.now ≤ MAX }
        ensures { IfOk result (λ t. t ≡ text.now) }
    {
        let text = String::from_str(alloc, text)?;
        Ok(Text { text })
    }

    /// The text itself.
    pub fn as_str(&self) -> &str
        ensures value { result.now ≡ self.now }
        ensures fits { IsText MAX self.now }
    {
        self.text.as_str()
    }

    /// The same text again. `NoMemory`.
    pub fn copy(&self, alloc: Global) -> Result<Self, NoMemory>
        ensures { IfOk result (λ t. t ≡ self.now) }
    {
        Text::new(alloc, self.as_str())
    }
}

impl<const MAX: u16> PartialEq for Text<MAX> {
    ghost eq = { bytes_eq };

    ghost laws = { partial_equiv_from_equiv nat_list_eq_equiv };

    fn eq(&self, other: &Self) -> bool {
        self.text == other.text
    }
}

impl<const MAX: u16> Eq for Text<MAX> {
    ghost laws = { nat_list_eq_equiv };
}

impl<const MAX: u16> Wire for Text<MAX> {
    ghost fits = { IsText MAX };

    ghost spelling = { text_lem };

    fn put(&self, out: &mut Vec<u8>) -> Result<(), NoMemory> {
        put_text(self.as_str(), out)
    }

    fn size(&self) -> u64 {
        self.as_str().len() as u64 + 4
    }

    fn take(alloc: Global, bytes: &[u8]) -> Result<Option<(Self, usize)>, NoMemory> {
        let Some((text, size)) = take_text(bytes, MAX) else {
            return Ok(None);
        };
        let value = Text::new(alloc, text)?;
        Ok(Some((value, size)))
    }

    ghost alone = { alone_text MAX };

    ghost short = { short_text MAX };
}
