//! A text from outside, as a line for people has it. Definitions: specs/Shown. Tests: leaf_tests/src/explanations.rt.
ghost use Rattle.std.specs.Prelude.{◌≡◌, ◌++◌, IfOk, OnOk, string_bytes};
ghost use Rattle.wm_explain.specs.Shown.{shown_text, shown_char};

use std::alloc::Global;
use wm_disk::NoMemory;

/// Adds a character, a control character as `\x` and two hexadecimal digits.
fn put(text: &mut String, alloc: Global, c: char) -> Result<(), NoMemory>
    ensures { OnOk result (string_bytes text.new ≡ string_bytes text.old ++ shown_char c) }
{
    if c.is_control() {
        let code = u32::from(c);
        text.push_str(&format!(in alloc; "\\x{code:02x}")?)?;
    } else {
        text.push(c)?;
    }
    Ok(())
}

/// The text, each of its control characters as `\x` and two hexadecimal digits: so it can't end a line, nor steer a terminal.
pub fn shown(alloc: Global, text: &str) -> Result<String, NoMemory>
    ensures { IfOk result (λ line. string_bytes line ≡ shown_text text.now) }
{
    let mut line = String::new(alloc);
    for c in text.chars() {
        put(&mut line, alloc, c)?;
    }
    Ok(line)
}
