//! Texts that a program shows, and its status behind them.
//! Tests: client_tests/src/wmctl/sockets.rt.
ghost use Rattle.std.specs.Prelude.{◌≡◌, ◌≢◌, ◌⊎◌};
ghost use Rattle.std.specs.Io.KnownBytes.{Appends};

use std::io::Write;

/// Tells a text: 0, or 1 where that fails.
pub(crate) fn tell<W: Write>(text: &str, writer: &mut W) -> u8
    ensures { ((result ≡ 0) × Appends (W.contents writer.old) (W.contents writer.new) text.now) ⊎ (result ≡ 1) }
{
    match writer.write_all(text.as_bytes()) {
        Ok(()) => 0,
        Err(_) => 1,
    }
}

/// Shows what the words of a program ask to be shown, a fault on `faults`, and gives the program's status: that which goes with the text,
/// and 1 in place of 0 where it can't be told.
pub(crate) fn show<W: Write, E: Write>(
    text: &str,
    status: u8,
    printer: &mut W,
    faults: &mut E,
) -> u8
    ensures asked { status ≡ 0 → ((result ≡ 0) × Appends (W.contents printer.old) (W.contents printer.new) text.now) ⊎ (result ≡ 1) }
    ensures quiet { status ≡ 0 → faults.new ≡ faults.old }
    ensures fault { status ≢ 0 → (result ≡ status) × (printer.new ≡ printer.old) }
{
    if status == 0 {
        return tell(text, printer);
    }
    // Where even this can't be told, the status tells it.
    let _told = tell(text, faults);
    status
}
