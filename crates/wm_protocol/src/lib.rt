//! The protocol of lines between a server and its clients, as far as both sides have to know it: its name, the longest line, and how
//! the line of a refusal begins (specs/Protocol.antt). `wm_lines` has the law that no other reply begins so.
#![tactic(auto)]

ghost use Rattle.std.specs.Prelude.{◌≡◌};
ghost use Rattle.wm_protocol.specs.Protocol.{is_refusal_line};

/// What `version` and `--version` report, and each reply carries.
pub const VERSION: &str = "w1";

/// The most bytes of a line, its newline among them.
pub const MAX_LINE: usize = 1_048_576;

/// Whether a reply is a refusal, by how the server begins its line.
pub fn is_refusal(line: &[u8]) -> bool
    ensures { result ≡ is_refusal_line line.now }
{
    line.starts_with(b"{\"error\":")
}
