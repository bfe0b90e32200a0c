//! Patterns that don't mean what a person may think. Definitions: specs/Patterns. Tests: commands_tests/src/patterns.rt.
ghost use Rattle.std.specs.Prelude.{◌≡◌, ◌++◌, ◌∷◌, IfSome, is_some};
ghost use Rattle.std.specs.List.{after_first, before_first};
ghost use Rattle.wm_commands.specs.Patterns.{IsBraced, closes, has_any_brace, has_braces, has_one_list, is_list_in, opens, pattern_fault};
ghost use Rattle.wm_commands.specs.Questions.{has_byte};

/// Whether a pattern has a list in braces, as a shell reads it. In a pattern braces stand for themselves.
pub fn has_braces(pattern: &str) -> bool
    ensures { result ≡ has_braces pattern.now }
{
    let bytes = pattern.as_bytes();
    bytes.contains(&b'{') && bytes.contains(&b',') && bytes.contains(&b'}')
}

/// A pattern with one list in braces.
#[derive(Clone, Copy, Debug, PartialEq, Eq)]
pub struct Braces<'a> {
    /// What stands in front of the braces.
    pub front: &'a str,
    /// What stands in the braces, with a comma.
    pub list: &'a str,
    /// What stands behind them.
    pub back: &'a str,
}

/// Whether a text has a brace.
fn has_any_brace(text: &str) -> bool
    ensures { result ≡ has_any_brace text.now }
{
    let bytes = text.as_bytes();
    bytes.contains(&b'{') || bytes.contains(&b'}')
}

/// Whether the part between two braces is a list, and no brace is left.
fn is_list_in(front: &str, list: &str, back: &str) -> bool
    ensures { result ≡ is_list_in front.now list.now back.now }
{
    list.as_bytes().contains(&b',')
        && !(has_any_brace(front) || has_any_brace(list) || has_any_brace(back))
}

/// What stands in front of the first brace that opens, and behind it. `None` if there is none.
fn opened(pattern: &str) -> Option<(&str, &str)>
    ensures found { is_some result ≡ has_byte 123 pattern.now }
    ensures parts { IfSome result (λ x. (x.0.now ≡ before_first opens pattern.now) × (x.1.now ≡ after_first opens pattern.now) × (pattern.now ≡ x.0.now ++ 123 ∷ x.1.now)) }
{
    pattern.split_once('{')
}

/// What stands in front of the first brace that closes, and behind it. `None` if there is none.
fn closed(rest: &str) -> Option<(&str, &str)>
    ensures found { is_some result ≡ has_byte 125 rest.now }
    ensures parts { IfSome result (λ x. (x.0.now ≡ before_first closes rest.now) × (x.1.now ≡ after_first closes rest.now) × (rest.now ≡ x.0.now ++ 125 ∷ x.1.now)) }
{
    rest.split_once('}')
}

/// The parts of a pattern with one list in braces. `None` if it has none, or braces besides.
pub fn braces_in(pattern: &str) -> Option<Braces<'_>>
    ensures parts { IfSome result (λ b. IsBraced pattern.now b.front.now b.list.now b.back.now) }
    ensures found { is_some result ≡ has_one_list pattern.now }
{
    let Some((front, rest)) = opened(pattern) else {
        return None;
    };
    let Some((list, back)) = closed(rest) else {
        return None;
    };
    if is_list_in(front, list, back) {
        Some(Braces { front, list, back })
    } else {
        None
    }
}

/// Why the server refuses a pattern.
#[derive(Clone, Copy, Debug, PartialEq, Eq)]
pub enum PatternFault {
    /// It has `[`.
    Bracket,
    /// It has a backslash.
    Backslash,
}

impl PatternFault {
    /// What can't stand in a pattern.
    pub fn name(self) -> &'static str {
        match self {
            PatternFault::Bracket => "[",
            PatternFault::Backslash => "\\",
        }
    }
}

/// Why the server refuses a pattern. `None` if it doesn't.
pub fn pattern_fault(pattern: &str) -> Option<PatternFault>
    ensures { result ≡ pattern_fault pattern.now }
{
    let bytes = pattern.as_bytes();
    if bytes.contains(&b'[') {
        Some(PatternFault::Bracket)
    } else if bytes.contains(&b'\\') {
        Some(PatternFault::Backslash)
    } else {
        None
    }
}
