//! A negative number behind an option of `wmctl`. Definitions: specs/Negatives. Tests: client_tests/src/wmctl/words.rt.
ghost use Rattle.std.specs.Prelude.{◌≡◌, map, option_map};
ghost use Rattle.wm_client.specs.Negatives.{is_negative, negative_said, said_before, said_of_option};

/// Whether a word begins as a negative number.
fn is_negative(word: &str) -> bool
    ensures { result ≡ is_negative word.now }
{
    match word.as_bytes() {
        [b'-', digit, ..] => digit.is_ascii_digit(),
        _ => false,
    }
}

/// What is said of an option whose number is negative. `None` if it takes no number.
fn said_of_option(option: &str) -> Option<&'static str>
    ensures { option_map (λ t. t.now) result ≡ said_of_option option.now }
{
    match option {
        "--follow" => Some(
            "error: N isn't a whole number from 0 to 4294967295\n\nFor more information, try '--help'.\n",
        ),
        "--sync-timeout" => Some(
            "error: MS isn't a whole number from 0 to 4294967295\n\nFor more information, try '--help'.\n",
        ),
        _ => None,
    }
}

/// What is said of an option behind which these words stand, if the first of them is a negative number.
fn said_before(option: &str, rest: &[&str]) -> Option<&'static str>
    ensures { option_map (λ t. t.now) result ≡ said_before option.now (map (λ word. word.now) rest.now) }
{
    match rest {
        [number, ..] if is_negative(number) => said_of_option(option),
        _ => None,
    }
}

/// What is said of words in which a negative number stands behind an option that takes a number. `None` if there is no such option.
pub fn negative_said(words: &[&str]) -> Option<&'static str>
    ensures { option_map (λ t. t.now) result ≡ negative_said (map (λ word. word.now) words.now) }
{
    let [option, rest @ ..] = words else {
        return None;
    };
    match said_before(option, rest) {
        Some(said) => Some(said),
        None => negative_said(rest),
    }
}
