//! Words that a shell replaces, if no quotes keep it from that. Definitions: specs/HomeWords. Tests: commands_tests/src/folders.rt.
ghost use Rattle.std.specs.Prelude.{◌≡◌};
ghost use Rattle.wm_commands.specs.HomeWords.{home_word};

use crate::folders::stands_above;

/// What stands in a word for a user's folder.
#[derive(Clone, Copy, Debug, PartialEq, Eq)]
pub enum HomeWord {
    /// `~`.
    Tilde,
    /// `$HOME`.
    Variable,
}

impl HomeWord {
    /// What stands at the start of a word for a user's folder. `None` if nothing does.
    pub fn of(word: &str) -> Option<HomeWord>
        ensures { result ≡ home_word word.now }
    {
        if stands_above("~", word) {
            Some(HomeWord::Tilde)
        } else if stands_above("$HOME", word) {
            Some(HomeWord::Variable)
        } else {
            None
        }
    }

    /// What a shell replaces.
    pub fn text(self) -> &'static str {
        match self {
            HomeWord::Tilde => "~",
            HomeWord::Variable => "$HOME",
        }
    }
}
