//! The commands of `wm`, by their names. Definitions: specs/Verbs.antt.
ghost use Rattle.std.specs.Prelude.{◌≡◌, option_map};
ghost use Rattle.wm_commands.specs.Verbs.{pattern_example, verb_named};

/// A command of `wm`.
#[derive(Clone, Copy, Debug, PartialEq, Eq)]
pub enum Verb {
    Up,
    Down,
    Watch,
    Unwatch,
    List,
    Status,
    Files,
    Changes,
    Wait,
    Run,
    Sync,
}

impl Verb {
    /// The command of this name.
    pub fn of(name: &str) -> Option<Verb>
        ensures { result ≡ verb_named name.now }
    {
        match name {
            "up" => Some(Verb::Up),
            "down" => Some(Verb::Down),
            "watch" => Some(Verb::Watch),
            "unwatch" => Some(Verb::Unwatch),
            "list" => Some(Verb::List),
            "status" => Some(Verb::Status),
            "files" => Some(Verb::Files),
            "changes" => Some(Verb::Changes),
            "wait" => Some(Verb::Wait),
            "run" => Some(Verb::Run),
            "sync" => Some(Verb::Sync),
            _ => None,
        }
    }

    /// How a PATTERN stands behind DIR in this command. `None` if it takes none.
    pub fn pattern_example(self) -> Option<&'static str>
        ensures { option_map (λ example. example.now) result ≡ pattern_example self }
    {
        match self {
            Verb::Files => Some("wm files . PATTERN"),
            Verb::Changes => Some("wm changes . PATTERN --since CLOCK"),
            Verb::Wait => Some("wm wait . PATTERN"),
            Verb::Run => Some("wm run . PATTERN -- COMMAND"),
            Verb::Up
            | Verb::Down
            | Verb::Watch
            | Verb::Unwatch
            | Verb::List
            | Verb::Status
            | Verb::Sync => None,
        }
    }
}
