//! What may be told of a file, and the name of each such field.
//! Definitions: specs/Fields.antt. Tests: view_tests/src/answers/rendering.rt.
ghost use Rattle.std.specs.Prelude.{◌≡◌};
ghost use Rattle.wm_since.specs.Fields.{field_of, field_name};

/// What an answer may tell of a file.
#[derive(Clone, Copy, Debug, PartialEq, Eq)]
pub enum Field {
    /// The path below the root, as a text.
    Name,
    /// Whether the file exists.
    Exists,
    /// Whether it came into being after the clock of the question, or the answer is fresh.
    New,
    /// The size in bytes; of a file that is gone, the last that it had.
    Size,
    /// `f` for a file, `d` for a folder, `l` for a link, `o` for anything else.
    Type,
    /// The time of the last change of its contents, in milliseconds since 1970.
    MtimeMs,
    /// The clock at which the file came into being, as a clock's text.
    Cclock,
    /// The clock of its last change, as a clock's text.
    Oclock,
}

/// The fields in the order of the bytes of their names.
pub(crate) const BY_NAME: [Field; 8] = [
    Field::Cclock,
    Field::Exists,
    Field::MtimeMs,
    Field::Name,
    Field::New,
    Field::Oclock,
    Field::Size,
    Field::Type,
];

impl Field {
    /// The field with this name, in lower case: `name`, `exists`, `new`, `size`, `type`, `mtime_ms`,
    /// `cclock` or `oclock`.
    pub fn read(name: &str) -> Option<Field>
        ensures { result ≡ field_of name.now }
    {
        match name {
            "cclock" => Some(Field::Cclock),
            "exists" => Some(Field::Exists),
            "mtime_ms" => Some(Field::MtimeMs),
            "name" => Some(Field::Name),
            "new" => Some(Field::New),
            "oclock" => Some(Field::Oclock),
            "size" => Some(Field::Size),
            "type" => Some(Field::Type),
            _ => None,
        }
    }

    /// Its name.
    pub fn name(self) -> &'static str
        ensures { result.now ≡ field_name self }
    {
        match self {
            Field::Name => "name",
            Field::Exists => "exists",
            Field::New => "new",
            Field::Size => "size",
            Field::Type => "type",
            Field::MtimeMs => "mtime_ms",
            Field::Cclock => "cclock",
            Field::Oclock => "oclock",
        }
    }
}
