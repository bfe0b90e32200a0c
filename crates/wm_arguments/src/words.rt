//! The words that clap found, by the argument or the subcommand that they belong to.
ghost use Rattle.std.specs.Prelude.{◌≡◌, option_map};
ghost use Rattle.clap.specs.Words.{Text, first_of, found_of, rows_of, subcommand_rows_of};
ghost use Rattle.wm_arguments.specs.ArgumentValues.{text_of};

use clap::ArgMatches;

/// The first word of an argument.
pub fn word_of<'a>(matches: &ArgMatches<'a>, name: &str) -> Option<&'a str>
    ensures { text_of result ≡ first_of name.now (rows_of (found_of matches.now)) }
{
    matches.get_str(name)
}

/// The subcommand, and what was found behind it.
pub fn subcommand_of<'a, 'm>(matches: &'m ArgMatches<'a>) -> Option<(&'a str, &'m ArgMatches<'a>)>
    ensures { option_map (λ met. (met.0.now, rows_of (found_of met.1.now))) result ≡ subcommand_rows_of matches.now }
{
    matches.subcommand()
}
