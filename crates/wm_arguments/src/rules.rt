//! The command of a program, and its arguments. Definitions: specs/ArgumentRules.
ghost use Rattle.std.specs.Prelude.{◌≡◌, IfOk, false};
ghost use Rattle.clap.specs.Words.{app_of, rule_of};
ghost use Rattle.wm_arguments.specs.ArgumentRules.{bare_program, flag_rule, needed_rule, option_rule, optional_rule};

use clap::{Arg, ArgAction, Command};
use std::alloc::Global;
use wm_disk::NoMemory;

/// The command of a program, without its arguments. `NoMemory`.
pub fn program<'a>(
    alloc: Global,
    name: &'a str,
    version: &'a str,
    about: &'a str,
    after_help: &'a str,
) -> Result<Command<'a>, NoMemory>
    ensures { IfOk result (λ c. app_of c ≡ bare_program name.entry.now) }
{
    let command = Command::new(alloc, name)
        .about(about)
        .after_help(after_help)
        .version(version)
        .no_binary_name(true)
        .bin_name(name)?;
    Ok(command)
}

/// A word that has to be there.
pub fn needed<'a>(alloc: Global, name: &'a str, help: &'a str) -> Arg<'a>
    ensures rule { rule_of result ≡ needed_rule name.entry.now }
    ensures local { result.global ≡ false }
{
    Arg::new(alloc, name)
        .help(help)
        .action(ArgAction::Set)
        .required(true)
}

/// A word that may be left out.
pub fn optional<'a>(alloc: Global, name: &'a str, help: &'a str) -> Arg<'a>
    ensures rule { rule_of result ≡ optional_rule name.entry.now }
    ensures local { result.global ≡ false }
{
    Arg::new(alloc, name).help(help).action(ArgAction::Set)
}

/// `--NAME VALUE`.
pub fn option<'a>(alloc: Global, name: &'a str, value: &'a str, help: &'a str) -> Arg<'a>
    ensures rule { rule_of result ≡ option_rule name.entry.now }
    ensures local { result.global ≡ false }
{
    Arg::new(alloc, name)
        .long(name)
        .value_name(value)
        .help(help)
        .action(ArgAction::Set)
}

/// `--NAME`.
pub fn flag<'a>(alloc: Global, name: &'a str, help: &'a str) -> Arg<'a>
    ensures rule { rule_of result ≡ flag_rule name.entry.now }
    ensures local { result.global ≡ false }
{
    Arg::new(alloc, name)
        .long(name)
        .help(help)
        .action(ArgAction::SetTrue)
}
