//! The words of the command line that commands take. What a command takes is tested and not proved, so of these functions only
//! the last promises anything.
ghost use Rattle.std.specs.Prelude.{◌≡◌, IfOk, codes, map, option_map};
ghost use Rattle.clap.specs.Words.{found_of, matched_of, raw_values};
ghost use Rattle.ccan_lab.specs.Question.{files_named};

use clap::{Arg, ArgAction, ArgMatches, Command, value_parser};
use std::alloc::{AllocError, Global};

/// A command, and what its help says that it is for.
pub fn command<'a>(alloc: Global, name: &'a str, about: &'a str) -> Command<'a> {
    Command::new(alloc, name).about(about)
}

/// The command, which takes this too.
pub fn with<'a>(command: Command<'a>, word: Arg<'a>) -> Result<Command<'a>, AllocError> {
    command.arg(word)
}

/// The command, which has this one under it.
pub fn over<'a>(command: Command<'a>, subcommand: Command<'a>) -> Result<Command<'a>, AllocError> {
    command.subcommand(subcommand)
}

/// The option, which can't be given together with the one of this name.
pub fn apart_from<'a>(option: Arg<'a>, other: &'a str) -> Result<Arg<'a>, AllocError> {
    option.conflicts_with(other)
}

/// An option that is on or off.
pub fn switch<'a>(alloc: Global, name: &'a str, help: &'a str) -> Arg<'a> {
    Arg::new(alloc, name)
        .long(name)
        .action(ArgAction::SetTrue)
        .help(help)
}

/// An option with a value, which the help calls so.
pub fn option<'a>(alloc: Global, name: &'a str, value: &'a str, help: &'a str) -> Arg<'a> {
    Arg::new(alloc, name)
        .long(name)
        .value_name(value)
        .action(ArgAction::Set)
        .help(help)
}

/// The option, which may be given more than once.
pub fn several<'a>(option: Arg<'a>) -> Arg<'a> {
    option.action(ArgAction::Append)
}

/// An option with a number.
pub fn number<'a>(alloc: Global, name: &'a str, help: &'a str) -> Arg<'a> {
    option(alloc, name, "N", help).value_parser(value_parser!(usize))
}

/// A file, which the help calls so.
pub fn file<'a>(alloc: Global, value: &'a str, help: &'a str) -> Arg<'a> {
    Arg::new(alloc, "file")
        .value_name(value)
        .action(ArgAction::Set)
        .help(help)
}

/// The scripts of a command that takes several.
pub fn scripts<'a>(alloc: Global) -> Arg<'a> {
    file(alloc, "FILE", "The scripts; left out or -: standard input")
        .action(ArgAction::Append)
        .num_args(0..)
}

/// The files that the words name, in their order: standard input, `-`, if they name none.
pub fn files_named<'a>(alloc: Global, words: &ArgMatches<'a>) -> Result<Vec<&'a str>, AllocError>
    ensures { IfOk result (λ files. map (λ file. file.now) files.items
        ≡ files_named (option_map raw_values
        (matched_of (found_of words.entry.now) (codes "file")))) }
{
    let mut files = Vec::new(alloc);
    match words.get_strs("file") {
        Some(names) => files.extend_from_slice(names)?,
        None => files.push("-")?,
    }
    Ok(files)
}
