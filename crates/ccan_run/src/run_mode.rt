ghost use Rattle.std.specs.Prelude.{◌≡◌, IfOk, Err, map, option_map};
ghost use Rattle.ccan_run.specs.RunMode.{Answers, IsCommand, Refuses, mode_of};

use crate::cli_error::CliError;
use clap::{Arg, ArgAction, Command};
use std::alloc::{AllocError, Global};
use std::convert::AsStr;

/// How the program runs a script.
#[derive(Clone, Copy, PartialEq, Eq, PartialOrd, Ord, Hash, Debug, Default)]
pub enum RunMode {
    /// Its lines one after another, in the script's order.
    #[default]
    Run,
    /// Each port's lines in a thread of its own, at once with the others, whatever the script's order.
    Threads,
}

static MODES: [&str; 2] = ["run", "threads"];

/// The command line: one optional word, the name of a mode.
#[tactic(auto, unfolding(crate::specs::RunMode::ccan))]
fn command<'a>(alloc: Global) -> Result<Command<'a>, AllocError>
    ensures { IfOk result IsCommand }
{
    let mode = Arg::new(alloc, "mode")
        .action(ArgAction::Set)
        .value_parser(MODES.as_slice());
    Command::new(alloc, "ccan").arg(mode)
}

/// The mode with this name. Without a word, the lines run in their order.
fn mode_named(word: Option<&str>) -> RunMode
    ensures { result ≡ mode_of (option_map (λ name. name.now) word.entry) }
{
    match word {
        Some("threads") => RunMode::Threads,
        _ => RunMode::Run,
    }
}

/// The mode that the words of the command line say. The first of them is the program's name.
pub fn mode<'a, S: AsStr>(alloc: Global, words: &'a [S]) -> Result<RunMode, CliError>
    ensures ok { IfOk result (Answers (map S.text words.entry.now)) }
    ensures words { result ≡ Err CliError.Words → Refuses (map S.text words.entry.now) }
{
    let matches = command(alloc)?.try_get_matches_from(words)?;
    Ok(mode_named(matches.get_str("mode")))
}
