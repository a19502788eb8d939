//! What is read of a file or of standard input: bytes, and the script that they are.
ghost use Rattle.std.specs.Prelude.{◌≤◌, IfErr, IfOk, Ok, length};
ghost use Rattle.ccan_line.specs.Script.{fields_of as said_by};
ghost use Rattle.ccan_run.specs.Input.{most_input};
ghost use Rattle.ccan_script.specs.Race.{ShowsRace, fields_of_race};
ghost use Rattle.ccan_script.specs.Reader.{Shows};
ghost use Rattle.ccan_outcomes.specs.RaceScript.{fields_of};
ghost use Rattle.ccan_lab.specs.Answered.{IsSearchedFor, IsUnread, RefusesBytes, RefusesScript};

use crate::lab_error::LabError;
use ccan_outcomes::looking_once;
use ccan_run::{RunError, read_all, read_input};
use ccan_script::{RaceScript, Script, read_race, read_script};
use std::alloc::Global;
use std::fs;
use std::fs::Files;
use std::io::{Input, IsTerminal};

/// Says on standard error that this is awaited, if standard input is read and is a terminal.
pub fn tell_terminal<T: Input + Eprint>(rt: &T, what: &str, file: Option<&str>)
where
    T::Reader: IsTerminal,
{
    if matches!(file, None | Some("-")) && rt.reader().is_terminal() {
        let _told = eprintln!(rt; "ccan-lab: reads {what} from the terminal, up to Ctrl-D");
    }
}

/// Reads the script that was asked about: of standard input, if no file is named.
pub fn script_asked<T: AllocGlobal + Input + Files>(
    rt: &T,
    file: Option<&str>,
) -> Result<Script, LabError> {
    match file {
        None | Some("-") => Ok(read_input(rt.alloc(), &mut rt.reader())?),
        Some(path) => match fs::open(rt, path) {
            Ok(mut opened) => Ok(read_input(rt.alloc(), &mut opened)?),
            Err(_) => Err(LabError::Open),
        },
    }
}

/// Reads all bytes of the script that was asked about: of standard input, if no file is named.
pub fn bytes_asked<T: AllocGlobal + Input + Files>(
    rt: &T,
    file: Option<&str>,
) -> Result<Vec<u8>, LabError>
    ensures short { IfOk result (λ bytes. length bytes.items ≤ most_input) }
    ensures unread { IfErr result IsUnread }
{
    match file {
        None | Some("-") => Ok(read_all(rt.alloc(), &mut rt.reader())?),
        Some(path) => match fs::open(rt, path) {
            Ok(mut opened) => Ok(read_all(rt.alloc(), &mut opened)?),
            Err(_) => Err(LabError::Open),
        },
    }
}

/// The script that these bytes are.
pub fn script_in(alloc: Global, bytes: &[u8]) -> Result<Script, LabError>
    ensures read { IfOk result (λ script. Shows bytes.now (Ok (said_by script))) }
    ensures refused { IfErr result (RefusesScript bytes.now) }
{
    match read_script(alloc, bytes) {
        Ok(script) => Ok(script),
        Err(refusal) => Err(LabError::Input(RunError::Script(refusal))),
    }
}

/// The script for a race that these bytes are.
pub fn race_in(alloc: Global, bytes: &[u8]) -> Result<RaceScript, LabError>
    ensures read { IfOk result (λ race. ShowsRace bytes.now (Ok (fields_of_race race))) }
    ensures refused { IfErr result (RefusesBytes bytes.now) }
{
    match read_race(alloc, bytes) {
        Ok(race) => Ok(race),
        Err(refusal) => Err(LabError::Input(RunError::Script(refusal))),
    }
}

/// The script that is searched for the outcomes of the race in these bytes: each of its waits looks once, which changes no outcome.
pub fn searched_script(alloc: Global, bytes: &[u8]) -> Result<RaceScript, LabError>
    ensures searched { IfOk result (λ race. IsSearchedFor bytes.now (fields_of race)) }
    ensures refused { IfErr result (RefusesBytes bytes.now) }
{
    let race = race_in(alloc, bytes)?;
    Ok(looking_once(alloc, race)?)
}
