ghost use Rattle.std.specs.Prelude.{◌≡◌, ◌++◌, IfOk, codes, IsTrue, IsUtf8, Some, None, nat_eq, string_bytes};
ghost use Rattle.std.specs.List.{starts_with};
ghost use Rattle.serde_json.specs.Errors.{IsMemory};
ghost use Rattle.serde_json.specs.Read.{read};
ghost use Rattle.serde_json.specs.View.{view};
ghost use Rattle.ccan_script.specs.ScriptCheck.{first_fault, IsToldAs, IsFirstTold};
ghost use Rattle.ccan_script.specs.ScriptCheck.{IsFirstOf, IsFirstOfRace};

use crate::check::fault_path::fault_path;
use crate::check::json_text::after_spaces;
use crate::check::not_json::json_fault;
use crate::check::reading::Reading;
use crate::check::report::{Fault, Remark, Report};
use crate::check::script_warning::warn_of_script;
use crate::check::spot::{Spot, joined};
use crate::check::walk::walk;
use crate::race::read_race;
use crate::reader::read_script;
use crate::script_error::ScriptError;
use ccan_line::Script;
use serde_json::{Error, Value};
use std::alloc::{AllocError, Global};

/// What is said of lines that run before a race.
const LAB_ONLY: &str = "before: only ccan-lab reads this member; ccan refuses the script";

/// What is said of bytes that are not JSON.
fn json_report(alloc: Global, bytes: &[u8], error: &Error) -> Result<Report, AllocError>
    ensures { IfOk result (λ _. ¬ IsMemory error.now) }
{
    if error.is_memory() {
        return Err(AllocError);
    }
    let (offset, fault) = json_fault(bytes, error);
    let mut report = Report {
        faults: Vec::new(alloc),
        warnings: Vec::new(alloc),
    };
    let text = joined(alloc, &[fault])?;
    report.faults.push(Fault {
        error: ScriptError::NotJson,
        remark: Remark { offset, text },
    })?;
    Ok(report)
}

/// The script's value, and where it is in the bytes.
fn top_of<'a>(bytes: &'a [u8], value: &'a Value) -> Spot<'a> {
    Spot {
        value,
        text: bytes,
        offset: after_spaces(bytes, 0),
    }
}

/// Whether a fault is this one, and what is said of it begins with this path.
fn is_told(fault: &Fault, error: ScriptError, path: &str) -> bool
    ensures error { IsTrue result → fault.now.error ≡ error }
    ensures path { IsTrue result
        → IsTrue (starts_with nat_eq (string_bytes fault.now.remark.text) path.now) }
{
    fault.error == error
        && fault
            .remark
            .text
            .as_str()
            .as_bytes()
            .starts_with(path.as_bytes())
}

/// What is said of a fault of which only the path is known.
fn refusal_text(alloc: Global, path: &str) -> Result<String, AllocError>
    ensures { IfOk result (λ text. string_bytes text
        ≡ path.now ++ codes ": the script is refused") }
{
    format!(in alloc; "{path}: the script is refused")
}

/// A fault of which only the path is known.
fn refused(alloc: Global, error: ScriptError, path: &str) -> Result<Fault, AllocError>
    ensures { IfOk result (λ fault. IsToldAs error path.now (Some fault)) }
{
    let text = refusal_text(alloc, path)?;
    Ok(Fault {
        error,
        remark: Remark { offset: 0, text },
    })
}

/// The faults, this one first, and reported with this path.
fn told_first(
    alloc: Global,
    error: ScriptError,
    path: &str,
    faults: Vec<Fault>,
) -> Result<Vec<Fault>, AllocError>
    ensures { IfOk result (λ told. IsToldAs error path.now (first_fault told.items)) }
{
    match faults.first() {
        Some(fault) if is_told(fault, error, path) => Ok(faults),
        // The walk finds the fault that the reader reports, but that is not proved here: so what is reported rests on the reader.
        Some(_) | None => {
            let mut told = Vec::new(alloc);
            told.push(refused(alloc, error, path)?)?;
            Ok(told)
        }
    }
}

/// What is said of bytes that are this value, and that reading refuses with this fault.
fn value_report(
    alloc: Global,
    bytes: &[u8],
    value: &Value,
    error: ScriptError,
    reading: Reading,
) -> Result<Report, AllocError>
    requires { read bytes.now ≡ Some (view value.now) }
    ensures { IfOk result (λ report.
        IsFirstTold bytes.now error (first_fault report.faults.items)) }
{
    let Report { faults, warnings } = walk(alloc, top_of(bytes, value), reading)?;
    let path = fault_path(alloc, value, error)?;
    let told = told_first(alloc, error, path.as_str(), faults)?;
    Ok(Report {
        faults: told,
        warnings,
    })
}

/// What is said of bytes that are not JSON, and that reading refuses with this fault.
fn text_report(
    alloc: Global,
    bytes: &[u8],
    stop: &Error,
    error: ScriptError,
) -> Result<Report, AllocError>
    requires { ¬ IsMemory stop.now → IsUtf8 bytes.now → read bytes.now ≡ None }
    ensures { IfOk result (λ report.
        IsFirstTold bytes.now error (first_fault report.faults.items)) }
{
    let Report { faults, warnings } = json_report(alloc, bytes, stop)?;
    let told = told_first(alloc, error, "", faults)?;
    Ok(Report {
        faults: told,
        warnings,
    })
}

/// What is said of bytes that reading refuses with this fault.
fn refused_report(
    alloc: Global,
    bytes: &[u8],
    error: ScriptError,
    reading: Reading,
) -> Result<Report, AllocError>
    ensures { IfOk result (λ report.
        IsFirstTold bytes.now error (first_fault report.faults.items)) }
{
    match Value::from_slice(alloc, bytes) {
        Ok(value) => value_report(alloc, bytes, &value, error, reading),
        Err(stop) => text_report(alloc, bytes, &stop, error),
    }
}

/// Adds a warning if lines run before a race.
fn warn_of_before(
    alloc: Global,
    top: Spot<'_>,
    reading: Reading,
    warnings: &mut Vec<Remark>,
) -> Result<(), AllocError> {
    if let Some(before) = reading.before(top) {
        let text = joined(alloc, &[LAB_ONLY])?;
        warnings.push(Remark {
            offset: before.offset,
            text,
        })?;
    }
    Ok(())
}

/// What is rarely meant in a script without faults.
fn warnings_of(
    alloc: Global,
    bytes: &[u8],
    script: &Script,
    reading: Reading,
) -> Result<Vec<Remark>, AllocError> {
    let Ok(value) = Value::from_slice(alloc, bytes) else {
        return Err(AllocError);
    };
    let top = top_of(bytes, &value);
    let Report {
        faults: _,
        mut warnings,
    } = walk(alloc, top, reading)?;
    warn_of_before(alloc, top, reading, &mut warnings)?;
    warn_of_script(alloc, top, script, &mut warnings)?;
    Ok(warnings)
}

/// The faults of a script, the first of each of its lines, and what is accepted but rarely meant.
///
/// It has no faults exactly when [`read_script`] answers a script. Otherwise the first is the fault that `read_script` answers,
/// and what is said of it begins with its path: the list, the index of the line, and the member that the order of the checks
/// names first.
pub fn check(alloc: Global, bytes: &[u8]) -> Result<Report, AllocError>
    ensures { IfOk result (λ report. IsFirstOf bytes.now (first_fault report.faults.items)) }
{
    match read_script(alloc, bytes) {
        Ok(script) => Ok(Report {
            faults: Vec::new(alloc),
            warnings: warnings_of(alloc, bytes, &script, Reading::Script)?,
        }),
        Err(ScriptError::Memory) => Err(AllocError),
        Err(error) => refused_report(alloc, bytes, error, Reading::Script),
    }
}

/// The faults of a script for a race, the first of each of its lines, and what is accepted but rarely meant.
///
/// It has no faults exactly when [`read_race`] answers a script for a race. Otherwise the first is the fault that `read_race`
/// answers, and what is said of it begins with its path, as in a report of [`check`].
pub fn check_race(alloc: Global, bytes: &[u8]) -> Result<Report, AllocError>
    ensures { IfOk result (λ report. IsFirstOfRace bytes.now (first_fault report.faults.items)) }
{
    match read_race(alloc, bytes) {
        Ok(race) => Ok(Report {
            faults: Vec::new(alloc),
            warnings: warnings_of(alloc, bytes, &race.script, Reading::Race)?,
        }),
        Err(ScriptError::Memory) => Err(AllocError),
        Err(error) => refused_report(alloc, bytes, error, Reading::Race),
    }
}
