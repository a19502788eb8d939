//! The list of all outcomes of several scripts: each is written in turn, outcome by outcome.

ghost use Rattle.std.specs.Prelude.{◌≡◌, ◌++◌, List, ℕ, IfErr, IfOk, false, length, map, true};
ghost use Rattle.std.specs.Io.KnownBytes.{Appends};
ghost use Rattle.ccan_outcomes.specs.RaceScript.{fields_of};
ghost use Rattle.ccan_outcomes.specs.OutcomeWords.{endings_in};
ghost use Rattle.ccan_lab.specs.declared.lab_error.LabError.TheVariants as LabError;
ghost use Rattle.ccan_lab.specs.Answered.{IsAnswered, RefusesAsked, RefusesFile, names_its_file};
ghost use Rattle.ccan_lab.specs.EachFile.{AreAnswered, has_headings, heading_if};
ghost use Rattle.ccan_lab.specs.EachList.{IsListPart, IsListed, ListsAsked, ListsFile, status_listed};
ghost use Rattle.ccan_lab.specs.LabError.{exit_status};
ghost use Rattle.ccan_lab.specs.Outcomes.{AnswersTo, IsOfAll};
ghost use Rattle.ccan_lab.specs.Telling.{CanBeTold, frames_in};
ghost use Rattle.ccan_lab.specs.Written.{IsUnwritten, IsWritten};

use crate::asked::Asked;
use crate::each_file::{has_headings, tell_fault, worse};
use crate::input::{searched_script, tell_terminal};
use crate::lab_error::LabError;
use crate::list_end::ListEnd;
use crate::observed::write_observed;
use crate::outcome_words::OutcomeList;
use crate::outcomes::{OutcomesQuestion, is_named, refuse_unknown};
use crate::paging::{Source, source_asked};
use crate::progress_line::ProgressLine;
use crate::report::write_listing;
use crate::telling::{Query, Telling, list_asked};
use ccan_outcomes::all_ports::AllPorts;
use ccan_script::RaceScript;
use std::alloc::Global;
use std::fs::Files;
use std::io::{Input, IsTerminal, Write};

/// Writes the list of these outcomes that is asked for, below the heading, if there is to be one.
fn write_list<T: Eprint, W: Write>(
    alloc: Global,
    writer: &mut W,
    is_shown: bool,
    name: &str,
    telling: &Telling<'_, ProgressLine<'_, T>>,
    asked: Asked<'_>,
) -> Result<ListEnd, LabError>
    requires can { CanBeTold (fields_of telling.now.query.now.race.now) telling.now.list.now }
    requires of_all { IsOfAll asked }
    ensures written { IfOk result (λ end. IsWritten (heading_if is_shown name.now) (AnswersTo
        (frames_in telling.now.list.now) telling.now.query.now.form
        (fields_of telling.now.query.now.race.now) (endings_in telling.now.list.now.words)
        asked.entry)
        (λ why. why ≡ LabError.Memory)
        (length (endings_in telling.now.list.now.words))
        end (W.contents writer.old) (W.contents writer.new)) }
    ensures unwritten { IfErr result (IsUnwritten (λ why. why ≡ LabError.Memory)
        (W.contents writer.old) (W.contents writer.new)) }
{
    match asked {
        Asked::All => write_listing(alloc, writer, is_shown, name, telling),
        Asked::AllObserved(names) => {
            write_observed(alloc, writer, is_shown, name, telling, names)
        }
        Asked::Summary | Asked::Json | Asked::Observed(_) | Asked::Can | Asked::Never => {
            unreachable!()
        }
    }
}

/// Writes the list of these outcomes, which are dropped.
fn list_outcomes<T: Eprint, W: Write>(
    alloc: Global,
    writer: &mut W,
    is_shown: bool,
    name: &str,
    query: &Query<'_, ProgressLine<'_, T>>,
    list: OutcomeList,
    asked: Asked<'_>,
) -> Result<ListEnd, LabError>
    requires can { CanBeTold (fields_of query.now.race.now) list }
    requires of_all { IsOfAll asked }
    ensures written { IfOk result (λ end. IsWritten (heading_if is_shown name.now)
        (AnswersTo (frames_in list) query.now.form (fields_of query.now.race.now)
        (endings_in list.words) asked.entry)
        (λ why. why ≡ LabError.Memory)
        (length (endings_in list.words))
        end (W.contents writer.old) (W.contents writer.new)) }
    ensures unwritten { IfErr result (IsUnwritten (λ why. why ≡ LabError.Memory)
        (W.contents writer.old) (W.contents writer.new)) }
{
    let telling = Telling { query, list: &list };
    write_list(alloc, writer, is_shown, name, &telling, asked)
}

/// Writes the list of all outcomes of a script that is asked for, below the heading, if there is to be one.
fn list_script<T: AllocGlobal + Eprint, W: Write>(
    rt: &T,
    writer: &mut W,
    is_shown: bool,
    name: &str,
    race: &RaceScript,
    question: &OutcomesQuestion<'_>,
    progress: &ProgressLine<'_, T>,
) -> Result<ListEnd, LabError>
    requires { IsOfAll question.now.asked }
    ensures listed { IfOk result (λ end. (text : List ℕ)
        × Appends (W.contents writer.old) (W.contents writer.new)
        (heading_if is_shown name.now ++ text)
        × ListsAsked question.now (fields_of race.now) end text) }
    ensures unlisted { IfErr result
        (IsUnwritten (RefusesAsked question.now (fields_of race.now))
        (W.contents writer.old) (W.contents writer.new)) }
{
    let query = Query {
        race,
        frames: question.frames,
        most: question.most,
        progress,
        form: question.form,
    };
    let found = list_asked(rt.alloc(), &query);
    progress.clear();
    let list = found?;
    list_outcomes(
        rt.alloc(),
        writer,
        is_shown,
        name,
        &query,
        list,
        question.asked,
    )
}

/// Writes the list of all outcomes of the script in this source. A wait is shown by its last look: that changes no outcome.
fn list_source<T: AllocGlobal + Eprint, W: Write>(
    rt: &T,
    writer: &mut W,
    is_shown: bool,
    name: &str,
    source: &Source,
    question: &OutcomesQuestion<'_>,
    progress: &ProgressLine<'_, T>,
) -> Result<ListEnd, LabError>
    requires { IsOfAll question.now.asked }
    ensures listed { IfOk result (λ end. (text : List ℕ)
        × Appends (W.contents writer.old) (W.contents writer.new)
        (heading_if is_shown name.now ++ text)
        × ListsFile question.now source.now.text.items end text) }
    ensures unlisted { IfErr result
        (IsUnwritten (RefusesFile question.now source.now.text.items)
        (W.contents writer.old) (W.contents writer.new)) }
{
    let race = searched_script(rt.alloc(), source.text.as_slice())?;
    refuse_unknown(rt.alloc(), &race, question.asked)?;
    list_script(rt, writer, is_shown, name, &race, question, progress)
}

/// Writes the list of all outcomes of the script of a file. On a terminal it shows how far the search is.
fn list_file<T: AllocGlobal + Input + Files + Eprint, W: Write>(
    rt: &T,
    writer: &mut W,
    is_shown: bool,
    file: &str,
    question: &OutcomesQuestion<'_>,
    progress: &ProgressLine<'_, T>,
) -> Result<ListEnd, LabError>
where
    T::Reader: IsTerminal,
    requires { IsOfAll question.now.asked }
    ensures listed { IfOk result (λ end. (printed : List ℕ)
        × Appends (W.contents writer.old) (W.contents writer.new) printed
        × IsListed question.now is_shown file.now (Ok end) printed) }
    ensures unlisted { IfErr result
        (IsUnwritten (λ why. IsAnswered question.now file.now (Err why))
        (W.contents writer.old) (W.contents writer.new)) }
{
    tell_terminal(rt, "a script", Some(file));
    let source = source_asked(rt, Some(file))?;
    list_source(rt, writer, is_shown, file, &source, question, progress)
}

/// Reports a fault of a file, and gives its exit status.
fn status_told<T: Eprint>(rt: &T, are_several: bool, file: &str, fault: &LabError) -> u8
    ensures { result ≡ exit_status fault.now }
{
    tell_fault(rt, are_several, file, fault);
    fault.status()
}

/// Whether a write failed.
fn is_unwritten(fault: &LabError) -> bool
    ensures yes { result ≡ true → fault.now ≡ LabError.Write }
    ensures no { result ≡ false → ¬ (fault.now ≡ LabError.Write) }
{
    matches!(fault, LabError::Write)
}

/// The exit status of a file that is listed so. A fault is reported.
fn status_listed<T: Eprint>(rt: &T, are_several: bool, file: &str, end: ListEnd) -> u8
    ensures { result ≡ status_listed (Ok end) }
{
    match end {
        ListEnd::Whole => 0,
        ListEnd::GivenUp(fault) => status_told(rt, are_several, file, &fault),
    }
}

/// The exit status of a file of which nothing is written, for this fault, which is reported; a failed write stands.
fn status_unlisted<T: Eprint>(
    rt: &T,
    are_several: bool,
    file: &str,
    fault: LabError,
) -> Result<u8, LabError>
    ensures status { IfOk result (λ status. status ≡ exit_status fault) }
    ensures other { IfOk result (λ status. ¬ (fault ≡ LabError.Write)) }
    ensures unwritten { IfErr result (λ e. e ≡ LabError.Write) }
{
    if is_unwritten(&fault) {
        Err(LabError::Write)
    } else {
        Ok(status_told(rt, are_several, file, &fault))
    }
}

/// Writes the list of a file, reports its fault if there is one, and gives the exit status if it is the only file.
fn status_of_file<T: AllocGlobal + Input + Files + Eprint, W: Write>(
    rt: &T,
    writer: &mut W,
    is_shown: bool,
    file: &str,
    question: &OutcomesQuestion<'_>,
    progress: &ProgressLine<'_, T>,
) -> Result<u8, LabError>
where
    T::Reader: IsTerminal,
    requires { IsOfAll question.now.asked }
    ensures listed { IfOk result (λ status. (text : List ℕ)
        × Appends (W.contents writer.old) (W.contents writer.new) text
        × IsListPart question.now is_shown file.now (record { text = text; status = status })) }
    ensures fault { IfErr result (λ e. e ≡ LabError.Write) }
{
    let are_several = 1 < question.files.len();
    match list_file(rt, writer, is_shown, file, question, progress) {
        Ok(end) => Ok(status_listed(rt, are_several, file, end)),
        Err(fault) => status_unlisted(rt, are_several, file, fault),
    }
}

/// Writes the list of each of these files in turn, and gives the worst exit status.
fn list_in_turn<T: AllocGlobal + Input + Files + Eprint, W: Write>(
    rt: &T,
    writer: &mut W,
    files: &[&str],
    is_shown: bool,
    question: &OutcomesQuestion<'_>,
    progress: &ProgressLine<'_, T>,
) -> Result<u8, LabError>
where
    T::Reader: IsTerminal,
    requires { IsOfAll question.now.asked }
    ensures listed { IfOk result (λ status. AreAnswered (IsListPart question.now is_shown)
        (map (λ file. file.now) files.now) (W.contents writer.old) (W.contents writer.new) status) }
    ensures fault { IfErr result (λ e. e ≡ LabError.Write) }
{
    let mut worst = 0;
    for file in files {
        let status = status_of_file(rt, writer, is_shown, file, question, progress)?;
        worst = worse(worst, status);
    }
    Ok(worst)
}

/// Writes the list of all outcomes of each file in turn, each outcome as soon as its text is made, and gives the worst exit
/// status. If there are several files, each list is below the name of its file.
///
/// Of a file that is refused nothing is written. If a list is given up, for lack of memory or of a history, its beginning is
/// written. Standard error says why. After a failed write no file is asked about any more.
pub fn list_each<T: AllocGlobal + Input + Files + Eprint, W: Write>(
    rt: &T,
    writer: &mut W,
    question: &OutcomesQuestion<'_>,
    progress: &ProgressLine<'_, T>,
) -> Result<u8, LabError>
where
    T::Reader: IsTerminal,
    requires { IsOfAll question.now.asked }
    ensures listed { IfOk result (λ status. AreAnswered
        (IsListPart question.now
        (has_headings (names_its_file question.now.asked) (length question.now.files.items)))
        (map (λ file. file.now) question.now.files.items)
        (W.contents writer.old) (W.contents writer.new) status) }
    ensures fault { IfErr result (λ e. e ≡ LabError.Write) }
{
    let files = question.files.as_slice();
    let is_shown = has_headings(is_named(question.asked), files.len());
    list_in_turn(rt, writer, files, is_shown, question, progress)
}
