//! All outcomes of a script as JSON: the data of a page that shows each.
ghost use Rattle.std.specs.Prelude.{◌≡◌, ◌++◌, IfErr, IfOk, codes, string_bytes};
ghost use Rattle.ccan_outcomes.specs.RaceScript.{fields_of};
ghost use Rattle.ccan_page.specs.Data.{data_text};
ghost use Rattle.ccan_lab.specs.Paging.{TellsJson};
ghost use Rattle.ccan_lab.specs.Words.{HasNoWords};

use crate::each_file::FileAnswer;
use crate::lab_error::LabError;
use crate::paging::outcome_pages::listed_page;
use crate::paging::{Source, empty_page};
use crate::telling::Query;
use ccan_outcomes::Ending;
use ccan_outcomes::all_ports::AllPorts;
use ccan_page::{Page, data_of};
use ccan_script::RaceScript;
use ccan_search::Progress;
use std::alloc::{AllocError, Global};

/// The data of a page, and a line feed.
fn json_of(alloc: Global, page: &Page<'_>) -> Result<Vec<u8>, AllocError>
    ensures { IfOk result (λ text. text.items ≡ data_text page.now ++ codes "\n") }
{
    let mut data = data_of(alloc, page)?;
    data.push_str("\n")?;
    Ok(data.into_vec())
}

/// What is answered to the question for all outcomes of the script of this source as JSON.
pub(crate) fn answer_of_json<P: Progress>(
    alloc: Global,
    query: &Query<'_, P>,
    source: &Source,
) -> Result<FileAnswer, LabError>
    ensures told { IfOk result (λ answer.
        TellsJson query.now.frames (string_bytes source.now.name)
        (fields_of query.now.race.now) ⟦<Ending as PartialEq>⟧.eq answer.text.items) }
    ensures status { IfOk result (λ answer. answer.status ≡ 0) }
    ensures without { IfErr result (HasNoWords query.now.frames
        (fields_of query.now.race.now) ⟦<AllPorts as PartialEq>⟧.eq query.now.most) }
{
    let empty = empty_page(alloc, source)?;
    let page = listed_page(alloc, query, usize::MAX, empty)?;
    let text = json_of(alloc, &page)?;
    Ok(FileAnswer { text, status: 0 })
}
