//! The text of a page.
ghost use Rattle.std.specs.Prelude.{◌≡◌, ◌++◌, IfOk, OnOk, true};
ghost use Rattle.std.specs.List.{list_all};
ghost use Rattle.ccan_page.specs.Data.{data_text};
ghost use Rattle.ccan_page.specs.PageText.{is_no_less, page_text, shielded};

use crate::body::BODY;
use crate::bytes::Bytes;
use crate::data::data_of;
use crate::head::HEAD;
use crate::page::Page;
use crate::stepping::STEPPING;
use crate::style::STYLE;
use std::alloc::{AllocError, Global};

/// Appends the data of a page, without a `<`.
fn push_page(alloc: Global, text: &mut Bytes, page: &Page<'_>) -> Result<(), AllocError>
    ensures { OnOk result (text.new ≡ text.old ++ shielded (data_text page.now)) }
{
    let json = data_of(alloc, page)?;
    text.push_shielded(json.as_slice())
}

/// The text of a page in these parts, the last of which comes after its data.
#[tactic(auto, unfolding(crate::specs::PageText::page_text))]
fn page_in(
    alloc: Global,
    head: &str,
    style: &str,
    body: &str,
    page: &Page<'_>,
    stepping: &str,
) -> Result<Bytes, AllocError>
    ensures { IfOk result (λ text. text
        ≡ page_text head.now style.now body.now (data_text page.now) stepping.now) }
{
    let mut text = Bytes::new(alloc);
    text.push_str(head)?;
    text.push_str(style)?;
    text.push_str(body)?;
    push_page(alloc, &mut text, page)?;
    text.push_str(stepping)?;
    Ok(text)
}

/// The text of a page: HTML that stands alone.
#[tactic(auto, using(crate::proofs::NoLess::none_is_less))]
pub fn page_of(alloc: Global, page: &Page<'_>) -> Result<Bytes, AllocError>
    ensures no_less { list_all is_no_less (shielded (data_text page.now)) ≡ true }
    ensures text { IfOk result (λ text. text
        ≡ page_text HEAD.now STYLE.now BODY.now (data_text page.now) STEPPING.now) }
{
    page_in(alloc, HEAD, STYLE, BODY, page, STEPPING)
}
