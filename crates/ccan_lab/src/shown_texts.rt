//! What outcomes show, and which of them show what one before them does.
ghost use Rattle.std.specs.Prelude.{◌≡◌, ◌<◌, IfOk, count_by, length, map, not, string_bytes};
ghost use Rattle.std.specs.List.{range_with_len};
ghost use Rattle.ccan_lab.specs.Observed.{first_count, is_repeat, repeats_in};

use indexmap::IndexSet;
use std::alloc::{AllocError, Global};

/// What each of some outcomes shows, in turn.
#[derive(Drop)]
pub struct ShownTexts {
    /// The lines that are looked at of each outcome.
    pub lines: Vec<String>,
    /// For each outcome, whether one before it shows the same.
    repeats: Vec<bool>,
    ghost are: { repeats.items ≡ repeats_in (map string_bytes lines.items) (length lines.items) },
}

/// For each of these texts, whether one before it is the same.
#[tactic(auto, using(crate::proofs::Apart::repeats_more))]
fn repeats_of(alloc: Global, texts: &[String]) -> Result<Vec<bool>, AllocError>
    ensures { IfOk result (λ found.
        found.items ≡ repeats_in (map string_bytes texts.now) (length texts.now)) }
{
    let mut seen = IndexSet::new(alloc);
    let mut repeats = Vec::new(alloc);
    for number in 0..texts.len() {
        let (_, is_new) = seen.insert_full(texts[number].as_str())?;
        repeats.push(!is_new)?;
    }
    Ok(repeats)
}

/// How many of these are false.
fn false_count(marks: &[bool]) -> usize
    ensures { result ≡ count_by not marks.now }
{
    marks.iter().filter(|mark| !**mark).count()
}

impl ShownTexts {
    /// What outcomes show, by the lines of each that are looked at.
    pub fn new(alloc: Global, lines: Vec<String>) -> Result<Self, AllocError>
        ensures { IfOk result (λ texts. texts.lines ≡ lines) }
    {
        let repeats = repeats_of(alloc, lines.as_slice())?;
        Ok(ShownTexts { lines, repeats })
    }

    /// Whether an outcome before that of this number shows the same.
    pub fn is_repeat(&self, number: usize) -> bool
        requires { number < length self.now.lines.items }
        ensures { result ≡ is_repeat (map string_bytes self.now.lines.items) number }
    {
        self.repeats[number]
    }

    /// How many outcomes show what none before them does.
    pub fn first_count(&self) -> usize
        ensures { result ≡ first_count (map string_bytes self.now.lines.items)
            (length self.now.lines.items) }
    {
        false_count(self.repeats.as_slice())
    }
}
