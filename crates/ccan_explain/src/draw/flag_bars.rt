//! All bars of a picture, from which its text is written.
ghost use Rattle.std.specs.Prelude.{◌≡◌, ◌<◌, [], ◌∷◌, ◌++◌, IfOk, List, OnOk, length, map, slice_get, if◌then◌else◌};
ghost use Rattle.ccan_explain.specs.Bar.{begins};
ghost use Rattle.ccan_explain.specs.declared.draw.column.Column.{Column};
ghost use Rattle.ccan_explain.specs.FlagBars.{AllEndIn, AreBarsOf, start_of, starts_in};

use crate::draw::bar::{Bar, bar_at};
use crate::draw::column::Column;
use ccan_ram::Flag;
use std::alloc::{AllocError, Global};

/// A bar of a flag of an object.
#[derive(Clone, Copy, PartialEq, Eq, Debug)]
pub struct FlagBar {
    /// The place of its column, from 0.
    pub place: usize,
    /// The flag.
    pub flag: Flag,
    /// The rows along which the flag is set.
    pub bar: Bar,
}

/// Adds the bar that begins in a row of the column at this place, if one does.
fn add_bar(
    bars: &mut Vec<FlagBar>,
    column: &Column,
    place: usize,
    row: usize,
) -> Result<(), AllocError>
    requires { row < length column.now.shown.items }
    ensures starts { OnOk result (map start_of bars.new.items ≡ map start_of bars.old.items
        ++ (if begins column.now.shown.items row
        then (place, column.now.flag, row) ∷ [] else [])) }
    ensures ends { OnOk result ((columns : List Column)
        → slice_get columns place ≡ Some column.now
        → AllEndIn columns bars.old.items → AllEndIn columns bars.new.items) }
{
    match bar_at(column.shown.as_slice(), row) {
        Some(bar) => Ok(bars.push(FlagBar {
            place,
            flag: column.flag,
            bar,
        })?),
        None => Ok(()),
    }
}

/// Adds the bars of the column at this place.
fn add_bars(bars: &mut Vec<FlagBar>, column: &Column, place: usize) -> Result<(), AllocError>
    ensures starts { OnOk result (map start_of bars.new.items
        ≡ map start_of bars.old.items ++ starts_in (place, column.now)) }
    ensures ends { OnOk result ((columns : List Column)
        → slice_get columns place ≡ Some column.now
        → AllEndIn columns bars.old.items → AllEndIn columns bars.new.items) }
{
    for row in 0..column.shown.len() {
        add_bar(bars, column, place, row)?;
    }
    Ok(())
}

/// The bars of these columns, column by column and from the top down.
pub fn bars_of(alloc: Global, columns: &[Column]) -> Result<Vec<FlagBar>, AllocError>
    ensures { IfOk result (λ bars. AreBarsOf columns.now bars.items) }
{
    let mut bars = Vec::new(alloc);
    for (place, column) in columns.iter().enumerate() {
        add_bars(&mut bars, column, place)?;
    }
    Ok(bars)
}
