//! The picture of a run.
ghost use Rattle.std.specs.Prelude.{◌≡◌, ◌++◌, ◌∷◌, [], IfOk, OnOk, map, if◌then◌else◌};
ghost use Rattle.std.specs.List.{flat_map, list_any};
ghost use Rattle.ccan_explain.specs.Column.{AreColumns, four_flags, is_of, objects_touched, shown_in, touches};
ghost use Rattle.ccan_explain.specs.Row.{frame_told, lane_of, lane_told};

use crate::draw::column::{Column, FLAGS, column_of};
use crate::draw::label::label_of;
use crate::draw::layout::WORDS_GLYPHS;
use crate::draw::picture::{Picture, Row};
use crate::draw::wrapping::wrapped;
use crate::{Step, Told, Touched, push_step};
use ccan_accept::Frame;
use ccan_object::{MOST_OBJECTS, ObjectNo};
use ccan_script::Script;
use std::alloc::{AllocError, Global};

/// The frame that was on the bus in a step.
fn frame_of(step: &Step) -> Option<Frame>
    ensures { result ≡ frame_told step.now }
{
    let decision = step.report.as_ref()?.decision.as_ref()?;
    let (_, frame) = decision.winner()?;
    Some(frame)
}

/// Whether this is the object.
fn is_of(touched: &Option<Touched>, object: ObjectNo) -> bool
    ensures { result ≡ is_of object touched.now }
{
    match touched {
        Some(touched) => touched.object == object,
        None => false,
    }
}

/// Whether a step of a run touches an object.
fn is_touched(steps: &[Step], object: ObjectNo) -> bool
    ensures { result ≡ list_any (touches object) steps.now }
{
    steps.iter().any(|step| is_of(&step.own, object) || is_of(&step.stored, object))
}

/// The object that a step leads to: the one that stored a frame, or else its own.
fn object_of(step: &Step) -> Option<ObjectNo> {
    match (&step.stored, &step.own) {
        (Some(stored), _) => Some(stored.object),
        (None, Some(own)) => Some(own.object),
        (None, None) => None,
    }
}

/// The row of a step of this number, from 1.
fn row_of(alloc: Global, script: &Script, step: &Step, number: usize) -> Result<Row, AllocError>
    ensures { IfOk result (λ row. lane_of row ≡ lane_told step.now) }
{
    let mut words = String::new(alloc);
    push_step(&mut words, script, step)?;
    Ok(Row {
        number,
        port: step.port,
        frame: frame_of(step),
        label: label_of(alloc, step)?,
        object: object_of(step),
        words: wrapped(alloc, words.as_str(), WORDS_GLYPHS)?,
    })
}

/// The rows of a run, one for each step.
fn rows_of(alloc: Global, script: &Script, steps: &[Step]) -> Result<Vec<Row>, AllocError>
    ensures { IfOk result (λ rows. map lane_of rows.items ≡ map lane_told steps.now) }
{
    let mut rows = Vec::new(alloc);
    for step in steps {
        let number = rows.len().saturating_add(1);
        rows.push(row_of(alloc, script, step, number)?)?;
    }
    Ok(rows)
}

/// Adds the flags of an object.
fn add_object(
    alloc: Global,
    columns: &mut Vec<Column>,
    steps: &[Step],
    object: ObjectNo,
) -> Result<(), AllocError>
    ensures flags { OnOk result (map shown_in columns.new.items
        ≡ map shown_in columns.old.items ++ four_flags object) }
    ensures each { OnOk result
        (AreColumns steps.now columns.old.items → AreColumns steps.now columns.new.items) }
{
    for flag in FLAGS {
        columns.push(column_of(alloc, steps, object, flag)?)?;
    }
    Ok(())
}

/// Adds the flags of an object, if a step of the run touches it.
fn add_if_touched(
    alloc: Global,
    columns: &mut Vec<Column>,
    steps: &[Step],
    object: ObjectNo,
) -> Result<(), AllocError>
    ensures flags { OnOk result (map shown_in columns.new.items ≡ map shown_in columns.old.items
        ++ (if list_any (touches object) steps.now then four_flags object else [])) }
    ensures each { OnOk result
        (AreColumns steps.now columns.old.items → AreColumns steps.now columns.new.items) }
{
    if is_touched(steps, object) {
        add_object(alloc, columns, steps, object)
    } else {
        Ok(())
    }
}

/// The flags of the objects that a run touches.
fn columns_of(alloc: Global, steps: &[Step]) -> Result<Vec<Column>, AllocError>
    ensures flags { IfOk result (λ columns. map shown_in columns.items
        ≡ flat_map four_flags (objects_touched steps.now)) }
    ensures each { IfOk result (λ columns. AreColumns steps.now columns.items) }
{
    let mut columns = Vec::new(alloc);
    for place in 0..MOST_OBJECTS {
        let object = ObjectNo::new(place as u8 + 1).unwrap();
        add_if_touched(alloc, &mut columns, steps, object)?;
    }
    Ok(columns)
}

/// The picture of a run: a row for each step, and the flags of each object that a step touches.
pub fn picture_of_run(alloc: Global, script: &Script, told: &Told) -> Result<Picture, AllocError>
    ensures rows { IfOk result (λ picture. map lane_of picture.rows.items
        ≡ map lane_told told.now.steps.items) }
    ensures flags { IfOk result (λ picture. map shown_in picture.columns.items
        ≡ flat_map four_flags (objects_touched told.now.steps.items)) }
    ensures columns { IfOk result (λ picture.
        AreColumns told.now.steps.items picture.columns.items) }
{
    let steps = told.steps.as_slice();
    Ok(Picture {
        rows: rows_of(alloc, script, steps)?,
        columns: columns_of(alloc, steps)?,
    })
}
