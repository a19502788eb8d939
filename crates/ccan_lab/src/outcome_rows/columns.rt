//! The flags of objects along a history, as its states have them.
use crate::outcome_rows::{Run, is_look};
use ccan_explain::draw::Column;
use ccan_explain::draw::column::FLAGS;
use ccan_object::{MOST_OBJECTS, ObjectNo};
use ccan_outcomes::all_ports::AllPorts;
use ccan_ram::Flag;
use std::alloc::{AllocError, Global};

/// A flag of an object in a state.
fn flag_in(state: &AllPorts, object: ObjectNo, flag: Flag) -> bool {
    let place = usize::from(object.get()) - 1;
    match state.records.as_slice().get(place) {
        Some(record) => flag.of(record),
        None => false,
    }
}

/// A flag of an object after each row, up to which there are so many steps. There is one state more than there are steps, the
/// first before any.
fn column_of(
    alloc: Global,
    states: &[AllPorts],
    ends: &[usize],
    object: ObjectNo,
    flag: Flag,
) -> Result<Column, AllocError> {
    let mut shown = Vec::new(alloc);
    for end in ends {
        let is = match states.get(*end) {
            Some(state) => flag_in(state, object, flag),
            None => false,
        };
        shown.push(is)?;
    }
    Ok(Column {
        object,
        flag,
        shown,
    })
}

/// Adds the flags of an object.
fn add_flags(
    alloc: Global,
    columns: &mut Vec<Column>,
    states: &[AllPorts],
    ends: &[usize],
    object: ObjectNo,
) -> Result<(), AllocError> {
    for flag in FLAGS {
        columns.push(column_of(alloc, states, ends, object, flag)?)?;
    }
    Ok(())
}

/// Whether a step other than a look is at an object.
fn is_touched(runs: &[Run], object: ObjectNo) -> bool {
    runs.iter().any(|run| run.last.object == Some(object) && !is_look(&run.last))
}

/// The flags of the objects that a history does more with than look.
pub(crate) fn columns_of(
    alloc: Global,
    states: &[AllPorts],
    runs: &[Run],
    ends: &[usize],
) -> Result<Vec<Column>, AllocError> {
    let mut columns = Vec::new(alloc);
    for place in 0..MOST_OBJECTS {
        let object = ObjectNo::new(place as u8 + 1).unwrap();
        if is_touched(runs, object) {
            add_flags(alloc, &mut columns, states, ends, object)?;
        }
    }
    Ok(columns)
}
